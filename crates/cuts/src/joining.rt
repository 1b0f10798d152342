//! Two cuts of fanin edges joined.
ghost use Rattle.std.specs.Prelude.{◌≡◌, ◌≤◌, min, if◌then◌else◌, length};
ghost use Rattle.model.specs.Tables.{complemented};
ghost use Rattle.model.specs.Leaves.{Rising, Within};
ghost use Rattle.model.specs.Cuts.{stretched, joined};
ghost use Rattle.model.specs.Sessions.{positions};
ghost use Rattle.cuts.specs.Meaning.{meaning};
ghost use Rattle.cuts.specs.Outcomes.{joined_of};

use crate::cut::Cut;
use crate::outcome::Squeezed;
use crate::sizes::Table;
use crate::squeezing::squeeze;
use crate::stretching::stretch;
use crate::words::complement_if;

/// A cut of a fanin's node, and the sign of the fanin's edge.
#[derive(Clone, Copy)]
pub struct SignedCut<'a> {
    pub cut: &'a Cut,
    pub sign: bool,
}

impl<'a> SignedCut<'a> {
    /// The table of the edge over other leaves, which has each leaf of the cut among them.
    fn stretch(&self, all: &[u16]) -> Table
        requires few { length all.now ≤ positions }
        requires rising { Rising all.now }
        requires within { Within (meaning self.now.cut.now).leaves all.now }
        ensures { result ≡ (let t = stretched positions (meaning self.now.cut.now) all.now in if self.now.sign then complemented positions t else t) }
    {
        complement_if(stretch(self.cut.table, self.cut.leaves(), all), self.sign)
    }
}

/// The AND of two edges, given a cut of each one's node and its sign, over the leaves of both, or none if they are more than the limit.
/// A limit above `POSITIONS` is `POSITIONS`.
pub fn join(a: SignedCut, b: SignedCut, limit: usize) -> Option<Squeezed>
    ensures { joined_of result ≡ joined positions (min limit positions) a.entry.sign b.entry.sign (meaning a.entry.cut.now) (meaning b.entry.cut.now) }
{
    let leaves = a.cut.leaves.unite(&b.cut.leaves, limit)?;
    let all = leaves.as_slice();
    Some(squeeze(&leaves, a.stretch(all) & b.stretch(all)))
}
