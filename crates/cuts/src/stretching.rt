//! A table carried over to other leaves.
ghost use Rattle.std.specs.Prelude.{◌≡◌, ◌≤◌, length};
ghost use Rattle.model.specs.Tables.{Loose};
ghost use Rattle.model.specs.Leaves.{Rising, Within};
ghost use Rattle.model.specs.Cuts.{stretched};
ghost use Rattle.model.specs.Sessions.{positions};
ghost use Rattle.cuts.specs.Meaning.{leaves_of, meaning};
ghost use Rattle.cuts.specs.Outcomes.{Stretches};

use crate::cut::Cut;
use crate::leaves::Leaves;
use crate::sizes::{POSITIONS, Table};
use crate::words::moved;

/// The table over `new` that says what `table` says over `old`, each of whose leaves is in `new`.
/// The highest leaf is moved first, so that its new position is free.
pub(crate) fn stretch(table: Table, old: &[u16], new: &[u16]) -> Table
    requires few { length new.now ≤ positions }
    requires rising { (Rising old.now) × (Rising new.now) }
    requires within { Within old.now new.now }
    requires loose { Loose positions table (length old.now) }
    ensures { result ≡ stretched positions (record { leaves = old.now; table = table }) new.now }
{
    let mut word = table;
    let (mut left, mut places) = (old, new);
    // With as many leaves left as places, each leaf lies in its place already.
    while left.len() < places.len()
        && let ([before @ .., last], [below @ .., leaf]) = (left, places)
    {
        if last == leaf {
            word = moved(word, before.len(), below.len());
            left = before;
        }
        places = below;
    }
    word
}

impl Cut {
    /// The table over other leaves, or none if a leaf of the cut is missing there.
    pub fn stretch(&self, onto: &Leaves) -> Option<Table>
        ensures { Stretches (meaning self.now) (leaves_of onto.now) result }
    {
        let all = self.leaves.unite(onto, POSITIONS)?;
        if all == *onto {
            Some(stretch(self.table, self.leaves(), onto.as_slice()))
        } else {
            None
        }
    }
}
