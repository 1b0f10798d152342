//! Leaves as a list, and two lists of leaves united.
ghost use Rattle.std.specs.Prelude.{◌≡◌, ◌^◌, ◌<◌, min, [], ◌∷◌, length};
ghost use Rattle.model.specs.Sessions.{positions};
ghost use Rattle.model.proofs.Merging.{front};
ghost use Rattle.cuts.specs.Meaning.{leaves_of, united, listed};

use crate::leaves::Leaves;
use crate::sizes::POSITIONS;

/// Above every node.
const NO_LEAF: u32 = 1 << 16;

/// The first of some leaves, or `NO_LEAF` if there is none.
fn lowest(leaves: &[u16]) -> u32
    ensures front { result ≡ front (2 ^ 16) leaves.now 0 }
    ensures less { 0 < length leaves.now → result < 2 ^ 16 }
{
    match leaves {
        [leaf, ..] => u32::from(*leaf),
        [] => NO_LEAF,
    }
}

impl Leaves {
    /// One leaf.
    pub fn one(node: u16) -> Leaves
        ensures list { leaves_of result ≡ node ∷ [] }
        ensures count { result.count ≡ 1 }
    {
        let mut nodes = [0; POSITIONS];
        nodes[0] = node;
        Leaves { nodes, count: 1 }
    }

    /// The leaves as a slice.
    pub fn as_slice(&self) -> &[u16]
        ensures list { result.now ≡ leaves_of self.now }
        ensures count { length result.now ≡ self.now.count }
    {
        &self.nodes[..self.len()]
    }

    /// How many leaves there are.
    pub fn len(&self) -> usize
        ensures count { result ≡ length (leaves_of self.now) }
        ensures field { result ≡ self.now.count }
    {
        self.count as usize
    }

    /// The leaves of both in rising number, or none if they are more than the limit; a limit above `POSITIONS` is `POSITIONS`.
    pub fn unite(&self, other: &Leaves, limit: usize) -> Option<Leaves>
        ensures { listed result ≡ united (min limit positions) (leaves_of self.now) (leaves_of other.now) }
    {
        let most = limit.min(POSITIONS);
        let mut nodes = [0; POSITIONS];
        let mut count = 0;
        let (mut a, mut b) = (self.as_slice(), other.as_slice());
        while !a.is_empty() || !b.is_empty() {
            if count == most {
                return None;
            }
            let (x, y) = (lowest(a), lowest(b));
            nodes[count] = x.min(y) as u16;
            // No branch on which list the leaf is from: that is not to be foretold, and a wrong guess costs more than the step.
            a = &a[(x <= y) as usize..];
            b = &b[(y <= x) as usize..];
            count += 1;
        }
        Some(Leaves {
            nodes,
            count: count as u8,
        })
    }
}
