//! The trivial cut of a node, and what a cut has.
ghost use Rattle.std.specs.Prelude.{◌≡◌, ◌<◌, ◌≤◌, length};
ghost use Rattle.model.specs.Cuts.{trivial as alone, Formed};
ghost use Rattle.model.specs.Sessions.{positions};
ghost use Rattle.cuts.specs.Meaning.{meaning};

use crate::cut::Cut;
use crate::leaves::Leaves;
use crate::sizes::{MASKS, Table};

impl Cut {
    /// The cut of a node by itself.
    pub fn trivial(node: u16) -> Cut
        ensures { meaning result ≡ alone positions node }
    {
        Cut {
            leaves: Leaves::one(node),
            table: MASKS[0],
        }
    }

    /// The leaves in rising number.
    pub fn leaves(&self) -> &[u16]
        ensures list { result.now ≡ (meaning self.now).leaves }
        ensures count { length result.now ≡ self.now.leaves.count }
    {
        self.leaves.as_slice()
    }

    /// The leaves as a value of their own.
    pub fn leaf_set(&self) -> Leaves
        ensures { result ≡ self.now.leaves }
    {
        let Cut { leaves, .. } = *self;
        leaves
    }

    /// How many leaves there are: 1 to `POSITIONS`.
    pub fn leaf_count(&self) -> usize
        ensures count { result ≡ length (meaning self.now).leaves }
        ensures within { (0 < result) × (result ≤ positions) }
    {
        self.leaves.len()
    }

    /// The table over the leaves: it depends on each of them and on no other position.
    pub fn table(&self) -> Table
        ensures table { result ≡ (meaning self.now).table }
        ensures formed { Formed positions (meaning self.now) }
    {
        self.table
    }
}
