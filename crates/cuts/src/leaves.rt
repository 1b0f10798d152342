//! Leaves in strictly rising number, no more than there are positions; unused places are 0.
ghost use Rattle.std.specs.Prelude.{◌≡◌, ℕ, ◌≤◌, length, take, slice_index};
ghost use Rattle.model.specs.Leaves.{Rising};
ghost use Rattle.model.specs.Sessions.{positions};

use crate::sizes::POSITIONS;

// An array with its count: a copy of it lies in lent tables, and a gate call has no heap for a `Vec`.
#[derive(Clone, Copy, Eq, Debug)]
pub struct Leaves {
    pub(crate) nodes: [u16; POSITIONS],
    pub(crate) count: u8,
    ghost places: { length nodes ≡ positions },
    ghost few: { count ≤ positions },
    ghost rising: { Rising (take count nodes) },
    ghost zeros: { (k : ℕ) → count ≤ k → slice_index nodes k ≡ 0 },
}
