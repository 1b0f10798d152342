// Sums over the leaves of a cut.
ghost use Rattle.std.specs.Prelude.{◌≡◌, ℕ, ◌*◌, ◌≤◌};
ghost use Rattle.model.specs.Rankings.{LeafFacts as Leaf, total, gate_leaf, share};
ghost use Rattle.model.specs.Sessions.{positions};
ghost use Rattle.rankings.specs.Facts.{leaf_of, facts_of};

use crate::facts::{CutFacts, LeafFacts};

// A number of each leaf, small enough that sums and their products with a leaf count fit.
// A trait and no closure: the bound is then proved once for each number, and not at each call of `sum`.
pub(crate) trait Weight {
    ghost weight: { Leaf → ℕ };

    fn weigh(leaf: &LeafFacts) -> u32
        ensures is { result ≡ weight (leaf_of leaf.now) }
        ensures small { result ≤ 65536 };
}

pub(crate) fn sum<W: Weight>(cut: &CutFacts) -> u32
    ensures is { result ≡ total W.Weight.weight (facts_of cut.now) }
    ensures small { result ≤ 65536 * positions }
{
    cut.leaves().iter().map(|leaf| W::weigh(leaf)).sum()
}

pub(crate) struct Height;

impl Weight for Height {
    ghost weight = { λ f. f.height };

    fn weigh(leaf: &LeafFacts) -> u32 {
        u32::from(leaf.height)
    }
}

// 1 for a gate, 0 for an input.
pub(crate) struct GateLeaf;

impl Weight for GateLeaf {
    ghost weight = { gate_leaf };

    fn weigh(leaf: &LeafFacts) -> u32 {
        u32::from(0 < leaf.height)
    }
}

// A leaf with many uses counts little.
pub(crate) struct Share;

impl Weight for Share {
    ghost weight = { share };

    fn weigh(leaf: &LeafFacts) -> u32 {
        65536 / (u32::from(leaf.uses) + 1)
    }
}
