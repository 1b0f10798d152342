// Facts made of a list of leaves, and read back.
ghost use Rattle.std.specs.Prelude.{◌≡◌, ◌<◌, ◌≤◌, map, length, MatchOption};
ghost use Rattle.model.specs.Rankings.{Sized};
ghost use Rattle.model.specs.Sessions.{positions};
ghost use Rattle.rankings.specs.Facts.{leaf_of, facts_of};

use super::{CutFacts, LeafFacts, MAX_LEAVES};

impl CutFacts {
    // None for no leaf, and for more leaves than a cut can have.
    pub fn new(leaves: &[LeafFacts]) -> Option<CutFacts>
        ensures { MatchOption result (Sized positions (map leaf_of leaves.now) → ⊥) (λ f. facts_of f ≡ map leaf_of leaves.now) }
    {
        let count = leaves.len();
        if count == 0 || count > MAX_LEAVES {
            return None;
        }
        let mut own = [LeafFacts { height: 0, uses: 0 }; MAX_LEAVES];
        own[..count].copy_from_slice(leaves);
        Some(CutFacts { count, leaves: own })
    }

    pub fn leaves(&self) -> &[LeafFacts]
        ensures is { map leaf_of result.now ≡ facts_of self.now }
        ensures some { 0 < length result.now }
        ensures few { length result.now ≤ positions }
    {
        &self.leaves[..self.count]
    }
}
