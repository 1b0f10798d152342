// The three rankings.
ghost use Rattle.std.specs.Prelude.{◌≡◌, ◌*◌, ◌<◌, true, false, length};
ghost use Rattle.model.specs.Rankings.{by_height, by_gate_leaves, by_uses};
ghost use Rattle.std.proofs.lemmas.Bool.{ltb-true, lt-ltb, ltb-false, le-ltb};
ghost use Rattle.rankings.specs.Ratios.{ratio_trans, ratio_ties};
ghost use Rattle.rankings.specs.ByHeightRankingLemmas.{heights};
ghost use Rattle.std.proofs.Common.{arith, ◌∙◌, rules};
ghost use Rattle.std.proofs.Math.Nat.{mul-pos, zero-mul};
ghost use Rattle.std.proofs.Math.Path.{ap};
ghost use Rattle.rankings.specs.Totals.{heights_none, heights_some, gates_none, gates_some};

use crate::facts::CutFacts;
use crate::rank::Ranking;
use crate::sums::{GateLeaf, Height, Share, sum};

// The smaller average of leaf heights first: averages are compared by products, so exactly.
#[derive(Clone, Copy)]
pub struct ByHeight;

impl Ranking for ByHeight {
    const INPUTS_FIRST: bool = true;

    ghost INPUTS_FIRST = { true };

    ghost before = { λ _. by_height };

    ghost irreflexive = { Prim.search rules };

    ghost transitive = { unfold heights in λ s a b c sa sb sc p q. lt-ltb _ _ (ratio_trans (heights a) (heights b) (heights c) (length a) (length b) (length c) sa.0 sc.0 (ltb-true _ _ p) (ltb-true _ _ q)) };

    ghost ties = { unfold heights in
        λ s a b c sa sb sc p p' q q'.
        let e = ratio_ties (heights a) (heights b) (heights c) (length a) (length b) (length c) sb.0
        (omega (arith, ltb-false _ _ p, ltb-false _ _ p')) (omega (arith, ltb-false _ _ q, ltb-false _ _ q')) in
        le-ltb _ _ (omega arith) };

    ghost inputs = { unfold heights in
        λ _ s a b sa sb none some.
        let z : heights a * length b ≡ 0 = ap (λ n. n * length b) (heights_none a none) ∙ zero-mul (length b) in
        let h : 0 < heights b * length a = mul-pos (heights_some b some) sa.0 in
        lt-ltb _ _ (omega arith) };

    fn ranks_before(&self, a: &CutFacts, b: &CutFacts) -> bool {
        sum::<Height>(a) * (b.leaves().len() as u32) < sum::<Height>(b) * (a.leaves().len() as u32)
    }
}

// Fewer leaves of height 1 or more first.
#[derive(Clone, Copy)]
pub struct ByGateLeaves;

impl Ranking for ByGateLeaves {
    const INPUTS_FIRST: bool = true;

    ghost INPUTS_FIRST = { true };

    ghost before = { λ _. by_gate_leaves };

    ghost irreflexive = { Prim.search rules };

    ghost transitive = { Prim.search rules };

    ghost ties = { Prim.search rules };

    ghost inputs = { λ _ s a b _ _ none some. lt-ltb _ _ (omega (arith, gates_none a none, gates_some b some)) };

    fn ranks_before(&self, a: &CutFacts, b: &CutFacts) -> bool {
        sum::<GateLeaf>(a) < sum::<GateLeaf>(b)
    }
}

// The smaller sum of shares first. No one generic kind with `ByGateLeaves`: the marks and the proofs of `inputs` differ.
#[derive(Clone, Copy)]
pub struct ByUses;

impl Ranking for ByUses {
    const INPUTS_FIRST: bool = false;

    ghost INPUTS_FIRST = { false };

    ghost before = { λ _. by_uses };

    ghost irreflexive = { Prim.search rules };

    ghost transitive = { Prim.search rules };

    ghost ties = { Prim.search rules };

    ghost inputs = { Prim.search rules };

    fn ranks_before(&self, a: &CutFacts, b: &CutFacts) -> bool {
        sum::<Share>(a) < sum::<Share>(b)
    }
}
