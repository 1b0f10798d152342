// The cut whose highest leaf is lower first. A cut of inputs alone has the height 0, so the mark may be set.
ghost use Rattle.std.specs.Prelude.{◌≡◌, true};
ghost use Rattle.rankings.specs.Facts.{facts_of};
ghost use Rattle.buyer.specs.Highest.{highest, by_highest};
ghost use Rattle.std.proofs.Common.{arith, rules};
ghost use Rattle.std.proofs.lemmas.Bool.{lt-ltb};
ghost use Rattle.buyer.specs.Heights.{highest_none, highest_some};

use rankings::{CutFacts, Ranking};

#[derive(Clone, Copy)]
pub struct ByHighest;

fn highest_leaf(cut: &CutFacts) -> u16
    ensures { result ≡ highest (facts_of cut.now) }
{
    cut.leaves().iter().fold(
        0,
        |top, leaf| if top < leaf.height { leaf.height } else { top },
    )
}

impl Ranking for ByHighest {
    const INPUTS_FIRST: bool = true;

    ghost INPUTS_FIRST = { true };

    ghost before = { λ _. by_highest };

    ghost irreflexive = { Prim.search rules };

    ghost transitive = { Prim.search rules };

    ghost ties = { Prim.search rules };

    ghost inputs = { λ _ s a b _ _ none some. lt-ltb _ _ (omega (arith, highest_none a none, highest_some b some)) };

    fn ranks_before(&self, a: &CutFacts, b: &CutFacts) -> bool {
        highest_leaf(a) < highest_leaf(b)
    }
}
