// Nothing ranks before anything, so the first found come first.
ghost use Rattle.std.specs.Prelude.{false};
ghost use Rattle.model.specs.Rankings.{by_nothing};
ghost use Rattle.std.proofs.Common.{rules};

use rankings::{CutFacts, Ranking};

#[derive(Clone, Copy)]
pub struct Flat;

impl Ranking for Flat {
    const INPUTS_FIRST: bool = false;

    ghost INPUTS_FIRST = { false };

    ghost before = { λ _. by_nothing };

    ghost irreflexive = { Prim.search rules };

    ghost transitive = { Prim.search rules };

    ghost ties = { Prim.search rules };

    ghost inputs = { Prim.search rules };

    fn ranks_before(&self, _a: &CutFacts, _b: &CutFacts) -> bool {
        false
    }
}
