// What the mark of a ranking promises.
ghost use Rattle.std.specs.Prelude.{◌≡◌, true, false};
ghost use Rattle.model.specs.Rankings.{any_gate};
ghost use Rattle.rankings.specs.Facts.{facts_of};

use rankings::{CutFacts, Ranking};

// Under any marked ranking a cut of inputs alone ranks before a cut with a gate.
pub fn inputs_before<R: Ranking>(by: &R, a: &CutFacts, b: &CutFacts) -> bool
    ensures is { result ≡ R.Ranking.before by.now (facts_of a.now) (facts_of b.now) }
    ensures marked { R.Ranking.INPUTS_FIRST ≡ true → any_gate (facts_of a.now) ≡ false → any_gate (facts_of b.now) ≡ true → result ≡ true }
{
    by.ranks_before(a, b)
}
