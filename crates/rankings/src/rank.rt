// What a ranking of cuts is.
ghost use Rattle.std.specs.Prelude.{◌≡◌, Bool, true, false};
ghost use Rattle.model.specs.Rankings.{Facts, Sized, any_gate, Lawful};
ghost use Rattle.model.specs.Sessions.{positions};
ghost use Rattle.rankings.specs.Facts.{facts_of};

use crate::facts::CutFacts;

// `before` is its meaning. `INPUTS_FIRST` is its mark, on which the law `inputs` is conditional.
pub trait Ranking {
    const INPUTS_FIRST: bool;

    ghost INPUTS_FIRST: { Bool };

    ghost before: { Self → Facts → Facts → Bool };

    fn ranks_before(&self, a: &CutFacts, b: &CutFacts) -> bool
        ensures { result ≡ before self.now (facts_of a.now) (facts_of b.now) };

    ghost irreflexive: { (s : Self) (a : Facts) → Sized positions a → before s a a ≡ false };

    ghost transitive: { (s : Self) (a b c : Facts) → Sized positions a → Sized positions b → Sized positions c → before s a b ≡ true → before s b c ≡ true → before s a c ≡ true };

    ghost ties: { (s : Self) (a b c : Facts) → Sized positions a → Sized positions b → Sized positions c → before s a b ≡ false → before s b a ≡ false → before s b c ≡ false → before s c b ≡ false → before s a c ≡ false };

    // with the mark set, a cut of inputs alone ranks before any cut with a higher leaf
    ghost inputs: { INPUTS_FIRST ≡ true → (s : Self) (a b : Facts) → Sized positions a → Sized positions b → any_gate a ≡ false → any_gate b ≡ true → before s a b ≡ true };
}

// Every ranking keeps the laws of the model; the answer is its mark.
pub fn keeps_the_laws<R: Ranking>(by: &R) -> bool
    ensures laws { Lawful positions (R.Ranking.before by.now) R.Ranking.INPUTS_FIRST }
    ensures is { result ≡ R.Ranking.INPUTS_FIRST }
{
    R::INPUTS_FIRST
}
