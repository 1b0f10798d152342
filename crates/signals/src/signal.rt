ghost use Rattle.std.specs.Prelude.{◌≡◌, ℕ, ◌<◌, Bool, false, not, ◌&&◌};

// A kind of signal: a fixed number of lanes, each a truth value.
// `and` and `complement` and not std's operators, whose traits have preconditions: each clause would then say more.
pub trait Signal: Copy {
    ghost lanes: { ℕ };

    ghost lane: { Self → ℕ → Bool };

    // The very signals that FALSE, AND and complement answer.
    ghost low: { Self };

    ghost meet: { Self → Self → Self };

    ghost flip: { Self → Self };

    // What every answer is besides its lanes, whatever came in.
    ghost formed: { Self → Type 0 };

    fn falsity() -> Self
        ensures { result ≡ low };

    fn and(self, other: Self) -> Self
        ensures { result ≡ meet self other };

    fn complement(self) -> Self
        ensures { result ≡ flip self };

    ghost some: { 0 < lanes };

    ghost lows: { (i : ℕ) → i < lanes → lane low i ≡ false };

    ghost meets: { (a b : Self) (i : ℕ) → i < lanes → lane (meet a b) i ≡ (lane a i && lane b i) };

    ghost flips: { (a : Self) (i : ℕ) → i < lanes → lane (flip a) i ≡ not (lane a i) };

    ghost low_formed: { formed low };

    ghost meet_formed: { (a b : Self) → formed (meet a b) };

    ghost flip_formed: { (a : Self) → formed (flip a) };
}
