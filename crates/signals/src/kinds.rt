ghost use Rattle.std.specs.Prelude.{false, not, ◌&&◌};
ghost use Rattle.signals.specs.Lanes.{WORD, bit, meet_words, flip_word};
ghost use Rattle.std.proofs.Common.{rules};
ghost use Rattle.signals.specs.Words.{bit-and, bit_flip};

use crate::signal::Signal;

impl Signal for bool {
    ghost lanes = { 1 };

    ghost lane = { λ b _. b };

    ghost low = { false };

    ghost meet = { λ a b. a && b };

    ghost flip = { not };

    ghost formed = { λ _. Unit {0} };

    ghost some = { Prim.search rules };

    ghost lows = { Prim.search rules };

    ghost meets = { Prim.search rules };

    ghost flips = { Prim.search rules };

    ghost low_formed = { Prim.search rules };

    ghost meet_formed = { Prim.search rules };

    ghost flip_formed = { Prim.search rules };

    fn falsity() -> bool {
        false
    }

    fn and(self, other: bool) -> bool {
        self & other
    }

    fn complement(self) -> bool {
        !self
    }
}

// One lane for each of 64 input patterns.
#[derive(Clone, Copy, Debug, PartialEq, Eq)]
pub struct Patterns {
    pub word: u64,
}

impl Signal for Patterns {
    ghost lanes = { WORD };

    ghost lane = { λ p. bit p.word };

    ghost low = { record { word = 0 } };

    ghost meet = { λ a b. record { word = meet_words a.word b.word } };

    ghost flip = { λ a. record { word = flip_word WORD a.word } };

    ghost formed = { λ _. Unit {0} };

    ghost some = { Prim.search rules };

    ghost lows = { Prim.search rules };

    ghost meets = { λ a b i h. bit-and a.word b.word i };

    ghost flips = { λ a i h. bit_flip 64 a.word i h };

    ghost low_formed = { Prim.search rules };

    ghost meet_formed = { Prim.search rules };

    ghost flip_formed = { Prim.search rules };

    fn falsity() -> Patterns {
        Patterns { word: 0 }
    }

    fn and(self, other: Patterns) -> Patterns {
        Patterns {
            word: self.word & other.word,
        }
    }

    fn complement(self) -> Patterns {
        Patterns { word: !self.word }
    }
}
