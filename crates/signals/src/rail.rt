ghost use Rattle.std.specs.Prelude.{◌≡◌};
ghost use Rattle.signals.specs.Lanes.{WORD, bit, meet_words, flip_word};
ghost use Rattle.signals.specs.Words.{bit-and, bit_flip};
ghost use Rattle.std.proofs.Common.{rules};

use crate::signal::Signal;

// A word of 64 patterns with its complement; the lanes are those of the plain word.
#[derive(Clone, Copy, Debug, PartialEq, Eq)]
pub struct RailPair {
    pub plain: u64,
    pub inverse: u64,
}

impl Signal for RailPair {
    ghost lanes = { WORD };

    ghost lane = { λ p. bit p.plain };

    ghost low = { record { plain = 0; inverse = flip_word WORD 0 } };

    ghost meet = { λ a b. record { plain = meet_words a.plain b.plain; inverse = flip_word WORD (meet_words a.plain b.plain) } };

    ghost flip = { λ a. record { plain = flip_word WORD a.plain; inverse = flip_word WORD (flip_word WORD a.plain) } };

    ghost formed = { λ p. p.inverse ≡ flip_word WORD p.plain };

    ghost some = { Prim.search rules };

    ghost lows = { Prim.search rules };

    ghost meets = { λ a b i h. bit-and a.plain b.plain i };

    ghost flips = { λ a i h. bit_flip 64 a.plain i h };

    ghost low_formed = { Prim.search rules };

    ghost meet_formed = { Prim.search rules };

    ghost flip_formed = { Prim.search rules };

    fn falsity() -> RailPair {
        RailPair {
            plain: 0,
            inverse: !0,
        }
    }

    // The second words that come in may be anything, so they are not looked at.
    fn and(self, other: RailPair) -> RailPair {
        let plain = self.plain & other.plain;
        RailPair {
            plain,
            inverse: !plain,
        }
    }

    fn complement(self) -> RailPair {
        RailPair {
            plain: !self.plain,
            inverse: self.plain,
        }
    }
}
