ghost use Rattle.std.specs.Prelude.{◌≡◌, ℕ, ◌<◌, true, List};
ghost use Rattle.lookup.specs.Hash.{mixed_all, hashed_slot};
ghost use Rattle.lookup.specs.Mixing.{slot_within};
ghost use Rattle.std.proofs.Common.{rules};

use crate::hash::slot_of;

// A key means a list of numbers, and two keys are told equal exactly when both have one meaning.
pub trait Key: Copy {
    ghost meaning: { Self → List ℕ };

    fn same(&self, other: &Self) -> bool
        ensures yes { result ≡ true → meaning self.now ≡ meaning other.now }
        ensures no { meaning self.now ≡ meaning other.now → result ≡ true };
}

// A key that also names a first slot, worked out from its meaning and the number of slots.
pub trait HashedKey: Key {
    ghost slot: { List ℕ → ℕ → ℕ };

    fn first_slot(&self, slots: usize) -> usize
        ensures { result ≡ slot (Self.Key.meaning self.now) slots };

    ghost within: { (m : List ℕ) (n : ℕ) → 0 < n → slot m n < n };

    ghost none: { (m : List ℕ) → slot m 0 ≡ 0 };
}

// A key hashed by mixing the numbers that it means, first to last; this alone makes it a hashed key.
pub trait MixedKey: Key {
    fn hash(&self) -> u64
        ensures { result ≡ mixed_all 0 (Self.Key.meaning self.now) };
}

impl<K: MixedKey> HashedKey for K {
    ghost slot = { hashed_slot };

    ghost within = { λ m n h. slot_within m n h };

    ghost none = { Prim.search rules };

    fn first_slot(&self, slots: usize) -> usize {
        slot_of(self.hash(), slots)
    }
}
