ghost use Rattle.std.specs.Prelude.{◌≡◌, ℕ};
ghost use Rattle.lookup.specs.Hash.{mixed, mixed_all, slot_of};

// One number more into a hash; a new hash begins at 0.
pub fn mix(hash: u64, number: u16) -> u64
    ensures { result ≡ mixed hash number }
{
    // The shift brings the high bits down, so that every bit of the hash bears on its high bits again.
    (hash ^ (hash >> 32) ^ number as u64).wrapping_mul(0x9E37_79B9_7F4A_7C15)
}

// All the numbers into a hash, first to last.
pub fn mix_all(hash: u64, numbers: &[u16]) -> u64
    ensures { result ≡ mixed_all hash numbers.now }
{
    numbers.iter().fold(hash, |all, number| mix(all, *number))
}

// The slot that a hash names: its share of 2^64, taken of the number of slots.
pub fn slot_of(hash: u64, slots: usize) -> usize
    ensures { result ≡ slot_of hash slots }
{
    ((hash as u128 * slots as u128) >> 64) as usize
}
