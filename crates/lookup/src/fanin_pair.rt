ghost use Rattle.lookup.specs.Pairs.{pair_meaning};

use crate::hash::mix;
use crate::key::{Key, MixedKey};

// The two fanin edges of a gate, in order.
#[derive(Clone, Copy, PartialEq, Eq)]
pub struct FaninPair {
    pub first: u16,
    pub second: u16,
}

impl Key for FaninPair {
    ghost meaning = { pair_meaning };

    fn same(&self, other: &FaninPair) -> bool {
        *self == *other
    }
}

impl MixedKey for FaninPair {
    fn hash(&self) -> u64 {
        mix(mix(0, self.first), self.second)
    }
}
