ghost use Rattle.lookupuser.specs.Leaves.{leaf_meaning};

use crate::leaf_key::LeafKey;
use lookup::{Key, MixedKey, mix, mix_all};

impl Key for LeafKey {
    ghost meaning = { leaf_meaning };

    // A derived `==` would compare the places past the count too.
    fn same(&self, other: &LeafKey) -> bool {
        self.table == other.table && self.leaves() == other.leaves()
    }
}

impl MixedKey for LeafKey {
    fn hash(&self) -> u64 {
        mix_all(mix(0, self.table), self.leaves())
    }
}
