//! Keys of cuts in look-up tables, and cuts told apart by their keys.
ghost use Rattle.model.specs.Cuts.{key_list};
ghost use Rattle.model.specs.Sessions.{positions};
ghost use Rattle.cuts.specs.Meaning.{meaning as meant};
ghost use Rattle.cuts.specs.Keys.{key_meaning};

use crate::cut::Cut;
use crate::key::CutKey;
use lookup::{Key, MixedKey, mix, mix_all};

impl Key for CutKey {
    ghost meaning = { key_meaning };

    fn same(&self, other: &CutKey) -> bool {
        *self == *other
    }
}

impl MixedKey for CutKey {
    fn hash(&self) -> u64 {
        mix_all(mix(0, self.table()), self.leaves())
    }
}

// A list of distinct cuts has one cut for each key, the first, with its own table.
impl Key for Cut {
    ghost meaning = { λ c. key_list positions (meant c) };

    fn same(&self, other: &Cut) -> bool {
        self.key().0 == other.key().0
    }
}

impl MixedKey for Cut {
    fn hash(&self) -> u64 {
        self.key().0.hash()
    }
}
