ghost use Rattle.std.specs.Prelude.{◌≡◌, ◌≤◌, length};
ghost use Rattle.lookup.specs.Hash.{hashed_slot};
ghost use Rattle.lookup.specs.Entries.{Tidy, taken};
ghost use Rattle.lookupuser.specs.Leaves.{leaf_meaning};

use crate::leaf_key::LeafKey;
use lookup::SlotTable;

// A table with what is known of its slots, as facts of the struct.
// The table itself counts neither its slots nor those taken, so both numbers stand beside it.
#[derive(Drop)]
pub struct Known<'a> {
    pub(crate) keys: SlotTable<'a, LeafKey>,
    pub(crate) count: usize,
    pub(crate) limit: usize,
    ghost tidy: { Tidy leaf_meaning hashed_slot keys.slots.now },
    ghost counted: { taken keys.slots.now ≡ count },
    ghost room: { limit ≤ length keys.slots.now },
}
