ghost use Rattle.std.specs.Prelude.{◌≡◌, ℕ, ◌<◌, true, false, not, ◌&&◌, List, length, is_some, Some as Value, None as Nothing, nat_lt};
ghost use Rattle.lookup.specs.Hash.{hashed_slot};
ghost use Rattle.lookup.specs.Slots.{found};
ghost use Rattle.lookup.specs.Entries.{with_entry};
ghost use Rattle.lookupuser.specs.Leaves.{leaf_meaning};

use crate::known::Known;
use crate::leaf_key::LeafKey;
use lookup::{Slot, SlotTable};

impl<'a> Known<'a> {
    // Opens on the slots, with nothing known.
    pub fn open(slots: &'a mut [Slot<LeafKey>]) -> Known<'a>
        ensures none { (q : List ℕ) → found leaf_meaning hashed_slot result.keys.slots.now q ≡ Nothing }
        ensures sized { (result.count ≡ 0) × (result.limit ≡ length slots.old) }
    {
        let limit = slots.len();
        Known {
            keys: SlotTable::open(slots),
            count: 0,
            limit,
        }
    }

    // Learns the value of a new key while there is a slot, and says whether it did.
    pub fn learn(&mut self, key: LeafKey, value: u16) -> bool
        ensures told { result ≡ (nat_lt self.old.count self.old.limit && not (is_some (found leaf_meaning hashed_slot self.old.keys.slots.now (leaf_meaning key)))) }
        ensures learned { result ≡ true → (q : List ℕ) → found leaf_meaning hashed_slot self.new.keys.slots.now q ≡ with_entry (leaf_meaning key) value (found leaf_meaning hashed_slot self.old.keys.slots.now) q }
        ensures same { result ≡ false → self.new ≡ self.old }
    {
        if self.count >= self.limit || self.keys.find(&key).is_some() {
            return false;
        }
        let _ = self.keys.enter(key, value);
        self.count += 1;
        true
    }
}

// Opens a table on the slots, enters one key and looks it up again.
pub fn remember(slots: &mut [Slot<LeafKey>], key: LeafKey, value: u16) -> Option<u16>
    ensures { 0 < length slots.old → result ≡ Value value }
{
    let mut table = SlotTable::open(slots);
    let _ = table.enter(key, value);
    table.find(&key)
}
