ghost use Rattle.std.specs.Prelude.{◌≡◌, ℕ, ◌+◌, ◌<◌, List, [], length, replicate, Ok as Done, None as Nothing, Option as Maybe};
ghost use Rattle.lookup.specs.Slots.{probed, found, slots_after};
ghost use Rattle.lookup.specs.Entries.{taken, answer_for, with_entry, Stands, Entry, entered, Holds, entries_after};

use crate::key::HashedKey;
use crate::slot::{NotEntered, Slot};
use crate::slots::{probe, store};

// A look-up table over lent slots, for any hashed key.
// Its clauses name the key's meaning and first slot each time: a definition over the table would have to be given both as well.
#[derive(Drop)]
pub struct SlotTable<'a, K> {
    slots: &'a mut [Slot<K>],
}

impl<'a, K: HashedKey> SlotTable<'a, K> {
    // Opens a table on the slots and makes them all free, whatever they held.
    pub fn open(slots: &'a mut [Slot<K>]) -> SlotTable<'a, K>
        ensures slots { result.slots.now ≡ replicate (length slots.old) Nothing }
        ensures room { length result.slots.now ≡ length slots.old }
        ensures stands { Stands K.Key.meaning K.HashedKey.slot result.slots.now (λ _. Nothing) 0 }
        ensures holds { Holds K.Key.meaning K.HashedKey.slot result.slots.now [] }
    {
        slots.fill(None);
        SlotTable { slots }
    }

    // The value that was entered with the key.
    pub fn find(&self, key: &K) -> Option<u16>
        ensures exact { result ≡ found K.Key.meaning K.HashedKey.slot self.now.slots.now (K.Key.meaning key.now) }
        ensures holds { (entries : List Entry) → Holds K.Key.meaning K.HashedKey.slot self.now.slots.now entries → result ≡ entered entries (K.Key.meaning key.now) }
    {
        let at = probe(self.slots, key)?;
        self.slots[at].map(|(_, value)| value)
    }

    // Enters a new key with its value, and says whether it did; if not, no slot changes.
    pub fn enter(&mut self, key: K, value: u16) -> Result<(), NotEntered>
        ensures slots { self.new.slots.now ≡ slots_after (probed K.Key.meaning K.HashedKey.slot self.old.slots.now (K.Key.meaning key)) self.old.slots.now key value }
        ensures room { length self.new.slots.now ≡ length self.old.slots.now }
        ensures told { result ≡ answer_for (length self.old.slots.now) (taken self.old.slots.now) (found K.Key.meaning K.HashedKey.slot self.old.slots.now (K.Key.meaning key)) }
        ensures new { (look : List ℕ → Maybe ℕ) (n : ℕ) → Stands K.Key.meaning K.HashedKey.slot self.old.slots.now look n
            → look (K.Key.meaning key) ≡ Nothing → n < length self.old.slots.now
            → (result ≡ Done tt) × Stands K.Key.meaning K.HashedKey.slot self.new.slots.now (with_entry (K.Key.meaning key) value look) (n + 1) }
        ensures holds { (entries : List Entry) → Holds K.Key.meaning K.HashedKey.slot self.old.slots.now entries
            → Holds K.Key.meaning K.HashedKey.slot self.new.slots.now (entries_after result (K.Key.meaning key) value entries) }
    {
        store(self.slots, key, value)
    }
}
