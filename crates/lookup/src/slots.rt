ghost use Rattle.std.specs.Prelude.{◌≡◌, ℕ, ◌<◌, length, IfSome};
ghost use Rattle.lookup.specs.Slots.{ends, probed, slot_at, slots_after, answer_at};

use crate::key::{HashedKey, Key};
use crate::slot::{NotEntered, Slot};

// Whether the search for a key ends at the slot, which then has the key or is free.
fn is_end<K: Key>(slot: &Slot<K>, key: &K) -> bool
    ensures { result ≡ ends K.Key.meaning (K.Key.meaning key.now) slot.now }
{
    match slot {
        Some((k, _)) => k.same(key),
        None => true,
    }
}

// The slot at which the search for a key ends: it goes from the key's first slot on, and past the last slot to slot 0.
pub(crate) fn probe<K: HashedKey>(slots: &[Slot<K>], key: &K) -> Option<usize>
    ensures within { IfSome result (λ i. i < length slots.now) }
    ensures exact { result ≡ slot_at (probed K.Key.meaning K.HashedKey.slot slots.now (K.Key.meaning key.now)) }
{
    let first = key.first_slot(slots.len());
    let (before, from) = slots.split_at(first);
    match from.iter().position(|slot| is_end(slot, key)) {
        Some(turn) => Some(first + turn),
        None => before.iter().position(|slot| is_end(slot, key)),
    }
}

// Stores a key with its value in the free slot that ends the search for it.
pub(crate) fn store<K: HashedKey>(
    slots: &mut [Slot<K>],
    key: K,
    value: u16,
) -> Result<(), NotEntered>
    ensures slots { slots.new ≡ slots_after (probed K.Key.meaning K.HashedKey.slot slots.old (K.Key.meaning key)) slots.old key value }
    ensures answer { result ≡ answer_at (probed K.Key.meaning K.HashedKey.slot slots.old (K.Key.meaning key)) }
{
    let at = probe(slots, &key).ok_or(NotEntered::Full)?;
    if slots[at].is_some() {
        return Err(NotEntered::AlreadyThere);
    }
    slots[at] = Some((key, value));
    Ok(())
}
