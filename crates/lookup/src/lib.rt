// Look-ups by key: the key traits, a slot table over a lent slice, and a list without repeated keys.
// Fanin pairs are the one kind of key that lives here; other crates bring their own.
#![tactic(auto)]

mod distinct;
mod fanin_pair;
mod hash;
mod key;
mod slot;
mod slots;
mod table;

pub use distinct::DistinctList;
pub use fanin_pair::FaninPair;
pub use hash::{mix, mix_all, slot_of};
pub use key::{HashedKey, Key, MixedKey};
pub use slot::{NotEntered, Slot};
pub use table::SlotTable;
