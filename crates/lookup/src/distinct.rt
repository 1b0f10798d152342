ghost use Rattle.std.specs.Prelude.{◌≡◌, ℕ, ◌+◌, ◌≤◌, drop};
ghost use Rattle.model.specs.Keys.{holds, added_in, is_new};
ghost use Rattle.lent.specs.Lists.{listed, unused, room, lender};

use crate::key::Key;
use lent::LentList;

// The first of each key, in the order in which they came, while there are places.
#[derive(Drop)]
pub struct DistinctList<'a, K> {
    list: LentList<'a, K>,
}

// Whether the key is one of the keys.
fn is_in<K: Key>(keys: &[K], key: &K) -> bool
    ensures { result ≡ holds K.Key.meaning (K.Key.meaning key.now) keys.now }
{
    keys.iter().any(|k| k.same(key))
}

impl<'a, K: Key> DistinctList<'a, K> {
    // An empty list on the lent places.
    pub fn new(places: &'a mut [K]) -> DistinctList<'a, K>
        ensures empty { result.list.count ≡ 0 }
        ensures kept { result.list.places.now ≡ places.old }
        ensures lender { lender result.list ≡ places.entry.ghost_name }
    {
        DistinctList {
            list: LentList::new(places),
        }
    }

    // The keys in the list.
    pub fn items(&self) -> &[K]
        ensures { result.now ≡ listed self.now.list }
    {
        self.list.items()
    }

    // Adds the key if it is new and there is a place for it, and says whether it did.
    pub fn add(&mut self, key: K) -> bool
        ensures room { room self.new.list ≡ room self.old.list }
        ensures next { self.new.list.count ≤ self.old.list.count + 1 }
        ensures adds { listed self.new.list ≡ added_in (room self.old.list) K.Key.meaning key (listed self.old.list) }
        ensures rest { unused self.new.list ≡ drop self.new.list.count self.old.list.places.now }
        ensures told { result ≡ is_new (room self.old.list) K.Key.meaning key (listed self.old.list) }
        ensures lender { lender self.new.list ≡ lender self.old.list }
    {
        // A full list is known by its length, before any key is compared.
        self.list.len() < self.list.room() && !is_in(self.items(), &key) && self.list.push(key)
    }
}
