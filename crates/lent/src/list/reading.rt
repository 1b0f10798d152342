// Making a list, and reading it.
ghost use Rattle.std.specs.Prelude.{◌≡◌, [], length};
ghost use Rattle.std.specs.List.{slice_get};
ghost use Rattle.lent.specs.Lists.{listed, unused, room, lender};

use super::LentList;

impl<'a, T: Copy> LentList<'a, T> {
    // An empty list on the lent places, which keep what they held until they are used.
    pub fn new(places: &'a mut [T]) -> LentList<'a, T>
        ensures empty { listed result ≡ [] }
        ensures rest { unused result ≡ places.old }
        ensures room { room result ≡ length places.old }
        ensures lender { lender result ≡ places.entry.ghost_name }
    {
        LentList { places, count: 0 }
    }

    // The items in use, in order.
    pub fn items(&self) -> &[T]
        ensures { result.now ≡ listed self.now }
    {
        &self.places[..self.count]
    }

    pub fn len(&self) -> usize
        ensures { result ≡ length (listed self.now) }
    {
        self.count
    }

    // How many places there are in all.
    pub fn room(&self) -> usize
        ensures { result ≡ room self.now }
    {
        self.places.len()
    }

    // The item at a place, if the place is in use.
    pub fn get(&self, place: usize) -> Option<T>
        ensures { result ≡ slice_get (listed self.now) place }
    {
        self.items().get(place).copied()
    }
}
