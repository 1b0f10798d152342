// Adding items to a list, and changing them.
ghost use Rattle.std.specs.Prelude.{◌≡◌, [], ◌∷◌, ◌++◌, length, take, drop, slice_set, nat_lt};
ghost use Rattle.std.specs.List.{insert};
ghost use Rattle.lent.specs.Lists.{listed, unused, room, lender};

use super::LentList;

impl<'a, T: Copy> LentList<'a, T> {
    // One item more at the end, if there is a place for it; says whether there was.
    pub fn push(&mut self, item: T) -> bool
        ensures told { result ≡ nat_lt (length (listed self.old)) (room self.old) }
        ensures items { listed self.new ≡ take (room self.old) (listed self.old ++ (item ∷ [])) }
        ensures rest { unused self.new ≡ drop 1 (unused self.old) }
        ensures room { room self.new ≡ room self.old }
        ensures lender { lender self.new ≡ lender self.old }
    {
        if self.count >= self.places.len() {
            return false;
        }
        self.places[self.count] = item;
        self.count += 1;
        true
    }

    // The item goes to a place, or to the end if the list is shorter. Those from there on go one place up, and what then has no place is dropped.
    pub fn insert(&mut self, at: usize, item: T)
        ensures items { listed self.new ≡ take (room self.old) (insert (listed self.old) at item) }
        ensures rest { unused self.new ≡ drop 1 (unused self.old) }
        ensures room { room self.new ≡ room self.old }
        ensures lender { lender self.new ≡ lender self.old }
    {
        let place = at.min(self.count);
        if self.count < self.places.len() {
            self.count += 1;
        }
        if place < self.count {
            self.places.copy_within(place..self.count - 1, place + 1);
            self.places[place] = item;
        }
    }

    // Another item in a place in use; says whether the place is in use.
    pub fn set(&mut self, place: usize, item: T) -> bool
        ensures told { result ≡ nat_lt place (length (listed self.old)) }
        ensures items { listed self.new ≡ slice_set (listed self.old) place item }
        ensures rest { unused self.new ≡ unused self.old }
        ensures room { room self.new ≡ room self.old }
        ensures lender { lender self.new ≡ lender self.old }
    {
        if place >= self.count {
            return false;
        }
        self.places[place] = item;
        true
    }
}
