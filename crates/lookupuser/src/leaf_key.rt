ghost use Rattle.std.specs.Prelude.{◌≡◌, ◌≤◌, ◌∷◌, take};

// A table and its leaves, the first `count` of `leaves`.
// An array with its length beside it, as a key is copied into a lent slot and may own no heap.
#[derive(Clone, Copy)]
pub struct LeafKey {
    pub(crate) leaves: [u16; 4],
    pub(crate) count: usize,
    pub(crate) table: u16,
    ghost few: { count ≤ 4 },
}

impl LeafKey {
    // The key of a table over the first leaves of an array, all four if `count` is larger.
    pub fn new(leaves: [u16; 4], count: usize, table: u16) -> LeafKey
        ensures { result.table ∷ take result.count result.leaves ≡ table ∷ take count leaves }
    {
        LeafKey {
            leaves,
            count: count.min(4),
            table,
        }
    }

    pub(crate) fn leaves(&self) -> &[u16]
        ensures { result.now ≡ take self.now.count self.now.leaves }
    {
        &self.leaves[..self.count]
    }
}
