// A slot of a table: free, or taken by a key with its value.
pub type Slot<K> = Option<(K, u16)>;

// Why a key was not entered.
#[derive(Clone, Copy, PartialEq, Eq, Debug)]
pub enum NotEntered {
    AlreadyThere,
    Full,
}
