// A key type of another crate in the slot table: five numbers with a count.
// It shows what an implementer writes, and which facts a struct that owns a table can keep.
#![tactic(auto)]

mod keyed;
mod known;
mod leaf_key;
mod learn;
#[cfg(test)]
mod tests;

pub use known::Known;
pub use leaf_key::LeafKey;
pub use learn::remember;
