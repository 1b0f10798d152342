// Rankings of a buyer's own, written outside the crate of rankings, and choices made with them.
// One puts the lowest highest leaf first; one ranks nothing before anything.
#![tactic(auto)]

mod first;
mod flat;
mod highest;
mod picking;

pub use first::inputs_before;
pub use flat::Flat;
pub use highest::ByHighest;
pub use picking::{pick, pick_flat, pick_two};

#[cfg(test)]
mod tests;
