// Signals: the kinds of values that a graph can be evaluated on, lane by lane.
// The trait says what FALSE, AND and complement do in each lane; three kinds keep it.
#![tactic(auto)]

mod edge;
mod kinds;
mod rail;
mod signal;
#[cfg(test)]
mod tests;

pub use edge::edge_signal;
pub use kinds::Patterns;
pub use rail::RailPair;
pub use signal::Signal;
