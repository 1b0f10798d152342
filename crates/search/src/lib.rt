//! The heart of a gate call: the cuts of both fanins joined pair by pair, and what that decides.
//! Either the gate is an edge that is there already, or it keeps the first few of the candidates by a ranking.
#![tactic(auto)]

mod consider;
mod deciding;
mod decision;
mod fanin;
mod keeping;
mod leaf_facts;
mod pairs;
mod rows;
mod sizes;

pub use deciding::decide;
pub use decision::{Decision, Existing};
pub use fanin::Fanin;
pub use rows::{Node, ReducedRow};
pub use sizes::{CUTS, KEPT, PAIRS};
