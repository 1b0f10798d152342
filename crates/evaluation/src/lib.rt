// Signals through the graphs of a session: every node's signal from the inputs', in the source graph, the reduced graph or both.
#![tactic(auto)]

mod auditing;
mod both;
mod filling;
mod graph;
mod side;
mod walking;

pub use auditing::{Findings, audit};
pub use both::walk_both;
pub use side::Side;
pub use walking::walk;
