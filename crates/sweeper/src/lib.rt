// The sweeping session: tables that a caller lends, the calls on them, and the laws that every run of calls keeps.
// `Session` has the calls and the facts that every call needs and keeps; its `Core` has the tables and the steps of a gate call.
#![tactic(auto)]

mod accepting;
mod core_state;
mod deciding;
mod edges;
mod folding;
mod gates;
mod growing;
mod inputs;
mod opening;
mod refusal;
mod reports;
mod rows;
mod session;
mod tables;
mod tally;

pub use accepting::Swept;
pub use refusal::Refusal;
pub use rows::SourceRow;
pub use session::Session;
pub use tables::Tables;
pub use tally::{Outcome, Tally};
