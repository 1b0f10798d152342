// Scripts of calls on sweeping sessions: a call on each line, and on each line of the answers what it answered.
// A program says which calls it takes; a line that is no such call ends its script.
#![tactic(auto)]

mod answers;
mod calls;
mod playing;
mod reading;
mod replaying;
mod shown;
mod tables;
mod taking;
#[cfg(test)]
mod tests;

pub use calls::{Call, Lengths, Walk};
pub use reading::{Program, Script, read_script};
pub use replaying::replay;
pub use taking::{Every, Plain};
