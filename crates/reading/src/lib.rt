// Reads a net text into a session: each line in its place makes its call, up to the first line that is refused.
#![tactic(auto)]

mod faults;
mod reader;

pub use faults::{ReadFault, TextFault};
pub use reader::read_text;
