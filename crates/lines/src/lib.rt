// Reads the lines of a net text from its bytes: their keys and numbers, their order, and the numbers due.
#![tactic(auto)]

mod faults;
mod lines;
mod numbers;
mod ordered;
mod reader;

pub use faults::{LineFault, TextFault, at_line};
pub use lines::{Cut, Key, Line, cut_at, read_line};
pub use numbers::read_number;
pub use reader::Reader;
