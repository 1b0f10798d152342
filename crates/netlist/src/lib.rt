// Reads a net text and counts its lines.
// It answers the outline of a text that follows the rules, or the first line that breaks one and the reason.
#![tactic(auto)]

mod reader;

pub use lines::{Line, LineFault, read_line, read_number};
pub use reader::{Outline, TextFault, read_text};
