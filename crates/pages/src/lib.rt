// Lines written to what is left of a page.
#![tactic(auto)]

mod line;
mod parts;
mod short;
mod writing;

pub use line::{Key, Line};
pub use short::{Short, check_room};
pub use writing::write_line;
