// Lists over lent places, for code that has no heap: the first few places are in use, and the others wait.
#![tactic(auto)]

mod list;

pub use list::LentList;
