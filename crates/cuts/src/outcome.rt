//! What is left of a table over leaves once masked leaves go.
use crate::cut::Cut;

/// No leaf is left, or a cut.
#[derive(Clone, Copy, PartialEq, Eq, Debug)]
pub enum Squeezed {
    Constant(bool),
    Cut(Cut),
}
