//! A fanin of a gate, with the cuts of its node.
use cuts::{Cut, Edge};

/// An edge, and the cuts that its node keeps; only the first `KEPT` of them count.
#[derive(Clone, Copy)]
pub struct Fanin<'a> {
    pub edge: Edge,
    pub cuts: &'a [Cut],
}
