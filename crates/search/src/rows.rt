//! The rows of the reduced graph's table.
use cuts::Edge;
use rankings::LeafFacts;

/// An input, or a gate with its two fanin edges.
#[derive(Clone, Copy)]
pub enum Node {
    Input,
    Gate(Edge, Edge),
}

/// A node of the reduced graph: its height and uses, and how many cuts it keeps.
#[derive(Clone, Copy)]
pub struct ReducedRow {
    pub node: Node,
    pub facts: LeafFacts,
    pub kept: usize,
}

impl ReducedRow {
    /// The row of an input that nothing uses yet.
    pub const EMPTY: ReducedRow = ReducedRow {
        node: Node::Input,
        facts: LeafFacts { height: 0, uses: 0 },
        kept: 0,
    };
}
