// The rows of the source table; those of the reduced graph are the search's.
use cuts::Edge;
use search::Node;

// A node that was handed in, and the reduced edge that it maps to.
#[derive(Clone, Copy)]
pub struct SourceRow {
    pub(crate) node: Node,
    pub(crate) mapped: Edge,
}

impl SourceRow {
    // A row to fill a table with before it is lent.
    pub const EMPTY: SourceRow = SourceRow {
        node: Node::Input,
        mapped: Edge::FALSE,
    };
}
