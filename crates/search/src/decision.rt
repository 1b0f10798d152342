//! What a gate call over the cuts of its fanins comes to.
use cuts::Edge;

/// An edge that is there already: of the constant or a leaf, or of a gate with the same key.
/// A leaf is given by its node, since the edge of a node above 32,767 has no number.
#[derive(Clone, Copy)]
pub enum Existing {
    Folded { node: u16, sign: bool },
    Merged(Edge),
}

/// An edge that is there already, or a new gate that keeps so many cuts.
#[derive(Clone, Copy)]
pub enum Decision {
    Existing(Existing),
    Made(usize),
}
