//! Joining by the rules as they are told, one bit after another. It shares nothing with the proved joining but the cuts themselves.
use cuts::{Cut, SignedCut};

/// Nodes are below this number.
const NODES: usize = 16;

/// No cut has more leaves.
const LEAVES: usize = 4;

const ROWS: usize = 16;

/// Which nodes are leaves, and the table over them in rising number, in the low bits of a word.
#[derive(Clone, Copy)]
pub struct Plain {
    leaves: [bool; NODES],
    table: usize,
}

/// The word with one bit, at a place; places are below 16.
fn bit_at(place: usize) -> usize {
    1 << (place % 16)
}

fn bit(word: usize, place: usize) -> bool {
    word & bit_at(place) != 0
}

/// How many of the leaves come before a node.
fn position(leaves: &[bool; NODES], node: usize) -> usize {
    // By index over all nodes: a known length is counted side by side, and a chain took twice the instructions.
    let mut place = 0usize;
    for n in 0..NODES {
        if n < node && leaves[n] {
            place = place.wrapping_add(1);
        }
    }
    place
}

fn mark(leaves: &mut [bool; NODES], cut: &Cut) {
    for leaf in cut.leaves() {
        if let Some(marked) = leaves.get_mut(usize::from(*leaf)) {
            *marked = true;
        }
    }
}

/// The table that says in each row what the function says.
fn tabulate<F: Fn(usize) -> bool>(f: F) -> usize
    requires { F.IsAlwaysCallable f }
{
    (0..ROWS)
        .filter(|row| f(*row))
        .fold(0, |table, row| table | bit_at(row))
}

/// The value of an edge in a row over other leaves: each old position has the bit of the row at its leaf's new position.
fn value(edge: SignedCut, leaves: &[bool; NODES], row: usize) -> bool {
    let index = edge
        .cut
        .leaves()
        .iter()
        .enumerate()
        .filter(|(_, leaf)| bit(row, position(leaves, usize::from(**leaf))))
        .fold(0, |index, (place, _)| index | bit_at(place));
    bit(usize::from(edge.cut.table()), index) != edge.sign
}

/// Whether changing the bit at a position never changes the table.
fn is_masked(table: usize, place: usize) -> bool {
    (0..ROWS).all(|row| bit(table, row) == bit(table, row ^ bit_at(place)))
}

/// The leaves that are not masked.
fn needed(leaves: &[bool; NODES], table: usize) -> [bool; NODES] {
    let mut kept = *leaves;
    for (node, keep) in kept.iter_mut().enumerate() {
        *keep = *keep && !is_masked(table, position(leaves, node));
    }
    kept
}

/// The row of the old table for a row over the kept leaves; a masked leaf may have any value there.
fn old_row(leaves: &[bool; NODES], kept: &[bool; NODES], row: usize) -> usize {
    let mut index = 0;
    for (node, keep) in kept.iter().enumerate() {
        if *keep && bit(row, position(kept, node)) {
            index |= bit_at(position(leaves, node));
        }
    }
    index
}

impl Plain {
    /// None where there are more leaves than the limit.
    pub(crate) fn join(a: SignedCut, b: SignedCut, limit: usize) -> Option<Plain> {
        let mut leaves = [false; NODES];
        mark(&mut leaves, a.cut);
        mark(&mut leaves, b.cut);
        if position(&leaves, NODES) > limit.min(LEAVES) {
            return None;
        }
        let table = tabulate(|row| value(a, &leaves, row) && value(b, &leaves, row));
        Some(Plain::squeezed(&leaves, table))
    }

    fn squeezed(leaves: &[bool; NODES], table: usize) -> Plain {
        let kept = needed(leaves, table);
        Plain {
            leaves: kept,
            table: tabulate(|row| bit(table, old_row(leaves, &kept, row))),
        }
    }

    pub(crate) fn is_constant(&self, value: bool) -> bool {
        position(&self.leaves, NODES) == 0 && self.table == tabulate(|_| value)
    }

    /// The same leaves in the same order, and the same table.
    pub(crate) fn is_cut(&self, cut: &Cut) -> bool {
        self.table == usize::from(cut.table())
            && position(&self.leaves, NODES) == cut.leaf_count()
            && cut
                .leaves()
                .iter()
                .enumerate()
                .all(|(place, leaf)| self.has_at(usize::from(*leaf), place))
    }

    /// Whether the node is the leaf at a position.
    fn has_at(&self, node: usize, place: usize) -> bool {
        self.leaves.get(node).copied().unwrap_or(false) && position(&self.leaves, node) == place
    }
}
