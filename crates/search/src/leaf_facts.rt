//! What a ranking is told of a cut, read in the facts of the nodes.
ghost use Rattle.std.specs.Prelude.{◌≡◌, map};
ghost use Rattle.cuts.specs.Meaning.{meaning};
ghost use Rattle.rankings.specs.Facts.{leaf_of, facts_of};
ghost use Rattle.search.specs.Leaves.{leaf_at};

use crate::rows::ReducedRow;
use cuts::{Cut, POSITIONS};
use rankings::{Candidate, CutFacts, LeafFacts};

/// The facts of a leaf, which stand in the row one below its number; a leaf with no row has height 0 and no uses.
fn facts_of_leaf(rows: &[ReducedRow], leaf: u16) -> LeafFacts
    ensures { leaf_of result ≡ leaf_at rows.now leaf }
{
    let Some(i) = usize::from(leaf).checked_sub(1) else {
        return ReducedRow::EMPTY.facts;
    };
    rows.get(i).map_or(ReducedRow::EMPTY.facts, |row| row.facts)
}

/// The facts of the leaves of a cut, in order.
fn facts_of_cut(rows: &[ReducedRow], cut: &Cut) -> CutFacts
    ensures { facts_of result ≡ map (leaf_at rows.now) (meaning cut.now).leaves }
{
    let leaves = cut.leaves();
    let mut facts = [ReducedRow::EMPTY.facts; POSITIONS];
    // By index: of elements that are written through a zip a proof knows nothing, and a `for` over one list has not the other.
    for (i, leaf) in leaves.iter().enumerate() {
        facts[i] = facts_of_leaf(rows, *leaf);
    }
    CutFacts::new(&facts[..leaves.len()]).unwrap()
}

/// A cut beside its facts, as rankings want it.
pub(crate) fn candidate(rows: &[ReducedRow], cut: &Cut) -> Candidate<Cut>
    ensures item { result.item ≡ cut.now }
    ensures facts { facts_of result.facts ≡ map (leaf_at rows.now) (meaning cut.now).leaves }
{
    Candidate {
        item: *cut,
        facts: facts_of_cut(rows, cut),
    }
}
