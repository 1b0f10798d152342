//! The candidates that a new gate keeps.
ghost use Rattle.std.specs.Prelude.{◌≡◌, ◌≤◌, min, map, length, take, drop};
ghost use Rattle.model.specs.Rankings.{first_by};
ghost use Rattle.model.specs.Search.{by_leaves};
ghost use Rattle.cuts.specs.Meaning.{meaning};
ghost use Rattle.search.specs.Leaves.{leaf_at};
ghost use Rattle.search.specs.Fanins.{most};

use crate::leaf_facts::candidate;
use crate::rows::ReducedRow;
use crate::sizes::KEPT;
use cuts::Cut;
use rankings::{Candidate, Ranking, Shortlist, offer};

/// Writes the cuts of the candidates to the first places, and answers how many.
fn write_cuts(candidates: &[Candidate<Cut>], places: &mut [Cut]) -> usize
    requires { length candidates.now ≤ length places.old }
    ensures many { result ≡ length candidates.now }
    ensures first { take result places.new ≡ map (λ c. c.item) candidates.now }
    ensures rest { drop result places.new ≡ drop result places.old }
{
    // By index: of elements that are written through a zip a proof knows nothing, and a `for` over one list has not the other.
    for (i, candidate) in candidates.iter().enumerate() {
        places[i] = candidate.item;
    }
    candidates.len()
}

/// Writes the first of the cuts by the ranking, ties by earlier discovery, and answers how many.
/// There are at most `KEPT`, and at most as many as there are places; the later places stay as they were.
pub(crate) fn keep_first<R: Ranking>(
    by: &R,
    rows: &[ReducedRow],
    cuts: &[Cut],
    kept: &mut [Cut],
) -> usize
    ensures many { result ≤ min (length kept.old) most }
    ensures is { map meaning (take result kept.new) ≡ first_by (by_leaves (R.Ranking.before by.now) (leaf_at rows.now)) (min (length kept.old) most) (map meaning cuts.now) }
    ensures rest { drop result kept.new ≡ drop result kept.old }
{
    let room = kept.len().min(KEPT);
    let mut places = [candidate(rows, &Cut::trivial(0)); KEPT];
    let mut list = Shortlist::new(&mut places[..room]);
    for cut in cuts {
        offer(&mut list, by, candidate(rows, cut));
    }
    write_cuts(list.items(), kept)
}
