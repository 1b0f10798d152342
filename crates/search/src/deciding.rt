//! The decision of a gate call over the cuts of its fanins.
ghost use Rattle.std.specs.Prelude.{◌≡◌, ◌≤◌, min, length, drop};
ghost use Rattle.model.specs.Edges.{sign_of};
ghost use Rattle.model.specs.Search.{decide_cuts};
ghost use Rattle.model.specs.Sessions.{positions};
ghost use Rattle.search.specs.Finding.{look_in};
ghost use Rattle.search.specs.Leaves.{leaf_at};
ghost use Rattle.search.specs.Fanins.{most, cuts_of, limits_of};
ghost use Rattle.search.specs.Decisions.{decision_of, kept_by};

use crate::consider::Search;
use crate::decision::Decision;
use crate::fanin::Fanin;
use crate::keeping::keep_first;
use crate::rows::ReducedRow;
use crate::sizes::PAIRS;
use cuts::{Cut, CutKey};
use lookup::{DistinctList, SlotTable};
use rankings::Ranking;

/// Decides a gate by the cuts of its fanins: each cut has at most `limit` leaves, `keys` has the edges of known keys,
/// and row n - 1 is of node n. A new gate's cuts stand in the first places of `kept`.
// No three functions take a group of these parameters: a struct would be made for this call alone.
pub fn decide<R: Ranking>(
    by: &R,
    x: &Fanin,
    y: &Fanin,
    limit: usize,
    keys: &SlotTable<CutKey>,
    rows: &[ReducedRow],
    kept: &mut [Cut],
) -> Decision
    ensures decision { decision_of result kept.new
        ≡ decide_cuts positions (limits_of limit (length kept.old)) (R.Ranking.before by.now) (look_in keys.now) (leaf_at rows.now)
        (sign_of x.now.edge.number) (sign_of y.now.edge.number) (cuts_of x.now) (cuts_of y.now) }
    ensures many { kept_by result ≤ min (length kept.old) most }
    ensures rest { drop (kept_by result) kept.new ≡ drop (kept_by result) kept.old }
{
    let mut places = [Cut::trivial(0); PAIRS];
    let mut search = Search {
        keys,
        limit,
        found: DistinctList::new(&mut places),
    };
    match search.search_cuts(x, y) {
        Some(edge) => Decision::Existing(edge),
        None => Decision::Made(keep_first(by, rows, search.found.items(), kept)),
    }
}
