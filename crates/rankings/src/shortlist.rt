// A list in ranking order, over lent places.
ghost use Rattle.std.specs.Prelude.{◌≡◌, take, drop};
ghost use Rattle.model.specs.Rankings.{rank_in, spot};
ghost use Rattle.lent.specs.Lists.{listed, unused, room, lender};
ghost use Rattle.rankings.specs.Candidates.{by_facts};

use crate::candidate::Candidate;
use crate::rank::Ranking;
use lent::LentList;

// An alias and no struct around it, since a proof follows lent places through one struct, not two.
pub type Shortlist<'a, T> = LentList<'a, Candidate<T>>;

// Where the candidate goes: before the first that it ranks before.
fn place<R: Ranking, T: Copy>(by: &R, list: &[Candidate<T>], candidate: &Candidate<T>) -> usize
    ensures { result ≡ spot (by_facts (R.Ranking.before by.now)) candidate.now list.now }
{
    list.iter()
        .position(|other| by.ranks_before(&candidate.facts, &other.facts))
        .unwrap_or(list.len())
}

// The candidate goes after all that it does not rank before, and what then has no place is dropped.
pub fn offer<R: Ranking, T: Copy>(list: &mut Shortlist<'_, T>, by: &R, candidate: Candidate<T>)
    ensures is { listed list.new ≡ take (room list.old) (rank_in (by_facts (R.Ranking.before by.now)) candidate (listed list.old)) }
    ensures rest { unused list.new ≡ drop 1 (unused list.old) }
    ensures room { room list.new ≡ room list.old }
    ensures lender { lender list.new ≡ lender list.old }
{
    let at = place(by, list.items(), &candidate);
    list.insert(at, candidate);
}
