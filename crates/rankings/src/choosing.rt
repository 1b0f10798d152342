// The first few of a list of candidates.
ghost use Rattle.std.specs.Prelude.{◌≡◌, min, length, take, drop};
ghost use Rattle.model.specs.Rankings.{first_by};
ghost use Rattle.rankings.specs.Candidates.{by_facts};

use crate::candidate::Candidate;
use crate::rank::Ranking;
use crate::shortlist::{Shortlist, offer};

// Writes the first candidates by the ranking, ties by earlier discovery, as many as there are places, and answers how many.
// The later places stay as they were.
pub fn choose<R: Ranking, T: Copy>(
    by: &R,
    candidates: &[Candidate<T>],
    places: &mut [Candidate<T>],
) -> usize
    ensures many { result ≡ min (length places.old) (length candidates.now) }
    ensures is { take result places.new ≡ first_by (by_facts (R.Ranking.before by.now)) (length places.old) candidates.now }
    ensures rest { drop result places.new ≡ drop result places.old }
{
    let mut list = Shortlist::new(places);
    for candidate in candidates {
        offer(&mut list, by, *candidate);
    }
    list.len()
}
