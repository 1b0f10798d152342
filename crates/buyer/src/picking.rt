// Choices among three cuts, by any ranking.
ghost use Rattle.std.specs.Prelude.{◌≡◌, [], ◌∷◌, map};
ghost use Rattle.model.specs.Rankings.{first_by};
ghost use Rattle.rankings.specs.Candidates.{by_facts};
ghost use Rattle.buyer.specs.Picks.{numbered, first_of_three};

use crate::flat::Flat;
use rankings::{Candidate, CutFacts, Ranking, Shortlist, choose, offer};

// The three cuts, numbered from 0 in the order in which they were found: a literal, since each has a name of its own.
fn numbered(a: CutFacts, b: CutFacts, c: CutFacts) -> [Candidate<u8>; 3]
    ensures { result ≡ numbered a b c }
{
    [
        Candidate { item: 0, facts: a },
        Candidate { item: 1, facts: b },
        Candidate { item: 2, facts: c },
    ]
}

// The number of the first of three cuts.
pub fn pick<R: Ranking>(by: &R, a: CutFacts, b: CutFacts, c: CutFacts) -> u8
    ensures { result ∷ [] ≡ first_of_three (R.Ranking.before by.now) 1 a b c }
{
    let candidates = numbered(a, b, c);
    let mut places = [candidates[0]];
    let _ = choose(by, &candidates, &mut places);
    places[0].item
}

// Where nothing ranks before anything, the earliest stays first.
pub fn pick_flat(a: CutFacts, b: CutFacts, c: CutFacts) -> u8
    ensures { result ≡ 0 }
{
    pick(&Flat, a, b, c)
}

// The first two of three cuts, offered one by one.
pub fn pick_two<R: Ranking>(by: &R, a: CutFacts, b: CutFacts, c: CutFacts) -> [Candidate<u8>; 2]
    ensures { result ≡ first_by (by_facts (R.Ranking.before by.now)) 2 (numbered a b c) }
{
    let mut places = [Candidate { item: 0, facts: a }; 2];
    let mut list = Shortlist::new(&mut places);
    for candidate in numbered(a, b, c) {
        offer(&mut list, by, candidate);
    }
    places
}
