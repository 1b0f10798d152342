// Rankings of cuts, by the heights and uses of their leaves, and the choice of the first few by any ranking.
// A ranking of one's own is an impl of `Ranking`: its relation, its mark, and the proofs of four laws.
#![tactic(auto)]

mod candidate;
mod choosing;
mod facts;
mod kinds;
mod rank;
mod shortlist;
mod sums;

pub use candidate::Candidate;
pub use choosing::choose;
pub use facts::{CutFacts, LeafFacts, MAX_LEAVES};
pub use kinds::{ByGateLeaves, ByHeight, ByUses};
pub use rank::{Ranking, keeps_the_laws};
pub use shortlist::{Shortlist, offer};
