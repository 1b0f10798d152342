//! Cuts: edges, leaves, truth tables, stretching, masked leaves, joining and keys.
//! Tables are worked on as whole words, by the masks of their positions.
#![tactic(auto)]

mod cut;
mod edge;
mod equality;
mod hashing;
mod joining;
mod key;
mod keying;
mod leaves;
mod outcome;
mod sizes;
mod squeezing;
mod stretching;
mod trivial;
mod uniting;
mod words;

pub use cut::Cut;
pub use edge::Edge;
pub use joining::{SignedCut, join};
pub use key::CutKey;
pub use leaves::Leaves;
pub use outcome::Squeezed;
pub use sizes::{MASKS, POSITIONS, Table};
pub use words::is_masked;
