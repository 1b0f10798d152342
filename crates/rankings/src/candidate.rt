// What is ranked: an item, as a cut, beside its facts.
use crate::facts::CutFacts;

#[derive(Clone, Copy)]
pub struct Candidate<T> {
    pub item: T,
    pub facts: CutFacts,
}
