// How parts of an answer are printed, whose types are those of libraries below.
use cuts::Cut;
use search::{Node, ReducedRow};
use signals::Patterns;
use std::fmt;
use sweeper::{Outcome, Refusal, Tally};

#[derive(Clone, Copy)]
pub(crate) struct Shown<'a, T>(pub(crate) &'a T);

impl fmt::Display for Shown<'_, Refusal> {
    fn fmt<W: fmt::Write>(&self, f: &mut fmt::Formatter<W>) -> fmt::Result {
        write!(f, "refused={},{}", self.0.number(), self.0.value())
    }
}

impl fmt::Display for Shown<'_, Tally> {
    fn fmt<W: fmt::Write>(&self, f: &mut fmt::Formatter<W>) -> fmt::Result {
        write!(
            f,
            "tally={},{},{},{}",
            self.0.count(Outcome::Made),
            self.0.count(Outcome::Folded),
            self.0.count(Outcome::Shared),
            self.0.count(Outcome::Merged)
        )
    }
}

impl fmt::Display for Shown<'_, ReducedRow> {
    fn fmt<W: fmt::Write>(&self, f: &mut fmt::Formatter<W>) -> fmt::Result {
        match self.0.node {
            Node::Input => write!(f, "node=input")?,
            Node::Gate(a, b) => write!(f, "node={},{}", a.number(), b.number())?,
        }
        write!(
            f,
            " height={} uses={}",
            self.0.facts.height, self.0.facts.uses
        )
    }
}

// The leaves in rising number, and the table.
impl fmt::Display for Shown<'_, Cut> {
    fn fmt<W: fmt::Write>(&self, f: &mut fmt::Formatter<W>) -> fmt::Result {
        f.write_joined(self.0.leaves().iter(), ",")?;
        write!(f, ":{:04X}", self.0.table())
    }
}

impl fmt::Display for Shown<'_, Patterns> {
    fn fmt<W: fmt::Write>(&self, f: &mut fmt::Formatter<W>) -> fmt::Result {
        write!(f, "{:016X}", self.0.word)
    }
}
