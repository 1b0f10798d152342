// What a call answers, as it is printed.
use crate::shown::Shown;
use cuts::{Cut, Edge};
use search::ReducedRow;
use signals::Patterns;
use std::alloc::AllocError;
use std::fmt;
use std::fmt::Display;
use sweeper::{Refusal, Swept, Tally};

#[derive(Drop)]
pub(crate) enum Answer<'a> {
    Capacity(usize),
    Input(u16),
    Swept(Swept),
    Output(Edge),
    Map(Edge),
    Tally(Tally),
    Constant,
    // An input or a gate of the reduced graph, and the cuts that it keeps.
    Node(ReducedRow, &'a [Cut]),
    // The report, without the byte 10 at its end.
    List(String),
    // The signals of the filled places.
    Walk(Vec<Patterns>),
    // How many gates the cone has.
    Cone(usize),
}

impl Display for Answer<'_> {
    fn fmt<W: fmt::Write>(&self, f: &mut fmt::Formatter<W>) -> fmt::Result {
        match self {
            Answer::Capacity(nodes) => write!(f, "capacity={nodes}"),
            Answer::Input(node) => write!(f, "input={node}"),
            Answer::Swept(s) => write!(f, "{}={}", s.outcome, s.edge.number()),
            Answer::Output(e) => write!(f, "output={}", e.number()),
            Answer::Map(e) => write!(f, "map={}", e.number()),
            Answer::Tally(tally) => Shown(tally).fmt(f),
            Answer::Constant => write!(f, "node=constant height=0 uses=0"),
            Answer::Node(row, cuts) => {
                Shown(row).fmt(f)?;
                for cut in *cuts {
                    f.write_str(" ")?;
                    Shown(cut).fmt(f)?;
                }
                Ok(())
            }
            Answer::List(report) => write!(f, "{report}"),
            Answer::Walk(places) => {
                write!(f, "walk=")?;
                f.write_joined(places.iter().map(|place| Shown(place)), " ")
            }
            Answer::Cone(gates) => write!(f, "cone={gates}"),
        }
    }
}

// Why a call has no answer: the session declines it, or there is no memory for the answer.
#[derive(Drop)]
pub(crate) enum Fault {
    Declined(Refusal),
    Memory(AllocError),
}

impl From<Refusal> for Fault {
    fn from(e: Refusal) -> Fault {
        Fault::Declined(e)
    }
}

impl From<AllocError> for Fault {
    fn from(e: AllocError) -> Fault {
        Fault::Memory(e)
    }
}
