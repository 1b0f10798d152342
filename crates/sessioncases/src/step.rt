// One call of a session with the answer that it must get.
use ranked::RankedBy;
use sweeper::{Outcome, Refusal};

#[derive(Clone, Copy)]
pub enum Call {
    Input,
    Gate(RankedBy, u16, u16),
    Output(u16),
    Map(u16),
}

#[derive(Clone, Copy, PartialEq, Eq)]
pub enum Answer {
    Node(u16),
    Swept(Outcome, u16),
    Edge(u16),
}

#[derive(Clone, Copy)]
pub struct Step(pub Call, pub Result<Answer, Refusal>);

// The lengths of the six tables, and the calls.
#[derive(Clone, Copy)]
pub struct Script {
    pub source: usize,
    pub reduced: usize,
    pub cuts: usize,
    pub pairs: usize,
    pub keys: usize,
    pub outputs: usize,
    pub steps: &'static [Step],
}
