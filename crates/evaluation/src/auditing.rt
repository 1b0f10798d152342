ghost use Rattle.std.specs.Prelude.{◌≡◌, true};
ghost use Rattle.sweeper.specs.Runs.{Reached};
ghost use Rattle.sweeper.specs.States.{state_in};
ghost use Rattle.evaluation.specs.Audits.{Tells, KeepsLaws, Completes};

use crate::graph::Graph;
use crate::side::Side;
use cuts::POSITIONS;
use sweeper::{Session, Tally};

// The most inputs of which every equal function is found, where all rankings put inputs first.
const LEAVES: usize = POSITIONS;

// A session as a whole.
#[derive(Clone, Copy)]
pub struct Findings {
    pub inputs: usize,
    pub source_nodes: usize,
    pub reduced_nodes: usize,
    pub outputs: usize,
    pub tally: Tally,
    // Whether the inputs are few enough for completeness.
    pub few_inputs: bool,
}

// Tells a session's counts. Some run of calls leads to the session, and every run that does keeps all the laws.
pub fn audit(session: &Session<'_>) -> Findings
    ensures tells { Tells (state_in session.now) result }
    ensures reached { Reached (state_in session.now) }
    ensures laws { KeepsLaws (state_in session.now) }
    ensures complete { result.few_inputs ≡ true → Completes (state_in session.now) }
{
    let source = Graph {
        session,
        side: Side::Source,
    };
    let inputs = source.inputs();
    Findings {
        inputs,
        source_nodes: session.source_nodes(),
        reduced_nodes: session.reduced_nodes(),
        outputs: session.outputs(),
        tally: session.tally(),
        few_inputs: inputs <= LEAVES,
    }
}
