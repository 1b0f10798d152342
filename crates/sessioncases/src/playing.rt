// Plays a script on a session of its own and counts the answers that are as written.
use crate::step::{Answer, Call, Script, Step};
use cuts::{Cut, Edge};
use search::ReducedRow;
use sweeper::{Refusal, Session, SourceRow, Tables};

// The lengths of the longest tables that a script may ask for; a longer table is cut to them.
const ROWS: usize = 256;

const CUTS: usize = 1024;

fn answer(session: &mut Session, call: Call) -> Result<Answer, Refusal> {
    let told = match call {
        Call::Input => Answer::Node(session.input()?),
        Call::Gate(by, a, b) => {
            let swept = by.gate(session, Edge::new(a), Edge::new(b))?;
            Answer::Swept(swept.outcome, swept.edge.number())
        }
        Call::Output(e) => Answer::Edge(session.output(Edge::new(e))?.number()),
        Call::Map(e) => Answer::Edge(session.map(Edge::new(e))?.number()),
    };
    Ok(told)
}

fn agreeing(session: &mut Session, steps: &[Step]) -> usize {
    steps
        .iter()
        .filter(|step| answer(session, step.0) == step.1)
        .count()
}

// How many answers of a script agree. Six arrays by hand: a struct that holds them would need six const parameters.
pub(crate) fn play(script: &Script) -> usize {
    let mut source = [SourceRow::EMPTY; ROWS];
    let mut reduced = [ReducedRow::EMPTY; ROWS];
    let mut cuts = [Cut::trivial(1); CUTS];
    let mut pairs = [None; ROWS];
    let mut keys = [None; CUTS];
    let mut outputs = [Edge::FALSE; ROWS];
    let mut session = Session::open(Tables {
        source: &mut source[..ROWS.min(script.source)],
        reduced: &mut reduced[..ROWS.min(script.reduced)],
        cuts: &mut cuts[..CUTS.min(script.cuts)],
        pairs: &mut pairs[..ROWS.min(script.pairs)],
        keys: &mut keys[..CUTS.min(script.keys)],
        outputs: &mut outputs[..ROWS.min(script.outputs)],
    });
    agreeing(&mut session, script.steps)
}
