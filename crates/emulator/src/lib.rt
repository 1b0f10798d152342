// A client outside the sweeper: it loads a small design with two rankings of its own, evaluates it and audits the session.
// Its contract says that exactly these calls form a run, and that the run keeps the laws.
#![tactic(auto)]

ghost use Rattle.std.specs.Prelude.{[]};
ghost use Rattle.model.specs.Runs.{Run};
ghost use Rattle.model.specs.Sessions.{Tables as Lengths, positions, lean};
ghost use Rattle.sweeper.specs.States.{state_in};
ghost use Rattle.emulator.specs.Loading.{Loads, Loaded};

use buyer::{ByHighest, Flat};
use cuts::{Cut, Edge};
use evaluation::{Findings, Side, audit, walk};
use search::{KEPT, ReducedRow};
use signals::Patterns;
use sweeper::{Session, SourceRow, Tables};

// As many nodes as the design has.
const NODES: usize = 5;

const CUTS: usize = KEPT * NODES;

const OUTPUTS: usize = 1;

// A place for each node and for the constant.
const PLACES: usize = NODES + 1;

// The exclusive-nor of two inputs as an output, evaluated on all four patterns.
fn load_into(session: &mut Session<'_>) -> Findings
    ensures { (t : Lengths) → Run positions lean t [] (state_in session.old) → Loads t result }
{
    // The answers are let go: the run tells them, and on the design's own tables it refuses none.
    let _ = session.input();
    let _ = session.input();
    let _ = session.gate(&ByHighest, Edge::new(2), Edge::new(5));
    let _ = session.gate(&Flat, Edge::new(3), Edge::new(4));
    let _ = session.gate(&ByHighest, Edge::new(7), Edge::new(9));
    let _ = session.output(Edge::new(10));
    let given = [Patterns { word: 0b1010 }, Patterns { word: 0b1100 }];
    let mut places = [Patterns { word: 0 }; PLACES];
    let _ = walk(session, Side::Reduced, &given, &mut places);
    audit(session)
}

// Loads the design into a session of its size and tells what the audit finds.
// Six arrays by hand: a struct that holds them would need six const parameters.
pub fn load_design() -> Findings
    ensures { Loaded result }
{
    let mut source = [SourceRow::EMPTY; NODES];
    let mut reduced = [ReducedRow::EMPTY; NODES];
    let mut cuts = [Cut::trivial(0); CUTS];
    let mut pairs = [None; NODES];
    let mut keys = [None; CUTS];
    let mut outputs = [Edge::FALSE; OUTPUTS];
    let mut session = Session::open(Tables {
        source: &mut source,
        reduced: &mut reduced,
        cuts: &mut cuts,
        pairs: &mut pairs,
        keys: &mut keys,
        outputs: &mut outputs,
    });
    load_into(&mut session)
}
