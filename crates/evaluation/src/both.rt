ghost use Rattle.std.specs.Prelude.{◌≡◌, length};
ghost use Rattle.sweeper.specs.States.{state_in};
ghost use Rattle.evaluation.specs.Both.{both_answer, AgreeBy};
ghost use Rattle.evaluation.specs.Walks.{told_places, WalkedBy};

use crate::graph::Graph;
use crate::side::Side;
use signals::Signal;
use sweeper::{Refusal, Session};

// Walks both graphs with the same signals: every source node then has the signal of its mapped edge, in every lane.
// Answers how many source signals that holds of, the constant's among them; where it is refused, every place stays as it was.
pub fn walk_both<S: Signal>(
    session: &Session<'_>,
    given: &[S],
    source: &mut [S],
    reduced: &mut [S],
) -> Result<usize, Refusal>
    ensures answer { told_places result ≡ both_answer (state_in session.now) (length given.now) (length source.old) (length reduced.old) }
    ensures source { WalkedBy S.Signal result (state_in session.now).source given.now source.old source.new }
    ensures reduced { WalkedBy S.Signal result (state_in session.now).reduced given.now reduced.old reduced.new }
    ensures agree { AgreeBy S.Signal result (state_in session.now) source.new reduced.new }
{
    let source_graph = Graph {
        session,
        side: Side::Source,
    };
    let reduced_graph = Graph {
        session,
        side: Side::Reduced,
    };
    let count = source_graph.check(given.len(), source.len())?;
    reduced_graph.check_room(reduced.len())?;
    source_graph.fill(given, source);
    reduced_graph.fill(given, reduced);
    Ok(count)
}
