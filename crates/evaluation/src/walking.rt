ghost use Rattle.std.specs.Prelude.{◌≡◌, length};
ghost use Rattle.model.specs.RunLaws.{Extends};
ghost use Rattle.model.specs.Sessions.{positions, walk_call};
ghost use Rattle.sweeper.specs.States.{state_in};
ghost use Rattle.evaluation.specs.Sides.{graph_in, side_in};
ghost use Rattle.evaluation.specs.Walks.{told_places, WalkedBy};

use crate::graph::Graph;
use crate::side::Side;
use signals::Signal;
use sweeper::{Refusal, Session};

// Writes every node's signal to the place of its number, the constant's to place 0, and answers how many places that took.
// Signals go to inputs in their order of arrival. Later places stay as they were, and so does every place where the walk is refused.
pub fn walk<S: Signal>(
    session: &Session<'_>,
    side: Side,
    given: &[S],
    places: &mut [S],
) -> Result<usize, Refusal>
    ensures runs { Extends positions (state_in session.now) (walk_call (side_in side) (length given.now) (length places.old)) (state_in session.now) (told_places result) }
    ensures places { WalkedBy S.Signal result (graph_in side session.now) given.now places.old places.new }
{
    let graph = Graph { session, side };
    let count = graph.check(given.len(), places.len())?;
    graph.fill(given, places);
    Ok(count)
}
