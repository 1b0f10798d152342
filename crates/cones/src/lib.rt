//! How many gates a reduced edge rests on.
#![tactic(auto)]

ghost use Rattle.std.specs.Prelude.{length};
ghost use Rattle.model.specs.Edges.{node_of};
ghost use Rattle.model.specs.RunLaws.{Extends};
ghost use Rattle.model.specs.Sessions.{positions, cone_call};
ghost use Rattle.sweeper.specs.States.{state_in};
ghost use Rattle.cones.specs.Cones.{told_count, ConeTold, MarksAfter};
ghost use Rattle.cones.specs.Paths.{ConesArePaths};

mod counting;
mod marks;

use crate::counting::count;
use crate::marks::Wipe;
use cuts::Edge;
use sweeper::{Refusal, Session};

/// The gates that a reduced edge rests on, its own node included, each counted once.
/// Every mark is 0 at the end, whatever was counted; a call refused for its edge or for too few marks leaves the marks.
pub fn cone(session: &Session<'_>, e: Edge, marks: &mut [u8], cap: usize) -> Result<usize, Refusal>
    ensures runs { Extends positions (state_in session.now) (cone_call e.number (length marks.old) cap) (state_in session.now) (told_count result) }
    ensures paths { ConeTold (state_in session.now).reduced (node_of e.number) cap result }
    ensures marked { MarksAfter marks.old marks.new result }
{
    let node = e.node() as usize;
    let nodes = session.reduced_nodes();
    if node > nodes {
        return Err(Refusal::NoNode(0));
    }
    if marks.len() <= nodes {
        return Err(Refusal::TooShort(nodes + 1));
    }
    let guard = Wipe { marks };
    count(session, guard.marks, node, cap)
}

/// A node rests on what a path of fanins leads to, and a cone has the gates among that.
pub fn cones_are_paths()
    ensures { ConesArePaths }
{}
