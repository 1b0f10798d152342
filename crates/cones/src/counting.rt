//! One pass down the nodes, from marks to fanin marks.
ghost use Rattle.std.specs.Prelude.{◌≡◌, ◌<◌, ◌≤◌, length, if◌then◌else◌};
ghost use Rattle.model.specs.Graphs.{at, input, rests_on, gates_that};
ghost use Rattle.sweeper.specs.States.{state_in};
ghost use Rattle.cones.specs.Marks.{is_reached, with_fanins};
ghost use Rattle.cones.specs.Cones.{fanin_nodes, capped};

use search::Node;
use sweeper::{Refusal, Session};

// The nodes of a gate's fanins.
fn fanins(session: &Session<'_>, node: usize) -> Option<(usize, usize)>
    ensures { result ≡ fanin_nodes (at input (state_in session.now).reduced node) }
{
    match session.node(node)?.node {
        Node::Gate(x, y) => Some((x.node() as usize, y.node() as usize)),
        Node::Input => None,
    }
}

// Marks the fanins of a marked gate, and answers whether the node is one.
// Session and marks stay two parameters: the marks are the caller's, whose guard holds them.
fn spread(session: &Session<'_>, marks: &mut [u8], node: usize) -> bool
    requires room { length (state_in session.now).reduced < length marks.old }
    requires known { node ≤ length (state_in session.now).reduced }
    ensures is { result ≡ is_reached (state_in session.now).reduced marks.old node }
    ensures marked { marks.new ≡ (if result then with_fanins (at input (state_in session.now).reduced node) marks.old else marks.old) }
{
    if marks[node] != 1 {
        return false;
    }
    let Some((x, y)) = fanins(session, node) else {
        return false;
    };
    marks[x] = 1;
    marks[y] = 1;
    true
}

// The gates that a node rests on, itself included, or a refusal if they are more than the cap.
// Fanins are earlier nodes, so one pass down meets every gate after all that have it as a fanin.
pub(crate) fn count(
    session: &Session<'_>,
    marks: &mut [u8],
    top: usize,
    cap: usize,
) -> Result<usize, Refusal>
    requires room { length (state_in session.now).reduced < length marks.old }
    requires known { top ≤ length (state_in session.now).reduced }
    ensures { result ≡ capped (gates_that (rests_on (state_in session.now).reduced top) (state_in session.now).reduced) cap }
{
    marks.fill(0);
    marks[top] = 1;
    let mut gates = 0;
    // No chain counts here: each visit marks further nodes, and the count ends at the cap.
    for node in (1..=top).rev() {
        if spread(session, marks, node) {
            if gates >= cap {
                return Err(Refusal::AboveCap(cap));
            }
            gates += 1;
        }
    }
    Ok(gates)
}
