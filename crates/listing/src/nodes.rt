// The lines of the reduced nodes.
ghost use Rattle.std.specs.Prelude.{◌≡◌, []};
ghost use Rattle.model.specs.Reports.{node_lines};
ghost use Rattle.sweeper.specs.Tables.{node_in};
ghost use Rattle.pages.specs.Lines.{line_in};
ghost use Rattle.listing.specs.Sections.{node_line};
ghost use Rattle.std.proofs.Common.{arith};
ghost use Rattle.sweeper.specs.Counted;
ghost use Rattle.sweeper.specs.States.{state_in};
ghost use Rattle.listing.specs.Listed.{nodes_count};

use crate::section::Section;
use pages::{Key, Line};
use search::Node;
use sweeper::Session;

#[derive(Clone, Copy)]
pub struct Nodes;

// An input with the number of its node, a gate with its fanin edges.
fn node_line(number: u32, node: Node) -> Line
    ensures { line_in result ≡ node_line number (node_in node) }
{
    match node {
        Node::Input => Line::Number(Key::In, number),
        Node::Gate(x, y) => Line::Gate(u32::from(x.number()), u32::from(y.number())),
    }
}

#[tactic(auto, using(crate::specs::Listed::nodes_count))]
impl Section for Nodes {
    ghost lines = { λ s. node_lines s.reduced };

    ghost closing = { λ _. [] };

    ghost few = { λ s. omega (arith, nodes_count (state_in s).reduced, (Counted.few (state_in s) s.reached).reduced) };

    fn count(session: &Session<'_>) -> usize {
        session.reduced_nodes()
    }

    fn line(session: &Session<'_>, k: usize) -> Option<Line> {
        let number = k.checked_add(1)?;
        let row = session.node(number)?;
        Some(node_line(number as u32, row.node))
    }

    fn closing_line(_session: &Session<'_>) -> Option<Line> {
        None
    }
}
