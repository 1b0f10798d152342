// What a session tells of itself: its counts, its tally, and the nodes of the reduced graph with the cuts that they keep.
ghost use Rattle.std.specs.Prelude.{◌≡◌, [], map, length};
ghost use Rattle.model.specs.Graphs.{at};
ghost use Rattle.lent.specs.Lists.{listed};
ghost use Rattle.cuts.specs.Meaning.{meaning};
ghost use Rattle.model.specs.Graphs.{input as an_input};
ghost use Rattle.sweeper.specs.Tables.{image, state_of};
ghost use Rattle.sweeper.specs.Answers.{numbered};
ghost use Rattle.sweeper.specs.Tallies.{tallied};
ghost use Rattle.sweeper.specs.Reports.{described, described_in, entry, node_told};

use crate::session::Session;
use crate::tally::Tally;
use cuts::{Cut, Edge};
use lent::LentList;
use search::{KEPT, Node, ReducedRow};

// The row of a number, counted from 1, if there is one.
fn row_at<T: Copy>(rows: &LentList<T>, number: usize) -> Option<T>
    ensures { (d : T) → result ≡ Rattle.sweeper.specs.Reports.row_at d (listed rows.now) (length (listed rows.now)) number }
{
    rows.get(number.checked_sub(1)?)
}

impl<'a> Session<'a> {
    // The most nodes that the tables hold.
    pub fn capacity(&self) -> usize
        ensures { result ≡ (state_of (image self.now.core)).capacity }
    {
        self.core.capacity
    }

    pub fn source_nodes(&self) -> usize
        ensures { result ≡ length (state_of (image self.now.core)).source }
    {
        self.core.source.len()
    }

    pub fn reduced_nodes(&self) -> usize
        ensures { result ≡ length (state_of (image self.now.core)).reduced }
    {
        self.core.reduced.len()
    }

    pub fn outputs(&self) -> usize
        ensures { result ≡ length (state_of (image self.now.core)).outputs }
    {
        self.core.outputs.len()
    }

    pub fn tally(&self) -> Tally
        ensures { tallied result ≡ (state_of (image self.now.core)).tally }
    {
        self.core.tally
    }

    // A reduced node, unless it is the constant or past the last.
    pub fn node(&self, node: usize) -> Option<ReducedRow>
        ensures { described result ≡ described_in (state_of (image self.now.core)) node }
    {
        row_at(&self.core.reduced, node)
    }

    // The cuts that a reduced node keeps, in kept order; none for what is no node.
    pub fn kept_cuts(&self, node: usize) -> &[Cut]
        ensures { map meaning result.now ≡ at [] (state_of (image self.now.core)).kept node }
    {
        let Some(row) = self.node(node) else {
            return &[];
        };
        // The cut rows of all nodes are one lent table, four to a node.
        let first = KEPT * (node - 1);
        &self.core.cuts[first..first + row.kept]
    }

    // A source node, unless it is the constant or past the last.
    pub fn source_node(&self, node: usize) -> Option<Node>
        ensures { node_told result ≡ entry an_input (state_of (image self.now.core)).source node }
    {
        row_at(&self.core.source, node).map(|row| row.node)
    }

    // The reduced edge of a source node, unless it is the constant or past the last.
    pub fn mapped(&self, node: usize) -> Option<Edge>
        ensures { numbered result ≡ entry 0 (state_of (image self.now.core)).mapped node }
    {
        row_at(&self.core.source, node).map(|row| row.mapped)
    }

    // The mapped edge of an output, counted from 1.
    pub fn output_edge(&self, rank: usize) -> Option<Edge>
        ensures { numbered result ≡ entry 0 (state_of (image self.now.core)).outputs rank }
    {
        row_at(&self.core.outputs, rank)
    }
}
