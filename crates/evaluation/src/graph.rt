ghost use Rattle.std.specs.Prelude.{◌≡◌, ◌≤◌, length};
ghost use Rattle.model.specs.Graphs.{input as an_input, inputs};
ghost use Rattle.model.specs.Sessions.{node_limit, walk_answer};
ghost use Rattle.sweeper.specs.Reports.{entry, node_told};
ghost use Rattle.evaluation.specs.Sides.{nodes_in, is_input};
ghost use Rattle.evaluation.specs.Walks.{told_places, room_answer};

use crate::side::Side;
use search::Node;
use sweeper::{Refusal, Session};

// One of the two graphs of a session.
#[derive(Clone, Copy)]
pub(crate) struct Graph<'s, 't> {
    pub(crate) session: &'s Session<'t>,
    pub(crate) side: Side,
}

impl Graph<'_, '_> {
    // How many nodes it has, the constant aside. A match on the side here and below: which graph is data of the call.
    pub(crate) fn nodes(&self) -> usize
        ensures count { result ≡ length (nodes_in self.now) }
        ensures few { result ≤ node_limit }
    {
        match self.side {
            Side::Source => self.session.source_nodes(),
            Side::Reduced => self.session.reduced_nodes(),
        }
    }

    // A node, unless it is the constant or past the last.
    pub(crate) fn node(&self, n: usize) -> Option<Node>
        ensures { node_told result ≡ entry an_input (nodes_in self.now) n }
    {
        match self.side {
            Side::Source => self.session.source_node(n),
            Side::Reduced => self.session.node(n).map(|row| row.node),
        }
    }

    // Whether it is a node, and an input.
    fn is_input(&self, n: usize) -> bool
        ensures { result ≡ is_input (entry an_input (nodes_in self.now) n) }
    {
        matches!(self.node(n), Some(Node::Input))
    }

    // How many inputs it has.
    pub(crate) fn inputs(&self) -> usize
        ensures { result ≡ inputs (nodes_in self.now) }
    {
        // From 0 on, so that no step tests for the constant; a sum of 0s and 1s, so that none branches.
        (0..self.nodes())
            .map(|n| usize::from(self.is_input(n + 1)))
            .sum()
    }

    // How many places a walk fills, if there are enough.
    pub(crate) fn check_room(&self, places: usize) -> Result<usize, Refusal>
        ensures { told_places result ≡ room_answer (nodes_in self.now) places }
    {
        let wanted = self.nodes() + 1;
        if places < wanted {
            return Err(Refusal::TooShort(wanted));
        }
        Ok(wanted)
    }

    // The same, if the signals number the inputs.
    pub(crate) fn check(&self, given: usize, places: usize) -> Result<usize, Refusal>
        ensures { told_places result ≡ walk_answer (nodes_in self.now) given places }
    {
        let inputs = self.inputs();
        if given != inputs {
            return Err(Refusal::WrongSignals(inputs));
        }
        self.check_room(places)
    }
}
