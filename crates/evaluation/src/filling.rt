ghost use Rattle.std.specs.Prelude.{◌≡◌, ◌<◌, length};
ghost use Rattle.model.specs.Edges.{node_of};
ghost use Rattle.model.specs.Graphs.{inputs};
ghost use Rattle.evaluation.specs.Sides.{nodes_in};
ghost use Rattle.evaluation.specs.Walks.{kind_of, edge_over, Walked};

use crate::graph::Graph;
use cuts::Edge;
use search::Node;
use signals::{Signal, edge_signal};

// The signal of an edge, from the places of the nodes.
fn edge_at<S: Signal>(places: &[S], e: Edge) -> S
    requires { node_of e.number < length places.now }
    ensures { result ≡ edge_over (kind_of S.Signal) places.now e.number }
{
    edge_signal(places[e.node() as usize], e.sign())
}

impl Graph<'_, '_> {
    // Writes every node's signal to its place, the constant's first; signals go to inputs in their order of arrival.
    pub(crate) fn fill<S: Signal>(&self, given: &[S], places: &mut [S])
        requires given { length given.now ≡ inputs (nodes_in self.now) }
        requires room { length (nodes_in self.now) < length places.old }
        ensures { Walked S.Signal (nodes_in self.now) given.now places.old places.new }
    {
        places[0] = S::falsity();
        let mut left = given.iter();
        // Each number up to the last has a node, and there is a signal for each input.
        for n in 0..self.nodes() {
            let signal = match self.node(n + 1).unwrap() {
                Node::Input => *left.next().unwrap(),
                Node::Gate(a, b) => edge_at(places, a).and(edge_at(places, b)),
            };
            places[n + 1] = signal;
        }
    }
}
