// What the cuts of both fanins decide.
ghost use Rattle.std.specs.Prelude.{◌≡◌, ◌≤◌, [], map, length};
ghost use Rattle.model.specs.Edges.{node_of};
ghost use Rattle.model.specs.Graphs.{at};
ghost use Rattle.cuts.specs.Meaning.{meaning};
ghost use Rattle.search.specs.Decisions.{decision_of, kept_by};
ghost use Rattle.sweeper.specs.Tables.{image, kept_of, by_cuts};

use crate::session::Session;
use cuts::{Cut, Edge, POSITIONS};
use rankings::Ranking;
use search::{Decision, Fanin};

impl<'a> Session<'a> {
    // An edge of the reduced graph, with the cuts that its node keeps.
    fn fanin(&self, edge: Edge) -> Fanin<'_>
        ensures is { result.edge ≡ edge }
        ensures cuts { map meaning result.cuts.now ≡ at [] (kept_of (image self.now.core)) (node_of edge.number) }
    {
        Fanin {
            edge,
            cuts: self.kept_cuts(edge.node() as usize),
        }
    }

    // The decision of the search, which writes a new gate's cuts to the first places of `kept`.
    pub(crate) fn decide<R: Ranking>(&self, by: &R, x: Edge, y: Edge, kept: &mut [Cut]) -> Decision
        requires places { length kept.old ≡ 4 }
        ensures is { decision_of result kept.new ≡ by_cuts (R.Ranking.before by.now) (image self.now.core) x.number y.number }
        ensures few { kept_by result ≤ 4 }
    {
        search::decide(
            by,
            &self.fanin(x),
            &self.fanin(y),
            POSITIONS,
            &self.core.keys,
            self.core.reduced.items(),
            kept,
        )
    }
}
