// One more source gate, with the edge that it maps to.
ghost use Rattle.std.specs.Prelude.{◌≡◌, ◌-◌, ◌^◌, ◌<◌};
ghost use Rattle.sweeper.specs.Tallies.{count_of};
ghost use Rattle.sweeper.specs.Tables.{Sound, image, after_edge};

use crate::core_state::Core;
use crate::rows::SourceRow;
use crate::tally::Outcome;
use cuts::Edge;
use search::Node;

// What a gate call answers.
#[derive(Clone, Copy)]
pub struct Swept {
    pub outcome: Outcome,
    pub edge: Edge,
}

impl<'a> Core<'a> {
    pub(crate) fn accept(&mut self, a: Edge, b: Edge, outcome: Outcome, mapped: Edge) -> Swept
        requires sound { Sound (image self.old) }
        requires room { self.old.source.count < self.old.capacity }
        requires few { count_of self.old.tally outcome < 2 ^ 32 - 1 }
        ensures after { image self.new ≡ after_edge (image self.old) a b outcome mapped }
        ensures is { result ≡ record { outcome = outcome; edge = mapped } }
    {
        let _ = self.source.push(SourceRow {
            node: Node::Gate(a, b),
            mapped,
        });
        self.tally.note(outcome);
        Swept {
            outcome,
            edge: mapped,
        }
    }
}
