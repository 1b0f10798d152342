// Source edges: which are accepted, and where they map to.
ghost use Rattle.std.specs.Prelude.{◌≡◌};
ghost use Rattle.model.specs.RunLaws.{Extends};
ghost use Rattle.model.specs.Sessions.{map_call, output_call, positions};
ghost use Rattle.sweeper.specs.Tables.{image, state_of, Rest};
ghost use Rattle.sweeper.specs.Answers.{told_edge, mapped_by, Refused};

use crate::refusal::Refusal;
use crate::session::Session;
use cuts::Edge;

impl<'a> Session<'a> {
    // The reduced edge of an accepted source edge, which is the first or the second of a call.
    pub(crate) fn mapped_edge(&self, e: Edge, which: usize) -> Result<Edge, Refusal>
        ensures { result ≡ mapped_by (state_of (image self.now.core)) e which }
    {
        let node = e.node() as usize;
        let plain = if node == 0 {
            Edge::FALSE
        } else {
            self.mapped(node).ok_or(Refusal::NoNode(which))?
        };
        Ok(plain.complement_if(e.sign()))
    }

    // The reduced edge of an accepted source edge.
    pub fn map(&self, e: Edge) -> Result<Edge, Refusal>
        ensures { Extends positions (state_of (image self.now.core)) (map_call e.number) (state_of (image self.now.core)) (told_edge result) }
    {
        self.mapped_edge(e, 0)
    }

    // Makes an accepted source edge an output and answers its reduced edge.
    pub fn output(&mut self, e: Edge) -> Result<Edge, Refusal>
        ensures runs { Extends positions (state_of (image self.old.core)) (output_call e.number) (state_of (image self.new.core)) (told_edge result) }
        ensures rest { Rest (image self.old.core) (image self.new.core) }
        ensures refused { Refused result (image self.new.core ≡ image self.old.core) }
    {
        let mapped = self.mapped_edge(e, 0)?;
        if self.core.outputs.push(mapped) {
            Ok(mapped)
        } else {
            Err(Refusal::NoOutputRow(self.core.outputs.len()))
        }
    }
}
