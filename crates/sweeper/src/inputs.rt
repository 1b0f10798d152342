// One more input.
ghost use Rattle.std.specs.Prelude.{◌≡◌};
ghost use Rattle.model.specs.RunLaws.{Extends};
ghost use Rattle.model.specs.Sessions.{input_call, positions};
ghost use Rattle.sweeper.specs.Tables.{image, state_of, Rest};
ghost use Rattle.sweeper.specs.Answers.{told_node, Refused};

use crate::refusal::Refusal;
use crate::rows::SourceRow;
use crate::session::Session;
use cuts::Edge;
use search::{Node, ReducedRow};

impl<'a> Session<'a> {
    // Adds an input to both graphs and answers its source node.
    pub fn input(&mut self) -> Result<u16, Refusal>
        ensures runs { Extends positions (state_of (image self.old.core)) input_call (state_of (image self.new.core)) (told_node result) }
        ensures rest { Rest (image self.old.core) (image self.new.core) }
        ensures refused { Refused result (image self.new.core ≡ image self.old.core) }
    {
        let core = &mut self.core;
        let at = core.source.len();
        if at >= core.capacity {
            return Err(Refusal::AtCapacity(core.capacity));
        }
        let mapped = Edge::new(2 * (core.reduced.len() as u16 + 1));
        let _ = core.reduced.push(ReducedRow::EMPTY);
        let _ = core.source.push(SourceRow {
            node: Node::Input,
            mapped,
        });
        Ok(at as u16 + 1)
    }
}
