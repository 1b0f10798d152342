// The rankings that a call can name, and the gate call by the one that it names.
#![tactic(auto)]

ghost use Rattle.std.specs.Prelude.{◌≡◌};
ghost use Rattle.sweeper.specs.Tables.{image, state_of, Rest};
ghost use Rattle.sweeper.specs.Answers.{told_swept, GateExtends, Refused};
ghost use Rattle.ranked.specs.Named.{before_of, mark_of};

use buyer::Flat;
use cuts::Edge;
use rankings::{ByGateLeaves, ByHeight, ByUses};
use sweeper::{Refusal, Session, Swept};

// What the cuts of a gate are ranked by.
#[derive(Clone, Copy)]
pub enum RankedBy {
    Height,
    GateLeaves,
    Uses,
    Nothing,
}

impl RankedBy {
    // Sweeps a gate by this ranking. A match: each kind is a type with a mark of its own, so no one value stands for all of them.
    pub fn gate(self, session: &mut Session<'_>, a: Edge, b: Edge) -> Result<Swept, Refusal>
        ensures runs { GateExtends (before_of self) (mark_of self) (state_of (image session.old.core)) a.number b.number (state_of (image session.new.core)) (told_swept result) }
        ensures rest { Rest (image session.old.core) (image session.new.core) }
        ensures refused { Refused result (image session.new.core ≡ image session.old.core) }
    {
        match self {
            RankedBy::Height => session.gate(&ByHeight, a, b),
            RankedBy::GateLeaves => session.gate(&ByGateLeaves, a, b),
            RankedBy::Uses => session.gate(&ByUses, a, b),
            RankedBy::Nothing => session.gate(&Flat, a, b),
        }
    }
}
