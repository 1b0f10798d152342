// Why a line of a text is refused.
ghost use Rattle.std.specs.Prelude.{◌≡◌, ℕ};
ghost use Rattle.model.specs.Sessions.{refusal_number};
ghost use Rattle.reading.specs.declared.faults.ReadFault.TheVariants as read_fault;
ghost use Rattle.reading.specs.Faults.{fault_in, refusal_at};

use lines::LineFault;
use sweeper::Refusal;

#[derive(Clone, Copy)]
pub enum ReadFault {
    // A rule for lines is broken.
    Line(LineFault),
    // The session declines the line's call.
    Session(Refusal),
}

impl ReadFault {
    // The number of the refusal, whatever the line.
    pub fn number(self) -> u8
        ensures { (k : ℕ) → result ≡ refusal_number (refusal_at k (fault_in self)) }
    {
        match self {
            ReadFault::Line(fault) => fault.number(),
            ReadFault::Session(refusal) => refusal.number(),
        }
    }
}

// Both conversions stand written out: `from_gives` tells the clauses which variant `?` makes, and a derive has no such member.
impl From<LineFault> for ReadFault {
    ghost from_gives = { λ e r. r ≡ read_fault.Line e };

    fn from(e: LineFault) -> ReadFault {
        ReadFault::Line(e)
    }
}

impl From<Refusal> for ReadFault {
    ghost from_gives = { λ e r. r ≡ read_fault.Session e };

    fn from(e: Refusal) -> ReadFault {
        ReadFault::Session(e)
    }
}

// The first line that is refused, and why.
pub type TextFault = lines::TextFault<ReadFault>;
