// Why a call declines.
ghost use Rattle.std.specs.Prelude.{◌≡◌};
ghost use Rattle.model.specs.Sessions.{refusal_number, refusal_value};
ghost use Rattle.sweeper.specs.Answers.{refusal_in};

#[derive(Clone, Copy, PartialEq, Eq, Debug)]
pub enum Refusal {
    // An edge names no node: 0 for the first or only edge, 1 for the second.
    NoNode(usize),
    // Input or gate with the source nodes at this capacity.
    AtCapacity(usize),
    // All of this many output rows are used.
    NoOutputRow(usize),
    // The signals do not number the inputs, of which there are this many.
    WrongSignals(usize),
    // The results, the marks or the rest of the page are shorter than this.
    TooShort(usize),
    // The cone has more gates than this cap.
    AboveCap(usize),
}

impl Refusal {
    // The number by which users know it.
    pub fn number(self) -> u8
        ensures { result ≡ refusal_number (refusal_in self) }
    {
        match self {
            Refusal::NoNode(_) => 1,
            Refusal::AtCapacity(_) => 2,
            Refusal::NoOutputRow(_) => 3,
            Refusal::WrongSignals(_) => 4,
            Refusal::TooShort(_) => 5,
            Refusal::AboveCap(_) => 6,
        }
    }

    // The value returned with the number.
    pub fn value(self) -> usize
        ensures { result ≡ refusal_value (refusal_in self) }
    {
        match self {
            Refusal::NoNode(which) => which,
            Refusal::AtCapacity(capacity) => capacity,
            Refusal::NoOutputRow(rows) => rows,
            Refusal::WrongSignals(inputs) => inputs,
            Refusal::TooShort(wanted) => wanted,
            Refusal::AboveCap(cap) => cap,
        }
    }
}
