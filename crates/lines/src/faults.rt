// Why a line is refused, and at which line of a text.
ghost use Rattle.std.specs.Prelude.{◌≡◌};
ghost use Rattle.lines.specs.Faults.{line_refusal, at_line};

// A rule for lines that is broken.
#[derive(Clone, Copy, PartialEq, Eq, Debug)]
pub enum LineFault {
    // The line has no known shape.
    Shape,
    // The line is out of place, or there is no end line.
    Place,
    // A number is above the limit, or is not the one due.
    Number,
}

impl LineFault {
    // The number of the refusal.
    pub fn number(self) -> u8
        ensures { result ≡ line_refusal self }
    {
        match self {
            LineFault::Shape => 7,
            LineFault::Place => 8,
            LineFault::Number => 9,
        }
    }
}

// The first line of a text that is refused, counted from 1, and why.
#[derive(Clone, Copy, PartialEq, Eq, Debug)]
pub struct TextFault<F> {
    pub line: usize,
    pub fault: F,
}

// A fault with its line.
pub fn at_line<T, F>(line: usize, r: Result<T, F>) -> Result<T, TextFault<F>>
    ensures { result ≡ at_line line r }
{
    r.map_err(|fault| TextFault { line, fault })
}
