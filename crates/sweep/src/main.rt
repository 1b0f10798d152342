// Checks a net text from standard input and prints its outline, or the number and the line of its refusal.
// The rules for texts are in the library netlist; here is what is read, printed and told to the shell.
#![tactic(auto)]

ghost use Rattle.std.specs.Prelude.{◌≡◌};
ghost use Rattle.sweep.specs.declared.Refusal.TheVariants as refusals;
ghost use Rattle.sweep.specs.Judging.{number_of, line_of, judged};

use input::read_front;
use netlist::{Outline, TextFault};
use std::process::ExitCode;
use std::{fmt, io};

// The longest input that is taken.
const MOST: usize = 16384;

// Why there is no outline. Beside that of `netsweep`, whose texts have a session's faults too: they share two numbers and no type.
#[derive(Clone, Copy, PartialEq, Eq, Debug)]
enum Refusal {
    // The input is longer than the longest.
    TooLong,
    // A line of the text is refused.
    Text(TextFault),
}

impl Refusal {
    // The number by which users know it.
    fn number(self) -> u8
        ensures { result ≡ number_of self }
    {
        match self {
            Refusal::TooLong => 5,
            Refusal::Text(e) => e.fault.number(),
        }
    }

    // The line that is to blame, or 0 for the input as a whole.
    fn line(self) -> usize
        ensures { result ≡ line_of self }
    {
        match self {
            Refusal::TooLong => 0,
            Refusal::Text(e) => e.line,
        }
    }
}

impl fmt::Display for Refusal {
    fn fmt<W: fmt::Write>(&self, f: &mut fmt::Formatter<W>) -> fmt::Result {
        write!(f, "refused={}\nline={}\n", self.number(), self.line())
    }
}

impl From<TextFault> for Refusal {
    ghost from_gives = { λ e r. r ≡ refusals.Text e };

    fn from(e: TextFault) -> Refusal {
        Refusal::Text(e)
    }
}

// The answer for an input.
fn judge(text: &[u8]) -> Result<Outline, Refusal>
    ensures { result ≡ judged text.now }
{
    if text.len() > MOST {
        return Err(Refusal::TooLong);
    }
    Ok(netlist::read_text(text)?)
}

fn print_outline(rt: &HostRuntime, outline: Outline) -> io::Result<()> {
    println!(rt; "inputs={}", outline.inputs)?;
    println!(rt; "gates={}", outline.gates)?;
    println!(rt; "outs={}", outline.outs)?;
    println!(rt; "end={}", outline.end)
}

// One byte more than the longest input is enough to refuse it. Its arms print what this program alone prints, so it stands here.
fn run(rt: &HostRuntime) -> io::Result<ExitCode> {
    let text = read_front(rt.alloc(), rt.stdin(), MOST as u64 + 1)?;
    match judge(&text) {
        Ok(outline) => {
            print_outline(rt, outline)?;
            Ok(ExitCode::SUCCESS)
        }
        Err(refusal) => {
            rt.print(refusal)?;
            Ok(ExitCode::FAILURE)
        }
    }
}

// Writes nothing to standard error, whatever the failure.
fn main(rt: HostRuntime) -> ExitCode {
    run(&rt).unwrap_or(ExitCode::FAILURE)
}

#[cfg(test)]
mod tests {
    use super::*;

    // The number and the line of the refusal, or zeros.
    fn refused(text: &[u8]) -> (u8, usize) {
        match judge(text) {
            Ok(_) => (0, 0),
            Err(refusal) => (refusal.number(), refusal.line()),
        }
    }

    #[test]
    fn smallest_texts(rt: HostRuntime) {
        assert_eq!(rt; refused(b"net=1\nend=0\n"), (0, 0));
        assert_eq!(rt; refused(b""), (8, 1));
        assert_eq!(rt; refused(b"\n"), (7, 1));
        assert_eq!(rt; refused(b"net=2\n"), (9, 1));
        assert_eq!(rt; refused(b"net=1\n"), (8, 2));
        assert_eq!(rt; refused(b"net=1\nend=0"), (7, 2));
        assert_eq!(rt; refused(b"net=1\nnet=99999\n"), (8, 2));
    }

    #[test]
    fn longest_input(rt: HostRuntime) {
        assert_eq!(rt; refused(&[10; MOST]), (7, 1));
        assert_eq!(rt; refused(&[10; MOST + 1]), (5, 0));
    }
}
