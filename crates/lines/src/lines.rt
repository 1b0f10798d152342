// The five kinds of line.
ghost use Rattle.std.specs.Prelude.{◌≡◌, ◌<◌};
ghost use Rattle.lines.specs.Shape.{Cuts, Splits, read_pair, read_line};

use crate::faults::LineFault;
use crate::numbers::read_number;

// A line of known shape. Its numbers have at most five digits; the reader looks at their size after the line's place.
#[derive(Clone, Copy, PartialEq, Eq, Debug)]
pub enum Line {
    Net(u32),
    Input(u32),
    Gate(u32, u32),
    Out(u32),
    End(u32),
}

// What a line begins with; the rules for the order of lines go by it, so it stands beside Line without numbers.
#[derive(Clone, Copy)]
pub enum Key {
    Net,
    Input,
    Gate,
    Out,
    End,
}

// What stands before and after a byte; a pair would not say which is which.
#[derive(Clone, Copy)]
pub struct Cut<'a> {
    pub before: &'a [u8],
    pub after: &'a [u8],
}

// The text cut at the first byte that equals the mark.
pub fn cut_at(text: &[u8], mark: u8) -> Option<Cut<'_>>
    ensures { Cuts mark text.now result }
{
    let at = text.iter().position(|b| *b == mark)?;
    Some(Cut {
        before: &text[..at],
        after: &text[at + 1..],
    })
}

// The key that the line begins with, and what follows it.
fn split_key(line: &[u8]) -> Option<(Key, &[u8])>
    ensures { Splits line.now result }
{
    match line {
        [b'n', b'e', b't', b'=', rest @ ..] => Some((Key::Net, rest)),
        [b'i', b'n', b'=', rest @ ..] => Some((Key::Input, rest)),
        [b'a', b'n', b'd', b'=', rest @ ..] => Some((Key::Gate, rest)),
        [b'o', b'u', b't', b'=', rest @ ..] => Some((Key::Out, rest)),
        [b'e', b'n', b'd', b'=', rest @ ..] => Some((Key::End, rest)),
        _ => None,
    }
}

// A number, a comma and a number.
fn read_pair(text: &[u8]) -> Result<Line, LineFault>
    ensures { result ≡ read_pair text.now }
{
    let Cut { before, after } = cut_at(text, b',').ok_or(LineFault::Shape)?;
    Ok(Line::Gate(read_number(before)?, read_number(after)?))
}

// One line, without its end.
pub fn read_line(line: &[u8]) -> Result<Line, LineFault>
    ensures { result ≡ read_line line.now }
{
    let (key, rest) = split_key(line).ok_or(LineFault::Shape)?;
    match key {
        Key::Net => Ok(Line::Net(read_number(rest)?)),
        Key::Input => Ok(Line::Input(read_number(rest)?)),
        Key::Gate => read_pair(rest),
        Key::Out => Ok(Line::Out(read_number(rest)?)),
        Key::End => Ok(Line::End(read_number(rest)?)),
    }
}
