// A line written to what is left of a page.
ghost use Rattle.std.specs.Prelude.{◌≡◌, ◌≤◌, length};
ghost use Rattle.model.specs.Reports.{and as a_gate};
ghost use Rattle.model.specs.Texts.{line_text, written};
ghost use Rattle.pages.specs.Lines.{numbered, line_in};
ghost use Rattle.pages.specs.Page.{over, WritesAt};

use crate::line::{Key, Line};
use crate::parts::{Part, add};
use crate::short::{Short, check_room};

// Writes a key and a number to the front of out, and answers how long they are.
fn put_numbered(out: &mut [u8], key: Key, n: u32) -> usize
    requires { length (line_text (numbered key n)) ≤ length out.old }
    ensures value { result ≡ length (line_text (numbered key n)) }
    ensures after { out.new ≡ over (line_text (numbered key n)) out.old }
{
    let number = key.text().put(out);
    add(out, number, n)
}

// Writes the gate of two fanin edges to the front of out, and answers how long it is.
fn put_gate(out: &mut [u8], x: u32, y: u32) -> usize
    requires { length (line_text (a_gate x y)) ≤ length out.old }
    ensures value { result ≡ length (line_text (a_gate x y)) }
    ensures after { out.new ≡ over (line_text (a_gate x y)) out.old }
{
    let first = add::<&[u8]>(out, 0, b"and=");
    let comma = add(out, first, x);
    let second = add::<&[u8]>(out, comma, b",");
    add(out, second, y)
}

// Writes the line to the front of out, and answers how long it is.
fn put_line(out: &mut [u8], line: Line) -> usize
    requires { length (written (line_in line)) ≤ length out.old }
    ensures value { result ≡ length (written (line_in line)) }
    ensures after { out.new ≡ over (written (line_in line)) out.old }
{
    let end = match line {
        Line::Number(key, n) => put_numbered(out, key, n),
        Line::Gate(x, y) => put_gate(out, x, y),
    };
    add::<&[u8]>(out, end, b"\n")
}

// Writes the line from the place at on, and answers the place after it.
pub fn write_line(page: &mut [u8], at: usize, line: Line) -> Result<usize, Short>
    ensures { WritesAt at (written (line_in line)) page.old result page.new }
{
    check_room(page, at, line.length())?;
    Ok(at + put_line(&mut page[at..], line))
}
