// The order of the lines, and the numbers due.
ghost use Rattle.std.specs.Prelude.{◌≡◌, if◌then◌else◌, Ok, Err};
ghost use Rattle.lines.specs.declared.faults.LineFault.TheVariants as line_fault;
ghost use Rattle.lines.specs.Order.{in_range, is_due, arrives, finished};
ghost use Rattle.lines.specs.Position.{begun, position_of, Lands, Moves};

use crate::faults::LineFault;
use crate::lines::{Cut, Line, cut_at, read_line};
use crate::reader::{Place, Reader};

const LARGEST: u32 = 32767;

// Refuses a number above the largest.
fn limited(n: u32) -> Result<(), LineFault>
    ensures { result ≡ (if in_range n then Ok tt else Err line_fault.Number) }
{
    (n <= LARGEST).then_some(()).ok_or(LineFault::Number)
}

// Refuses a number that is not the one due.
fn expect(n: u32, due: usize) -> Result<(), LineFault>
    ensures { result ≡ (if is_due n due then Ok tt else Err line_fault.Number) }
{
    limited(n)?;
    (n as usize == due).then_some(()).ok_or(LineFault::Number)
}

impl<'a> Reader<'a> {
    // At the first line of a text.
    pub fn new(text: &'a [u8]) -> Reader<'a>
        ensures { position_of result ≡ begun text.now }
    {
        Reader {
            place: Place::Start,
            passed: 0,
            rest: text,
        }
    }

    // The number of the next line, counted from 1.
    pub fn line(&self) -> usize
        ensures { result ≡ (position_of self.now).line }
    {
        self.passed + 1
    }

    // A line that is in place moves on to the next place, if its numbers are those due after so many nodes.
    fn arrive(&mut self, line: Line, nodes: usize) -> Result<(), LineFault>
        ensures { Lands (arrives (position_of self.old).place nodes line) (position_of self.old) result (position_of self.new) }
    {
        match (line, self.place) {
            (Line::Net(n), Place::Start) => {
                expect(n, 1)?;
                self.place = Place::Nodes;
            }
            (Line::Input(n), Place::Nodes) => expect(n, nodes.saturating_add(1))?,
            (Line::Gate(a, b), Place::Nodes) => {
                limited(a)?;
                limited(b)?;
            }
            (Line::Out(edge), Place::Nodes | Place::Outs) => {
                limited(edge)?;
                self.place = Place::Outs;
            }
            (Line::End(n), Place::Nodes | Place::Outs) => {
                expect(n, nodes)?;
                self.place = Place::Ended;
            }
            _ => return Err(LineFault::Place),
        }
        Ok(())
    }

    // Refuses bytes without an end, and lines without an end line.
    fn finish(&self) -> Result<(), LineFault>
        ensures { result ≡ finished (position_of self.now).place (position_of self.now).rest }
    {
        if !self.rest.is_empty() {
            return Err(LineFault::Shape);
        }
        match self.place {
            Place::Ended => Ok(()),
            _ => Err(LineFault::Place),
        }
    }

    // The next line, which moves the reader on; none after the end line. A line that is refused leaves the reader as it was.
    pub fn next_line(&mut self, nodes: usize) -> Result<Option<Line>, LineFault>
        ensures { Moves nodes (position_of self.old) result (position_of self.new) }
    {
        let Some(Cut { before, after }) = cut_at(self.rest, b'\n') else {
            self.finish()?;
            return Ok(None);
        };
        let line = read_line(before)?;
        self.arrive(line, nodes)?;
        // Counted by hand: the lines are asked for one by one, so no loop here could number them.
        self.passed += 1;
        self.rest = after;
        Ok(Some(line))
    }
}
