// The session's call of each line of a text.
ghost use Rattle.std.specs.Prelude.{◌≡◌, Ok, Err};
ghost use Rattle.model.specs.Sessions.{State};
ghost use Rattle.sweeper.specs.States.{state_in, image_in};
ghost use Rattle.sweeper.specs.Tables.{Rest};
ghost use Rattle.lines.specs.Position.{position_of};
ghost use Rattle.lines.specs.Written.{Fit};
ghost use Rattle.reading.specs.Reading.{called, Becomes, Steps, read_text};
ghost use Rattle.reading.specs.Faults.{answer_in, Stop};
ghost use Rattle.reading.specs.Net.{Follows, Refused, Told};
ghost use Rattle.reading.specs.Calls.{RunsOn};

use crate::faults::{ReadFault, TextFault};
use cuts::Edge;
use lines::{Line, Reader, at_line};
use rankings::Ranking;
use sweeper::{Refusal, Session};

// The call that a line asks for; a net or end line asks for none.
// Session and ranking stay two arguments: read_text is given them apart, and a struct would only be taken apart again.
fn call<R: Ranking>(session: &mut Session<'_>, by: &R, line: Line) -> Result<(), Refusal>
    requires { Fit line }
    ensures calls { Becomes (called (R.Ranking.before by.now) (state_in session.old) line) (state_in session.old) result (state_in session.new) }
    ensures rest { Rest (image_in session.old) (image_in session.new) }
{
    match line {
        Line::Net(_) | Line::End(_) => {}
        Line::Input(_) => {
            session.input()?;
        }
        Line::Gate(a, b) => {
            session.gate(by, Edge::new(a as u16), Edge::new(b as u16))?;
        }
        Line::Out(edge) => {
            session.output(Edge::new(edge as u16))?;
        }
    }
    Ok(())
}

// The next line and its call, which move the reader and the session on or leave both as they were; false after the end line.
fn take_line<R: Ranking>(
    reader: &mut Reader<'_>,
    session: &mut Session<'_>,
    by: &R,
) -> Result<bool, ReadFault>
    ensures steps { Steps (R.Ranking.before by.now) (position_of reader.old) (state_in session.old) result (position_of reader.new) (state_in session.new) }
    ensures rest { Rest (image_in session.old) (image_in session.new) }
{
    let mut next = *reader;
    let Some(line) = next.next_line(session.source_nodes())? else {
        return Ok(false);
    };
    call(session, by, line)?;
    *reader = next;
    Ok(true)
}

// The lines of a text in their order, up to the first that is refused.
pub fn read_text<R: Ranking>(
    session: &mut Session<'_>,
    by: &R,
    text: &[u8],
) -> Result<(), TextFault>
    ensures reads { read_text (R.Ranking.before by.now) (state_in session.old) text.now ≡ record { answer = answer_in result; state = state_in session.new } }
    ensures told { Told (R.Ranking.before by.now) (state_in session.old) text.now (answer_in result) (state_in session.new) }
    ensures accepts { (u : State) → Follows (R.Ranking.before by.now) (state_in session.old) text.now u → (result ≡ Ok tt) × (state_in session.new ≡ u) }
    ensures refuses { (e : Stop) (u : State) → Refused (R.Ranking.before by.now) (state_in session.old) text.now e u → (answer_in result ≡ Err e) × (state_in session.new ≡ u) }
    ensures runs { RunsOn (R.Ranking.before by.now) R.Ranking.INPUTS_FIRST (state_in session.old) }
    ensures rest { Rest (image_in session.old) (image_in session.new) }
{
    let mut reader = Reader::new(text);
    while at_line(reader.line(), take_line(&mut reader, session, by))? {}
    Ok(())
}
