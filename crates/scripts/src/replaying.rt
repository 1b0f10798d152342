// The calls of a script, one session after another.
ghost use Rattle.scripts.specs.Added.{AddsTo};
ghost use Rattle.std.specs.Prelude.{string_bytes};

use crate::calls::{Call, Lengths};
use crate::playing::Playing;
use crate::tables::Tables;
use std::alloc::{AllocError, Global};

// Once so many bytes of lines are ready they go to the answers, all at once since that is cheaper.
const PAGE: usize = 4096;

// Adds the lines to the answers where they fill a page.
fn add_page(lines: &mut String, answers: &mut String) -> Result<(), AllocError>
    ensures { AddsTo (string_bytes answers.old) (string_bytes answers.new) }
{
    if lines.len() < PAGE {
        return Ok(());
    }
    answers.push_str(lines.as_str())?;
    lines.clear();
    Ok(())
}

// One session: the answers of its opening and of the calls up to the next opening.
fn replay_session(
    heap: Global,
    lengths: &Lengths,
    calls: &[Call],
    answers: &mut String,
) -> Result<(), AllocError>
    ensures { AddsTo (string_bytes answers.old) (string_bytes answers.new) }
{
    let mut tables = Tables::new(heap, lengths)?;
    let mut playing = Playing {
        heap,
        session: tables.open(),
    };
    let mut lines = String::new(heap);
    playing.play(&Call::Open(*lengths), &mut lines)?;
    for call in calls.iter().take_while(|call| !call.opens()) {
        playing.play(call, &mut lines)?;
        add_page(&mut lines, answers)?;
    }
    answers.push_str(lines.as_str())
}

// Adds the answers of all calls, a line for each.
pub fn replay(heap: Global, calls: &[Call], answers: &mut String) -> Result<(), AllocError>
    ensures { AddsTo (string_bytes answers.old) (string_bytes answers.new) }
{
    for (i, call) in calls.iter().enumerate() {
        if let Call::Open(lengths) = call {
            replay_session(heap, lengths, &calls[i + 1..], answers)?;
        }
    }
    Ok(())
}
