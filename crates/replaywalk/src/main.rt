// Replays a list of calls on sweeping sessions: a call on each line of standard input, an answer on each line of standard output.
// A line of another form ends the program with status 1 and the line's number on standard error.
#![tactic(auto)]

use input::{Failure, read_text};
use scripts::{Every, read_script, replay};
use std::process::ExitCode;

// Stands in both programs that replay: of what is read and printed a library could promise nothing.
fn main(rt: HostRuntime) -> Result<ExitCode, Failure> {
    let text = read_text(rt.alloc(), rt.stdin())?;
    let script = read_script(rt.alloc(), text.as_str(), &Every)?;
    // The calls stand without the text, whose room the answers can have.
    drop(text);
    let mut answers = String::new(rt.alloc());
    replay(rt.alloc(), script.calls.as_slice(), &mut answers)?;
    rt.print(answers.as_str())?;
    match script.other {
        None => Ok(ExitCode::SUCCESS),
        Some(line) => {
            eprintln!(rt; "{line}")?;
            Ok(ExitCode::FAILURE)
        }
    }
}
