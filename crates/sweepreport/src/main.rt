// Sweeps a net text from standard input and prints its report, or the number and the line of its refusal.
// What is answered is settled in the library netsweep; here is what is read, printed and told to the shell.
#![tactic(auto)]

use input::read_front;
use netsweep::sweep_text;
use std::io;
use std::io::Write;
use std::process::ExitCode;

// One byte more than the longest text, so that a longer one is seen to be too long.
const MOST: u64 = 16385;

// The report is written to a lent page, and its length answered.
const PAGE: usize = 20480;

fn run(rt: &HostRuntime) -> io::Result<ExitCode> {
    let text = read_front(rt.alloc(), rt.stdin(), MOST)?;
    let mut page = [0u8; PAGE];
    match sweep_text(text.as_slice(), &mut page) {
        Ok(length) => {
            rt.stdout().write_all(&page[..length.min(PAGE)])?;
            Ok(ExitCode::SUCCESS)
        }
        Err(refusal) => {
            rt.print(refusal)?;
            Ok(ExitCode::FAILURE)
        }
    }
}

// Writes nothing to standard error, whatever the failure; as in `sweep`, and one line, of which a library could promise nothing.
fn main(rt: HostRuntime) -> ExitCode {
    run(&rt).unwrap_or(ExitCode::FAILURE)
}
