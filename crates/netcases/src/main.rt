// Sweeps many nets, good and damaged ones, and compares each answer, byte by byte, with the one that is written beside it.
// It prints how many agree and the cases that do not, and counts the answers for all texts next to a good one; its file stdout holds what it has to print.
#![tactic(auto)]

mod counts;
mod packed;

use input::{Failure, read_text};
use netsweep::sweep_text;
use packed::{before, unpack};
use std::alloc::{AllocError, Global};

// As long as the page of the program that sweeps.
const PAGE: usize = 20480;

// What the program prints for a text is what is wanted.
fn answers(heap: Global, text: &[u8], want: &[u8]) -> Result<bool, AllocError> {
    let mut page = [0u8; PAGE];
    match sweep_text(text, &mut page) {
        Ok(n) => Ok(page.get(..n) == Some(want)),
        Err(refusal) => Ok(refusal.to_string(heap)?.as_bytes() == want),
    }
}

// A case is a packed text and its packed answer.
fn agrees(heap: Global, case: &str) -> Result<bool, AllocError> {
    let Some((text, want)) = case.split_once('>') else {
        return Ok(false);
    };
    let text = unpack(heap, text)?;
    let want = unpack(heap, before(want, '>'))?;
    answers(heap, text.as_slice(), want.as_slice())
}

fn main(rt: HostRuntime) -> Result<(), Failure> {
    let input = read_text(rt.alloc(), rt.stdin())?;
    let cases = input.as_str().lines().count();
    let mut differing = 0usize;
    for (i, case) in input.as_str().lines().enumerate() {
        if !agrees(rt.alloc(), case)? {
            differing = differing.saturating_add(1);
            println!(rt; "differs: case {}", i.saturating_add(1))?;
        }
    }
    println!(rt; "nets={cases} agreed={}", cases.saturating_sub(differing))?;
    println!(rt; "changed: {}", counts::changed())?;
    println!(rt; "shortened: {}", counts::shortened())?;
    Ok(())
}
