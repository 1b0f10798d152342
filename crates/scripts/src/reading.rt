// A script: its calls up to the first line that is none that its program takes.
ghost use Rattle.std.specs.Prelude.{◌≡◌, ◌+◌, Bool, true, false, All, IfOk, IfSome, vec_len};
ghost use Rattle.scripts.specs.declared.calls.Call.{Call as Called};
ghost use Rattle.scripts.specs.Taken.{TakesNoWalk};

use crate::calls::{Call, read_call};
use std::alloc::{AllocError, Global};

// What a program takes of the calls that there are.
pub trait Program {
    ghost takes: { Called → Bool };

    fn takes(&self, call: &Call) -> bool
        ensures { result ≡ takes call.now };

    // Whether some walk may be taken; where none is, the signals in its line are not read.
    fn takes_walks(&self) -> bool
        ensures { result ≡ false → TakesNoWalk takes }
    {
        true
    }
}

#[derive(Drop)]
pub struct Script {
    pub calls: Vec<Call>,
    // The first line of another form, counted from 1.
    pub other: Option<usize>,
}

// Reads the calls of a text that the program takes. A call on a session that was never opened is no call.
pub fn read_script<P: Program>(heap: Global, text: &str, program: &P) -> Result<Script, AllocError>
    ensures taken { IfOk result (λ s. All (λ call. P.takes call ≡ true) s.calls.items) }
    ensures line { IfOk result (λ s. IfSome s.other (λ n. n ≡ vec_len s.calls + 1)) }
{
    let mut calls = Vec::new(heap);
    for line in text.split_inclusive('\n') {
        let Some(call) = read_call(heap, line, program.takes_walks())? else {
            return Ok(ended(calls));
        };
        let may_follow = call.opens() || !calls.is_empty();
        if !may_follow || !program.takes(&call) {
            return Ok(ended(calls));
        }
        calls.push(call)?;
    }
    Ok(Script { calls, other: None })
}

// A script whose next line is of another form: every line before it is a call.
fn ended(calls: Vec<Call>) -> Script
    ensures same { result.calls.items ≡ calls.items }
    ensures line { IfSome result.other (λ n. n ≡ vec_len calls + 1) }
{
    let other = Some(calls.len() + 1);
    Script { calls, other }
}
