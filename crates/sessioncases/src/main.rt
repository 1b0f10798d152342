// Runs written sessions through the sweeping session and compares every answer with the one that is written beside its call.
// It prints how many sessions agree in every answer, and how many answers agree, which its file stdout holds.
#![tactic(auto)]

mod longer;
mod playing;
mod step;
mod worked;

use longer::LONGER;
use playing::play;
use std::{fmt, io};
use step::Script;
use worked::WORKED;

// Sessions that agree in every answer, and answers that agree, of all.
#[derive(Clone, Copy)]
struct Agreement {
    agreed: usize,
    sessions: usize,
    answers_agreed: usize,
    answers: usize,
}

impl Agreement {
    // One session more.
    fn with(self, agreed: usize, answers: usize) -> Agreement {
        Agreement {
            agreed: self.agreed.saturating_add(usize::from(agreed == answers)),
            sessions: self.sessions.saturating_add(1),
            answers_agreed: self.answers_agreed.saturating_add(agreed),
            answers: self.answers.saturating_add(answers),
        }
    }
}

impl fmt::Display for Agreement {
    fn fmt<W: fmt::Write>(&self, f: &mut fmt::Formatter<W>) -> fmt::Result {
        write!(f, "agreed={} of {}\n", self.agreed, self.sessions)?;
        write!(
            f,
            "their answers: agreed={} of {}",
            self.answers_agreed, self.answers
        )
    }
}

fn compare(scripts: &[Script]) -> Agreement {
    let none = Agreement {
        agreed: 0,
        sessions: 0,
        answers_agreed: 0,
        answers: 0,
    };
    scripts.iter().fold(
        none,
        |sum, script| sum.with(play(script), script.steps.len()),
    )
}

fn main(rt: HostRuntime) -> io::Result<()> {
    println!(rt; "small sessions: {}", compare(&WORKED))?;
    println!(rt; "longer sessions: {}", compare(&LONGER))
}
