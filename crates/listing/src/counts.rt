// The lines of the tally.
ghost use Rattle.std.specs.Prelude.{[]};
ghost use Rattle.model.specs.Reports.{tally_lines};
ghost use Rattle.std.proofs.Common.{rules};

use crate::section::Section;
use pages::{Key, Line};
use sweeper::{Outcome, Session};

// The outcomes that are counted, in the order of their lines.
const COUNTED: [(Key, Outcome); 4] = [
    (Key::Made, Outcome::Made),
    (Key::Folded, Outcome::Folded),
    (Key::Shared, Outcome::Shared),
    (Key::Merged, Outcome::Merged),
];

#[derive(Clone, Copy)]
pub struct Counts;

impl Section for Counts {
    ghost lines = { λ s. tally_lines s.tally };

    ghost closing = { λ _. [] };

    ghost few = { Prim.search rules };

    fn count(_session: &Session<'_>) -> usize {
        COUNTED.len()
    }

    fn line(session: &Session<'_>, k: usize) -> Option<Line> {
        let (key, outcome) = *COUNTED.get(k)?;
        Some(Line::Number(key, session.tally().count(outcome)))
    }

    fn closing_line(_session: &Session<'_>) -> Option<Line> {
        None
    }
}
