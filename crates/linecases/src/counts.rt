// Counts the answers for all texts next to a good one.
use crate::table::answer;
use nearby::{Visitor, each_changed, each_shortened};
use netlist::LineFault;
use std::fmt;

// What is counted differs from what `netcases` counts of the same texts, and so do the types.
const GOOD: [u8; 36] = *b"net=1\nin=1\nin=2\nand=2,5\nout=7\nend=3\n";

// How many texts were accepted, and how many were refused for each reason: counts of one pass, which a chain would make several.
#[derive(Clone, Copy, Default)]
pub struct Counts {
    accepted: u32,
    shape: u32,
    place: u32,
    number: u32,
    lines: usize,
}

impl fmt::Display for Counts {
    fn fmt<W: fmt::Write>(&self, f: &mut fmt::Formatter<W>) -> fmt::Result {
        let Counts {
            accepted,
            shape,
            place,
            number,
            lines,
        } = *self;
        write!(
            f,
            "accepted={accepted} shape={shape} place={place} number={number} sum of lines={lines}"
        )
    }
}

impl Visitor for Counts {
    fn visit(&mut self, text: &[u8]) {
        let count = match answer(text) {
            Ok(_) => &mut self.accepted,
            Err(refused) => {
                self.lines = self.lines.saturating_add(refused.line);
                match refused.fault {
                    LineFault::Shape => &mut self.shape,
                    LineFault::Place => &mut self.place,
                    LineFault::Number => &mut self.number,
                }
            }
        };
        *count = count.saturating_add(1);
    }
}

// Each byte of the text changed into each other byte.
pub(crate) fn changed() -> Counts {
    let mut counts = Counts::default();
    each_changed(&GOOD, &mut counts);
    counts
}

// Each front of the text.
pub(crate) fn shortened() -> Counts {
    let mut counts = Counts::default();
    each_shortened(&GOOD, &mut counts);
    counts
}
