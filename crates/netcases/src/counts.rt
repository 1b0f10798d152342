// Counts the answers for all texts next to a good one.
use lines::LineFault;
use nearby::{Visitor, each_changed, each_shortened};
use netsweep::{Refusal, sweep_text};
use reading::ReadFault;
use std::fmt;

const GOOD: [u8; 36] = *b"net=1\nin=1\nin=2\nand=2,5\nout=7\nend=3\n";

// Long enough for what a net of three nodes gives.
const PAGE: usize = 256;

// How many texts were swept, how many were refused for each reason, and the sum of the lines of refusals: counts of one pass, which a chain would make several.
#[derive(Clone, Copy, Default)]
pub struct Counts {
    swept: u32,
    edge: u32,
    shape: u32,
    place: u32,
    number: u32,
    other: u32,
    lines: usize,
}

impl fmt::Display for Counts {
    fn fmt<W: fmt::Write>(&self, f: &mut fmt::Formatter<W>) -> fmt::Result {
        let Counts {
            swept,
            edge,
            shape,
            place,
            number,
            other,
            lines,
        } = *self;
        write!(f, "swept={swept} edge={edge} shape={shape} place={place}")?;
        write!(f, " number={number} other={other} sum of lines={lines}")
    }
}

impl Counts {
    // The count of texts that are refused for this reason.
    fn of(&mut self, refusal: Refusal) -> &mut u32 {
        match refusal {
            Refusal::Text(e) => match e.fault {
                ReadFault::Line(LineFault::Shape) => &mut self.shape,
                ReadFault::Line(LineFault::Place) => &mut self.place,
                ReadFault::Line(LineFault::Number) => &mut self.number,
                ReadFault::Session(sweeper::Refusal::NoNode(_)) => &mut self.edge,
                ReadFault::Session(_) => &mut self.other,
            },
            Refusal::TooLong | Refusal::Page(_) => &mut self.other,
        }
    }
}

impl Visitor for Counts {
    fn visit(&mut self, text: &[u8]) {
        let mut page = [0u8; PAGE];
        let count = match sweep_text(text, &mut page) {
            Ok(_) => &mut self.swept,
            Err(refusal) => {
                self.lines = self.lines.saturating_add(refusal.line());
                self.of(refusal)
            }
        };
        *count = count.saturating_add(1);
    }
}

// Each byte of the text changed into each other byte.
pub(crate) fn changed() -> Counts {
    let mut counts = Counts::default();
    each_changed(&GOOD, &mut counts);
    counts
}

// Each front of the text.
pub(crate) fn shortened() -> Counts {
    let mut counts = Counts::default();
    each_shortened(&GOOD, &mut counts);
    counts
}
