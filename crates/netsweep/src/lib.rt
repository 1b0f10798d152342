// Sweeps a net text to its report, in a session of the size that the program has.
// Reading, sweeping and listing are in the libraries below; here they are put together.
#![tactic(auto)]

ghost use Rattle.std.specs.Prelude.{◌≡◌};
ghost use Rattle.netsweep.specs.declared.Refusal.TheVariants.{Text, Page};
ghost use Rattle.netsweep.specs.Refusing.{number_of, line_of};
ghost use Rattle.netsweep.specs.Sweeping.{Sweeps, Answers};

use cuts::{Cut, Edge};
use listing::write_report;
use pages::Short;
use rankings::ByHeight;
use reading::{TextFault, read_text};
use search::ReducedRow;
use std::fmt;
use sweeper::{Session, SourceRow, Tables};

// The longest text that is taken.
const LONGEST: usize = 16384;

const NODES: usize = 255;

const CUTS: usize = 1020;

// More slots than there are keys, so that searches are short.
const PAIR_SLOTS: usize = 512;

const KEY_SLOTS: usize = 2048;

const OUTPUTS: usize = 4096;

// Why no report is written.
#[derive(Clone, Copy)]
pub enum Refusal {
    // The text is longer than the longest.
    TooLong,
    // A line of the text is refused.
    Text(TextFault),
    // The page is too short for the report.
    Page(Short),
}

impl Refusal {
    // The number by which users know it.
    pub fn number(self) -> u8
        ensures { result ≡ number_of self }
    {
        match self {
            Refusal::TooLong => 5,
            Refusal::Text(e) => e.fault.number(),
            Refusal::Page(short) => short.number(),
        }
    }

    // The line that is to blame, or 0 for the text as a whole.
    pub fn line(self) -> usize
        ensures { result ≡ line_of self }
    {
        match self {
            Refusal::Text(e) => e.line,
            Refusal::TooLong | Refusal::Page(_) => 0,
        }
    }
}

// As the program prints it.
impl fmt::Display for Refusal {
    fn fmt<W: fmt::Write>(&self, f: &mut fmt::Formatter<W>) -> fmt::Result {
        write!(f, "refused={}\nline={}\n", self.number(), self.line())
    }
}

impl From<TextFault> for Refusal {
    ghost from_gives = { λ e r. r ≡ Text e };

    fn from(e: TextFault) -> Refusal {
        Refusal::Text(e)
    }
}

impl From<Short> for Refusal {
    ghost from_gives = { λ e r. r ≡ Page e };

    fn from(e: Short) -> Refusal {
        Refusal::Page(e)
    }
}

// Reads a text of at most the longest length into a new session and writes its report.
// Six arrays by hand: a struct that holds them would need six const parameters.
fn sweep_short(text: &[u8], page: &mut [u8]) -> Result<usize, Refusal>
    ensures { Sweeps text.now page.old result page.new }
{
    let mut source = [SourceRow::EMPTY; NODES];
    let mut reduced = [ReducedRow::EMPTY; NODES];
    let mut cuts = [Cut::trivial(0); CUTS];
    let mut pairs = [None; PAIR_SLOTS];
    let mut keys = [None; KEY_SLOTS];
    let mut outputs = [Edge::FALSE; OUTPUTS];
    let mut session = Session::open(Tables {
        source: &mut source,
        reduced: &mut reduced,
        cuts: &mut cuts,
        pairs: &mut pairs,
        keys: &mut keys,
        outputs: &mut outputs,
    });
    read_text(&mut session, &ByHeight, text)?;
    Ok(write_report(&session, page)?)
}

// Sweeps a text, ranked by height, and writes the report to the front of the page: its length, or the refusal and the page as it was.
pub fn sweep_text(text: &[u8], page: &mut [u8]) -> Result<usize, Refusal>
    ensures { Answers text.now page.old result page.new }
{
    if text.len() > LONGEST {
        return Err(Refusal::TooLong);
    }
    sweep_short(text, page)
}
