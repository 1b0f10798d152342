// How gate calls came out.
ghost use Rattle.std.specs.Prelude.{◌≡◌, ◌-◌, ◌^◌, ◌<◌, length, Some};
ghost use Rattle.model.specs.Sessions.{no_tally};
ghost use Rattle.sweeper.specs.Tallies.{count_of, raised, tallied, word_of};

use std::fmt;

// What a gate call came to.
#[derive(Clone, Copy, PartialEq, Eq, Debug)]
pub enum Outcome {
    Made,
    Folded,
    Shared,
    Merged,
}

// The calls of one outcome.
#[derive(Clone, Copy)]
pub struct TallyRow {
    count: u32,
}

// A row for each outcome.
#[derive(Clone, Copy)]
pub struct Tally {
    rows: [TallyRow; 4],
}

impl fmt::Display for Outcome {
    ghost output = { λ o. Some (word_of o) };

    fn fmt<W: fmt::Write>(&self, f: &mut fmt::Formatter<W>) -> fmt::Result {
        f.write_str(match self {
            Outcome::Made => "made",
            Outcome::Folded => "folded",
            Outcome::Shared => "shared",
            Outcome::Merged => "merged",
        })
    }
}

impl Tally {
    pub fn new() -> Tally
        ensures none { tallied result ≡ no_tally }
        ensures rows { length result.rows ≡ 4 }
    {
        Tally {
            rows: [TallyRow { count: 0 }; 4],
        }
    }

    // How many calls had this outcome.
    pub fn count(&self, outcome: Outcome) -> u32
        ensures { result ≡ count_of self.now outcome }
    {
        self.rows[outcome as usize].count
    }

    // One call more of this outcome.
    pub(crate) fn note(&mut self, outcome: Outcome)
        requires { count_of self.old outcome < 2 ^ 32 - 1 }
        ensures { self.new ≡ raised self.old outcome }
    {
        self.rows[outcome as usize].count += 1;
    }
}
