// The stages of a listing.
ghost use Rattle.std.specs.Prelude.{◌≡◌};
ghost use Rattle.sweeper.specs.States.{state_in};
ghost use Rattle.listing.specs.Stages.{Starts, LineCall, MovedCall, GoesOn};

use crate::counts::Counts;
use crate::maps::Maps;
use crate::nodes::Nodes;
use crate::outs::Outs;
use crate::section::Section;
use pages::{Short, write_line};
use sweeper::Session;

// Where a listing stands: the place on the page, and how many lines of the stage's kind are written.
// Session and page are no part of it: each call is given them as they then are.
#[derive(Drop)]
pub struct Stage<S> {
    section: S,
    pub(crate) at: usize,
    pub(crate) next: usize,
}

pub type NodesStage = Stage<Nodes>;

pub type OutsStage = Stage<Outs>;

pub type TallyStage = Stage<Counts>;

pub type MapsStage = Stage<Maps>;

// The page is too short; the stage is as it was.
#[derive(Drop)]
pub struct Declined<S> {
    pub stage: S,
    pub short: Short,
}

impl<S: Drop> From<Declined<S>> for Short {
    ghost from_gives = { λ d r. r ≡ d.short };

    fn from(declined: Declined<S>) -> Short {
        declined.short
    }
}

impl<S> Stage<S> {
    // The stage of a kind of which no line is written yet.
    pub(crate) fn start(section: S, at: usize) -> Stage<S>
        ensures { Starts result at }
    {
        Stage {
            section,
            at,
            next: 0,
        }
    }

    // Where the next line goes.
    pub fn place(&self) -> usize
        ensures { result ≡ self.now.at }
    {
        self.at
    }
}

impl<S: Section + Drop> Stage<S> {
    // Writes the next line, or answers that none is left.
    pub fn line(&mut self, session: &Session<'_>, page: &mut [u8]) -> Result<bool, Short>
        ensures { LineCall (S.lines (state_in session.now)) self.old page.old result self.new page.new }
    {
        let Some(line) = S::line(session, self.next) else {
            return Ok(false);
        };
        self.at = write_line(page, self.at, line)?;
        // Counted by hand: lines are asked for one by one.
        self.next += 1;
        Ok(true)
    }

    // The same, where the stage is moved through the call. A match: the stage goes on in both arms, and a closure of map_err would take it.
    pub fn line_moved(
        self,
        session: &Session<'_>,
        page: &mut [u8],
    ) -> Result<(Stage<S>, bool), Declined<Stage<S>>>
        ensures { MovedCall (S.lines (state_in session.now)) self page.old result page.new }
    {
        let mut stage = self;
        match stage.line(session, page) {
            Ok(more) => Ok((stage, more)),
            Err(short) => Err(Declined { stage, short }),
        }
    }

    // Writes the lines that are left and the closing line, all or nothing, and answers the place after them.
    pub(crate) fn finish(
        self,
        session: &Session<'_>,
        page: &mut [u8],
    ) -> Result<usize, Declined<Stage<S>>>
        ensures { GoesOn (S.lines (state_in session.now)) (S.closing (state_in session.now)) ◌≡◌ self page.old result page.new }
    {
        self.write_rest(session, page)
            .map_err(|short| Declined { stage: self, short })
    }
}
