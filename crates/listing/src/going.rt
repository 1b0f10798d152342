// From stage to stage.
ghost use Rattle.std.specs.Prelude.{◌≡◌, length, ◌∷◌, []};
ghost use Rattle.model.specs.Reports.{lines_of, mapped, done};
ghost use Rattle.sweeper.specs.States.{state_in};
ghost use Rattle.listing.specs.Stages.{Begins, Starts, GoesOn};

use crate::counts::Counts;
use crate::maps::Maps;
use crate::nodes::Nodes;
use crate::outs::Outs;
use crate::section::Section;
use crate::stage::{Declined, MapsStage, NodesStage, OutsStage, Stage, TallyStage};
use pages::{Key, Line, Short, write_line};
use sweeper::Session;

// A section that another follows. It is not exported, so that a stage comes only from the one before it.
pub trait Followed: Section {
    type Next;

    // The stage that goes on from the place at, with no line written yet.
    fn next(at: usize) -> Stage<Self::Next>
        ensures { Starts result at };
}

impl Followed for Nodes {
    type Next = Outs;

    fn next(at: usize) -> OutsStage {
        Stage::start(Outs, at)
    }
}

impl Followed for Outs {
    type Next = Counts;

    fn next(at: usize) -> TallyStage {
        Stage::start(Counts, at)
    }
}

impl Followed for Counts {
    type Next = Maps;

    fn next(at: usize) -> MapsStage {
        Stage::start(Maps, at)
    }
}

// Writes the first line of a listing.
pub fn begin(page: &mut [u8]) -> Result<NodesStage, Short>
    ensures { Begins page.old result page.new }
{
    let at = write_line(page, 0, Line::Number(Key::Net, 1))?;
    Ok(Stage::start(Nodes, at))
}

impl<S: Followed + Drop> Stage<S> {
    // Writes the lines that are left and the closing line, if there is one.
    pub fn go_on(
        self,
        session: &Session<'_>,
        page: &mut [u8],
    ) -> Result<Stage<S::Next>, Declined<Stage<S>>>
        ensures { GoesOn (S.lines (state_in session.now)) (S.closing (state_in session.now)) Starts self page.old result page.new }
    {
        let at = self.finish(session, page)?;
        Ok(S::next(at))
    }
}

impl Stage<Maps> {
    // Writes the map lines that are left and the done line, and answers the place after the listing.
    pub fn go_on(self, session: &Session<'_>, page: &mut [u8]) -> Result<usize, Declined<MapsStage>>
        ensures { GoesOn (lines_of mapped (state_in session.now).mapped) (done (length (state_in session.now).source) ∷ []) ◌≡◌ self page.old result page.new }
    {
        self.finish(session, page)
    }
}
