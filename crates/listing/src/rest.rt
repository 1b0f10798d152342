// What is left of a stage, all at once.
ghost use Rattle.std.specs.Prelude.{◌≡◌, ◌-◌, ◌*◌, ◌≤◌, length, drop};
ghost use Rattle.model.specs.Sessions.{output_limit};
ghost use Rattle.model.specs.Texts.{text_of};
ghost use Rattle.pages.specs.Page.{WritesAt};
ghost use Rattle.sweeper.specs.States.{state_in};
ghost use Rattle.listing.specs.Sections.{closed, rest_text};

use crate::section::Section;
use crate::stage::Stage;
use pages::{Line, Short, check_room, write_line};
use sweeper::Session;

// How long a line is, if there is one.
fn length_of(line: Option<Line>) -> usize
    ensures value { result ≡ length (text_of (closed line)) }
    ensures bound { result ≤ 26 }
{
    line.map_or(0, Line::length)
}

// Writes a line, if there is one, from the place at on, and answers the place after it.
fn write_if(page: &mut [u8], at: usize, line: Option<Line>) -> Result<usize, Short>
    ensures { WritesAt at (text_of (closed line)) page.old result page.new }
{
    match line {
        Some(line) => write_line(page, at, line),
        None => Ok(at),
    }
}

impl<S: Section> Stage<S> {
    // How long the lines are that are left. A loop, since no bound is found for the sum of a chain.
    fn lines_length(&self, session: &Session<'_>) -> usize
        ensures value { result ≡ length (text_of (drop self.now.next (S.lines (state_in session.now)))) }
        ensures bound { result ≤ 26 * output_limit }
    {
        let mut sum = 0;
        for k in self.next..S::count(session) {
            sum += length_of(S::line(session, k));
        }
        sum
    }

    // The same with the closing line.
    pub(crate) fn rest_length(&self, session: &Session<'_>) -> usize
        ensures value { result ≡ length (rest_text (S.lines (state_in session.now)) (S.closing (state_in session.now)) self.now.next) }
        ensures bound { result ≤ 26 * 16385 }
    {
        self.lines_length(session) + length_of(S::closing_line(session))
    }

    // Writes the lines that are left, and answers the place after them. A loop, since a chain forgets the page that its closure writes to.
    fn write_lines(&self, session: &Session<'_>, page: &mut [u8]) -> Result<usize, Short>
        requires { length (text_of (drop self.now.next (S.lines (state_in session.now)))) ≤ length page.old - self.now.at }
        ensures { WritesAt self.now.at (text_of (drop self.now.next (S.lines (state_in session.now)))) page.old result page.new }
    {
        let mut end = self.at;
        for k in self.next..S::count(session) {
            end = write_if(page, end, S::line(session, k))?;
        }
        Ok(end)
    }

    // The same with the closing line, all or nothing.
    pub(crate) fn write_rest(&self, session: &Session<'_>, page: &mut [u8]) -> Result<usize, Short>
        ensures { WritesAt self.now.at (rest_text (S.lines (state_in session.now)) (S.closing (state_in session.now)) self.now.next) page.old result page.new }
    {
        check_room(page, self.at, self.rest_length(session))?;
        let end = self.write_lines(session, page)?;
        write_if(page, end, S::closing_line(session))
    }
}
