// The lines of one kind in a listing.
ghost use Rattle.std.specs.Prelude.{◌≡◌, ◌≤◌, List, length, drop};
ghost use Rattle.std.specs.Option.{option_map};
ghost use Rattle.model.specs.Sessions.{State, output_limit};
ghost use Rattle.model.specs.Reports.{Line as Written};
ghost use Rattle.sweeper.specs.States.{state_in};
ghost use Rattle.pages.specs.Lines.{numbered};
ghost use Rattle.sweeper.specs.Answers.{numbered as edge_number};
ghost use Rattle.sweeper.specs.declared.session.Session.{Session as Tables};
ghost use Rattle.listing.specs.Sections.{told, next_of, closed};

use cuts::Edge;
use pages::{Key, Line};
use sweeper::Session;

pub trait Section {
    // the lines of a state, in the order written
    ghost lines: { State → List Written };

    // the line after them, if one closes them
    ghost closing: { State → List Written };

    // How many lines there are.
    fn count(session: &Session<'_>) -> usize
        ensures { result ≡ length (lines (state_in session.now)) };

    // The line after k others.
    fn line(session: &Session<'_>, k: usize) -> Option<Line>
        ensures { told result ≡ next_of (drop k (lines (state_in session.now))) };

    // The line that closes this kind, if one does. No body of None here: a trait's body is proved for any `closing`.
    fn closing_line(session: &Session<'_>) -> Option<Line>
        ensures { closed result ≡ closing (state_in session.now) };

    // as few as a session can have
    ghost few: { (s : Tables) → length (lines (state_in s)) ≤ output_limit };
}

// The line of an edge, if there is one.
pub(crate) fn edge_line(key: Key, edge: Option<Edge>) -> Option<Line>
    ensures { told result ≡ option_map (numbered key) (edge_number edge) }
{
    edge.map(|edge| Line::Number(key, u32::from(edge.number())))
}
