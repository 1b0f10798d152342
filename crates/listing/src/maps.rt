// The lines of the map, one for each source node.
ghost use Rattle.std.specs.Prelude.{[], ◌∷◌, length};
ghost use Rattle.model.specs.Reports.{lines_of, mapped, done};
ghost use Rattle.std.proofs.Common.{arith};
ghost use Rattle.sweeper.specs.Counted;
ghost use Rattle.sweeper.specs.States.{state_in};
ghost use Rattle.listing.specs.Listed.{numbers_count};

use crate::section::{Section, edge_line};
use pages::{Key, Line};
use sweeper::Session;

#[derive(Clone, Copy)]
pub struct Maps;

#[tactic(auto, using(crate::specs::Listed::numbers_count))]
impl Section for Maps {
    ghost lines = { λ s. lines_of mapped s.mapped };

    ghost closing = { λ s. done (length s.source) ∷ [] };

    ghost few = { λ s. omega (arith, numbers_count mapped (state_in s).mapped, (Counted.few (state_in s) s.reached).mapped, (Counted.few (state_in s) s.reached).source) };

    fn count(session: &Session<'_>) -> usize {
        session.source_nodes()
    }

    fn line(session: &Session<'_>, k: usize) -> Option<Line> {
        edge_line(Key::Map, session.mapped(k.checked_add(1)?))
    }

    fn closing_line(session: &Session<'_>) -> Option<Line> {
        Some(Line::Number(Key::Done, session.source_nodes() as u32))
    }
}
