// The lines of the outputs. Beside those of the map and not one generic kind: what is left of each is its own lines, getters and keys.
ghost use Rattle.std.specs.Prelude.{[], ◌∷◌, length};
ghost use Rattle.model.specs.Reports.{lines_of, out, end};
ghost use Rattle.std.proofs.Common.{arith};
ghost use Rattle.sweeper.specs.Counted;
ghost use Rattle.sweeper.specs.States.{state_in};
ghost use Rattle.listing.specs.Listed.{numbers_count};

use crate::section::{Section, edge_line};
use pages::{Key, Line};
use sweeper::Session;

#[derive(Clone, Copy)]
pub struct Outs;

#[tactic(auto, using(crate::specs::Listed::numbers_count))]
impl Section for Outs {
    ghost lines = { λ s. lines_of out s.outputs };

    ghost closing = { λ s. end (length s.reduced) ∷ [] };

    ghost few = { λ s. omega (arith, numbers_count out (state_in s).outputs, (Counted.few (state_in s) s.reached).outputs) };

    fn count(session: &Session<'_>) -> usize {
        session.outputs()
    }

    fn line(session: &Session<'_>, k: usize) -> Option<Line> {
        edge_line(Key::Out, session.output_edge(k.checked_add(1)?))
    }

    fn closing_line(session: &Session<'_>) -> Option<Line> {
        Some(Line::Number(Key::End, session.reduced_nodes() as u32))
    }
}
