// The net of one session, read into another: the reduced graph becomes a source graph again.
#![tactic(auto)]

ghost use Rattle.std.specs.Prelude.{◌≡◌};
ghost use Rattle.sweeper.specs.States.{state_in};
ghost use Rattle.rebuild.specs.declared.RebuildFault.TheVariants as rebuild_fault;
ghost use Rattle.rebuild.specs.Rebuilding.{Rebuilds, Carries};

use listing::write_net;
use pages::Short;
use rankings::Ranking;
use reading::{TextFault, read_text};
use sweeper::Session;

// Why a net was not carried over.
#[derive(Clone, Copy)]
pub enum RebuildFault {
    // The page is too short for the net.
    Page(Short),
    // The other session did not take a line.
    Text(TextFault),
}

// Both conversions stand written out: `from_gives` tells the clauses which variant `?` makes, and a derive has no such member.
impl From<Short> for RebuildFault {
    ghost from_gives = { λ e r. r ≡ rebuild_fault.Page e };

    fn from(e: Short) -> RebuildFault {
        RebuildFault::Page(e)
    }
}

impl From<TextFault> for RebuildFault {
    ghost from_gives = { λ e r. r ≡ rebuild_fault.Text e };

    fn from(e: TextFault) -> RebuildFault {
        RebuildFault::Text(e)
    }
}

// Writes the reduced net of a session to a page and reads it into another session, by any ranking; answers the length of the net.
// In a new session with space it becomes the source graph, node by node, and its outputs become the outputs.
pub fn rebuild<R: Ranking>(
    listed: &Session<'_>,
    page: &mut [u8],
    into: &mut Session<'_>,
    by: &R,
) -> Result<usize, RebuildFault>
    ensures carries { Carries (R.Ranking.before by.now) (state_in listed.now) (state_in into.old) page.old result page.new (state_in into.new) }
    ensures rebuilds { Rebuilds (state_in listed.now) (state_in into.old) page.old result (state_in into.new) }
{
    let length = write_net(listed, page)?;
    read_text(into, by, &page[..length])?;
    Ok(length)
}
