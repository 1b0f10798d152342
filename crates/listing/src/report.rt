// The reduced net, or the whole listing, in one call.
ghost use Rattle.std.specs.Prelude.{◌≡◌, ◌*◌, ◌≤◌, length};
ghost use Rattle.model.specs.Texts.{report_text};
ghost use Rattle.pages.specs.Page.{Writes};
ghost use Rattle.sweeper.specs.States.{state_in};
ghost use Rattle.listing.specs.Sections.{net_text};
ghost use Rattle.listing.specs.Stages.{StartsAfter};

use crate::counts::Counts;
use crate::going::begin;
use crate::maps::Maps;
use crate::nodes::Nodes;
use crate::outs::Outs;
use crate::stage::{Stage, TallyStage};
use pages::{Key, Line, Short, check_room};
use sweeper::Session;

fn net_length(session: &Session<'_>) -> usize
    ensures value { result ≡ length (net_text (state_in session.now)) }
    ensures bound { result ≤ 26 * 32771 }
{
    let first = Line::Number(Key::Net, 1).length();
    let nodes = Stage::start(Nodes, 0).rest_length(session);
    let outs = Stage::start(Outs, 0).rest_length(session);
    first + nodes + outs
}

fn report_length(session: &Session<'_>) -> usize
    ensures { result ≡ length (report_text (state_in session.now)) }
{
    let counts = Stage::start(Counts, 0).rest_length(session);
    let maps = Stage::start(Maps, 0).rest_length(session);
    net_length(session) + counts + maps
}

// The net lines by their stages, on a page that has room for them.
fn net_stages(session: &Session<'_>, page: &mut [u8]) -> Result<TallyStage, Short>
    requires { length (net_text (state_in session.now)) ≤ length page.old }
    ensures { StartsAfter (net_text (state_in session.now)) page.old result page.new }
{
    let nodes = begin(page)?;
    let outs = nodes.go_on(session, page)?;
    Ok(outs.go_on(session, page)?)
}

// The listing by its stages, on a page that has room for it.
fn write_stages(session: &Session<'_>, page: &mut [u8]) -> Result<usize, Short>
    requires { length (report_text (state_in session.now)) ≤ length page.old }
    ensures { Writes (report_text (state_in session.now)) page.old result page.new }
{
    let tally = net_stages(session, page)?;
    let maps = tally.go_on(session, page)?;
    Ok(maps.go_on(session, page)?)
}

// Writes the reduced net, from the net line to the end line, and answers its length, all or nothing.
pub fn write_net(session: &Session<'_>, page: &mut [u8]) -> Result<usize, Short>
    ensures { Writes (net_text (state_in session.now)) page.old result page.new }
{
    check_room(page, 0, net_length(session))?;
    Ok(net_stages(session, page)?.place())
}

// Writes the whole listing and answers its length, all or nothing.
pub fn write_report(session: &Session<'_>, page: &mut [u8]) -> Result<usize, Short>
    ensures { Writes (report_text (state_in session.now)) page.old result page.new }
{
    check_room(page, 0, report_length(session))?;
    write_stages(session, page)
}
