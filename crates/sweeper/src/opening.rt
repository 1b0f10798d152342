// Opening on tables of any length.
ghost use Rattle.std.specs.Prelude.{◌≡◌, [], take};
ghost use Rattle.model.specs.Runs.{Run};
ghost use Rattle.model.specs.Sessions.{positions, lean, output_limit};
ghost use Rattle.sweeper.specs.Tables.{image, state_of, lengths_of};

use crate::core_state::Core;
use crate::session::Session;
use crate::tables::Tables;
use crate::tally::Tally;
use lent::LentList;
use lookup::SlotTable;
use search::KEPT;

// The most nodes of a graph, without the constant.
const NODES: usize = 16383;

// The most output rows that count.
const OUTPUTS: usize = NODES + 1;

impl<'a> Session<'a> {
    // Opens a session on tables of any length, whatever they hold.
    pub fn open(tables: Tables<'a>) -> Session<'a>
        ensures source { result.core.source.places.now ≡ tables.entry.source.now }
        ensures reduced { result.core.reduced.places.now ≡ tables.entry.reduced.now }
        ensures cuts { result.core.cuts.now ≡ tables.entry.cuts.now }
        ensures outputs { result.core.outputs.places.now ≡ take output_limit tables.entry.outputs.now }
        ensures run { Run positions lean (lengths_of tables.entry) [] (state_of (image result.core)) }
    {
        let Tables {
            source,
            reduced,
            cuts,
            pairs,
            keys,
            outputs,
        } = tables;
        let by_cuts = (cuts.len() / KEPT).min(keys.len() / KEPT);
        let by_rows = source
            .len()
            .min(reduced.len().min(pairs.len().min(by_cuts)));
        let rows = OUTPUTS.min(outputs.len());
        Session {
            core: Core {
                source: LentList::new(source),
                reduced: LentList::new(reduced),
                cuts,
                pairs: SlotTable::open(pairs),
                keys: SlotTable::open(keys),
                outputs: LentList::new(&mut outputs[..rows]),
                capacity: NODES.min(by_rows),
                tally: Tally::new(),
            },
        }
    }
}
