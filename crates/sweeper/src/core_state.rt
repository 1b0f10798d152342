// The lent tables and how much of them is in use. `Session` has the calls; here are the steps in the midst of which its facts do not hold.
use crate::rows::SourceRow;
use crate::tally::Tally;
use cuts::{Cut, CutKey, Edge};
use lent::LentList;
use lookup::{FaninPair, SlotTable};
use search::ReducedRow;

#[derive(Drop)]
pub struct Core<'a> {
    pub(crate) source: LentList<'a, SourceRow>,
    pub(crate) reduced: LentList<'a, ReducedRow>,
    pub(crate) cuts: &'a mut [Cut],
    pub(crate) pairs: SlotTable<'a, FaninPair>,
    pub(crate) keys: SlotTable<'a, CutKey>,
    pub(crate) outputs: LentList<'a, Edge>,
    pub(crate) capacity: usize,
    pub(crate) tally: Tally,
}
