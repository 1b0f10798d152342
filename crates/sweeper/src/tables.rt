// The tables that a caller lends a session.
use crate::rows::SourceRow;
use cuts::{Cut, CutKey, Edge};
use lookup::{FaninPair, Slot};
use search::ReducedRow;

// Tables of any length, whatever they hold.
#[derive(Drop)]
pub struct Tables<'a> {
    pub source: &'a mut [SourceRow],
    pub reduced: &'a mut [ReducedRow],
    pub cuts: &'a mut [Cut],
    pub pairs: &'a mut [Slot<FaninPair>],
    pub keys: &'a mut [Slot<CutKey>],
    pub outputs: &'a mut [Edge],
}
