// The tables that a session is opened on.
use crate::calls::Lengths;
use cuts::{Cut, CutKey, Edge};
use lookup::{FaninPair, Slot};
use search::ReducedRow;
use std::alloc::{AllocError, Global};
use sweeper::{Session, SourceRow};

#[derive(Drop)]
pub(crate) struct Tables {
    source: Vec<SourceRow>,
    reduced: Vec<ReducedRow>,
    cuts: Vec<Cut>,
    pairs: Vec<Slot<FaninPair>>,
    keys: Vec<Slot<CutKey>>,
    outputs: Vec<Edge>,
}

pub(crate) fn filled<T: Copy>(heap: Global, row: T, length: usize) -> Result<Vec<T>, AllocError> {
    vec![in heap; row; length]
}

impl Tables {
    pub(crate) fn new(heap: Global, lengths: &Lengths) -> Result<Tables, AllocError> {
        Ok(Tables {
            source: filled(heap, SourceRow::EMPTY, lengths.source)?,
            reduced: filled(heap, ReducedRow::EMPTY, lengths.reduced)?,
            cuts: filled(heap, Cut::trivial(0), lengths.cuts)?,
            pairs: filled(heap, None, lengths.pairs)?,
            keys: filled(heap, None, lengths.keys)?,
            outputs: filled(heap, Edge::new(0), lengths.outputs)?,
        })
    }

    pub(crate) fn open(&mut self) -> Session<'_> {
        Session::open(sweeper::Tables {
            source: self.source.as_mut_slice(),
            reduced: self.reduced.as_mut_slice(),
            cuts: self.cuts.as_mut_slice(),
            pairs: self.pairs.as_mut_slice(),
            keys: self.keys.as_mut_slice(),
            outputs: self.outputs.as_mut_slice(),
        })
    }
}
