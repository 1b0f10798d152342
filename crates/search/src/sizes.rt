//! How many cuts a gate call works with.

/// The most cuts that a node keeps beside its trivial one.
pub const KEPT: usize = 4;

/// The most cuts of a fanin: the trivial one, and those kept.
pub const CUTS: usize = KEPT + 1;

/// The most pairs of cuts of two fanins.
pub const PAIRS: usize = CUTS * CUTS;
