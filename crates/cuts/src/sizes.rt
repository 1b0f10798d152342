//! How many positions a table has, and what hangs on that number.

/// The positions of a table, which are the most leaves that a cut can have.
pub const POSITIONS: usize = 4;

/// A truth table: bit j is the value where position i has the value of bit i of j.
pub type Table = u16;

/// The table of each position.
pub const MASKS: [Table; POSITIONS] = [0xAAAA, 0xCCCC, 0xF0F0, 0xFF00];
