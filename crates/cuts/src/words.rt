//! Operations on tables as words.
ghost use Rattle.std.specs.Prelude.{◌≡◌, ℕ, ◌<◌, Bool, true, false, ◌&&◌, if◌then◌else◌, nat_lt};
ghost use Rattle.model.specs.Tables.{val, put, masked, complemented};
ghost use Rattle.model.specs.Sessions.{positions};

use crate::sizes::{MASKS, POSITIONS, Table};

/// `a` where the position is 1, `b` where it is 0.
fn pick(position: usize, a: Table, b: Table) -> Table
    requires { position < positions }
    ensures { (v : ℕ → Bool) → val positions result v ≡ (if v position then val positions a v else val positions b v) }
{
    let mask = MASKS[position];
    (a & mask) | (b & !mask)
}

/// The table with the position held at 1.
fn high(table: Table, position: usize) -> Table
    requires { position < positions }
    ensures { (v : ℕ → Bool) → val positions result v ≡ val positions table (put v position true) }
{
    pick(position, table, table >> (1u32 << position))
}

/// The table with the position held at 0.
fn low(table: Table, position: usize) -> Table
    requires { position < positions }
    ensures { (v : ℕ → Bool) → val positions result v ≡ val positions table (put v position false) }
{
    pick(position, table << (1u32 << position), table)
}

/// The table whose leaf at `from` is read at `to` in its place.
pub(crate) fn moved(table: Table, from: usize, to: usize) -> Table
    requires { (from < positions) × (to < positions) }
    ensures { (v : ℕ → Bool) → val positions result v ≡ val positions table (put v from (v to)) }
{
    if from == to {
        table
    } else {
        pick(to, high(table, from), low(table, from))
    }
}

/// Whether the table is the same at either value of the position.
/// Each row where the position is 0 is compared with the one where it is 1.
pub(crate) fn is_free(table: Table, position: usize) -> bool
    requires { position < positions }
    ensures { result ≡ masked positions table position }
{
    ((table >> (1u32 << position)) ^ table) & !MASKS[position] == 0
}

/// Whether a leaf at the position would be masked; a table has no position from `POSITIONS` on, and then it is not.
pub fn is_masked(table: Table, position: usize) -> bool
    ensures { result ≡ (nat_lt position positions && masked positions table position) }
{
    position < POSITIONS && is_free(table, position)
}

/// The table, complemented for a sign.
pub(crate) fn complement_if(table: Table, sign: bool) -> Table
    ensures { result ≡ (if sign then complemented positions table else table) }
{
    if sign { !table } else { table }
}
