//! A cut: one leaf or more, and a table that depends on each of them and on no other position.
ghost use Rattle.std.specs.Prelude.{◌≡◌, ℕ, ◌<◌, false};
ghost use Rattle.model.specs.Tables.{masked, Loose};
ghost use Rattle.model.specs.Sessions.{positions};

use crate::leaves::Leaves;
use crate::sizes::Table;

#[derive(Clone, Copy, Eq, Debug)]
pub struct Cut {
    pub(crate) leaves: Leaves,
    pub(crate) table: Table,
    ghost some: { 0 < leaves.count },
    ghost loose: { Loose positions table leaves.count },
    ghost tight: { (i : ℕ) → i < leaves.count → masked positions table i ≡ false },
}
