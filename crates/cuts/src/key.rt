//! The key of a cut: its leaves, and its table complemented so that bit 0 is 0.
ghost use Rattle.std.specs.Prelude.{◌≡◌, false};
ghost use Rattle.model.specs.Tables.{bit_at};

use crate::cut::Cut;

#[derive(Clone, Copy, Eq, Debug)]
pub struct CutKey {
    pub(crate) cut: Cut,
    ghost plain: { bit_at cut.table 0 ≡ false },
}
