//! Masked leaves go, and the table is stretched back to those that remain.
ghost use Rattle.std.specs.Prelude.{◌≡◌, ℕ, ◌<◌, ◌≤◌, false, length, Decides};
ghost use Rattle.model.specs.Tables.{Loose, masked};
ghost use Rattle.model.specs.Leaves.{Rising};
ghost use Rattle.model.specs.Cuts.{squeeze as squeezed};
ghost use Rattle.model.specs.Sessions.{positions};
ghost use Rattle.cuts.specs.Meaning.{leaves_of};
ghost use Rattle.cuts.specs.Outcomes.{squeezed_of, Squeezes};

use crate::cut::Cut;
use crate::leaves::Leaves;
use crate::outcome::Squeezed;
use crate::sizes::{POSITIONS, Table};
use crate::words::{is_free, moved};

/// Whether the table depends on each of the first positions.
fn depends_on_first(table: Table, count: usize) -> bool
    ensures { Decides result ((i : ℕ) → i < count → i < positions → masked positions table i ≡ false) }
{
    !(0..POSITIONS.min(count)).any(|position| is_free(table, position))
}

/// What is left of a table that looks at no position past the leaves.
/// The lowest leaf is moved first, so that its new position is one that is dealt with.
fn drop_masked(leaves: &[u16], table: Table) -> Squeezed
    requires few { length leaves.now ≤ positions }
    requires rising { Rising leaves.now }
    requires loose { Loose positions table (length leaves.now) }
    ensures { squeezed_of result ≡ squeezed positions (record { leaves = leaves.entry.now; table = table }) }
{
    let mut found = [0; POSITIONS];
    let mut count = 0;
    let mut word = table;
    for (position, leaf) in leaves.iter().enumerate() {
        if !is_free(table, position) {
            found[count] = *leaf;
            word = moved(word, position, count);
            count += 1;
        }
    }
    if count == 0 {
        return Squeezed::Constant(word & 1 == 1);
    }
    let leaves = Leaves {
        nodes: found,
        count: count as u8,
    };
    Squeezed::Cut(Cut {
        leaves,
        table: word,
    })
}

/// The same, where mostly no leaf is masked and all stays as it is.
pub(crate) fn squeeze(leaves: &Leaves, table: Table) -> Squeezed
    requires { Loose positions table leaves.now.count }
    ensures { squeezed_of result ≡ squeezed positions (record { leaves = leaves_of leaves.entry.now; table = table }) }
{
    if leaves.count > 0 && depends_on_first(table, leaves.len()) {
        return Squeezed::Cut(Cut {
            leaves: *leaves,
            table,
        });
    }
    drop_masked(leaves.as_slice(), table)
}

impl Leaves {
    /// What is left of a table over the leaves, or none if it looks at a position that has no leaf.
    pub fn squeeze(&self, table: Table) -> Option<Squeezed>
        ensures { Squeezes (record { leaves = leaves_of self.now; table = table }) result }
    {
        let fits = (self.len()..POSITIONS).all(|position| is_free(table, position));
        if fits {
            Some(squeeze(self, table))
        } else {
            None
        }
    }
}
