//! From a cut to its key and sign, and back.
ghost use Rattle.std.specs.Prelude.{◌≡◌, Decides, nat_eq};
ghost use Rattle.model.specs.Cuts.{key_list, key_sign};
ghost use Rattle.model.specs.Sessions.{positions};
ghost use Rattle.cuts.specs.Meaning.{meaning};
ghost use Rattle.cuts.specs.Keys.{key_meaning, cut_of, Restores};
ghost use Rattle.std.specs.Cmp.{on_equiv};
ghost use Rattle.std.specs.Cmp as Cmp;
ghost use Rattle.std.specs.Cmp.Lexicographic.{pointwise, nat_list_eq_equiv};

use crate::cut::Cut;
use crate::key::CutKey;
use crate::sizes::Table;
use crate::words::complement_if;

impl Cut {
    /// The key, and its sign: whether the table was complemented for it.
    pub fn key(&self) -> (CutKey, bool)
        ensures key { key_meaning result.0 ≡ key_list positions (meaning self.now) }
        ensures sign { result.1 ≡ key_sign (meaning self.now) }
    {
        let sign = self.table & 1 == 1;
        let cut = Cut {
            leaves: self.leaves,
            table: complement_if(self.table, sign),
        };
        (CutKey { cut }, sign)
    }
}

impl CutKey {
    /// The leaves in rising number.
    pub fn leaves(&self) -> &[u16]
        ensures { result.now ≡ (meaning self.now.cut).leaves }
    {
        self.cut.leaves()
    }

    /// The table, whose bit 0 is 0.
    pub fn table(&self) -> Table
        ensures { result ≡ (meaning self.now.cut).table }
    {
        self.cut.table()
    }

    /// The one cut that has this key with this sign.
    pub fn cut(&self, sign: bool) -> Cut
        ensures cut { meaning result ≡ cut_of self.now sign }
        ensures restores { Restores self.now sign (meaning result) }
    {
        Cut {
            leaves: self.cut.leaves,
            table: complement_if(self.cut.table, sign),
        }
    }
}

// Not derived, for the clause `exact`, as of cuts.
impl PartialEq for CutKey {
    ghost eq = { λ x y. pointwise nat_eq (key_meaning x) (key_meaning y) };

    ghost laws = { Cmp.partial_equiv_from_equiv (on_equiv key_meaning nat_list_eq_equiv) };

    fn eq(&self, other: &CutKey) -> bool
        ensures value { result ≡ pointwise nat_eq (key_meaning self.now) (key_meaning other.now) }
        ensures exact { Decides result (key_meaning self.now ≡ key_meaning other.now) }
    {
        self.cut == other.cut
    }
}
