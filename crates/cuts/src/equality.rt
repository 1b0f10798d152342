//! Leaves and cuts are equal values exactly where they mean the same, since unused places are 0.
ghost use Rattle.std.specs.Prelude.{◌≡◌, Decides, nat_eq};
ghost use Rattle.std.specs.Cmp.{and_equiv, on_equiv, nat_eq_equiv};
ghost use Rattle.std.specs.Cmp as Cmp;
ghost use Rattle.std.specs.Cmp.Lexicographic.{nat_list_eq_equiv};
ghost use Rattle.cuts.specs.Meaning.{leaves_of, meaning, leaves_eq, cut_eq};

use crate::cut::Cut;
use crate::leaves::Leaves;

// Not derived: each `eq` promises `exact`, that equal values mean the same and no others do, and a derive has no clause of ours.
impl PartialEq for Leaves {
    ghost eq = { leaves_eq };

    ghost laws = { Cmp.partial_equiv_from_equiv (on_equiv leaves_of nat_list_eq_equiv) };

    fn eq(&self, other: &Leaves) -> bool
        ensures value { result ≡ leaves_eq self.now other.now }
        ensures exact { Decides result (leaves_of self.now ≡ leaves_of other.now) }
    {
        self.count == other.count && self.nodes == other.nodes
    }
}

impl PartialEq for Cut {
    ghost eq = { cut_eq };

    ghost laws = { Cmp.partial_equiv_from_equiv (and_equiv (on_equiv (λ c. c.table) nat_eq_equiv) (on_equiv (λ c. leaves_of c.leaves) nat_list_eq_equiv)) };

    fn eq(&self, other: &Cut) -> bool
        ensures value { result ≡ cut_eq self.now other.now }
        ensures exact { Decides result (meaning self.now ≡ meaning other.now) }
    {
        self.table == other.table && self.leaves == other.leaves
    }
}
