// The programs: one takes the calls that need nothing but the session, the other every call.
ghost use Rattle.std.specs.Prelude.{true};
ghost use Rattle.scripts.specs.Taken.{is_plain};

use crate::calls::Call;
use crate::reading::Program;

// Neither lists, nor walks, nor cones.
#[derive(Clone, Copy)]
pub struct Plain;

impl Program for Plain {
    ghost takes = { is_plain };

    fn takes(&self, call: &Call) -> bool {
        !matches!(call, Call::List | Call::Walk(_) | Call::Cone(_, _, _))
    }

    fn takes_walks(&self) -> bool {
        false
    }
}

#[derive(Clone, Copy)]
pub struct Every;

impl Program for Every {
    ghost takes = { λ _. true };

    fn takes(&self, _call: &Call) -> bool {
        true
    }
}
