ghost use Rattle.std.specs.Prelude.{◌≡◌, ℕ, ◌<◌, cond, not};
ghost use Rattle.signals.specs.Lanes.{signed};

use crate::signal::Signal;

// The signal of an edge: its node's, complemented for sign 1.
pub fn edge_signal<S: Signal>(signal: S, sign: bool) -> S
    ensures is { result ≡ signed S.Signal.flip sign signal }
    ensures acts { (i : ℕ) → i < S.Signal.lanes → S.Signal.lane result i ≡ signed not sign (S.Signal.lane signal i) }
{
    if sign { signal.complement() } else { signal }
}
