// Whether each caller's operations stand in the order in which it made them.
ghost use Rattle.std.specs.Prelude.{◌≡◌, ◌<◌, All};
ghost use Rattle.std.specs.Bool.{Decides};
ghost use Rattle.trace_conditions.specs.Stamps.{IsBehind};
ghost use Rattle.trace_conditions.specs.Conditions.{AreInCallersOrder};

use crate::stamped::{MOST_CALLERS, Stamped};

fn is_behind(number: u64, last: Option<u64>) -> bool
    ensures { Decides result (IsBehind number last) }
{
    match last {
        Some(last) => last < number,
        None => true,
    }
}

/// Whether of two operations of one caller the one that stands first was made first.
pub(crate) fn is_in_callers_order(ops: &[Stamped]) -> bool
    requires callers { All (λ op. op.caller < 17) ops.now }
    ensures { Decides result (AreInCallersOrder ops.now) }
{
    let mut latest: [Option<u64>; MOST_CALLERS as usize] = [None; MOST_CALLERS as usize];
    for op in ops {
        let caller = op.caller as usize;
        if !is_behind(op.made, latest[caller]) {
            return false;
        }
        latest[caller] = Some(op.made);
    }
    true
}
