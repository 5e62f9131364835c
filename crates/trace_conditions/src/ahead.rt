// Whether each operation was made before a stamp of those behind it.
ghost use Rattle.std.specs.Prelude.{◌≡◌, ◌<◌};
ghost use Rattle.std.specs.Bool.{Decides};
ghost use Rattle.trace_conditions.specs.Stamps.{IsBefore};
ghost use Rattle.trace_conditions.specs.Conditions.{stamp_of, AreAhead};

use crate::stamped::Stamped;

/// A stamp of an operation behind its making.
#[derive(Clone, Copy)]
pub(crate) enum Stamp {
    /// When the call that made the future returned.
    Returned,
    /// When the evaluation returned.
    Evaluated,
}

fn stamp_of(stamp: Stamp, op: &Stamped) -> Option<u64>
    ensures { result ≡ stamp_of stamp op.now }
{
    match stamp {
        Stamp::Returned => op.returned,
        Stamp::Evaluated => op.evaluated,
    }
}

fn is_before(number: u64, stamp: Option<u64>) -> bool
    ensures { Decides result (IsBefore number stamp) }
{
    match stamp {
        Some(stamp) => number < stamp,
        None => true,
    }
}

/// Whether each operation, and each that stands before it, was made before this stamp of it. The greatest `made` so far is enough
/// to know of those before.
pub(crate) fn are_ahead(stamp: Stamp, ops: &[Stamped]) -> bool
    ensures { Decides result (AreAhead stamp ops.now) }
{
    let mut latest = 0;
    for op in ops {
        latest = op.made.max(latest);
        if !is_before(latest, stamp_of(stamp, op)) {
            return false;
        }
    }
    true
}
