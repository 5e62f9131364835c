// The first condition that an order meets.
ghost use Rattle.std.specs.Prelude.{◌≡◌, ◌<◌, All};
ghost use Rattle.trace_conditions.specs.Conditions.{Meets};

use crate::ahead::{Stamp, are_ahead};
use crate::callers::is_in_callers_order;
use crate::stamped::Stamped;

/// A condition on the order in which operations with futures take effect (Kogan and Herlihy, PODC 2014).
#[derive(Clone, Copy, Debug, PartialEq, Eq)]
pub enum Condition {
    /// Each operation takes effect while its future is made.
    Strong,
    /// Each operation takes effect between its future's making and its evaluation, and those of one caller in the order in which
    /// it made them.
    Medium,
    /// Each operation takes effect between its future's making and its evaluation.
    Weak,
    /// None of these.
    Neither,
}

/// The first condition that the order meets. It takes time in proportion to the operations, and no memory.
pub fn condition_of(ops: &[Stamped]) -> Condition
    requires callers { All (λ op. op.caller < 17) ops.now }
    ensures { Meets result ops.now }
{
    if are_ahead(Stamp::Returned, ops) {
        return Condition::Strong;
    }
    if !are_ahead(Stamp::Evaluated, ops) {
        return Condition::Neither;
    }
    if is_in_callers_order(ops) {
        Condition::Medium
    } else {
        Condition::Weak
    }
}
