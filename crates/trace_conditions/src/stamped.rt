// An operation with its stamps.

/// The most callers of an order.
pub const MOST_CALLERS: u32 = 17;

/// An operation of an order, with the stamps of its future. A stamp that isn't there stands for one that is still to come, and is
/// greater than every number.
#[derive(Clone, Copy, Debug, PartialEq, Eq)]
pub struct Stamped {
    /// Who made it, a number below `MOST_CALLERS`.
    pub caller: u32,
    /// When the call that makes the future begins.
    pub made: u64,
    /// When that call returns.
    pub returned: Option<u64>,
    /// When the evaluation returns.
    pub evaluated: Option<u64>,
}
