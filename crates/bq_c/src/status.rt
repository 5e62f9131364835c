// What a call answers to C.
ghost use Rattle.std.specs.Prelude.{◌≡◌, ◌↔◌, ◌⊎◌};
ghost use Rattle.bq_model.specs.declared.error.Refusal.{Refusal};

use bq_model::Refusal;

/// It was made.
pub const DONE: u32 = 0;
/// A dequeue found no value.
pub const EMPTY: u32 = 1;
/// The caller's queued items would pass the room.
pub const FULL: u32 = 2;
/// The caller's operations would pass the allowance.
pub const SPENT: u32 = 3;
/// Memory was lacking.
pub const NO_MEMORY: u32 = 4;
/// An argument is out of range, or the lengths do not fit.
pub const BAD_ARGUMENT: u32 = 5;
/// The pass was closed, or never made.
pub const NO_PASS: u32 = 6;
/// A pass that is still in use lies where a new one was to be put.
pub const IN_USE: u32 = 7;
/// The pass holds several callers, and only one by itself can make calls.
pub const SEVERAL: u32 = 8;

/// The number of a refusal.
pub fn of_refusal(refusal: Refusal) -> u32
    ensures known { (result ≡ 2) ⊎ (result ≡ 3) }
    ensures full { (result ≡ 2) ↔ (refusal ≡ Refusal.Full) }
    ensures spent { (result ≡ 3) ↔ (refusal ≡ Refusal.Spent) }
{
    match refusal {
        Refusal::Full => FULL,
        Refusal::Spent => SPENT,
    }
}
