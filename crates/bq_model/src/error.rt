// Refusals and failures.
use std::alloc::{AllocError, AllocFailed};
use thiserror::Error;

/// Why a lane refuses a call. A refusal changes nothing.
#[derive(Clone, Copy, Debug, PartialEq, Eq, Hash, Error)]
pub enum Refusal {
    /// The caller's operations would pass the lane's allowance.
    #[error("the allowance is spent")]
    Spent,
    /// The caller's queued items would pass the room.
    #[error("the room is full")]
    Full,
}

/// Memory was lacking.
#[derive(Clone, Copy, Debug, PartialEq, Eq, Hash, Error)]
#[error("out of memory")]
pub struct OutOfMemory;

/// A read or a write failed.
#[derive(Clone, Copy, Debug, PartialEq, Eq, Hash, Error)]
#[error("a read or a write failed")]
pub struct Failed;

impl From<AllocError> for OutOfMemory {
    fn from(_error: AllocError) -> Self {
        OutOfMemory
    }
}

impl<T: Drop> From<AllocFailed<T>> for OutOfMemory {
    fn from(_failed: AllocFailed<T>) -> Self {
        OutOfMemory
    }
}
