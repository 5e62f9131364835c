// A deferred operation, and how it stands. It keeps its place, its answer, or that it was withdrawn.
use bq_model::Answer;

/// How a deferred operation stands while its ticket is live.
#[derive(Clone, Copy, Debug)]
pub enum Standing {
    /// It is pending, at this place among the pending operations.
    Pending(u32),
    /// It was made. This is its answer, and its serial among the operations of the caller.
    Kept(Answer, u64),
    /// It was withdrawn.
    Withdrawn,
}

/// A deferred operation whose ticket is live.
#[derive(Clone, Copy, Debug)]
pub struct Future {
    /// The number of its ticket.
    pub number: u64,
    /// How it stands.
    pub standing: Standing,
}
