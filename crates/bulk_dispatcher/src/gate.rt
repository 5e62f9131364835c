/// What a hand passes after it got a job and before it computes the answer.
pub trait Gate: Sync {
    /// Is called by the hand of this number with the number of the job.
    fn pass(&self, hand: u32, job: u32);
}

/// A gate that does nothing.
#[derive(Clone, Copy, Debug, Default)]
pub struct NoGate;

impl Gate for NoGate {
    fn pass(&self, _hand: u32, _job: u32) {}
}
