// A block of jobs whose end is still to come.
use bq_model::Items;
use job_work::Job;

/// A block that is open.
#[derive(Debug, Drop)]
pub struct Block {
    /// The number of its first line.
    pub line: u32,
    /// The number of its lane.
    pub lane: u32,
    /// Its jobs so far.
    pub jobs: Items<Job>,
}
