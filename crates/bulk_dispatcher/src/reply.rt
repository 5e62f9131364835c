// A reply, which names the dequeue that got its job.
ghost use Rattle.std.specs.Prelude.{◌≡◌};

use bq_model::Text;
use bq_session::Claim;

/// The answer to a job, and the operation that got the job.
#[derive(Debug, Drop)]
pub struct Reply {
    job: u32,
    lane: u32,
    caller: u32,
    serial: u64,
    text: Text,
}

impl Reply {
    /// A reply is made by spending the claim to the job's number.
    pub(crate) fn new(claim: Claim, job: u32, text: Text) -> Reply
        ensures { result ≡ record { job = job; lane = claim.lane; caller = claim.caller; serial = claim.serial; text = text } }
    {
        Reply {
            job,
            lane: claim.lane(),
            caller: claim.caller(),
            serial: claim.serial(),
            text,
        }
    }

    /// The number of the job.
    pub fn job(&self) -> u32
        ensures { result ≡ self.now.job }
    {
        self.job
    }

    /// The number of the lane that the job came through.
    pub fn lane(&self) -> u32
        ensures { result ≡ self.now.lane }
    {
        self.lane
    }

    /// The caller that got the job there.
    pub fn caller(&self) -> u32
        ensures { result ≡ self.now.caller }
    {
        self.caller
    }

    /// The place, from 0, of the dequeue that got the job among the operations of this caller on this lane.
    pub fn serial(&self) -> u64
        ensures { result ≡ self.now.serial }
    {
        self.serial
    }

    /// The answer, with no line end.
    pub fn text(&self) -> &Text
        ensures { result.now ≡ self.now.text }
    {
        &self.text
    }
}
