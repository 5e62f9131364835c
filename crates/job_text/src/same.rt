// Whether two values say the same: texts, jobs, units, and lists of these.
ghost use Rattle.std.specs.Prelude.{◌≡◌};
ghost use Rattle.std.specs.Bool.{Decides};

use crate::file::Unit;
use bq_model::Text;
use job_work::Job;

/// A value that can be compared as contracts see it.
pub(crate) trait Same {
    /// Whether the other one is the same.
    fn is_same(&self, other: &Self) -> bool
        ensures { Decides result (self.now ≡ other.now) };
}

impl Same for Text {
    fn is_same(&self, other: &Text) -> bool {
        self.as_slice() == other.as_slice()
    }
}

impl Same for Job {
    fn is_same(&self, other: &Job) -> bool {
        match (self, other) {
            (Job::Sum(ours), Job::Sum(theirs)) => ours.as_slice() == theirs.as_slice(),
            (Job::Digest(ours), Job::Digest(theirs)) => ours.as_slice() == theirs.as_slice(),
            (
                Job::Count { byte, bytes },
                Job::Count {
                    byte: their_byte,
                    bytes: their_bytes,
                },
            ) => byte == their_byte && bytes.as_slice() == their_bytes.as_slice(),
            (
                Job::Mix { start, turns },
                Job::Mix {
                    start: their_start,
                    turns: their_turns,
                },
            ) => start == their_start && turns == their_turns,
            (Job::Words(ours), Job::Words(theirs)) => {
                are_same(ours.as_slice(), theirs.as_slice())
            }
            _ => false,
        }
    }
}

impl Same for Unit {
    fn is_same(&self, other: &Unit) -> bool {
        self.lane == other.lane && are_same(self.jobs.as_slice(), other.jobs.as_slice())
    }
}

/// Whether two lists have the same values in the same order.
pub(crate) fn are_same<T: Same>(ours: &[T], theirs: &[T]) -> bool
    ensures { Decides result (ours.now ≡ theirs.now) }
{
    if ours.len() != theirs.len() {
        return false;
    }
    for (one, other) in ours.iter().zip(theirs) {
        if !one.is_same(other) {
            return false;
        }
    }
    true
}
