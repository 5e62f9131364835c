// The queue of a single thread.
ghost use Rattle.std.specs.Prelude.{◌≡◌, [], IfOk, OnOk};
ghost use Rattle.bq_model.specs.Queue.{unshut, queue_after, answer_at_queue};

use bq_model::{Answer, Op, OutOfMemory};
use std::alloc::Global;
use std::collections::VecDeque;
use std::marker::Model;

/// The values that are queued, the first one first, and whether the queue is shut.
#[derive(Drop)]
pub(crate) struct Fifo {
    values: VecDeque<u64>,
    shut: bool,
}

impl Model for Fifo {
    ghost use Rattle.bq_model.specs.Queue.{Queue, queue_of};

    ghost Value = { Queue };

    ghost view = { λ f. queue_of f.values.items f.shut };
}

impl Fifo {
    /// An empty queue that isn't shut.
    pub(crate) fn new(alloc: Global) -> Self
        ensures { result ≡ unshut [] }
    {
        Fifo {
            values: VecDeque::new(alloc),
            shut: false,
        }
    }

    /// Makes an operation, and gives its answer.
    pub(crate) fn make(&mut self, op: Op) -> Result<Answer, OutOfMemory>
        ensures answer { IfOk result (λ answer. answer ≡ answer_at_queue self.old op) }
        ensures queue { OnOk result (self.new ≡ queue_after self.old op) }
    {
        match op {
            Op::Enq(_) if self.shut => Ok(Answer::Refused),
            Op::Enq(v) => {
                self.values.push_back(v)?;
                Ok(Answer::Done)
            }
            Op::Deq => match self.values.pop_front() {
                Some(v) => Ok(Answer::Got(v)),
                None => Ok(Answer::Empty),
            },
            Op::Shut => {
                self.shut = true;
                Ok(Answer::Done)
            }
        }
    }
}
