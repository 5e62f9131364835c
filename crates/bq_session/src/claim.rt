// What a dequeue got. A claim names the dequeue, and is made once for it.
ghost use Rattle.std.specs.Prelude.{◌≡◌, ◌≢◌};

use bq_model::Answer;

/// A value that a dequeue got, with the dequeue's name. Only a session makes one, and it can't be copied.
#[derive(Debug, Drop)]
pub struct Claim {
    pub(crate) lane: u32,
    pub(crate) caller: u32,
    pub(crate) serial: u64,
    pub(crate) value: u64,
}

impl Claim {
    /// The number of the lane.
    pub fn lane(&self) -> u32
        ensures { result ≡ self.now.lane }
    {
        self.lane
    }

    /// Who made the dequeue.
    pub fn caller(&self) -> u32
        ensures { result ≡ self.now.caller }
    {
        self.caller
    }

    /// The place of the dequeue among the operations of this caller, from 0.
    pub fn serial(&self) -> u64
        ensures { result ≡ self.now.serial }
    {
        self.serial
    }

    /// The value that it got.
    pub fn value(&self) -> u64
        ensures { result ≡ self.now.value }
    {
        self.value
    }
}

/// What came of an operation.
#[derive(Debug, Drop)]
pub enum Outcome {
    /// An enqueue was made.
    Done,
    /// A dequeue got a value.
    Got(Claim),
    /// A dequeue found no value.
    Empty,
}

impl Outcome {
    ghost use Rattle.bq_session.specs.Outcome.{outcome_of};

    /// What came of operation `serial` of a caller, by its answer. None is refused, since no lane is shut.
    pub(crate) fn new(lane: u32, caller: u32, serial: u64, answer: Answer) -> Outcome
        requires { answer ≢ Answer.Refused }
        ensures { result ≡ outcome_of lane caller serial answer }
    {
        match answer {
            Answer::Done => Outcome::Done,
            Answer::Got(value) => Outcome::Got(Claim {
                lane,
                caller,
                serial,
                value,
            }),
            Answer::Empty => Outcome::Empty,
            Answer::Refused => unreachable!(),
        }
    }
}
