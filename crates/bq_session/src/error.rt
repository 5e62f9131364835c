// Why a session refuses a call.
use crate::ticket::Ticket;
use bq_model::Refusal;
use thiserror::Error;

/// Why an operation was not deferred.
#[derive(Clone, Copy, Debug, PartialEq, Eq, Hash, Error)]
pub enum Refused {
    /// As many operations are pending as a batch may have.
    #[error("the batch is full")]
    BatchFull,
    /// As many tickets are live as the session has.
    #[error("all tickets are live")]
    TicketsFull,
}

/// Why a ticket has no outcome.
#[derive(Debug, Drop)]
pub enum EvalFault {
    /// The lane's allowance is spent. The operations stay pending.
    Spent(Ticket),
    /// The lane's room is full. The operations stay pending.
    Full(Ticket),
    /// The operation was withdrawn.
    Withdrawn,
}

/// Why an operation was not made at once. The operations that were pending stay so.
#[derive(Clone, Copy, Debug, PartialEq, Eq, Hash, Error)]
pub enum PlainFault {
    /// As many operations are pending as a batch may have.
    #[error("the batch is full")]
    BatchFull,
    /// The lane's allowance is spent.
    #[error("the allowance is spent")]
    Spent,
    /// The lane's room is full.
    #[error("the room is full")]
    Full,
}

impl From<Refusal> for PlainFault {
    ghost use Rattle.std.specs.Prelude.{◌≡◌};
    ghost use Rattle.bq_session.specs.Faults.{plain_fault};

    ghost from_gives = { λ refusal fault. fault ≡ plain_fault refusal };

    fn from(refusal: Refusal) -> Self {
        match refusal {
            Refusal::Spent => PlainFault::Spent,
            Refusal::Full => PlainFault::Full,
        }
    }
}
