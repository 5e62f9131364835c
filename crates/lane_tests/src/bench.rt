// A lane of one caller with its session, which belong together, and what its calls answer, in words.
ghost use Rattle.std.specs.Prelude.{◌≡◌, ◌≤◌, IfOk};

use bq_model::{Lane, Op, OutOfMemory, Shape};
use bq_session::{EvalFault, Outcome, PlainFault, Refused, Session, Ticket};
use std::alloc::Global;
use std::marker::Model;

/// What a call answers.
#[derive(Clone, Copy, Debug, PartialEq, Eq)]
pub enum Told {
    Done,
    /// A value, and the serial of its claim.
    Got(u64, u64),
    Empty,
    Spent,
    Full,
    Withdrawn,
    BatchFull,
    TicketsFull,
    /// A ticket was given.
    Deferred,
    Took(Op),
    Nothing,
}

/// A call of a session. `Evaluate` is given the place of its ticket among all that were given.
#[derive(Clone, Copy, Debug)]
pub enum Call {
    FutureEnqueue(u64),
    FutureDequeue,
    Evaluate(usize),
    Enqueue(u64),
    Dequeue,
    WithdrawLast,
}

fn outcome_told(outcome: &Outcome) -> Told {
    match outcome {
        Outcome::Done => Told::Done,
        Outcome::Got(claim) => Told::Got(claim.value(), claim.serial()),
        Outcome::Empty => Told::Empty,
    }
}

fn fault_told(fault: PlainFault) -> Told {
    match fault {
        PlainFault::BatchFull => Told::BatchFull,
        PlainFault::Spent => Told::Spent,
        PlainFault::Full => Told::Full,
    }
}

/// A lane and the session of its one caller.
#[derive(Drop)]
pub struct Bench<L: Lane> {
    lane: L,
    session: Session<L>,
    tickets: Vec<Option<Ticket>>,
}

impl<L: Lane> Model for Bench<L> {
    ghost use Rattle.std.specs.Prelude.{◌≡◌};
    ghost use Rattle.bq_session.specs.Session.{SessionState};

    ghost Value = { SessionState L.Pass };

    ghost view = { λ b. b.session };

    ghost invariant = { λ b. (L.pass_identity b.session.pass ≡ L.identity b.lane) × (L.pass_shape b.session.pass ≡ L.lane_shape b.lane) };
}

impl<L: Lane> Bench<L> {
    /// A new lane of this shape, and a session with this batch and so many tickets.
    pub fn new(
        alloc: Global,
        shape: &Shape,
        batch: u32,
        tickets: u32,
    ) -> Result<Bench<L>, OutOfMemory>
        requires callers { shape.now.callers ≡ 1 }
        requires batch { (1 ≤ batch) × (batch ≤ shape.now.batch) }
        requires tickets { (1 ≤ tickets) × (tickets ≤ 256) }
    {
        let (lane, mut passes) = L::make(alloc, shape)?;
        let Some(pass) = passes.pop() else {
            return Err(OutOfMemory);
        };
        let session = Session::new(alloc, 7, pass, batch, tickets)?;
        Ok(Bench {
            lane,
            session,
            tickets: Vec::new(alloc),
        })
    }

    // Keeps a ticket that was given.
    fn keep(&mut self, made: Result<Ticket, Refused>) -> Result<Told, OutOfMemory> {
        match made {
            Ok(ticket) => {
                self.tickets.push(Some(ticket))?;
                Ok(Told::Deferred)
            }
            Err(Refused::BatchFull) => Ok(Told::BatchFull),
            Err(Refused::TicketsFull) => Ok(Told::TicketsFull),
        }
    }

    // Evaluates a ticket, and puts it back where it comes back.
    fn evaluate(&mut self, k: usize) -> Told {
        let Some(slot) = self.tickets.get_mut(k) else {
            return Told::Nothing;
        };
        let Some(ticket) = slot.take() else {
            return Told::Nothing;
        };
        if !self.session.owns(&ticket) {
            return Told::Nothing;
        }
        match self.session.evaluate(&self.lane, ticket) {
            Ok(outcome) => outcome_told(&outcome),
            Err(EvalFault::Spent(back)) => {
                self.put_back(k, back);
                Told::Spent
            }
            Err(EvalFault::Full(back)) => {
                self.put_back(k, back);
                Told::Full
            }
            Err(EvalFault::Withdrawn) => Told::Withdrawn,
        }
    }

    fn put_back(&mut self, k: usize, ticket: Ticket) {
        if let Some(slot) = self.tickets.get_mut(k) {
            *slot = Some(ticket);
        }
    }

    /// Makes a call.
    pub fn answer(&mut self, call: Call) -> Result<Told, OutOfMemory> {
        match call {
            Call::FutureEnqueue(v) => {
                let made = self.session.future_enqueue(v);
                self.keep(made)
            }
            Call::FutureDequeue => {
                let made = self.session.future_dequeue();
                self.keep(made)
            }
            Call::Evaluate(k) => Ok(self.evaluate(k)),
            Call::Enqueue(v) => Ok(self.enqueue(v)),
            Call::Dequeue => Ok(self.dequeue()),
            Call::WithdrawLast => Ok(self.withdraw_last()),
        }
    }

    fn enqueue(&mut self, v: u64) -> Told {
        match self.session.enqueue(&self.lane, v) {
            Ok(()) => Told::Done,
            Err(fault) => fault_told(fault),
        }
    }

    fn dequeue(&mut self) -> Told {
        match self.session.dequeue(&self.lane) {
            Ok(outcome) => outcome_told(&outcome),
            Err(fault) => fault_told(fault),
        }
    }

    fn withdraw_last(&mut self) -> Told {
        match self.session.withdraw_last() {
            Some(op) => Told::Took(op),
            None => Told::Nothing,
        }
    }

    /// How many operations are pending, and how many tickets are live.
    pub fn counts(&self) -> (usize, usize) {
        (
            self.session.pending() as usize,
            self.session.live() as usize,
        )
    }

    /// Whether `end` gives the pass; else how many operations are pending still.
    pub fn end(self) -> Option<usize> {
        let Bench {
            lane: _,
            session,
            tickets: _,
        } = self;
        match session.end() {
            Ok(_pass) => None,
            Err(session) => Some(session.pending() as usize),
        }
    }
}
