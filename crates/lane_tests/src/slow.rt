// A model of a session over a queue of one caller: a list of operations with their states, each done by itself.
use crate::bench::{Call, Told};
use bq_model::{Op, OutOfMemory};
use std::alloc::Global;
use std::collections::VecDeque;

#[derive(Clone, Copy, Debug, PartialEq, Eq)]
enum State {
    Pending,
    Made(Told),
    Withdrawn,
    Spent,
}

/// The limits of a session and of its lane, which has so many rows for values.
#[derive(Clone, Copy, Debug)]
pub struct Limits {
    pub batch: usize,
    pub tickets: usize,
    pub rows: usize,
    pub allowance: usize,
}

/// The model.
#[derive(Drop)]
pub struct Slow {
    limits: Limits,
    queue: VecDeque<u64>,
    // Whether the row of the last value that was taken is in use still, before those of the queue.
    kept: bool,
    made: usize,
    futures: Vec<(Op, State)>,
}

// What a group has done so far.
#[derive(Clone, Copy)]
struct Done {
    put: bool,
    took: bool,
    missed: bool,
}

const NOTHING: Done = Done {
    put: false,
    took: false,
    missed: false,
};

// Does an operation of a group on the queue.
fn run(
    queue: &mut VecDeque<u64>,
    made: &mut usize,
    done: &mut Done,
    op: Op,
) -> Result<Told, OutOfMemory> {
    let serial = *made;
    *made = serial.wrapping_add(1);
    match op {
        Op::Enq(v) => {
            queue.push_back(v)?;
            done.put = true;
            Ok(Told::Done)
        }
        Op::Deq => match queue.pop_front() {
            Some(v) => {
                done.took = true;
                Ok(Told::Got(v, serial as u64))
            }
            None => {
                done.missed = true;
                Ok(Told::Empty)
            }
        },
        // No call of a session makes one.
        Op::Shut => Ok(Told::Nothing),
    }
}

fn is_enqueue(op: Op) -> bool {
    matches!(op, Op::Enq(_))
}

impl Slow {
    pub fn new(alloc: Global, limits: Limits) -> Slow {
        Slow {
            limits,
            queue: VecDeque::new(alloc),
            kept: false,
            made: 0,
            futures: Vec::new(alloc),
        }
    }

    fn pending(&self) -> usize {
        self.futures
            .iter()
            .filter(|future| future.1 == State::Pending)
            .count()
    }

    fn enqueues(&self) -> usize {
        self.futures
            .iter()
            .filter(|future| future.1 == State::Pending && is_enqueue(future.0))
            .count()
    }

    fn live(&self) -> usize {
        self.futures
            .iter()
            .filter(|future| future.1 != State::Spent)
            .count()
    }

    pub fn counts(&self) -> (usize, usize) {
        (self.pending(), self.live())
    }

    /// The first live ticket, or the last.
    pub fn live_at(&self, last: bool) -> Option<usize> {
        let mut found = None;
        for k in 0..self.futures.len() {
            if self.futures[k].1 != State::Spent && (last || found.is_none()) {
                found = Some(k);
            }
        }
        found
    }

    fn defer(&mut self, op: Op) -> Result<Told, OutOfMemory> {
        if self.pending() == self.limits.batch {
            return Ok(Told::BatchFull);
        }
        if self.live() == self.limits.tickets {
            return Ok(Told::TicketsFull);
        }
        self.futures.push((op, State::Pending))?;
        Ok(Told::Deferred)
    }

    // Why the pending operations and `more` others, `enqueues` of them enqueues, are refused, if they are.
    fn refusal(&self, more: usize, enqueues: usize) -> Option<Told> {
        let ops = self.pending().wrapping_add(more);
        let new = self.enqueues().wrapping_add(enqueues);
        if self.made.wrapping_add(ops) > self.limits.allowance {
            Some(Told::Spent)
        } else if new > 0 && self.in_use().wrapping_add(new) > self.limits.rows {
            Some(Told::Full)
        } else {
            None
        }
    }

    // How many rows for values are in use.
    fn in_use(&self) -> usize {
        self.queue.len().wrapping_add(usize::from(self.kept))
    }

    fn make_pending(&mut self) -> Result<Done, OutOfMemory> {
        let mut done = NOTHING;
        for future in &mut self.futures {
            if future.1 == State::Pending {
                let told = run(&mut self.queue, &mut self.made, &mut done, future.0)?;
                future.1 = State::Made(told);
            }
        }
        Ok(done)
    }

    // The row of the last value that a group took is kept, but where it was of dequeues alone and one of them found nothing.
    fn keep_row(&mut self, done: Done) {
        if done.took {
            self.kept = done.put || !done.missed;
        }
    }

    // Makes what is pending and this operation.
    fn plain(&mut self, op: Op) -> Result<Told, OutOfMemory> {
        if self.pending() == self.limits.batch {
            return Ok(Told::BatchFull);
        }
        if let Some(refusal) = self.refusal(1, usize::from(is_enqueue(op))) {
            return Ok(refusal);
        }
        let mut done = self.make_pending()?;
        let told = run(&mut self.queue, &mut self.made, &mut done, op)?;
        self.keep_row(done);
        Ok(told)
    }

    // Evaluates the ticket of future `k`.
    fn evaluate(&mut self, k: usize) -> Result<Told, OutOfMemory> {
        let state = self.futures.get(k).map(|future| future.1);
        if state == Some(State::Pending) {
            if let Some(refusal) = self.refusal(0, 0) {
                return Ok(refusal);
            }
            let done = self.make_pending()?;
            self.keep_row(done);
        }
        Ok(self.spend(k))
    }

    fn spend(&mut self, k: usize) -> Told {
        let Some(future) = self.futures.get_mut(k) else {
            return Told::Nothing;
        };
        let told = match future.1 {
            State::Made(told) => told,
            State::Withdrawn => Told::Withdrawn,
            State::Pending | State::Spent => Told::Nothing,
        };
        future.1 = State::Spent;
        told
    }

    fn withdraw_last(&mut self) -> Told {
        let mut found = None;
        for k in 0..self.futures.len() {
            if self.futures[k].1 == State::Pending {
                found = Some(k);
            }
        }
        let Some(k) = found else {
            return Told::Nothing;
        };
        let Some(future) = self.futures.get_mut(k) else {
            return Told::Nothing;
        };
        future.1 = State::Withdrawn;
        Told::Took(future.0)
    }

    /// Makes a call.
    pub fn answer(&mut self, call: Call) -> Result<Told, OutOfMemory> {
        match call {
            Call::FutureEnqueue(v) => self.defer(Op::Enq(v)),
            Call::FutureDequeue => self.defer(Op::Deq),
            Call::Evaluate(k) => self.evaluate(k),
            Call::Enqueue(v) => self.plain(Op::Enq(v)),
            Call::Dequeue => self.plain(Op::Deq),
            Call::WithdrawLast => Ok(self.withdraw_last()),
        }
    }

    /// How many operations are pending, if any.
    pub fn end(&self) -> Option<usize> {
        let pending = self.pending();
        if pending == 0 { None } else { Some(pending) }
    }
}
