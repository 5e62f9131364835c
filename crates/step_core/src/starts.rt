// The start of a command on the machine's lists.
ghost use Rattle.std.specs.Prelude.{◌≡◌, ◌≢◌, ◌↔◌, ℕ, ◌+◌, ◌++◌, ◌<◌, ◌≤◌, ◌^◌, true, List, [], ◌∷◌, Ok, IsTrue, IfOk, IfSome, OnOk, slice_get, length, vec_len, vec_capacity};
ghost use Rattle.bq_model.specs.declared.op.Op.{Op};
ghost use Rattle.excess_count.specs.Counts.{counts_of};
ghost use Rattle.excess_count.specs.Excess.{enqueue_count};
ghost use Rattle.bq_model.specs.Values.{enqueued};
ghost use Rattle.lane_steps.specs.declared.point.Point.TheVariants.{Idle};
ghost use Rattle.lane_steps.specs.Functions.{put};
ghost use Rattle.lane_steps.specs.LaneSizes.{lane_sizes};
ghost use Rattle.lane_steps.specs.Start.{PassesAllowance, IsCommand, first_point, begun, start};
ghost use Rattle.lane_steps.specs.State.{Caller};
ghost use Rattle.step_core.specs.Lists.{callers_of, state_of, IsSound};
ghost use Rattle.step_core.specs.Refused.{enqueues_of};

use crate::lists::Lists;
use bq_model::{Op, Ops, OutOfMemory, Shape};
use excess_count::{Counts, count};
use lane_steps::first_point;
use std::alloc::Global;

/// What became of the start of a command.
#[derive(Clone, Copy, Debug, PartialEq, Eq, Hash)]
pub enum Started {
    /// The command runs.
    Running,
    /// The caller's operations would pass the allowance, and there is no command.
    Spent,
}

// The operations once more.
fn copied(alloc: Global, ops: &[Op]) -> Result<Ops, OutOfMemory>
    ensures { IfOk result (λ copy. copy ≡ ops.now) }
{
    Ok(Ops::from(ops.to_vec(alloc)?))
}

// The values that they enqueue, in order.
fn puts_of(alloc: Global, ops: &[Op]) -> Result<Vec<u64>, OutOfMemory>
    ensures { IfOk result (λ puts. puts.items ≡ enqueued ops.now) }
{
    let mut puts = Vec::new(alloc);
    for op in ops {
        put_value(&mut puts, *op)?;
    }
    Ok(puts)
}

// Appends the value that the operation enqueues, if any.
fn put_value(puts: &mut Vec<u64>, op: Op) -> Result<(), OutOfMemory>
    ensures { OnOk result (puts.new.items ≡ puts.old.items ++ enqueued (op ∷ [])) }
{
    match op {
        Op::Enq(value) => puts.push(value)?,
        Op::Deq | Op::Shut => {}
    }
    Ok(())
}

impl Lists {
    // Whether so many more operations pass the caller's allowance.
    fn is_spent(&self, caller: u32, more: usize) -> bool
        requires sound { IsSound self.now }
        requires known { caller < self.now.shape.callers }
        ensures { IsTrue result ↔ PassesAllowance (lane_sizes self.now.shape) (callers_of self.now.calls.items caller) more }
    {
        let made = self.calls[caller as usize].operations;
        self.shape.allowance() - made < more as u64
    }

    // Takes the memory that a command of the caller needs: for its group in the history, and for its end.
    fn reserve(&mut self, caller: u32) -> Result<(), OutOfMemory>
        requires sound { IsSound self.old }
        requires known { caller < self.old.shape.callers }
        ensures same { state_of self.new ≡ state_of self.old }
        ensures shape { self.new.shape ≡ self.old.shape }
        ensures sound { IsSound self.new }
        ensures history { OnOk result (vec_len self.new.history + vec_len self.new.calls ≤ vec_capacity self.new.history) }
        ensures room { OnOk result (IfSome (slice_get self.new.calls.items caller) (λ k. vec_len k.mine < vec_capacity k.mine)) }
        ensures enqueues_stay { self.new.enqueues ≡ self.old.enqueues }
    {
        self.history.reserve(self.calls.len())?;
        let call = &mut self.calls[caller as usize];
        call.reserve()
    }

    // The command begins, with its operations, a copy of them and the values of its enqueues, whose number is noted.
    fn begin(&mut self, caller: u32, counts: Counts, ops: Ops, copy: Ops, puts: Vec<u64>)
        requires sound { IsSound self.old }
        requires known { caller < self.old.shape.callers }
        requires idle { (callers_of self.old.calls.items caller).point ≡ Idle }
        requires command { IsCommand ops }
        requires most { length ops ≤ self.old.shape.batch }
        requires left { ¬ (PassesAllowance (lane_sizes self.old.shape) (callers_of self.old.calls.items caller) (length ops)) }
        requires history { vec_len self.old.history + vec_len self.old.calls ≤ vec_capacity self.old.history }
        requires room { IfSome (slice_get self.old.calls.items caller) (λ k. vec_len k.mine < vec_capacity k.mine) }
        requires counts { counts ≡ counts_of ops }
        requires copy { copy ≡ ops }
        requires puts { puts.items ≡ enqueued ops }
        ensures memory { (state_of self.new).memory ≡ (state_of self.old).memory }
        ensures history_stays { (state_of self.new).history ≡ (state_of self.old).history }
        ensures callers { callers_of self.new.calls.items ≡ put (callers_of self.old.calls.items) caller
            (begun (lane_sizes self.old.shape) (vec_len self.old.history) caller (callers_of self.old.calls.items caller) ops) }
        ensures sound { IsSound self.new }
        ensures shape { self.new.shape ≡ self.old.shape }
        ensures counted { enqueues_of self.new.enqueues.items caller ≡ enqueue_count ops }
        ensures others { (c : ℕ) → c ≢ caller → enqueues_of self.new.enqueues.items c ≡ enqueues_of self.old.enqueues.items c }
    {
        let now = self.history.len();
        let batch = self.calls[caller as usize].mine.len() as u64;
        let point = first_point(
            &self.shape,
            caller,
            batch,
            ops.as_slice(),
            counts,
            puts.as_slice(),
        );
        self.copies[caller as usize] = copy;
        self.enqueues[caller as usize] = counts.enqs;
        let call = &mut self.calls[caller as usize];
        call.begin(point, ops, puts, now);
    }

    /// Starts a command.
    pub fn start(&mut self, caller: u32, ops: &[Op]) -> Result<Started, OutOfMemory>
        requires sound { IsSound self.old }
        requires known { caller < self.old.shape.callers }
        requires idle { (callers_of self.old.calls.items caller).point ≡ Idle }
        requires command { IsCommand ops.now }
        requires most { length ops.now ≤ self.old.shape.batch }
        ensures spent { (result ≡ Ok Started.Spent) ↔ PassesAllowance (lane_sizes self.old.shape) (callers_of self.old.calls.items caller) (length ops.now) }
        ensures running { (result ≡ Ok Started.Running) → state_of self.new ≡ start (lane_sizes self.old.shape) (state_of self.old) caller ops.now }
        ensures refusal { result ≢ Ok Started.Running → state_of self.new ≡ state_of self.old }
        ensures counted { (result ≡ Ok Started.Running) → enqueues_of self.new.enqueues.items caller ≡ enqueue_count ops.now }
        ensures others { (c : ℕ) → c ≢ caller → enqueues_of self.new.enqueues.items c ≡ enqueues_of self.old.enqueues.items c }
        ensures refusal_counts_nothing { result ≢ Ok Started.Running → self.new.enqueues ≡ self.old.enqueues }
        ensures sound { IsSound self.new }
        ensures shape { self.new.shape ≡ self.old.shape }
    {
        if self.is_spent(caller, ops.len()) {
            return Ok(Started::Spent);
        }
        let counts = count(ops);
        let own = copied(self.alloc, ops)?;
        let copy = copied(self.alloc, ops)?;
        let puts = puts_of(self.alloc, ops)?;
        self.reserve(caller)?;
        self.begin(caller, counts, own, copy, puts);
        Ok(Started::Running)
    }
}
