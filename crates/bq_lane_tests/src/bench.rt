// A lane of one caller, and batches for it.
ghost use Rattle.std.specs.Prelude.{◌≡◌, ◌<◌, ◌≤◌, ◌^◌, length, IfOk};
ghost use Rattle.bq_model.specs.NoShut.{NoShut};

use bq_lane::{BqLane, Pass};
use bq_model::{Answer, Answers, Batch, Lane, Op, OutOfMemory, Shape};
use std::alloc::Global;

/// A new lane of one caller, with its pass.
pub fn alone(alloc: Global, shape: &Shape) -> Result<(BqLane, Pass), OutOfMemory>
    requires { shape.now.callers ≡ 1 }
    ensures of_the_lane { IfOk result (λ made. (made.1.table ≡ made.0.table) × (made.1.shape ≡ made.0.shape)) }
    ensures one_caller { IfOk result (λ made. length made.1.callers ≡ 1) }
    ensures shape { IfOk result (λ made. made.0.shape ≡ shape.now) }
{
    let (lane, mut passes) = BqLane::make(alloc, shape)?;
    match passes.pop() {
        Some(pass) => Ok((lane, pass)),
        None => Err(OutOfMemory),
    }
}

// Puts the operation into the batch, where there is room and it is no Shut.
#[tactic(auto, using(crate::proofs::Pushes::enqueue_pushed, crate::proofs::Pushes::dequeue_pushed))]
fn put(batch: &mut Batch, op: Op)
    requires capacity { batch.old.capacity ≡ 8 }
    requires room { length batch.old.items ≤ 8 }
    requires no_shut { NoShut batch.old.items }
    ensures capacity { batch.new.capacity ≡ 8 }
    ensures room { length batch.new.items ≤ 8 }
    ensures no_shut { NoShut batch.new.items }
{
    if batch.len() >= 8 {
        return;
    }
    match op {
        Op::Enq(value) => batch.push(Op::Enq(value)),
        Op::Deq => batch.push(Op::Deq),
        Op::Shut => {}
    }
}

/// The answers to these operations as one batch. None where they are no batch, or are refused.
pub fn applied(
    alloc: Global,
    lane: &BqLane,
    pass: &mut Pass,
    ops: &[Op],
) -> Result<Option<Answers>, OutOfMemory>
    requires of_this_lane { (pass.old.table ≡ lane.now.table) × (pass.old.shape ≡ lane.now.shape) }
    requires one_caller { length pass.old.callers ≡ 1 }
    requires room { 8 ≤ lane.now.shape.batch }
    ensures pass_stays { (pass.new.table ≡ pass.old.table) × (pass.new.shape ≡ pass.old.shape) × (pass.new.callers ≡ pass.old.callers) }
{
    let mut batch = Batch::new(alloc, 8)?;
    let mut out = Answers::new(alloc, 8)?;
    for op in ops {
        put(&mut batch, *op);
    }
    if batch.is_empty() {
        return Ok(None);
    }
    match lane.apply(pass, &batch, &mut out) {
        Ok(()) => Ok(Some(out)),
        Err(_) => Ok(None),
    }
}

/// Enqueues the values. Whether none was refused.
pub fn puts(lane: &BqLane, pass: &mut Pass, values: &[u64]) -> bool
    requires of_this_lane { (pass.old.table ≡ lane.now.table) × (pass.old.shape ≡ lane.now.shape) }
    requires one_caller { length pass.old.callers ≡ 1 }
    ensures pass_stays { (pass.new.table ≡ pass.old.table) × (pass.new.shape ≡ pass.old.shape) × (pass.new.callers ≡ pass.old.callers) }
{
    for value in values {
        if lane.enqueue(pass, *value).is_err() {
            return false;
        }
    }
    true
}

/// Dequeues as often as there are values. Whether it got these, in order.
pub fn takes(lane: &BqLane, pass: &mut Pass, values: &[u64]) -> bool
    requires of_this_lane { (pass.old.table ≡ lane.now.table) × (pass.old.shape ≡ lane.now.shape) }
    requires one_caller { length pass.old.callers ≡ 1 }
    ensures pass_stays { (pass.new.table ≡ pass.old.table) × (pass.new.shape ≡ pass.old.shape) × (pass.new.callers ≡ pass.old.callers) }
{
    for value in values {
        if lane.dequeue(pass) != Ok(Answer::Got(*value)) {
            return false;
        }
    }
    true
}

/// Appends the values that were got.
pub fn take_values(got: &mut Vec<u64>, answers: &[Answer]) -> Result<(), OutOfMemory> {
    for answer in answers {
        if let Answer::Got(value) = answer {
            got.push(*value)?;
        }
    }
    Ok(())
}
