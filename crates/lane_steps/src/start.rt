// The first step of a command.
ghost use Rattle.std.specs.Prelude.{◌≡◌, ◌<◌, [], ◌∷◌, length};
ghost use Rattle.bq_model.specs.Values.{enqueued};
ghost use Rattle.excess_count.specs.Counts.{counts_of};
ghost use Rattle.lane_steps.specs.Batches.{notice_of};
ghost use Rattle.lane_steps.specs.LaneSizes.{lane_sizes};
ghost use Rattle.lane_steps.specs.Start.{IsCommand, first_point};
ghost use Rattle.lane_steps.specs.State.{Caller};

use crate::point::{DequeuePoint, ManyPoint, Notice, Plan, Point, Taking};
use crate::take::search;
use bq_model::{Op, Shape};
use excess_count::Counts;
use word_rows::{BatchNumber, Place, order_word};

// What the caller says of the operations, as the batch of this number, before its rows are taken.
fn notice(caller: u32, batch: u64, ops: &[Op], counts: Counts) -> Notice
    requires counts { counts ≡ counts_of ops.now }
    ensures { result ≡ notice_of caller batch ops.now }
{
    Notice {
        old_head: Place { row: 0, count: 0 },
        first: 0,
        last: 0,
        counts,
        number: BatchNumber { batch, caller },
        order0: order_word(ops, 0),
        order1: order_word(ops, 1),
        order2: order_word(ops, 2),
        order3: order_word(ops, 3),
    }
}

// The first step of a plain call.
fn plain(shape: &Shape, caller: u32, op: Op) -> Point
    requires known { caller < shape.now.callers }
    ensures { (k : Caller) → result ≡ first_point (lane_sizes shape.now) caller k (op ∷ []) }
{
    match op {
        Op::Enq(value) => search(shape, caller, Taking::Enqueue(value)),
        Op::Deq => Point::Dequeue(DequeuePoint::LoadHead),
        Op::Shut => Point::Idle,
    }
}

// The first step of a command of several operations, as the batch of this number.
fn batch_point(
    shape: &Shape,
    caller: u32,
    batch: u64,
    ops: &[Op],
    counts: Counts,
    puts: &[u64],
) -> Point
    requires known { caller < shape.now.callers }
    requires many { 1 < length ops.now }
    requires counts { counts ≡ counts_of ops.now }
    requires puts { puts.now ≡ enqueued ops.now }
    ensures { (k : Caller) → length k.mine ≡ batch → result ≡ first_point (lane_sizes shape.now) caller k ops.now }
{
    let notice = notice(caller, batch, ops, counts);
    if counts.enqs == 0 {
        Point::Many(Plan { ann: None, notice }, ManyPoint::LoadHead)
    } else {
        let value = puts.first().copied().unwrap_or(0);
        search(shape, caller, Taking::Batch(notice, value))
    }
}

/// The first step of a command, which is the batch of this number where it has several operations.
pub fn first_point(
    shape: &Shape,
    caller: u32,
    batch: u64,
    ops: &[Op],
    counts: Counts,
    puts: &[u64],
) -> Point
    requires known { caller < shape.now.callers }
    requires command { IsCommand ops.now }
    requires counts { counts ≡ counts_of ops.now }
    requires puts { puts.now ≡ enqueued ops.now }
    ensures { (k : Caller) → length k.mine ≡ batch → result ≡ first_point (lane_sizes shape.now) caller k ops.now }
{
    match ops {
        [only] => plain(shape, caller, *only),
        _ => batch_point(shape, caller, batch, ops, counts, puts),
    }
}
