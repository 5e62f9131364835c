// Worked examples.
use crate::bench::{Bench, Call, Told};
use bq_lane::BqLane;
use bq_model::{Op, Shape};
use std::alloc::Global;
use std::process::Abort;
use std::test::Fail;

// Makes the calls on a session with the last two sizes, over a lane with the first three: batch, room and allowance.
// It compares the answers and what is pending and live afterwards.
fn plays<R: Abort>(
    rt: &R,
    alloc: Global,
    sizes: (u32, u32, u64, u32, u32),
    calls: &[(Call, Told)],
    counts: (usize, usize),
) -> Result<(), Fail> {
    let (lane_batch, room, allowance, batch, tickets) = sizes;
    let shape = Shape::new(1, lane_batch, room, allowance, 0).ok_or("no shape")?;
    assert!(rt; 1 <= batch && batch <= shape.batch() && 1 <= tickets && tickets <= 256);
    let mut bench = Bench::<BqLane>::new(alloc, &shape, batch, tickets)?;
    for (call, wanted) in calls {
        assert_eq!(rt; bench.answer(*call)?, *wanted, "{call:?}");
    }
    assert_eq!(rt; bench.counts(), counts);
    assert_eq!(rt; bench.end().is_none(), counts.0 == 0);
    Ok(())
}

#[test]
fn spent_batches_stay_pending(rt: HostRuntime) -> Result<(), Fail> {
    let calls = [
        (Call::Enqueue(1), Told::Done),
        (Call::Enqueue(2), Told::Done),
        (Call::Enqueue(3), Told::Done),
        (Call::Enqueue(4), Told::Spent),
    ];
    plays(&rt, rt.alloc(), (4, 8, 3, 4, 4), &calls, (0, 0))?;
    let calls = [
        (Call::Enqueue(1), Told::Done),
        (Call::Enqueue(2), Told::Done),
        (Call::FutureEnqueue(3), Told::Deferred),
        (Call::FutureDequeue, Told::Deferred),
        (Call::Evaluate(0), Told::Spent),
        (Call::Evaluate(1), Told::Spent),
    ];
    plays(&rt, rt.alloc(), (4, 8, 3, 4, 4), &calls, (2, 2))
}

// A lane of one caller with batches of one operation and room for one value has five rows for values. The row of the last
// value that was taken is kept, so two values are taken before another one finds a row.
#[test]
fn session_of_the_smallest_room(rt: HostRuntime) -> Result<(), Fail> {
    let calls = [
        (Call::Enqueue(1), Told::Done),
        (Call::Enqueue(2), Told::Done),
        (Call::Enqueue(3), Told::Done),
        (Call::Enqueue(4), Told::Done),
        (Call::Enqueue(5), Told::Done),
        (Call::FutureEnqueue(6), Told::Deferred),
        (Call::Evaluate(0), Told::Full),
        (Call::WithdrawLast, Told::Took(Op::Enq(6))),
        (Call::Evaluate(0), Told::Withdrawn),
        (Call::Dequeue, Told::Got(1, 5)),
        (Call::Dequeue, Told::Got(2, 6)),
        (Call::Enqueue(6), Told::Done),
    ];
    plays(&rt, rt.alloc(), (1, 1, 100, 1, 2), &calls, (0, 0))
}

#[test]
fn batches_and_tickets_end_at_their_limits(rt: HostRuntime) -> Result<(), Fail> {
    let calls = [
        (Call::FutureEnqueue(1), Told::Deferred),
        (Call::FutureEnqueue(2), Told::Deferred),
        (Call::FutureEnqueue(3), Told::BatchFull),
    ];
    plays(&rt, rt.alloc(), (2, 8, 100, 2, 3), &calls, (2, 2))?;
    let calls = [
        (Call::FutureEnqueue(1), Told::Deferred),
        (Call::Dequeue, Told::Got(1, 1)),
        (Call::FutureEnqueue(2), Told::TicketsFull),
        (Call::Evaluate(0), Told::Done),
    ];
    plays(&rt, rt.alloc(), (2, 8, 100, 2, 1), &calls, (0, 0))
}

#[test]
fn sessions_end_where_nothing_is_pending(rt: HostRuntime) -> Result<(), Fail> {
    let calls = [
        (Call::FutureEnqueue(1), Told::Deferred),
        (Call::WithdrawLast, Told::Took(Op::Enq(1))),
    ];
    plays(&rt, rt.alloc(), (2, 8, 100, 2, 2), &calls[..1], (1, 1))?;
    plays(&rt, rt.alloc(), (2, 8, 100, 2, 2), &calls, (0, 1))
}
