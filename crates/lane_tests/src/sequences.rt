// Calls of a session, one after another, beside the model.
use crate::bench::{Bench, Call};
use crate::slow::{Limits, Slow};
use bq_lane::BqLane;
use bq_model::Shape;
use std::alloc::Global;
use std::process::Abort;
use std::test::Fail;

/// How many kinds of calls there are.
const KINDS: u64 = 7;

// With batches of two operations and room for one value a single caller has six rows for values.
const LIMITS: Limits = Limits {
    batch: 2,
    tickets: 3,
    rows: 6,
    allowance: 10,
};

// The call of this kind, which enqueues this value if it enqueues. It evaluates the first or the last live ticket.
fn call_of(kind: u64, value: u64, slow: &Slow) -> Call {
    match kind {
        0 => Call::FutureEnqueue(value),
        1 => Call::FutureDequeue,
        2 => Call::Evaluate(slow.live_at(false).unwrap_or(usize::MAX)),
        3 => Call::Evaluate(slow.live_at(true).unwrap_or(usize::MAX)),
        4 => Call::Enqueue(value),
        5 => Call::Dequeue,
        _ => Call::WithdrawLast,
    }
}

// Enqueues so many values and then makes so many calls, whose kinds are the digits of `code`. It compares every answer.
fn compare<R: Abort>(
    rt: &R,
    alloc: Global,
    queued: u64,
    code: u64,
    calls: u64,
) -> Result<(), Fail> {
    let shape = Shape::new(1, 2, 1, 10, 0).ok_or("no shape")?;
    assert!(rt; shape.callers() == 1 && shape.batch() == 2);
    let mut bench = Bench::<BqLane>::new(alloc, &shape, 2, 3)?;
    let mut slow = Slow::new(alloc, LIMITS);
    for value in 0..queued {
        let call = Call::Enqueue(value);
        assert_eq!(rt; bench.answer(call)?, slow.answer(call)?, "{queued}");
    }
    let mut digits = code;
    for value in 0..calls {
        let call = call_of(digits % KINDS, value, &slow);
        digits /= KINDS;
        assert_eq!(rt; bench.answer(call)?, slow.answer(call)?, "{code}");
        assert_eq!(rt; bench.counts(), slow.counts(), "{code}");
    }
    assert_eq!(rt; bench.end(), slow.end(), "{code}");
    Ok(())
}

#[test]
fn sessions_answer_as_the_slow_model(rt: HostRuntime) -> Result<(), Fail> {
    for code in 0..16_807 {
        compare(&rt, rt.alloc(), 4, code, 5)?;
    }
    let mut code = 1u64;
    for number in 0..20_000 {
        code = code
            .wrapping_mul(6_364_136_223_846_793_005)
            .wrapping_add(1_442_695_040_888_963_407);
        compare(&rt, rt.alloc(), number % 5, code >> 33, 8)?;
    }
    Ok(())
}
