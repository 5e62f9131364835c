// Counts, places and answers against batches that were replayed by hand, and against a replay by a queue.
ghost use Rattle.std.specs.Prelude.{◌≤◌, length, IfOk};
ghost use Rattle.bq_model.specs.NoShut.{NoShut};

use crate::{
    Counts, Which, answer_all, answer_at, answer_at_shut, pair_shut, successes, successes_shut,
};
use bq_model::{Answer, Answers, Batch, Op};
use std::alloc::{AllocError, Global};
use std::collections::VecDeque;
use std::process::Abort;
use std::test::Fail;

/// A batch on a queue, with all that comes of it.
#[derive(Clone, Copy)]
struct Row<'a> {
    ops: &'a [Op],
    queue: &'a [u64],
    counts: Counts,
    successes: u32,
    places: &'a [Which],
    answers: &'a [Answer],
    last_queue: &'a [u64],
}

/// A batch of at most 256 operations, none of them a Shut.
fn batch_of(rt: &impl Abort, alloc: Global, ops: &[Op]) -> Result<Batch, Fail>
    requires { length ops.now ≤ 256 }
    ensures { IfOk result (λ batch. NoShut batch.items) }
{
    let mut batch = Batch::new(alloc, 256)?;
    for op in ops {
        assert!(rt; *op != Op::Shut);
        batch.push(*op);
    }
    Ok(batch)
}

/// The values of the queue, and behind them those that are enqueued.
fn values_of(alloc: Global, queue: &[u64], ops: &[Op]) -> Result<Vec<u64>, AllocError> {
    let mut values = queue.to_vec(alloc)?;
    for op in ops {
        if let Op::Enq(v) = op {
            values.push(*v)?;
        }
    }
    Ok(values)
}

/// What `answer_at` says of each dequeue.
fn places_of(alloc: Global, batch: &Batch, n: u64) -> Result<Vec<Which>, AllocError>
    requires { NoShut batch.now.items }
{
    let mut places = Vec::new(alloc);
    for k in 0..batch.len() {
        if let Op::Deq = batch.get(k) {
            places.push(answer_at(batch, n, k))?;
        }
    }
    Ok(places)
}

/// The answers of the batch on a queue of n values, when these are the values that there are.
fn answers_of(
    rt: &impl Abort,
    alloc: Global,
    batch: &Batch,
    n: u64,
    values: &[u64],
) -> Result<Answers, Fail>
    requires { NoShut batch.now.items }
{
    let mut answers = Answers::new(alloc, batch.len())?;
    let got = successes(&Counts::of(batch), n) as usize;
    assert!(rt; got <= values.len());
    answer_all(batch, n, &values[..got], &mut answers);
    Ok(answers)
}

/// The answers of a queue to the operations, one by one.
fn replayed(
    alloc: Global,
    queue: &mut VecDeque<u64>,
    mut shut: bool,
    ops: &[Op],
) -> Result<Vec<Answer>, AllocError> {
    let mut answers = Vec::new(alloc);
    for op in ops {
        answers.push(match op {
            Op::Enq(_) if shut => Answer::Refused,
            Op::Enq(v) => {
                queue.push_back(*v)?;
                Answer::Done
            }
            Op::Deq => match queue.pop_front() {
                Some(v) => Answer::Got(v),
                None => Answer::Empty,
            },
            Op::Shut => {
                shut = true;
                Answer::Done
            }
        })?;
    }
    Ok(answers)
}

/// Counts the batch of a row, and compares all that is known of it.
fn check_row(rt: &impl Abort, alloc: Global, row: &Row<'_>) -> Result<(), Fail>
    requires { length row.now.ops.now ≤ 256 }
{
    let batch = batch_of(rt, alloc, row.ops)?;
    let n = row.queue.len() as u64;
    let counts = Counts::of(&batch);
    assert_eq!(rt; counts, row.counts);
    assert_eq!(rt; successes(&counts, n), row.successes);
    assert_eq!(rt; places_of(alloc, &batch, n)?.as_slice(), row.places);
    let values = values_of(alloc, row.queue, row.ops)?;
    let answers = answers_of(rt, alloc, &batch, n, values.as_slice())?;
    assert_eq!(rt; answers.as_slice(), row.answers);
    let got = row.successes as usize;
    assert!(rt; got <= values.len());
    assert_eq!(rt; &values.as_slice()[got..], row.last_queue);
    Ok(())
}

#[test]
fn batches_replayed_by_hand_come_out_by_counting(rt: HostRuntime) -> Result<(), Fail> {
    let mixed = [Op::Deq, Op::Enq(8), Op::Deq, Op::Deq, Op::Enq(9)];
    let rows = [
        Row {
            ops: &mixed,
            queue: &[7],
            counts: Counts {
                enqs: 2,
                deqs: 3,
                excess: 2,
            },
            successes: 2,
            places: &[Which::Stored(1), Which::Stored(2), Which::Nothing],
            answers: &[
                Answer::Got(7),
                Answer::Done,
                Answer::Got(8),
                Answer::Empty,
                Answer::Done,
            ],
            last_queue: &[9],
        },
        Row {
            ops: &mixed,
            queue: &[],
            counts: Counts {
                enqs: 2,
                deqs: 3,
                excess: 2,
            },
            successes: 1,
            places: &[Which::Nothing, Which::Stored(1), Which::Nothing],
            answers: &[
                Answer::Empty,
                Answer::Done,
                Answer::Got(8),
                Answer::Empty,
                Answer::Done,
            ],
            last_queue: &[9],
        },
        Row {
            ops: &[Op::Enq(6), Op::Deq],
            queue: &[1, 2, 3, 4, 5],
            counts: Counts {
                enqs: 1,
                deqs: 1,
                excess: 0,
            },
            successes: 1,
            places: &[Which::Stored(1)],
            answers: &[Answer::Done, Answer::Got(1)],
            last_queue: &[2, 3, 4, 5, 6],
        },
        Row {
            ops: &[Op::Enq(1), Op::Enq(2)],
            queue: &[],
            counts: Counts {
                enqs: 2,
                deqs: 0,
                excess: 0,
            },
            successes: 0,
            places: &[],
            answers: &[Answer::Done, Answer::Done],
            last_queue: &[1, 2],
        },
        Row {
            ops: &[],
            queue: &[3],
            counts: Counts {
                enqs: 0,
                deqs: 0,
                excess: 0,
            },
            successes: 0,
            places: &[],
            answers: &[],
            last_queue: &[3],
        },
    ];
    for row in &rows {
        assert!(rt; row.ops.len() <= 256);
        check_row(&rt, rt.alloc(), row)?;
    }
    Ok(())
}

#[test]
fn longest_batch_of_dequeues_takes_what_there_is(rt: HostRuntime) -> Result<(), Fail> {
    let batch = batch_of(&rt, rt.alloc(), &[Op::Deq; 256])?;
    let counts = Counts::of(&batch);
    assert_eq!(rt;
        counts,
        Counts {
            enqs: 0,
            deqs: 256,
            excess: 256
        }
    );
    for (n, got) in [
        (0, 0),
        (1, 1),
        (255, 255),
        (256, 256),
        (257, 256),
        (u64::MAX, 256),
    ] {
        assert_eq!(rt; successes(&counts, n), got, "on {n} values");
    }
    let places = places_of(rt.alloc(), &batch, 255)?;
    assert_eq!(rt; places.len(), 256);
    assert_eq!(rt; places[254], Which::Stored(255));
    assert_eq!(rt; places[255], Which::Nothing);
    Ok(())
}

/// The answers of the batch on a queue of n values, each asked for by its place.
fn told(
    alloc: Global,
    batch: &Batch,
    n: u64,
    shut: bool,
    values: &[u64],
) -> Result<Vec<Answer>, AllocError>
    requires { NoShut batch.now.items }
{
    let mut answers = Vec::new(alloc);
    for k in 0..batch.len() {
        let Op::Deq = batch.get(k) else {
            answers.push(if shut { Answer::Refused } else { Answer::Done })?;
            continue;
        };
        let which = if shut {
            answer_at_shut(batch, n, k)
        } else {
            answer_at(batch, n, k)
        };
        answers.push(match which {
            Which::Stored(i) => values
                .get((i as usize).wrapping_sub(1))
                .map_or(Answer::Done, |v| Answer::Got(*v)),
            Which::Nothing => Answer::Empty,
        })?;
    }
    Ok(answers)
}

/// Compares what is counted of a batch with its replay on a queue of these values, which was shut or not.
fn check_against_replay(
    rt: &impl Abort,
    alloc: Global,
    ops: &[Op],
    start: &[u64],
    shut: bool,
) -> Result<(), Fail>
    requires { length ops.now ≤ 256 }
{
    let batch = batch_of(rt, alloc, ops)?;
    let n = start.len() as u64;
    let mut queue = VecDeque::new(alloc);
    for v in start {
        queue.push_back(*v)?;
    }
    let want = replayed(alloc, &mut queue, shut, ops)?;
    let values = if shut {
        start.to_vec(alloc)?
    } else {
        values_of(alloc, start, ops)?
    };
    let counts = Counts::of(&batch);
    let got = if shut {
        successes_shut(&counts, n)
    } else {
        successes(&counts, n)
    } as usize;
    assert!(rt; got <= values.len());
    let answers = if shut {
        let mut answers = Answers::new(alloc, batch.len())?;
        pair_shut(batch.as_slice(), &values[..got], &mut answers);
        answers
    } else {
        answers_of(rt, alloc, &batch, n, values.as_slice())?
    };
    assert_eq!(rt; answers.as_slice(), want.as_slice());
    let told = told(alloc, &batch, n, shut, values.as_slice())?;
    assert_eq!(rt; told.as_slice(), want.as_slice());
    let left = queue.make_contiguous();
    assert_eq!(rt; &values.as_slice()[got..], &*left);
    Ok(())
}

#[test]
fn all_short_batches_on_short_queues_agree_with_a_replay(rt: HostRuntime) -> Result<(), Fail> {
    let start = [1, 2, 3, 4];
    for len in 0..7usize {
        for pattern in 0..1u32 << len {
            let mut ops = Vec::new(rt.alloc());
            for place in 0..len {
                let value = 10 + place as u64;
                ops.push(if pattern >> place & 1 == 0 {
                    Op::Deq
                } else {
                    Op::Enq(value)
                })?;
            }
            assert!(rt; ops.len() <= 256);
            for n in 0..start.len() + 1 {
                for shut in [false, true] {
                    check_against_replay(&rt, rt.alloc(), ops.as_slice(), &start[..n], shut)?;
                }
            }
        }
    }
    Ok(())
}
