// Worked examples.
ghost use Rattle.std.specs.Prelude.{◌≡◌};

use crate::bench::{alone, applied, puts, takes};
use bq_lane::BqLane;
use bq_model::{Answer, Lane, Op, Refusal, Shape};
use std::alloc::Global;
use std::process::Abort;
use std::test::Fail;

// On a new lane that has these values queued, makes the batch and then takes what is left.
fn plays<R: Abort>(
    rt: &R,
    alloc: Global,
    queued: &[u64],
    ops: &[Op],
    wanted: &[Answer],
    left: &[u64],
) -> Result<(), Fail> {
    let shape = Shape::new(1, 8, 8, 100, 0).ok_or("no shape")?;
    assert!(rt; shape.callers() == 1 && shape.batch() == 8);
    let (lane, mut pass) = alone(alloc, &shape)?;
    assert!(rt; puts(&lane, &mut pass, queued));
    let answers = applied(alloc, &lane, &mut pass, ops)?.ok_or("refused")?;
    assert_eq!(rt; answers.as_slice(), wanted, "{queued:?} {ops:?}");
    assert!(rt; takes(&lane, &mut pass, left), "{queued:?} {ops:?}");
    assert!(rt; lane.dequeue(&mut pass) == Ok(Answer::Empty));
    Ok(())
}

#[test]
fn batch_on_short_queue_pairs_answers(rt: HostRuntime) -> Result<(), Fail> {
    let ops = [Op::Deq, Op::Enq(8), Op::Deq, Op::Deq, Op::Enq(9)];
    let (done, empty) = (Answer::Done, Answer::Empty);
    let wanted = [Answer::Got(7), done, Answer::Got(8), empty, done];
    plays(&rt, rt.alloc(), &[7], &ops, &wanted, &[9])?;
    let wanted = [empty, done, Answer::Got(8), empty, done];
    plays(&rt, rt.alloc(), &[], &ops, &wanted, &[9])
}

#[test]
fn batch_on_long_queue_takes_its_first(rt: HostRuntime) -> Result<(), Fail> {
    let ops = [Op::Enq(6), Op::Deq];
    let wanted = [Answer::Done, Answer::Got(1)];
    plays(
        &rt,
        rt.alloc(),
        &[1, 2, 3, 4, 5],
        &ops,
        &wanted,
        &[2, 3, 4, 5, 6],
    )?;
    let ops = [Op::Enq(1), Op::Enq(2)];
    let wanted = [Answer::Done, Answer::Done];
    plays(&rt, rt.alloc(), &[], &ops, &wanted, &[1, 2])
}

#[test]
fn dequeues_alone_take_from_the_front(rt: HostRuntime) -> Result<(), Fail> {
    let two = [Op::Deq, Op::Deq];
    let wanted = [Answer::Got(1), Answer::Got(2)];
    plays(&rt, rt.alloc(), &[1, 2, 3], &two, &wanted, &[3])?;
    let wanted = [Answer::Got(7), Answer::Empty];
    plays(&rt, rt.alloc(), &[7], &two, &wanted, &[])?;
    let wanted = [Answer::Empty, Answer::Empty];
    plays(&rt, rt.alloc(), &[], &two, &wanted, &[])
}

// A lane of one caller with batches of one operation and room for one value has five item rows. One of them is the dummy
// once a value was taken, so four are free.
#[test]
fn rows_are_used_again(rt: HostRuntime) -> Result<(), Fail> {
    let shape = Shape::new(1, 1, 1, 1000, 0).ok_or("no shape")?;
    assert!(rt; shape.callers() == 1);
    let (lane, mut pass) = alone(rt.alloc(), &shape)?;
    let values = [1, 2, 3, 4, 5];
    assert!(rt; puts(&lane, &mut pass, &values));
    assert!(rt; lane.enqueue(&mut pass, 6) == Err(Refusal::Full));
    assert!(rt; takes(&lane, &mut pass, &values));
    for _round in 0..50 {
        let values = [6, 7, 8, 9];
        assert!(rt; puts(&lane, &mut pass, &values));
        assert!(rt; lane.enqueue(&mut pass, 10) == Err(Refusal::Full));
        assert!(rt; takes(&lane, &mut pass, &values));
        assert!(rt; lane.dequeue(&mut pass) == Ok(Answer::Empty));
    }
    assert!(rt; BqLane::made(&pass) == 460);
    Ok(())
}

// With batches of eight it has twelve item rows. A batch that finds too few gives back those that it took.
#[test]
fn refused_batch_gives_its_rows_back(rt: HostRuntime) -> Result<(), Fail> {
    let shape = Shape::new(1, 8, 1, 100, 0).ok_or("no shape")?;
    assert!(rt; shape.callers() == 1 && shape.batch() == 8);
    let (lane, mut pass) = alone(rt.alloc(), &shape)?;
    let values = [1, 2, 3, 4, 5, 6, 7, 8, 9, 10];
    assert!(rt; puts(&lane, &mut pass, &values));
    let three = [Op::Enq(11), Op::Enq(12), Op::Enq(13)];
    assert!(rt; applied(rt.alloc(), &lane, &mut pass, &three)?.is_none());
    assert!(rt; puts(&lane, &mut pass, &[14, 15]));
    assert!(rt; lane.enqueue(&mut pass, 16) == Err(Refusal::Full));
    assert!(rt; takes(&lane, &mut pass, &values));
    assert!(rt; takes(&lane, &mut pass, &[14, 15]));
    assert!(rt; lane.dequeue(&mut pass) == Ok(Answer::Empty));
    Ok(())
}
