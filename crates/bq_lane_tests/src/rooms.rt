// What fills a lane: the items of the caller alone.
ghost use Rattle.std.specs.Prelude.{◌≡◌, length};

use crate::bench::{alone, applied, puts, takes};
use bq_lane::{BqLane, Pass};
use bq_model::{Answer, Lane, Op, Refusal, Shape};
use std::process::Abort;
use std::test::Fail;

// The rows of a new lane are ten for each of two callers. One fills its own, and the other goes on.
fn one_fills_its_rows<R: Abort>(rt: &R, lane: &BqLane, mut one: Pass, mut other: Pass)
    requires one_of_this_lane { (one.table ≡ lane.now.table) × (one.shape ≡ lane.now.shape) }
    requires other_of_this_lane { (other.table ≡ lane.now.table) × (other.shape ≡ lane.now.shape) }
    requires one_caller { (length one.callers ≡ 1) × (length other.callers ≡ 1) }
{
    let values = [1, 2, 3, 4, 5, 6, 7, 8, 9, 10];
    assert!(rt; puts(lane, &mut one, &values));
    assert!(rt; lane.enqueue(&mut one, 11) == Err(Refusal::Full));
    assert!(rt; puts(lane, &mut other, &[12, 13]));
    assert!(rt; lane.enqueue(&mut one, 14) == Err(Refusal::Full));
    assert!(rt; takes(lane, &mut other, &values));
    assert!(rt; takes(lane, &mut one, &[12, 13]));
    assert!(rt; puts(lane, &mut one, &values));
    assert!(rt; lane.enqueue(&mut one, 15) == Err(Refusal::Full));
    assert!(rt; takes(lane, &mut one, &values));
    assert!(rt; lane.dequeue(&mut other) == Ok(Answer::Empty));
}

#[test]
fn own_items_alone_fill_a_lane(rt: HostRuntime) -> Result<(), Fail> {
    let shape = Shape::new(2, 1, 1, 100, 0).ok_or("no shape")?;
    let (lane, mut passes) = BqLane::make(rt.alloc(), &shape)?;
    match (passes.pop(), passes.pop()) {
        (Some(other), Some(one)) => one_fills_its_rows(&rt, &lane, one, other),
        _ => return Err(Fail::from("no pass")),
    }
    Ok(())
}

// Ten thousand batches of dequeues find the lane empty. As many others find one value, and take a row that they link in the
// place of a chain.
#[test]
fn dequeues_alone_are_never_full(rt: HostRuntime) -> Result<(), Fail> {
    let shape = Shape::new(1, 8, 1, 100_000, 0).ok_or("no shape")?;
    assert!(rt; shape.callers() == 1 && shape.batch() == 8);
    let (lane, mut pass) = alone(rt.alloc(), &shape)?;
    let four = [Op::Deq, Op::Deq, Op::Deq, Op::Deq];
    let empty = Answer::Empty;
    for round in 0..10_000 {
        let answers = applied(rt.alloc(), &lane, &mut pass, &four)?.ok_or("refused")?;
        assert!(rt; answers.as_slice() == [empty; 4].as_slice());
        assert!(rt; lane.enqueue(&mut pass, round).is_ok());
        let answers = applied(rt.alloc(), &lane, &mut pass, &four)?.ok_or("refused")?;
        assert!(rt; answers.as_slice() == [Answer::Got(round), empty, empty, empty].as_slice());
    }
    Ok(())
}
