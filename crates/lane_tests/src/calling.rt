// Two callers of a lane, as another crate writes them.
ghost use Rattle.std.specs.Prelude.{◌≡◌, ◌≤◌};

use bq_lane::BqLane;
use bq_model::{Lane, OutOfMemory, Shape};
use bq_session::{Outcome, Refused, Session, Ticket};
use std::alloc::Global;
use std::test::Fail;

// Evaluates a future. Gives the value, if it is a dequeue that got one.
fn value_of<L: Lane>(lane: &L, session: &mut Session<L>, future: Ticket) -> Option<u64>
    requires of_this_lane { (L.pass_identity session.old.pass ≡ L.identity lane.now) × (L.pass_shape session.old.pass ≡ L.lane_shape lane.now) }
{
    if !session.owns(&future) {
        return None;
    }
    match session.evaluate(lane, future) {
        Ok(Outcome::Got(claim)) => Some(claim.value()),
        _ => None,
    }
}

// Puts off two enqueues and a dequeue, and makes the three as one group. Gives what the dequeue got.
fn puts_two_and_takes_one<L: Lane>(
    lane: &L,
    session: &mut Session<L>,
) -> Result<Option<u64>, Refused>
    requires of_this_lane { (L.pass_identity session.old.pass ≡ L.identity lane.now) × (L.pass_shape session.old.pass ≡ L.lane_shape lane.now) }
{
    let _five = session.future_enqueue(5)?;
    let _six = session.future_enqueue(6)?;
    let future = session.future_dequeue()?;
    Ok(value_of(lane, session, future))
}

// Makes a lane for two callers. The first makes its group, and then the second dequeues. Gives what both got.
fn both<L: Lane>(alloc: Global, shape: &Shape) -> Result<(Option<u64>, Option<u64>), OutOfMemory>
    requires callers { shape.now.callers ≡ 2 }
    requires batch { 3 ≤ shape.now.batch }
{
    let (lane, mut passes) = L::make(alloc, shape)?;
    let (Some(second), Some(first)) = (passes.pop(), passes.pop()) else {
        return Err(OutOfMemory);
    };
    let mut first = Session::new(alloc, 0, first, 3, 3)?;
    let mut second = Session::new(alloc, 0, second, 1, 1)?;
    let one = match puts_two_and_takes_one(&lane, &mut first) {
        Ok(got) => got,
        Err(_) => None,
    };
    let other = match second.dequeue(&lane) {
        Ok(Outcome::Got(claim)) => Some(claim.value()),
        _ => None,
    };
    Ok((one, other))
}

#[test]
fn second_caller_gets_what_the_first_left(rt: HostRuntime) -> Result<(), Fail> {
    let shape = Shape::new(2, 4, 8, 100, 0).ok_or("no shape")?;
    assert!(rt; shape.callers() == 2 && shape.batch() == 4);
    let (one, other) = both::<BqLane>(rt.alloc(), &shape)?;
    assert_eq!(rt; one, Some(5));
    assert_eq!(rt; other, Some(6));
    Ok(())
}
