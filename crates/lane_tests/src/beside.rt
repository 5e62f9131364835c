// Callers beside each other on one lane, each in a thread of its own.
ghost use Rattle.std.specs.Prelude.{◌≡◌, ◌<◌, ◌≤◌, ◌+◌, ◌^◌, length, IfOk};

use bq_lane::BqLane;
use bq_model::{Answer, Lane, OutOfMemory, Shape};
use std::alloc::Global;
use std::test::Fail;
use std::thread::{Threads, join};

// A caller enqueues a hundred values, from this one on, and then dequeues a hundred times. Gives what it got.
fn puts_and_takes<L: Lane>(
    alloc: Global,
    lane: &L,
    pass: &mut L::Pass,
    first: u64,
) -> Result<Vec<u64>, OutOfMemory>
    requires of_this_lane { (L.pass_identity pass.old ≡ L.identity lane.now) × (L.pass_shape pass.old ≡ L.lane_shape lane.now) }
    requires one_caller { length (L.callers pass.old) ≡ 1 }
    requires first { first ≤ 1000 }
{
    for k in 0..100 {
        if lane.enqueue(pass, first + k).is_err() {
            return Ok(Vec::new(alloc));
        }
    }
    let mut got = Vec::new(alloc);
    for _ in 0..100 {
        if let Ok(Answer::Got(value)) = lane.dequeue(pass) {
            got.push(value)?;
        }
    }
    Ok(got)
}

// Two callers do so at once.
fn both<L: Lane, R: Threads>(
    rt: &R,
    alloc: Global,
    lane: &L,
    mut first: L::Pass,
    mut second: L::Pass,
) -> Result<Vec<u64>, OutOfMemory>
    requires first_of_this_lane { (L.pass_identity first ≡ L.identity lane.now) × (L.pass_shape first ≡ L.lane_shape lane.now) }
    requires second_of_this_lane { (L.pass_identity second ≡ L.identity lane.now) × (L.pass_shape second ≡ L.lane_shape lane.now) }
    requires one_caller { length (L.callers first) ≡ 1 }
    requires another_caller { length (L.callers second) ≡ 1 }
{
    let (one, other) = join(
        rt,
        move || -> Result<Vec<u64>, OutOfMemory>
            requires { (L.pass_identity first ≡ L.identity lane.now) × (L.pass_shape first ≡ L.lane_shape lane.now) × (length (L.callers first) ≡ 1) }
        { puts_and_takes(alloc, lane, &mut first, 0) },
        move || -> Result<Vec<u64>, OutOfMemory>
            requires { (L.pass_identity second ≡ L.identity lane.now) × (L.pass_shape second ≡ L.lane_shape lane.now) × (length (L.callers second) ≡ 1) }
        { puts_and_takes(alloc, lane, &mut second, 1000) },
    );
    let mut got = one?;
    for value in other? {
        got.push(value)?;
    }
    Ok(got)
}

// Two callers of a new lane do so at once.
fn two_beside<L: Lane, R: Threads>(
    rt: &R,
    alloc: Global,
    shape: &Shape,
) -> Result<Vec<u64>, OutOfMemory>
    requires { shape.now.callers ≡ 2 }
{
    let (lane, mut passes) = L::make(alloc, shape)?;
    match (passes.pop(), passes.pop()) {
        (Some(second), Some(first)) => both(rt, alloc, &lane, first, second),
        _ => Err(OutOfMemory),
    }
}

#[test]
fn two_callers_get_each_value_once(rt: HostRuntime) -> Result<(), Fail> {
    let shape = Shape::new(2, 1, 256, 1000, 0).ok_or("no shape")?;
    assert!(rt; shape.callers() == 2);
    let mut got = two_beside::<BqLane, _>(&rt, rt.alloc(), &shape)?;
    got.sort_unstable();
    let mut wanted = Vec::new(rt.alloc());
    for value in (0..100).chain(1000..1100) {
        wanted.push(value)?;
    }
    assert!(rt; got == wanted);
    Ok(())
}
