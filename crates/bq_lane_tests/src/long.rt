// Three callers beside each other make a thousand batches each, and so use each announcement many times.
ghost use Rattle.std.specs.Prelude.{◌≡◌, ◌<◌, ◌≤◌, ◌+◌, ◌^◌, ◌∷◌, length, IfOk};
ghost use Rattle.std.specs.Thread.{IsSync};

use crate::bench::{applied, take_values};
use bq_lane::{BqLane, Pass};
use bq_model::{Lane, Op, OutOfMemory, Shape};
use std::alloc::Global;
use std::test::Fail;
use std::thread::{Threads, join};

/// How many batches each caller makes.
const BATCHES: u64 = 1000;

// A caller makes its batches: each enqueues the next value, from this one on, and dequeues. Gives what it got.
fn repeats(
    alloc: Global,
    lane: &BqLane,
    pass: &mut Pass,
    first: u64,
) -> Result<Vec<u64>, OutOfMemory>
    requires of_this_lane { (pass.old.table ≡ lane.now.table) × (pass.old.shape ≡ lane.now.shape) }
    requires one_caller { length pass.old.callers ≡ 1 }
    requires room { 8 ≤ lane.now.shape.batch }
    requires first { first ≤ 20000 }
{
    let mut got = Vec::new(alloc);
    for number in 0..BATCHES {
        let ops = [Op::Enq(first + number), Op::Deq];
        match applied(alloc, lane, pass, &ops)? {
            Some(answers) => take_values(&mut got, answers.as_slice())?,
            None => return Ok(got),
        }
    }
    Ok(got)
}

// Two callers do so beside each other. Gives what each got.
fn two_repeat<R: Threads>(
    rt: &R,
    alloc: Global,
    lane: &BqLane,
    mut one: Pass,
    mut other: Pass,
    first: u64,
) -> Result<(Vec<u64>, Vec<u64>), OutOfMemory>
    requires one_of_this_lane { (one.table ≡ lane.now.table) × (one.shape ≡ lane.now.shape) }
    requires other_of_this_lane { (other.table ≡ lane.now.table) × (other.shape ≡ lane.now.shape) }
    requires one_caller { (length one.callers ≡ 1) × (length other.callers ≡ 1) }
    requires room { 8 ≤ lane.now.shape.batch }
    requires first { first ≤ 10000 }
{
    let (mine, its) = join(
        rt,
        move || -> Result<Vec<u64>, OutOfMemory>
            requires { (one.table ≡ lane.now.table) × (one.shape ≡ lane.now.shape) × (length one.callers ≡ 1) × (8 ≤ lane.now.shape.batch) × (first ≤ 10000) }
        { repeats(alloc, lane, &mut one, first) },
        move || -> Result<Vec<u64>, OutOfMemory>
            requires { (other.table ≡ lane.now.table) × (other.shape ≡ lane.now.shape) × (length other.callers ≡ 1) × (8 ≤ lane.now.shape.batch) × (first ≤ 10000) }
        { repeats(alloc, lane, &mut other, first + 10000) },
    );
    Ok((mine?, its?))
}

// Three callers do so beside each other. Gives what each got.
fn three_repeat<R: Threads + Sync>(
    rt: &R,
    alloc: Global,
    lane: &BqLane,
    one: Pass,
    other: Pass,
    mut third: Pass,
) -> Result<[Vec<u64>; 3], OutOfMemory>
    requires one_of_this_lane { (one.table ≡ lane.now.table) × (one.shape ≡ lane.now.shape) }
    requires other_of_this_lane { (other.table ≡ lane.now.table) × (other.shape ≡ lane.now.shape) }
    requires third_of_this_lane { (third.table ≡ lane.now.table) × (third.shape ≡ lane.now.shape) }
    requires one_caller { (length one.callers ≡ 1) × (length other.callers ≡ 1) × (length third.callers ≡ 1) }
    requires room { 8 ≤ lane.now.shape.batch }
{
    let (both, its) = join(
        rt,
        move || -> Result<(Vec<u64>, Vec<u64>), OutOfMemory>
            requires { IsSync R.row × (one.table ≡ lane.now.table) × (one.shape ≡ lane.now.shape) × (length one.callers ≡ 1)
                × (other.table ≡ lane.now.table) × (other.shape ≡ lane.now.shape) × (length other.callers ≡ 1) × (8 ≤ lane.now.shape.batch) }
        { two_repeat(rt, alloc, lane, one, other, 0) },
        move || -> Result<Vec<u64>, OutOfMemory>
            requires { (third.table ≡ lane.now.table) × (third.shape ≡ lane.now.shape) × (length third.callers ≡ 1) × (8 ≤ lane.now.shape.batch) }
        { repeats(alloc, lane, &mut third, 20000) },
    );
    let (first, second) = both?;
    Ok([first, second, its?])
}

// Three callers of a new lane do so.
fn three_beside<R: Threads + Sync>(
    rt: &R,
    alloc: Global,
    shape: &Shape,
) -> Result<[Vec<u64>; 3], OutOfMemory>
    requires { (shape.now.callers ≡ 3) × (8 ≤ shape.now.batch) }
{
    let (lane, mut passes) = BqLane::make(alloc, shape)?;
    match (passes.pop(), passes.pop(), passes.pop()) {
        (Some(third), Some(second), Some(first)) => {
            three_repeat(rt, alloc, &lane, first, second, third)
        }
        _ => Err(OutOfMemory),
    }
}

// Whether the values of each caller are in its order.
fn rise_by_caller(values: &[u64]) -> bool {
    let mut least = [0u64; 3];
    for value in values {
        match least.get_mut((value / 10000) as usize) {
            Some(next) if *next <= *value => *next = *value + 1,
            _ => return false,
        }
    }
    true
}

#[test]
fn announcements_serve_a_thousand_batches_of_each_caller(rt: HostRuntime) -> Result<(), Fail> {
    let shape = Shape::new(3, 256, 256, 2000, 0).ok_or("no shape")?;
    assert!(rt; shape.callers() == 3 && shape.batch() == 256);
    let lists = three_beside(&rt, rt.alloc(), &shape)?;
    let mut got = Vec::new(rt.alloc());
    for list in lists {
        assert_eq!(rt; list.len(), 1000);
        assert!(rt; rise_by_caller(list.as_slice()));
        for value in list {
            got.push(value)?;
        }
    }
    got.sort_unstable();
    let mut wanted = Vec::new(rt.alloc());
    for first in [0u64, 10000, 20000] {
        for number in 0..BATCHES {
            wanted.push(first + number)?;
        }
    }
    assert!(rt; got == wanted);
    Ok(())
}
