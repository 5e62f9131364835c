// The smallest lanes through a hundred thousand operations: few rows, each used again and again.
ghost use Rattle.std.specs.Prelude.{◌≡◌, ◌<◌, ◌≤◌, ◌+◌, ◌^◌, ◌++◌, length, IfOk};
ghost use Rattle.std.specs.Thread.{IsSync};

use crate::bench::alone;
use bq_lane::{BqLane, Pass};
use bq_model::{Answer, Lane, OutOfMemory, Shape};
use std::alloc::Global;
use std::test::Fail;
use std::thread::{Threads, join};

/// How many values each of three callers enqueues.
const EACH: u64 = 17_000;

/// The values of a caller begin at its number times this.
pub const APART: u64 = 100_000;

// A caller enqueues its next value and dequeues, so many times. Gives its pass and what it got, until a call is refused.
fn passes_on(
    alloc: Global,
    lane: &BqLane,
    mut pass: Pass,
    first: u64,
    each: u64,
) -> Result<(Pass, Vec<u64>), OutOfMemory>
    requires of_this_lane { (pass.table ≡ lane.now.table) × (pass.shape ≡ lane.now.shape) }
    requires one_caller { length pass.callers ≡ 1 }
    requires values { (first ≤ 300000) × (each ≤ 100000) }
    ensures of_this_lane { IfOk result (λ made. (made.0.table ≡ lane.now.table) × (made.0.shape ≡ lane.now.shape)) }
    ensures callers { IfOk result (λ made. made.0.callers ≡ pass.callers) }
{
    let mut got = Vec::new(alloc);
    for number in 0..each {
        if lane.enqueue(&mut pass, first + number).is_err() {
            return Ok((pass, got));
        }
        if let Ok(Answer::Got(value)) = lane.dequeue(&mut pass) {
            got.push(value)?;
        }
    }
    Ok((pass, got))
}

/// Two callers do so beside each other. Gives the pass of both, and what each got.
pub fn two_pass_on<R: Threads>(
    rt: &R,
    alloc: Global,
    lane: &BqLane,
    one: Pass,
    other: Pass,
    first: u64,
    each: u64,
) -> Result<(Pass, Vec<u64>, Vec<u64>), OutOfMemory>
    requires one_of_this_lane { (one.table ≡ lane.now.table) × (one.shape ≡ lane.now.shape) }
    requires other_of_this_lane { (other.table ≡ lane.now.table) × (other.shape ≡ lane.now.shape) }
    requires one_caller { (length one.callers ≡ 1) × (length other.callers ≡ 1) }
    requires values { (first ≤ 200000) × (each ≤ 100000) }
    ensures of_this_lane { IfOk result (λ made. (made.0.table ≡ lane.now.table) × (made.0.shape ≡ lane.now.shape)) }
    ensures callers { IfOk result (λ made. made.0.callers ≡ one.callers ++ other.callers) }
{
    let (mine, its) = join(
        rt,
        move || -> Result<(Pass, Vec<u64>), OutOfMemory>
            requires { (one.table ≡ lane.now.table) × (one.shape ≡ lane.now.shape) × (length one.callers ≡ 1) × (first ≤ 200000) × (each ≤ 100000) }
            ensures { IfOk result (λ made. (made.0.table ≡ lane.entry.now.table) × (made.0.shape ≡ lane.entry.now.shape) × (made.0.callers ≡ one.callers)) }
        { passes_on(alloc, lane, one, first, each) },
        move || -> Result<(Pass, Vec<u64>), OutOfMemory>
            requires { (other.table ≡ lane.now.table) × (other.shape ≡ lane.now.shape) × (length other.callers ≡ 1) × (first ≤ 200000) × (each ≤ 100000) }
            ensures { IfOk result (λ made. (made.0.table ≡ lane.entry.now.table) × (made.0.shape ≡ lane.entry.now.shape) × (made.0.callers ≡ other.callers)) }
        { passes_on(alloc, lane, other, first + APART, each) },
    );
    let (front, got) = mine?;
    let (back, also) = its?;
    Ok((lane.gather(front, back), got, also))
}

// Three callers do so beside each other. Gives what each got.
fn three_pass_on<R: Threads + Sync>(
    rt: &R,
    alloc: Global,
    lane: &BqLane,
    one: Pass,
    other: Pass,
    third: Pass,
) -> Result<[Vec<u64>; 3], OutOfMemory>
    requires one_of_this_lane { (one.table ≡ lane.now.table) × (one.shape ≡ lane.now.shape) }
    requires other_of_this_lane { (other.table ≡ lane.now.table) × (other.shape ≡ lane.now.shape) }
    requires third_of_this_lane { (third.table ≡ lane.now.table) × (third.shape ≡ lane.now.shape) }
    requires one_caller { (length one.callers ≡ 1) × (length other.callers ≡ 1) × (length third.callers ≡ 1) }
{
    let (both, its) = join(
        rt,
        move || -> Result<(Pass, Vec<u64>, Vec<u64>), OutOfMemory>
            requires { IsSync R.row × (one.table ≡ lane.now.table) × (one.shape ≡ lane.now.shape) × (length one.callers ≡ 1)
                × (other.table ≡ lane.now.table) × (other.shape ≡ lane.now.shape) × (length other.callers ≡ 1) }
        { two_pass_on(rt, alloc, lane, one, other, 0, EACH) },
        move || -> Result<(Pass, Vec<u64>), OutOfMemory>
            requires { (third.table ≡ lane.now.table) × (third.shape ≡ lane.now.shape) × (length third.callers ≡ 1) }
        { passes_on(alloc, lane, third, 200000, EACH) },
    );
    let (_two, first, second) = both?;
    let (_one, last) = its?;
    Ok([first, second, last])
}

// Three callers of a new lane do so.
fn three_beside<R: Threads + Sync>(
    rt: &R,
    alloc: Global,
    shape: &Shape,
) -> Result<[Vec<u64>; 3], OutOfMemory>
    requires { shape.now.callers ≡ 3 }
{
    let (lane, mut passes) = BqLane::make(alloc, shape)?;
    match (passes.pop(), passes.pop(), passes.pop()) {
        (Some(third), Some(second), Some(first)) => {
            three_pass_on(rt, alloc, &lane, first, second, third)
        }
        _ => Err(OutOfMemory),
    }
}

/// Whether the values of each of up to four callers are in its order.
pub fn rise_by_caller(values: &[u64]) -> bool {
    let mut least = [0u64; 4];
    for value in values {
        match least.get_mut((value / APART) as usize) {
            Some(next) if *next <= *value => *next = *value + 1,
            _ => return false,
        }
    }
    true
}

#[test]
fn smallest_lane_serves_a_hundred_thousand_operations(rt: HostRuntime) -> Result<(), Fail> {
    // With room 1 a single caller has five rows for its values.
    let shape = Shape::new(1, 1, 1, 100_000, 0).ok_or("no shape")?;
    assert!(rt; shape.callers() == 1);
    let (lane, mut pass) = alone(rt.alloc(), &shape)?;
    for value in 0..50_000 {
        assert!(rt; lane.enqueue(&mut pass, value).is_ok());
        assert!(rt; lane.dequeue(&mut pass) == Ok(Answer::Got(value)));
    }
    Ok(())
}

#[test]
fn smallest_lane_of_three_serves_a_hundred_thousand_operations(
    rt: HostRuntime,
) -> Result<(), Fail> {
    let shape = Shape::new(3, 1, 1, 100_000, 0).ok_or("no shape")?;
    assert!(rt; shape.callers() == 3);
    let mut got = Vec::new(rt.alloc());
    for list in three_beside(&rt, rt.alloc(), &shape)? {
        assert_eq!(rt; list.len(), EACH as usize);
        assert!(rt; rise_by_caller(list.as_slice()));
        for value in list {
            got.push(value)?;
        }
    }
    got.sort_unstable();
    let mut wanted = Vec::new(rt.alloc());
    for caller in 0..3 {
        for number in 0..EACH {
            wanted.push(caller * APART + number)?;
        }
    }
    assert!(rt; got == wanted);
    Ok(())
}
