// Callers beside each other on one lane, each in a thread of its own.
ghost use Rattle.std.specs.Prelude.{◌≡◌, ◌<◌, ◌≤◌, ◌+◌, ◌^◌, length, IfOk};

use crate::bench::{applied, take_values};
use bq_lane::{BqLane, Pass};
use bq_model::{Answer, Lane, Op, OutOfMemory, Shape};
use std::alloc::Global;
use std::test::Fail;
use std::thread::{Threads, join};

// A caller enqueues a hundred values, from this one on, and then dequeues a hundred times. Gives what it got.
fn puts_and_takes(
    alloc: Global,
    lane: &BqLane,
    pass: &mut Pass,
    first: u64,
) -> Result<Vec<u64>, OutOfMemory>
    requires of_this_lane { (pass.old.table ≡ lane.now.table) × (pass.old.shape ≡ lane.now.shape) }
    requires one_caller { length pass.old.callers ≡ 1 }
    requires first { first ≤ 1000 }
{
    for k in 0..100 {
        if lane.enqueue(pass, first + k).is_err() {
            return Ok(Vec::new(alloc));
        }
    }
    let mut got = Vec::new(alloc);
    for _ in 0..100 {
        if let Ok(Answer::Got(value)) = lane.dequeue(pass) {
            got.push(value)?;
        }
    }
    Ok(got)
}

// A caller makes two batches of three enqueues and three dequeues, of the values from this one on. Gives what it got.
fn makes_batches(
    alloc: Global,
    lane: &BqLane,
    pass: &mut Pass,
    first: u64,
) -> Result<Vec<u64>, OutOfMemory>
    requires of_this_lane { (pass.old.table ≡ lane.now.table) × (pass.old.shape ≡ lane.now.shape) }
    requires one_caller { length pass.old.callers ≡ 1 }
    requires room { 8 ≤ lane.now.shape.batch }
    requires first { first ≤ 1000 }
{
    let mut got = Vec::new(alloc);
    for k in 0..2 {
        let value = first + 3 * k;
        let (one, two, three) = (Op::Enq(value), Op::Enq(value + 1), Op::Enq(value + 2));
        let ops = [one, Op::Deq, two, three, Op::Deq, Op::Deq];
        if let Some(answers) = applied(alloc, lane, pass, &ops)? {
            take_values(&mut got, answers.as_slice())?;
        }
    }
    Ok(got)
}

// Two callers beside each other, with the batches of the other kind or not. Gives what both got.
fn both<R: Threads>(
    rt: &R,
    alloc: Global,
    lane: &BqLane,
    mut first: Pass,
    mut second: Pass,
) -> Result<Vec<u64>, OutOfMemory>
    requires first_of_this_lane { (first.table ≡ lane.now.table) × (first.shape ≡ lane.now.shape) }
    requires second_of_this_lane { (second.table ≡ lane.now.table) × (second.shape ≡ lane.now.shape) }
    requires one_caller { length first.callers ≡ 1 }
    requires another_caller { length second.callers ≡ 1 }
{
    let (one, other) = join(
        rt,
        move || -> Result<Vec<u64>, OutOfMemory>
            requires { (first.table ≡ lane.now.table) × (first.shape ≡ lane.now.shape) × (length first.callers ≡ 1) }
        { puts_and_takes(alloc, lane, &mut first, 0) },
        move || -> Result<Vec<u64>, OutOfMemory>
            requires { (second.table ≡ lane.now.table) × (second.shape ≡ lane.now.shape) × (length second.callers ≡ 1) }
        { puts_and_takes(alloc, lane, &mut second, 1000) },
    );
    let mut got = one?;
    for value in other? {
        got.push(value)?;
    }
    Ok(got)
}

// Two callers of a new lane put and take beside each other.
fn two_beside<R: Threads>(rt: &R, alloc: Global, shape: &Shape) -> Result<Vec<u64>, OutOfMemory>
    requires { shape.now.callers ≡ 2 }
{
    let (lane, mut passes) = BqLane::make(alloc, shape)?;
    match (passes.pop(), passes.pop()) {
        (Some(second), Some(first)) => both(rt, alloc, &lane, first, second),
        _ => Err(OutOfMemory),
    }
}

// Two callers make batches beside each other. Gives what both got.
fn both_batches<R: Threads>(
    rt: &R,
    alloc: Global,
    lane: &BqLane,
    mut first: Pass,
    mut second: Pass,
) -> Result<Vec<u64>, OutOfMemory>
    requires first_of_this_lane { (first.table ≡ lane.now.table) × (first.shape ≡ lane.now.shape) }
    requires second_of_this_lane { (second.table ≡ lane.now.table) × (second.shape ≡ lane.now.shape) }
    requires one_caller { length first.callers ≡ 1 }
    requires another_caller { length second.callers ≡ 1 }
    requires room { 8 ≤ lane.now.shape.batch }
{
    let (one, other) = join(
        rt,
        move || -> Result<Vec<u64>, OutOfMemory>
            requires { (first.table ≡ lane.now.table) × (first.shape ≡ lane.now.shape) × (length first.callers ≡ 1) × (8 ≤ lane.now.shape.batch) }
        { makes_batches(alloc, lane, &mut first, 0) },
        move || -> Result<Vec<u64>, OutOfMemory>
            requires { (second.table ≡ lane.now.table) × (second.shape ≡ lane.now.shape) × (length second.callers ≡ 1) × (8 ≤ lane.now.shape.batch) }
        { makes_batches(alloc, lane, &mut second, 1000) },
    );
    let mut got = one?;
    for value in other? {
        got.push(value)?;
    }
    Ok(got)
}

// Two callers of a new lane make batches beside each other.
fn two_batches_beside<R: Threads>(
    rt: &R,
    alloc: Global,
    shape: &Shape,
) -> Result<Vec<u64>, OutOfMemory>
    requires { (shape.now.callers ≡ 2) × (8 ≤ shape.now.batch) }
{
    let (lane, mut passes) = BqLane::make(alloc, shape)?;
    match (passes.pop(), passes.pop()) {
        (Some(second), Some(first)) => both_batches(rt, alloc, &lane, first, second),
        _ => Err(OutOfMemory),
    }
}

#[test]
fn two_callers_get_each_value_once(rt: HostRuntime) -> Result<(), Fail> {
    let shape = Shape::new(2, 1, 256, 1000, 0).ok_or("no shape")?;
    assert!(rt; shape.callers() == 2);
    let mut got = two_beside(&rt, rt.alloc(), &shape)?;
    got.sort_unstable();
    let mut wanted = Vec::new(rt.alloc());
    for value in (0..100).chain(1000..1100) {
        wanted.push(value)?;
    }
    assert!(rt; got == wanted);
    Ok(())
}

#[test]
fn batches_of_two_callers_get_each_value_once(rt: HostRuntime) -> Result<(), Fail> {
    let shape = Shape::new(2, 8, 64, 1000, 0).ok_or("no shape")?;
    assert!(rt; shape.callers() == 2 && shape.batch() == 8);
    let mut got = two_batches_beside(&rt, rt.alloc(), &shape)?;
    got.sort_unstable();
    let mut wanted = Vec::new(rt.alloc());
    for value in (0..6).chain(1000..1006) {
        wanted.push(value)?;
    }
    assert!(rt; got == wanted);
    Ok(())
}
