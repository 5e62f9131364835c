// The smallest lane of four callers through a hundred thousand operations. All passes are gathered, and the lane is closed.
ghost use Rattle.std.specs.Prelude.{◌≡◌, ◌<◌, ◌≤◌, ◌+◌, ◌∷◌, ◌++◌, [], ℕ, length, map, All, IfOk, IfSome};
ghost use Rattle.std.specs.List.{range_with_len};
ghost use Rattle.std.specs.Thread.{IsSync};

use crate::small::{APART, rise_by_caller, two_pass_on};
use bq_lane::{BqLane, Pass};
use bq_model::{Lane, OutOfMemory, Shape};
use std::alloc::Global;
use std::test::Fail;
use std::thread::{Threads, join};

/// How many values each caller enqueues.
const EACH: u64 = 12_500;

// Four callers enqueue and dequeue beside each other. Gives the pass of all of them, and what each got.
fn four_pass_on<R: Threads + Sync>(
    rt: &R,
    alloc: Global,
    lane: &BqLane,
    front: (Pass, Pass),
    back: (Pass, Pass),
) -> Result<(Pass, [Vec<u64>; 4]), OutOfMemory>
    requires of_this_lane { (front.0.table ≡ lane.now.table) × (front.1.table ≡ lane.now.table) × (back.0.table ≡ lane.now.table) × (back.1.table ≡ lane.now.table) }
    requires of_this_shape { (front.0.shape ≡ lane.now.shape) × (front.1.shape ≡ lane.now.shape) × (back.0.shape ≡ lane.now.shape) × (back.1.shape ≡ lane.now.shape) }
    requires one_caller { (length front.0.callers ≡ 1) × (length front.1.callers ≡ 1) × (length back.0.callers ≡ 1) × (length back.1.callers ≡ 1) }
    ensures of_this_lane { IfOk result (λ made. (made.0.table ≡ lane.now.table) × (made.0.shape ≡ lane.now.shape)) }
    ensures callers { IfOk result (λ made. made.0.callers ≡ (front.0.callers ++ front.1.callers) ++ (back.0.callers ++ back.1.callers)) }
{
    let (a, b) = front;
    let (c, d) = back;
    let (ahead, behind) = join(
        rt,
        move || -> Result<(Pass, Vec<u64>, Vec<u64>), OutOfMemory>
            requires { IsSync R.row × (a.table ≡ lane.now.table) × (a.shape ≡ lane.now.shape) × (length a.callers ≡ 1)
                × (b.table ≡ lane.now.table) × (b.shape ≡ lane.now.shape) × (length b.callers ≡ 1) }
            ensures { IfOk result (λ made. (made.0.table ≡ lane.entry.now.table) × (made.0.shape ≡ lane.entry.now.shape) × (made.0.callers ≡ a.callers ++ b.callers)) }
        { two_pass_on(rt, alloc, lane, a, b, 0, EACH) },
        move || -> Result<(Pass, Vec<u64>, Vec<u64>), OutOfMemory>
            requires { IsSync R.row × (c.table ≡ lane.now.table) × (c.shape ≡ lane.now.shape) × (length c.callers ≡ 1)
                × (d.table ≡ lane.now.table) × (d.shape ≡ lane.now.shape) × (length d.callers ≡ 1) }
            ensures { IfOk result (λ made. (made.0.table ≡ lane.entry.now.table) × (made.0.shape ≡ lane.entry.now.shape) × (made.0.callers ≡ c.callers ++ d.callers)) }
        { two_pass_on(rt, alloc, lane, c, d, 2 * APART, EACH) },
    );
    let (first, one, two) = ahead?;
    let (second, three, four) = behind?;
    Ok((lane.gather(first, second), [one, two, three, four]))
}

// The pass of the caller of this number, which is the last of those that are left.
fn last_pass(lane: &BqLane, passes: &mut Vec<Pass>, number: u32) -> Option<Pass>
    requires few { number < 4 }
    requires callers { map (λ pass. pass.callers) passes.old.items ≡ map (λ c. c ∷ []) (range_with_len 0 (number + 1)) }
    requires of_this_lane { All (λ pass. pass.table ≡ lane.now.table) passes.old.items }
    requires of_this_shape { All (λ pass. pass.shape ≡ lane.now.shape) passes.old.items }
    ensures caller { IfSome result (λ pass. pass.callers ≡ number ∷ []) }
    ensures its_lane { IfSome result (λ pass. (pass.table ≡ lane.now.table) × (pass.shape ≡ lane.now.shape)) }
    ensures others { IfSome result (λ pass. map (λ p. p.callers) passes.new.items ≡ map (λ c. c ∷ []) (range_with_len 0 number)) }
    ensures of_this_lane { All (λ pass. pass.table ≡ lane.now.table) passes.new.items }
    ensures of_this_shape { All (λ pass. pass.shape ≡ lane.now.shape) passes.new.items }
{
    let _shared = lane;
    passes.pop()
}

// The four callers of a lane do so, and then the lane is closed.
fn pass_on_and_close<R: Threads + Sync>(
    rt: &R,
    alloc: Global,
    lane: BqLane,
    front: (Pass, Pass),
    back: (Pass, Pass),
) -> Result<[Vec<u64>; 4], OutOfMemory>
    requires of_this_lane { (front.0.table ≡ lane.table) × (front.1.table ≡ lane.table) × (back.0.table ≡ lane.table) × (back.1.table ≡ lane.table) }
    requires of_this_shape { (front.0.shape ≡ lane.shape) × (front.1.shape ≡ lane.shape) × (back.0.shape ≡ lane.shape) × (back.1.shape ≡ lane.shape) }
    requires every_caller { (front.0.callers ≡ 0 ∷ []) × (front.1.callers ≡ 1 ∷ []) × (back.0.callers ≡ 2 ∷ []) × (back.1.callers ≡ 3 ∷ []) }
    requires four { lane.shape.callers ≡ 4 }
{
    let (all, lists) = four_pass_on(rt, alloc, &lane, front, back)?;
    let _book = lane.close(all);
    Ok(lists)
}

// Four callers of a new lane do so.
fn four_beside<R: Threads + Sync>(
    rt: &R,
    alloc: Global,
    shape: &Shape,
) -> Result<[Vec<u64>; 4], OutOfMemory>
    requires { shape.now.callers ≡ 4 }
{
    let (lane, mut passes) = BqLane::make(alloc, shape)?;
    let Some(d) = last_pass(&lane, &mut passes, 3) else {
        return Err(OutOfMemory);
    };
    let Some(c) = last_pass(&lane, &mut passes, 2) else {
        return Err(OutOfMemory);
    };
    let Some(b) = last_pass(&lane, &mut passes, 1) else {
        return Err(OutOfMemory);
    };
    let Some(a) = last_pass(&lane, &mut passes, 0) else {
        return Err(OutOfMemory);
    };
    pass_on_and_close(rt, alloc, lane, (a, b), (c, d))
}

#[test]
fn smallest_lane_of_four_serves_a_hundred_thousand_operations(rt: HostRuntime) -> Result<(), Fail> {
    let shape = Shape::new(4, 1, 1, 100_000, 0).ok_or("no shape")?;
    assert!(rt; shape.callers() == 4);
    let mut got = Vec::new(rt.alloc());
    for list in four_beside(&rt, rt.alloc(), &shape)? {
        assert_eq!(rt; list.len(), EACH as usize);
        assert!(rt; rise_by_caller(list.as_slice()));
        got.extend_from_slice(list.as_slice())?;
    }
    got.sort_unstable();
    let mut wanted = Vec::new(rt.alloc());
    for caller in 0..4 {
        for number in 0..EACH {
            wanted.push(caller * APART + number)?;
        }
    }
    assert!(rt; got == wanted);
    Ok(())
}
