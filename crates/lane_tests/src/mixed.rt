// Four callers beside each other, each with a plan of batches, and a fifth that takes what they left. All passes are
// gathered, and the lane is closed.
ghost use Rattle.std.specs.Prelude.{◌≡◌, ◌≢◌, ◌<◌, ◌≤◌, ◌+◌, ◌^◌, ◌∷◌, ◌++◌, [], ℕ, length, map, All, IfOk, IfSome};
ghost use Rattle.std.specs.List.{range_with_len};
ghost use Rattle.std.specs.Thread.{IsSync};
ghost use Rattle.bq_model.specs.NoShut.{NoShut};

use bq_lane::BqLane;
use bq_model::{Answer, Answers, Batch, Lane, Op, OutOfMemory, Shape};
use std::alloc::Global;
use std::process::Abort;
use std::test::Fail;
use std::thread::{Threads, join};

// Which operations a caller makes.
#[derive(Clone, Copy, PartialEq, Eq)]
enum Kind {
    Mixed,
    Enqueues,
    Dequeues,
}

// What a caller makes: batches of these lengths, up to eight, and then a plain call.
#[derive(Clone, Copy)]
struct Plan<'a> {
    kind: Kind,
    lengths: &'a [u32],
}

// The next operation of a caller: an enqueue of the next value, or a dequeue.
fn next_op(enqueues: bool, next: &mut u64) -> Op
    ensures { result ≢ Op.Shut }
{
    if enqueues {
        let value = *next;
        *next = value.wrapping_add(1);
        Op::Enq(value)
    } else {
        Op::Deq
    }
}

// Puts so many operations into the batch, the enqueues with the next values. Which ones are enqueues of a mixed batch
// depends on its number.
fn fill(batch: &mut Batch, kind: Kind, number: usize, length: u32, next: &mut u64)
    requires capacity { batch.old.capacity ≡ 8 }
    ensures capacity { batch.new.capacity ≡ 8 }
    ensures no_shut { NoShut batch.new.items }
{
    batch.clear();
    for place in 0..length.min(8) {
        let even = (number / 2 + place as usize) % 2 == 0;
        let enqueues = kind == Kind::Enqueues || kind == Kind::Mixed && even;
        let op = next_op(enqueues, next);
        if batch.len() < 8 {
            batch.push(op);
        }
    }
}

// Appends the values that were got.
fn take_values(got: &mut Vec<u64>, answers: &[Answer]) -> Result<(), OutOfMemory> {
    for answer in answers {
        if let Answer::Got(value) = answer {
            got.push(*value)?;
        }
    }
    Ok(())
}

// A plain call of each kind that the plan has.
fn plain_calls<L: Lane>(
    lane: &L,
    pass: &mut L::Pass,
    kind: Kind,
    value: u64,
    got: &mut Vec<u64>,
) -> Result<(), OutOfMemory>
    requires of_this_lane { (L.pass_identity pass.old ≡ L.identity lane.now) × (L.pass_shape pass.old ≡ L.lane_shape lane.now) }
    requires one_caller { length (L.callers pass.old) ≡ 1 }
    ensures pass_stays { (L.pass_identity pass.new ≡ L.pass_identity pass.old) × (L.pass_shape pass.new ≡ L.pass_shape pass.old) × (L.callers pass.new ≡ L.callers pass.old) }
{
    if kind != Kind::Dequeues && lane.enqueue(pass, value).is_err() {
        return Err(OutOfMemory);
    }
    if kind != Kind::Enqueues {
        if let Ok(answer) = lane.dequeue(pass) {
            take_values(got, &[answer])?;
        }
    }
    Ok(())
}

// A caller does what its plan says, with the values from this one on. Gives its pass and what it got.
fn works<L: Lane>(
    alloc: Global,
    lane: &L,
    mut pass: L::Pass,
    first: u64,
    plan: &Plan<'_>,
) -> Result<(L::Pass, Vec<u64>), OutOfMemory>
    requires of_this_lane { (L.pass_identity pass ≡ L.identity lane.now) × (L.pass_shape pass ≡ L.lane_shape lane.now) }
    requires one_caller { length (L.callers pass) ≡ 1 }
    requires room { 8 ≤ (L.lane_shape lane.now).batch }
    ensures of_this_lane { IfOk result (λ made. (L.pass_identity made.0 ≡ L.identity lane.now) × (L.pass_shape made.0 ≡ L.lane_shape lane.now)) }
    ensures callers { IfOk result (λ made. L.callers made.0 ≡ L.callers pass) }
{
    let mut batch = Batch::new(alloc, 8)?;
    let mut out = Answers::new(alloc, 8)?;
    let mut got = Vec::new(alloc);
    let mut next = first;
    for (number, length) in plan.lengths.iter().enumerate() {
        fill(&mut batch, plan.kind, number, *length, &mut next);
        if batch.len() == 0 || lane.apply(&mut pass, &batch, &mut out).is_err() {
            return Err(OutOfMemory);
        }
        take_values(&mut got, out.as_slice())?;
    }
    plain_calls(lane, &mut pass, plan.kind, next, &mut got)?;
    Ok((pass, got))
}

// Two callers beside each other. Gives the pass of both, and what each got.
fn two_work<L: Lane, R: Threads>(
    rt: &R,
    alloc: Global,
    lane: &L,
    a: L::Pass,
    b: L::Pass,
    first: u64,
    plan: &Plan<'_>,
) -> Result<(L::Pass, Vec<u64>, Vec<u64>), OutOfMemory>
    requires first_of_this_lane { (L.pass_identity a ≡ L.identity lane.now) × (L.pass_shape a ≡ L.lane_shape lane.now) }
    requires second_of_this_lane { (L.pass_identity b ≡ L.identity lane.now) × (L.pass_shape b ≡ L.lane_shape lane.now) }
    requires one_caller { (length (L.callers a) ≡ 1) × (length (L.callers b) ≡ 1) }
    requires room { 8 ≤ (L.lane_shape lane.now).batch }
    requires first { first ≤ 2000 }
    ensures of_this_lane { IfOk result (λ made. (L.pass_identity made.0 ≡ L.identity lane.now) × (L.pass_shape made.0 ≡ L.lane_shape lane.now)) }
    ensures callers { IfOk result (λ made. L.callers made.0 ≡ L.callers a ++ L.callers b) }
{
    let (one, other) = join(
        rt,
        move || -> Result<(L::Pass, Vec<u64>), OutOfMemory>
            requires { (L.pass_identity a ≡ L.identity lane.now) × (L.pass_shape a ≡ L.lane_shape lane.now) × (length (L.callers a) ≡ 1) × (8 ≤ (L.lane_shape lane.now).batch) }
            ensures { IfOk result (λ made. (L.pass_identity made.0 ≡ L.identity lane.entry.now) × (L.pass_shape made.0 ≡ L.lane_shape lane.entry.now) × (L.callers made.0 ≡ L.callers a)) }
        { works(alloc, lane, a, first, plan) },
        move || -> Result<(L::Pass, Vec<u64>), OutOfMemory>
            requires { (L.pass_identity b ≡ L.identity lane.now) × (L.pass_shape b ≡ L.lane_shape lane.now) × (length (L.callers b) ≡ 1) × (8 ≤ (L.lane_shape lane.now).batch) × (first ≤ 2000) }
            ensures { IfOk result (λ made. (L.pass_identity made.0 ≡ L.identity lane.entry.now) × (L.pass_shape made.0 ≡ L.lane_shape lane.entry.now) × (L.callers made.0 ≡ L.callers b)) }
        { works(alloc, lane, b, first + 1000, plan) },
    );
    let (front, got) = one?;
    let (back, also) = other?;
    Ok((lane.gather(front, back), got, also))
}

// What each of four callers got, and a fifth that took what was left.
#[derive(Drop)]
struct Gains {
    one: Vec<u64>,
    two: Vec<u64>,
    three: Vec<u64>,
    four: Vec<u64>,
    left: Vec<u64>,
}

// The four callers beside each other, the first two by one plan and the others by another. Gives the pass of all of them,
// and what each got.
fn four_work<L: Lane, R: Threads + Sync>(
    rt: &R,
    alloc: Global,
    lane: &L,
    front: (L::Pass, L::Pass),
    back: (L::Pass, L::Pass),
    plans: (&Plan<'_>, &Plan<'_>),
) -> Result<(L::Pass, Gains), OutOfMemory>
    requires of_this_lane { (L.pass_identity front.0 ≡ L.identity lane.now) × (L.pass_identity front.1 ≡ L.identity lane.now) × (L.pass_identity back.0 ≡ L.identity lane.now) × (L.pass_identity back.1 ≡ L.identity lane.now) }
    requires of_this_shape { (L.pass_shape front.0 ≡ L.lane_shape lane.now) × (L.pass_shape front.1 ≡ L.lane_shape lane.now) × (L.pass_shape back.0 ≡ L.lane_shape lane.now) × (L.pass_shape back.1 ≡ L.lane_shape lane.now) }
    requires one_caller { (length (L.callers front.0) ≡ 1) × (length (L.callers front.1) ≡ 1) × (length (L.callers back.0) ≡ 1) × (length (L.callers back.1) ≡ 1) }
    requires room { 8 ≤ (L.lane_shape lane.now).batch }
    ensures of_this_lane { IfOk result (λ made. (L.pass_identity made.0 ≡ L.identity lane.now) × (L.pass_shape made.0 ≡ L.lane_shape lane.now)) }
    ensures callers { IfOk result (λ made. L.callers made.0 ≡ (L.callers front.0 ++ L.callers front.1) ++ (L.callers back.0 ++ L.callers back.1)) }
{
    let (a, b) = front;
    let (c, d) = back;
    let (plan, other_plan) = plans;
    let (ahead, behind) = join(
        rt,
        move || -> Result<(L::Pass, Vec<u64>, Vec<u64>), OutOfMemory>
            requires { IsSync R.row × (L.pass_identity a ≡ L.identity lane.now) × (L.pass_identity b ≡ L.identity lane.now) × (L.pass_shape a ≡ L.lane_shape lane.now) × (L.pass_shape b ≡ L.lane_shape lane.now)
                × (length (L.callers a) ≡ 1) × (length (L.callers b) ≡ 1) × (8 ≤ (L.lane_shape lane.now).batch) }
            ensures { IfOk result (λ made. (L.pass_identity made.0 ≡ L.identity lane.entry.now) × (L.pass_shape made.0 ≡ L.lane_shape lane.entry.now) × (L.callers made.0 ≡ L.callers a ++ L.callers b)) }
        { two_work(rt, alloc, lane, a, b, 0, plan) },
        move || -> Result<(L::Pass, Vec<u64>, Vec<u64>), OutOfMemory>
            requires { IsSync R.row × (L.pass_identity c ≡ L.identity lane.now) × (L.pass_identity d ≡ L.identity lane.now) × (L.pass_shape c ≡ L.lane_shape lane.now) × (L.pass_shape d ≡ L.lane_shape lane.now)
                × (length (L.callers c) ≡ 1) × (length (L.callers d) ≡ 1) × (8 ≤ (L.lane_shape lane.now).batch) }
            ensures { IfOk result (λ made. (L.pass_identity made.0 ≡ L.identity lane.entry.now) × (L.pass_shape made.0 ≡ L.lane_shape lane.entry.now) × (L.callers made.0 ≡ L.callers c ++ L.callers d)) }
        { two_work(rt, alloc, lane, c, d, 2000, other_plan) },
    );
    let (first, one, two) = ahead?;
    let (second, three, four) = behind?;
    let gains = Gains {
        one,
        two,
        three,
        four,
        left: Vec::new(alloc),
    };
    Ok((lane.gather(first, second), gains))
}

// A caller takes what is left, up to a thousand values.
fn takes_the_rest<L: Lane>(
    lane: &L,
    pass: &mut L::Pass,
    got: &mut Vec<u64>,
) -> Result<(), OutOfMemory>
    requires of_this_lane { (L.pass_identity pass.old ≡ L.identity lane.now) × (L.pass_shape pass.old ≡ L.lane_shape lane.now) }
    requires one_caller { length (L.callers pass.old) ≡ 1 }
    ensures pass_stays { (L.pass_identity pass.new ≡ L.pass_identity pass.old) × (L.pass_shape pass.new ≡ L.pass_shape pass.old) × (L.callers pass.new ≡ L.callers pass.old) }
{
    for _ in 0..1000 {
        match lane.dequeue(pass) {
            Ok(Answer::Got(value)) => got.push(value)?,
            _ => return Ok(()),
        }
    }
    Ok(())
}

// The pass of the caller of this number, which is the last of those that are left.
fn last_pass<L: Lane>(lane: &L, passes: &mut Vec<L::Pass>, number: u32) -> Option<L::Pass>
    requires few { number < 17 }
    requires callers { map L.callers passes.old.items ≡ map (λ c. c ∷ []) (range_with_len 0 (number + 1)) }
    requires of_this_lane { All (λ pass. L.pass_identity pass ≡ L.identity lane.now) passes.old.items }
    requires of_this_shape { All (λ pass. L.pass_shape pass ≡ L.lane_shape lane.now) passes.old.items }
    ensures caller { IfSome result (λ pass. L.callers pass ≡ number ∷ []) }
    ensures its_lane { IfSome result (λ pass. (L.pass_identity pass ≡ L.identity lane.now) × (L.pass_shape pass ≡ L.lane_shape lane.now)) }
    ensures others { IfSome result (λ pass. map L.callers passes.new.items ≡ map (λ c. c ∷ []) (range_with_len 0 number)) }
    ensures of_this_lane { All (λ pass. L.pass_identity pass ≡ L.identity lane.now) passes.new.items }
    ensures of_this_shape { All (λ pass. L.pass_shape pass ≡ L.lane_shape lane.now) passes.new.items }
{
    let _shared = lane;
    passes.pop()
}

// Four callers work, and the last one takes what they left. Then the lane is closed.
fn work_and_close<L: Lane, R: Threads + Sync>(
    rt: &R,
    alloc: Global,
    lane: L,
    front: (L::Pass, L::Pass),
    back: (L::Pass, L::Pass),
    mut last: L::Pass,
    plans: (&Plan<'_>, &Plan<'_>),
) -> Result<Gains, OutOfMemory>
    requires of_this_lane { (L.pass_identity front.0 ≡ L.identity lane) × (L.pass_identity front.1 ≡ L.identity lane) × (L.pass_identity back.0 ≡ L.identity lane) × (L.pass_identity back.1 ≡ L.identity lane) × (L.pass_identity last ≡ L.identity lane) }
    requires of_this_shape { (L.pass_shape front.0 ≡ L.lane_shape lane) × (L.pass_shape front.1 ≡ L.lane_shape lane) × (L.pass_shape back.0 ≡ L.lane_shape lane) × (L.pass_shape back.1 ≡ L.lane_shape lane) × (L.pass_shape last ≡ L.lane_shape lane) }
    requires every_caller { (L.callers front.0 ≡ 0 ∷ []) × (L.callers front.1 ≡ 1 ∷ []) × (L.callers back.0 ≡ 2 ∷ []) × (L.callers back.1 ≡ 3 ∷ []) × (L.callers last ≡ 4 ∷ []) }
    requires five { ((L.lane_shape lane).callers ≡ 5) × (8 ≤ (L.lane_shape lane).batch) }
{
    let (four, mut gains) = four_work(rt, alloc, &lane, front, back, plans)?;
    takes_the_rest(&lane, &mut last, &mut gains.left)?;
    let all = lane.gather(four, last);
    let _book = lane.close(all);
    Ok(gains)
}

// Five callers of a new lane do so.
fn five_beside<L: Lane, R: Threads + Sync>(
    rt: &R,
    alloc: Global,
    shape: &Shape,
    plans: (&Plan<'_>, &Plan<'_>),
) -> Result<Gains, OutOfMemory>
    requires { (shape.now.callers ≡ 5) × (8 ≤ shape.now.batch) }
{
    let (lane, mut passes) = L::make(alloc, shape)?;
    let Some(last) = last_pass(&lane, &mut passes, 4) else {
        return Err(OutOfMemory);
    };
    let Some(d) = last_pass(&lane, &mut passes, 3) else {
        return Err(OutOfMemory);
    };
    let Some(c) = last_pass(&lane, &mut passes, 2) else {
        return Err(OutOfMemory);
    };
    let Some(b) = last_pass(&lane, &mut passes, 1) else {
        return Err(OutOfMemory);
    };
    let Some(a) = last_pass(&lane, &mut passes, 0) else {
        return Err(OutOfMemory);
    };
    work_and_close(rt, alloc, lane, (a, b), (c, d), last, plans)
}

// Whether the values of each caller are in its order: its numbers rise.
fn in_order(values: &[u64]) -> bool {
    let mut least = [0u64; 5];
    for value in values {
        let number = value % 1000;
        match least.get_mut((value / 1000) as usize) {
            Some(next) if *next <= number => *next = number + 1,
            _ => return false,
        }
    }
    true
}

// Five callers on a lane, four of them by these plans, get each value once: so many from each of these on.
fn gets_each_once<L: Lane, R: Threads + Sync + Abort>(
    rt: &R,
    alloc: Global,
    plans: (&Plan<'_>, &Plan<'_>),
    firsts: &[u64],
    count: u64,
) -> Result<(), Fail> {
    let shape = Shape::new(5, 8, 256, 1000, 0).ok_or("no shape")?;
    assert!(rt; shape.callers() == 5 && shape.batch() == 8);
    let gains = five_beside::<L, R>(rt, alloc, &shape, plans)?;
    let mut got = Vec::new(alloc);
    for list in [gains.one, gains.two, gains.three, gains.four, gains.left] {
        assert!(rt; in_order(list.as_slice()));
        got.extend_from_slice(list.as_slice())?;
    }
    got.sort_unstable();
    let mut wanted = Vec::new(alloc);
    for first in firsts {
        for value in *first..first.saturating_add(count) {
            wanted.push(value)?;
        }
    }
    assert!(rt; got == wanted);
    Ok(())
}

const FIRSTS: [u64; 4] = [0, 1000, 2000, 3000];

#[test]
fn batches_of_eight_lose_and_double_nothing(rt: HostRuntime) -> Result<(), Fail> {
    let plan = Plan {
        kind: Kind::Mixed,
        lengths: &[8; 50],
    };
    gets_each_once::<BqLane, _>(&rt, rt.alloc(), (&plan, &plan), &FIRSTS, 201)
}

#[test]
fn batches_of_mixed_sizes_lose_and_double_nothing(rt: HostRuntime) -> Result<(), Fail> {
    let plan = Plan {
        kind: Kind::Mixed,
        lengths: &[2, 3, 5, 8, 8],
    };
    gets_each_once::<BqLane, _>(&rt, rt.alloc(), (&plan, &plan), &FIRSTS, 14)
}

#[test]
fn batches_of_dequeues_beside_enqueues_lose_and_double_nothing(
    rt: HostRuntime,
) -> Result<(), Fail> {
    let dequeues = Plan {
        kind: Kind::Dequeues,
        lengths: &[2, 3, 1, 5, 8, 1, 4],
    };
    let enqueues = Plan {
        kind: Kind::Enqueues,
        lengths: &[1, 4, 1, 1, 3, 1, 2, 1, 8, 1, 1],
    };
    gets_each_once::<BqLane, _>(&rt, rt.alloc(), (&dequeues, &enqueues), &FIRSTS[2..], 25)
}
