// One hand: it puts its units on their lanes, and then takes what is left, lane by lane.
ghost use Rattle.std.specs.Prelude.{◌≡◌, ◌≢◌, ◌≤◌, ◌<◌, ◌+◌, ◌^◌, ℕ, List, [], ◌∷◌, ◌++◌, length, map, filter, ◌==◌, All, Contains, OnOk, IfOk, MatchOption, slice_index, take};
ghost use Rattle.std.specs.List.{AllZip};
ghost use Rattle.job_text.specs.JobFile.{job_count, IsJobFile};
ghost use Rattle.job_lanes.specs.Seats.{seat};
ghost use Rattle.job_lanes.specs.Rest.{IsAtRest};
ghost use Rattle.bulk_dispatcher.specs.Books.{Climbs};
ghost use Rattle.bulk_dispatcher.specs.Hands.{units_of, HandDid, HandRan, HasReplied, PutsUnit, EndsLane, OnOneLane, Answered};
ghost use Rattle.bulk_dispatcher.specs.Stops.{Serves, HandTried, MetSpent, HandStopped, AtWork};

use crate::drain::drain;
use crate::gate::Gate;
use crate::reply::Reply;
use crate::unit::put_unit;
use crate::work::Work;
use bq_model::{Lane, OutOfMemory};
use job_lanes::Desk;
use job_text::JobFile;
use std::alloc::Global;

/// Which part of a file's work a hand does.
#[derive(Clone, Copy, Debug)]
pub struct Part {
    /// How many hands there are.
    pub hands: u32,
    /// The number of this one, from 0.
    pub hand: u32,
    /// How many dequeues a hand makes as one, once it has put its units.
    pub batch: u32,
}

// The place of a lane number among those that rise.
fn place_of(numbers: &[u32], lane: u32) -> usize
    requires { Contains numbers.now lane }
    ensures within { result < length numbers.now }
    ensures found { slice_index numbers.now result ≡ lane }
{
    for place in 0..numbers.len() {
        if numbers[place] == lane {
            return place;
        }
    }
    unreachable!()
}

// Puts one unit on its lane.
fn put_on_lane<L: Lane, G: Gate>(
    alloc: Global,
    jobs: &JobFile,
    lanes: &[L],
    numbers: &[u32],
    desk: &mut Desk<L>,
    lane: u32,
    first: u32,
    count: u32,
    hand: u32,
    gate: &G,
    replies: &mut Vec<Reply>,
) -> Result<Work, OutOfMemory>
    requires known { Contains numbers.now lane }
    requires one_lane_each { length lanes.now ≡ length numbers.now }
    requires serve { All (λ x. Serves (L.lane_shape x)) lanes.now }
    requires unit { count ≤ 100 }
    requires file { first + count ≤ job_count jobs.now }
    requires numbers { first + count < 2 ^ 32 }
    requires seats { map (λ s. seat (L.pass_identity s.pass) (L.pass_shape s.pass) (L.callers s.pass)) desk.old.sessions.items
        ≡ map (λ x. seat (L.identity x) (L.lane_shape x) (hand ∷ [])) lanes.now }
    requires at_rest { AllZip (λ number s. IsAtRest number hand s) numbers.now desk.old.sessions.items }
    ensures seats { OnOk result (map (λ s. seat (L.pass_identity s.pass) (L.pass_shape s.pass) (L.callers s.pass)) desk.new.sessions.items
        ≡ map (λ x. seat (L.identity x) (L.lane_shape x) (hand ∷ [])) lanes.now) }
    ensures at_rest { OnOk result (AllZip (λ number s. IsAtRest number hand s) numbers.now desk.new.sessions.items) }
    ensures put { IfOk result (λ work. OnOneLane
        (λ old new. AtWork work (PutsUnit first count hand old new) (MetSpent hand old new) × Answered jobs.now lane hand old new replies.old.items replies.new.items)
        numbers.now lane (map (λ s. L.seen s.pass) desk.old.sessions.items) (map (λ s. L.seen s.pass) desk.new.sessions.items)) }
{
    let k = place_of(numbers, lane);
    let session = desk.session(k);
    put_unit(
        alloc, jobs, &lanes[k], session, first, count, hand, gate, replies,
    )
}

// Puts the unit at a place of the file, if it is one of the hand's. `first` is the number of its first job, and the
// answer is that of the next unit's. It is None where the hand's allowance was spent.
fn put_next<L: Lane, G: Gate>(
    alloc: Global,
    jobs: &JobFile,
    lanes: &[L],
    numbers: &[u32],
    part: Part,
    desk: &mut Desk<L>,
    place: usize,
    first: u32,
    gate: &G,
    replies: &mut Vec<Reply>,
) -> Result<Option<u32>, OutOfMemory>
    requires file { IsJobFile jobs.now }
    requires place { place < length jobs.now }
    requires first { first ≡ job_count (take place jobs.now) }
    requires hands { 1 ≤ part.hands }
    requires rise { Climbs numbers.now }
    requires known { All (λ unit. Contains numbers.now unit.lane) jobs.now }
    requires one_lane_each { length lanes.now ≡ length numbers.now }
    requires serve { All (λ x. Serves (L.lane_shape x)) lanes.now }
    requires seats { map (λ s. seat (L.pass_identity s.pass) (L.pass_shape s.pass) (L.callers s.pass)) desk.old.sessions.items
        ≡ map (λ x. seat (L.identity x) (L.lane_shape x) (part.hand ∷ [])) lanes.now }
    requires at_rest { AllZip (λ number s. IsAtRest number part.hand s) numbers.now desk.old.sessions.items }
    requires put { AllZip (λ n h. HandTried (units_of (take place jobs.now) part.hands n part.hand) part.hand h) numbers.now (map (λ s. L.seen s.pass) desk.old.sessions.items) }
    requires replied { HasReplied jobs.now numbers.now part.hand (map (λ s. L.seen s.pass) desk.old.sessions.items) replies.old.items }
    ensures seats { OnOk result (map (λ s. seat (L.pass_identity s.pass) (L.pass_shape s.pass) (L.callers s.pass)) desk.new.sessions.items
        ≡ map (λ x. seat (L.identity x) (L.lane_shape x) (part.hand ∷ [])) lanes.now) }
    ensures at_rest { OnOk result (AllZip (λ number s. IsAtRest number part.hand s) numbers.now desk.new.sessions.items) }
    ensures put { IfOk result (λ next. MatchOption next
        (HandStopped numbers.now jobs.now part.hands part.hand (map (λ s. L.seen s.pass) desk.new.sessions.items))
        (λ first. (first ≡ job_count (take (place + 1) jobs.now))
        × AllZip (λ n h. HandTried (units_of (take (place + 1) jobs.now) part.hands n part.hand) part.hand h) numbers.now (map (λ s. L.seen s.pass) desk.new.sessions.items))) }
    ensures replied { OnOk result (HasReplied jobs.now numbers.now part.hand (map (λ s. L.seen s.pass) desk.new.sessions.items) replies.new.items) }
{
    let unit = &jobs.units()[place];
    let count = unit.jobs.len() as u32;
    if place as u64 % u64::from(part.hands) == u64::from(part.hand) {
        let work = put_on_lane(
            alloc, jobs, lanes, numbers, desk, unit.lane, first, count, part.hand, gate, replies,
        )?;
        match work {
            Work::Done => Ok(Some(first + count)),
            Work::Spent => Ok(None),
        }
    } else {
        Ok(Some(first + count))
    }
}

/// Puts the units of the hand on their lanes, in file order.
pub fn put_units<L: Lane, G: Gate>(
    alloc: Global,
    jobs: &JobFile,
    lanes: &[L],
    numbers: &[u32],
    part: Part,
    desk: &mut Desk<L>,
    gate: &G,
    replies: &mut Vec<Reply>,
) -> Result<Work, OutOfMemory>
    requires hands { 1 ≤ part.hands }
    requires rise { Climbs numbers.now }
    requires known { All (λ unit. Contains numbers.now unit.lane) jobs.now }
    requires one_lane_each { length lanes.now ≡ length numbers.now }
    requires serve { All (λ x. Serves (L.lane_shape x)) lanes.now }
    requires seats { map (λ s. seat (L.pass_identity s.pass) (L.pass_shape s.pass) (L.callers s.pass)) desk.old.sessions.items
        ≡ map (λ x. seat (L.identity x) (L.lane_shape x) (part.hand ∷ [])) lanes.now }
    requires at_rest { AllZip (λ number s. IsAtRest number part.hand s) numbers.now desk.old.sessions.items }
    requires nothing_put { AllZip (λ n h. HandTried [] part.hand h) numbers.now (map (λ s. L.seen s.pass) desk.old.sessions.items) }
    requires nothing_caught { HasReplied jobs.now numbers.now part.hand (map (λ s. L.seen s.pass) desk.old.sessions.items) replies.old.items }
    ensures seats { OnOk result (map (λ s. seat (L.pass_identity s.pass) (L.pass_shape s.pass) (L.callers s.pass)) desk.new.sessions.items
        ≡ map (λ x. seat (L.identity x) (L.lane_shape x) (part.hand ∷ [])) lanes.now) }
    ensures at_rest { OnOk result (AllZip (λ number s. IsAtRest number part.hand s) numbers.now desk.new.sessions.items) }
    ensures put { IfOk result (λ work. AtWork work
        (AllZip (λ n h. HandTried (units_of jobs.now part.hands n part.hand) part.hand h) numbers.now (map (λ s. L.seen s.pass) desk.new.sessions.items))
        (HandStopped numbers.now jobs.now part.hands part.hand (map (λ s. L.seen s.pass) desk.new.sessions.items))) }
    ensures replied { OnOk result (HasReplied jobs.now numbers.now part.hand (map (λ s. L.seen s.pass) desk.new.sessions.items) replies.new.items) }
{
    let _count = jobs.count();
    let mut first = 0;
    for place in 0..jobs.units().len() {
        let next = put_next(
            alloc, jobs, lanes, numbers, part, desk, place, first, gate, replies,
        )?;
        match next {
            Some(next) => first = next,
            None => return Ok(Work::Spent),
        }
    }
    Ok(Work::Done)
}

// Takes what is left on the lane at this place.
fn drain_next<L: Lane, G: Gate>(
    alloc: Global,
    jobs: &JobFile,
    lanes: &[L],
    numbers: &[u32],
    part: Part,
    desk: &mut Desk<L>,
    k: usize,
    gate: &G,
    replies: &mut Vec<Reply>,
) -> Result<Work, OutOfMemory>
    requires place { k < length numbers.now }
    requires batch { (1 ≤ part.batch) × (part.batch ≤ 256) }
    requires one_lane_each { length lanes.now ≡ length numbers.now }
    requires serve { All (λ x. Serves (L.lane_shape x)) lanes.now }
    requires seats { map (λ s. seat (L.pass_identity s.pass) (L.pass_shape s.pass) (L.callers s.pass)) desk.old.sessions.items
        ≡ map (λ x. seat (L.identity x) (L.lane_shape x) (part.hand ∷ [])) lanes.now }
    requires at_rest { AllZip (λ number s. IsAtRest number part.hand s) numbers.now desk.old.sessions.items }
    ensures seats { OnOk result (map (λ s. seat (L.pass_identity s.pass) (L.pass_shape s.pass) (L.callers s.pass)) desk.new.sessions.items
        ≡ map (λ x. seat (L.identity x) (L.lane_shape x) (part.hand ∷ [])) lanes.now) }
    ensures at_rest { OnOk result (AllZip (λ number s. IsAtRest number part.hand s) numbers.now desk.new.sessions.items) }
    ensures drained { IfOk result (λ work. OnOneLane
        (λ old new. AtWork work (EndsLane part.batch part.hand old new) (MetSpent part.hand old new) × Answered jobs.now (slice_index numbers.now k) part.hand old new replies.old.items replies.new.items)
        numbers.now (slice_index numbers.now k) (map (λ s. L.seen s.pass) desk.old.sessions.items) (map (λ s. L.seen s.pass) desk.new.sessions.items)) }
{
    let session = desk.session(k);
    drain(
        alloc, jobs, &lanes[k], session, part.batch, part.hand, gate, replies,
    )
}

/// Takes what is left on each lane, in the order of the lanes.
pub fn drain_lanes<L: Lane, G: Gate>(
    alloc: Global,
    jobs: &JobFile,
    lanes: &[L],
    numbers: &[u32],
    part: Part,
    desk: &mut Desk<L>,
    gate: &G,
    replies: &mut Vec<Reply>,
) -> Result<Work, OutOfMemory>
    requires batch { (1 ≤ part.batch) × (part.batch ≤ 256) }
    requires rise { Climbs numbers.now }
    requires one_lane_each { length lanes.now ≡ length numbers.now }
    requires serve { All (λ x. Serves (L.lane_shape x)) lanes.now }
    requires seats { map (λ s. seat (L.pass_identity s.pass) (L.pass_shape s.pass) (L.callers s.pass)) desk.old.sessions.items
        ≡ map (λ x. seat (L.identity x) (L.lane_shape x) (part.hand ∷ [])) lanes.now }
    requires at_rest { AllZip (λ number s. IsAtRest number part.hand s) numbers.now desk.old.sessions.items }
    requires put { AllZip (λ n h. HandTried (units_of jobs.now part.hands n part.hand) part.hand h) numbers.now (map (λ s. L.seen s.pass) desk.old.sessions.items) }
    requires replied { HasReplied jobs.now numbers.now part.hand (map (λ s. L.seen s.pass) desk.old.sessions.items) replies.old.items }
    ensures seats { OnOk result (map (λ s. seat (L.pass_identity s.pass) (L.pass_shape s.pass) (L.callers s.pass)) desk.new.sessions.items
        ≡ map (λ x. seat (L.identity x) (L.lane_shape x) (part.hand ∷ [])) lanes.now) }
    ensures at_rest { OnOk result (AllZip (λ number s. IsAtRest number part.hand s) numbers.now desk.new.sessions.items) }
    ensures did { IfOk result (λ work. AtWork work
        (AllZip (λ n h. HandDid (units_of jobs.now part.hands n part.hand) part.batch part.hand h) numbers.now (map (λ s. L.seen s.pass) desk.new.sessions.items))
        (HandStopped numbers.now jobs.now part.hands part.hand (map (λ s. L.seen s.pass) desk.new.sessions.items))) }
    ensures replied { OnOk result (HasReplied jobs.now numbers.now part.hand (map (λ s. L.seen s.pass) desk.new.sessions.items) replies.new.items) }
{
    for k in 0..numbers.len() {
        let work = drain_next(alloc, jobs, lanes, numbers, part, desk, k, gate, replies)?;
        match work {
            Work::Done => {}
            Work::Spent => return Ok(Work::Spent),
        }
    }
    Ok(Work::Done)
}

// Puts the units of the hand, and then takes what is left.
fn work_through<L: Lane, G: Gate>(
    alloc: Global,
    jobs: &JobFile,
    lanes: &[L],
    numbers: &[u32],
    part: Part,
    desk: &mut Desk<L>,
    gate: &G,
    replies: &mut Vec<Reply>,
) -> Result<Work, OutOfMemory>
    requires hands { 1 ≤ part.hands }
    requires batch { (1 ≤ part.batch) × (part.batch ≤ 256) }
    requires rise { Climbs numbers.now }
    requires known { All (λ unit. Contains numbers.now unit.lane) jobs.now }
    requires one_lane_each { length lanes.now ≡ length numbers.now }
    requires serve { All (λ x. Serves (L.lane_shape x)) lanes.now }
    requires seats { map (λ s. seat (L.pass_identity s.pass) (L.pass_shape s.pass) (L.callers s.pass)) desk.old.sessions.items
        ≡ map (λ x. seat (L.identity x) (L.lane_shape x) (part.hand ∷ [])) lanes.now }
    requires at_rest { AllZip (λ number s. IsAtRest number part.hand s) numbers.now desk.old.sessions.items }
    requires nothing_put { AllZip (λ n h. HandTried [] part.hand h) numbers.now (map (λ s. L.seen s.pass) desk.old.sessions.items) }
    requires nothing_caught { HasReplied jobs.now numbers.now part.hand (map (λ s. L.seen s.pass) desk.old.sessions.items) replies.old.items }
    ensures seats { OnOk result (map (λ s. seat (L.pass_identity s.pass) (L.pass_shape s.pass) (L.callers s.pass)) desk.new.sessions.items
        ≡ map (λ x. seat (L.identity x) (L.lane_shape x) (part.hand ∷ [])) lanes.now) }
    ensures at_rest { OnOk result (AllZip (λ number s. IsAtRest number part.hand s) numbers.now desk.new.sessions.items) }
    ensures did { IfOk result (λ work. AtWork work
        (AllZip (λ n h. HandDid (units_of jobs.now part.hands n part.hand) part.batch part.hand h) numbers.now (map (λ s. L.seen s.pass) desk.new.sessions.items))
        (HandStopped numbers.now jobs.now part.hands part.hand (map (λ s. L.seen s.pass) desk.new.sessions.items))) }
    ensures replied { OnOk result (HasReplied jobs.now numbers.now part.hand (map (λ s. L.seen s.pass) desk.new.sessions.items) replies.new.items) }
{
    match put_units(alloc, jobs, lanes, numbers, part, desk, gate, replies)? {
        Work::Done => drain_lanes(alloc, jobs, lanes, numbers, part, desk, gate, replies),
        Work::Spent => Ok(Work::Spent),
    }
}

/// What a hand hands back.
#[derive(Drop)]
pub struct HandRun<L: Lane> {
    /// Its desk, for the books.
    pub desk: Desk<L>,
    /// Its replies, in the order in which it made them.
    pub replies: Vec<Reply>,
    /// Whether it did all that was its.
    pub work: Work,
}

/// Does all that is one hand's.
pub fn run_hand<L: Lane, G: Gate>(
    alloc: Global,
    jobs: &JobFile,
    lanes: &[L],
    numbers: &[u32],
    part: Part,
    mut desk: Desk<L>,
    gate: &G,
) -> Result<HandRun<L>, OutOfMemory>
    requires hands { 1 ≤ part.hands }
    requires batch { (1 ≤ part.batch) × (part.batch ≤ 256) }
    requires rise { Climbs numbers.now }
    requires known { All (λ unit. Contains numbers.now unit.lane) jobs.now }
    requires one_lane_each { length lanes.now ≡ length numbers.now }
    requires serve { All (λ x. Serves (L.lane_shape x)) lanes.now }
    requires seats { map (λ s. seat (L.pass_identity s.pass) (L.pass_shape s.pass) (L.callers s.pass)) desk.sessions.items
        ≡ map (λ x. seat (L.identity x) (L.lane_shape x) (part.hand ∷ [])) lanes.now }
    requires at_rest { AllZip (λ number s. IsAtRest number part.hand s) numbers.now desk.sessions.items }
    requires nothing_seen { All (λ s. L.seen s.pass ≡ []) desk.sessions.items }
    ensures seats { IfOk result (λ run. map (λ s. seat (L.pass_identity s.pass) (L.pass_shape s.pass) (L.callers s.pass)) run.desk.sessions.items
        ≡ map (λ x. seat (L.identity x) (L.lane_shape x) (part.hand ∷ [])) lanes.now) }
    ensures at_rest { IfOk result (λ run. AllZip (λ number s. IsAtRest number part.hand s) numbers.now run.desk.sessions.items) }
    ensures ran { IfOk result (λ run. AtWork run.work
        (HandRan numbers.now jobs.now part.hands part.batch part.hand (map (λ s. L.seen s.pass) run.desk.sessions.items) run.replies.items)
        (HandStopped numbers.now jobs.now part.hands part.hand (map (λ s. L.seen s.pass) run.desk.sessions.items))) }
{
    let mut replies = Vec::new(alloc);
    let work = work_through(
        alloc,
        jobs,
        lanes,
        numbers,
        part,
        &mut desk,
        gate,
        &mut replies,
    )?;
    Ok(HandRun {
        desk,
        replies,
        work,
    })
}
