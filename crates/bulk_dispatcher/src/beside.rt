// Hands beside each other, each in a thread of its own.
ghost use Rattle.std.specs.Prelude.{◌≡◌, ◌≤◌, ◌<◌, ℕ, [], ◌∷◌, length, map, All, Contains, IfOk};
ghost use Rattle.std.specs.List.{AllZip, range_with_len};
ghost use Rattle.std.specs.Thread.{IsSync};
ghost use Rattle.job_lanes.specs.Seats.{seat};
ghost use Rattle.job_lanes.specs.Rest.{IsAtRest};
ghost use Rattle.bulk_dispatcher.specs.Books.{Climbs};
ghost use Rattle.bulk_dispatcher.specs.Hands.{HandRan};
ghost use Rattle.bulk_dispatcher.specs.Stops.{Serves, HandStopped, AtWork};

use crate::gate::Gate;
use crate::hand::{HandRun, Part, run_hand};
use bq_model::{Lane, OutOfMemory};
use job_lanes::Desk;
use job_text::JobFile;
use std::alloc::Global;
use std::thread::{Threads, join};

/// Runs as many hands as there are desks, and hands back what each of them did, in order.
#[cycle(hands)]
pub fn run_beside<L: Lane, G: Gate, R: Threads + Sync>(
    rt: &R,
    alloc: Global,
    jobs: &JobFile,
    lanes: &[L],
    numbers: &[u32],
    hands: u32,
    batch: u32,
    mut desks: Vec<Desk<L>>,
    gate: &G,
) -> Result<Vec<HandRun<L>>, OutOfMemory>
    requires few { length desks.items ≤ 16 }
    requires hands { 1 ≤ hands }
    requires batch { (1 ≤ batch) × (batch ≤ 256) }
    requires rise { Climbs numbers.now }
    requires known { All (λ unit. Contains numbers.now unit.lane) jobs.now }
    requires one_lane_each { length lanes.now ≡ length numbers.now }
    requires serve { All (λ x. Serves (L.lane_shape x)) lanes.now }
    requires seated { AllZip (λ c desk. (map (λ s. seat (L.pass_identity s.pass) (L.pass_shape s.pass) (L.callers s.pass)) desk.sessions.items ≡ map (λ x. seat (L.identity x) (L.lane_shape x) (c ∷ [])) lanes.now)
        × AllZip (λ number s. IsAtRest number c s) numbers.now desk.sessions.items
        × All (λ s. L.seen s.pass ≡ []) desk.sessions.items) (range_with_len 0 (length desks.items)) desks.items }
    ensures all { IfOk result (λ runs. length runs.items ≡ length desks.items) }
    ensures ran { IfOk result (λ runs. AllZip (λ c run. (map (λ s. seat (L.pass_identity s.pass) (L.pass_shape s.pass) (L.callers s.pass)) run.desk.sessions.items ≡ map (λ x. seat (L.identity x) (L.lane_shape x) (c ∷ [])) lanes.now)
        × AllZip (λ number s. IsAtRest number c s) numbers.now run.desk.sessions.items
        × AtWork run.work (HandRan numbers.now jobs.now hands batch c (map (λ s. L.seen s.pass) run.desk.sessions.items) run.replies.items) (HandStopped numbers.now jobs.now hands c (map (λ s. L.seen s.pass) run.desk.sessions.items))) (range_with_len 0 (length runs.items)) runs.items) }
{
    let Some(desk) = desks.pop() else {
        return Ok(Vec::new(alloc));
    };
    let part = Part {
        hands,
        hand: desks.len() as u32,
        batch,
    };
    let (run, runs) = join(
        rt,
        move || -> Result<HandRun<L>, OutOfMemory>
            requires { (1 ≤ part.hands) × ((1 ≤ part.batch) × (part.batch ≤ 256)) × Climbs numbers.now
                × All (λ unit. Contains numbers.now unit.lane) jobs.now × (length lanes.now ≡ length numbers.now) × All (λ x. Serves (L.lane_shape x)) lanes.now
                × (map (λ s. seat (L.pass_identity s.pass) (L.pass_shape s.pass) (L.callers s.pass)) desk.sessions.items ≡ map (λ x. seat (L.identity x) (L.lane_shape x) (part.hand ∷ [])) lanes.now)
                × AllZip (λ number s. IsAtRest number part.hand s) numbers.now desk.sessions.items
                × All (λ s. L.seen s.pass ≡ []) desk.sessions.items }
            ensures { IfOk result (λ run. (map (λ s. seat (L.pass_identity s.pass) (L.pass_shape s.pass) (L.callers s.pass)) run.desk.sessions.items ≡ map (λ x. seat (L.identity x) (L.lane_shape x) (part.hand ∷ [])) lanes.entry.now)
                × AllZip (λ number s. IsAtRest number part.hand s) numbers.entry.now run.desk.sessions.items
                × AtWork run.work (HandRan numbers.entry.now jobs.entry.now part.hands part.batch part.hand (map (λ s. L.seen s.pass) run.desk.sessions.items) run.replies.items) (HandStopped numbers.entry.now jobs.entry.now part.hands part.hand (map (λ s. L.seen s.pass) run.desk.sessions.items))) }
        { run_hand(alloc, jobs, lanes, numbers, part, desk, gate) },
        move || -> Result<Vec<HandRun<L>>, OutOfMemory>
            requires { IsSync R.row × (length desks.items ≤ 16) × (1 ≤ hands) × ((1 ≤ batch) × (batch ≤ 256)) × Climbs numbers.now
                × All (λ unit. Contains numbers.now unit.lane) jobs.now × (length lanes.now ≡ length numbers.now) × All (λ x. Serves (L.lane_shape x)) lanes.now
                × AllZip (λ c desk. (map (λ s. seat (L.pass_identity s.pass) (L.pass_shape s.pass) (L.callers s.pass)) desk.sessions.items ≡ map (λ x. seat (L.identity x) (L.lane_shape x) (c ∷ [])) lanes.now)
                × AllZip (λ number s. IsAtRest number c s) numbers.now desk.sessions.items
                × All (λ s. L.seen s.pass ≡ []) desk.sessions.items) (range_with_len 0 (length desks.items)) desks.items }
            ensures { IfOk result (λ runs. (length runs.items ≡ length desks.items) × AllZip (λ c run. (map (λ s. seat (L.pass_identity s.pass) (L.pass_shape s.pass) (L.callers s.pass)) run.desk.sessions.items ≡ map (λ x. seat (L.identity x) (L.lane_shape x) (c ∷ [])) lanes.entry.now)
                × AllZip (λ number s. IsAtRest number c s) numbers.entry.now run.desk.sessions.items
                × AtWork run.work (HandRan numbers.entry.now jobs.entry.now hands batch c (map (λ s. L.seen s.pass) run.desk.sessions.items) run.replies.items) (HandStopped numbers.entry.now jobs.entry.now hands c (map (λ s. L.seen s.pass) run.desk.sessions.items))) (range_with_len 0 (length runs.items)) runs.items) }
        { run_beside(rt, alloc, jobs, lanes, numbers, hands, batch, desks, gate) },
    );
    let run = run?;
    let mut runs = runs?;
    runs.push(run)?;
    Ok(runs)
}
