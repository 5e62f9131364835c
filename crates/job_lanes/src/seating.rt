// A lane's passes are dealt to the desks, and are taken from them again.
ghost use Rattle.std.specs.Prelude.{◌≡◌, ◌<◌, ◌+◌, ℕ, [], ◌∷◌, length, map, All, OnOk, slice_index_or, slice_set};
ghost use Rattle.std.specs.List.{range_with_len, AllZip};
ghost use Rattle.bq_model.specs.Grows.{SawMore};
ghost use Rattle.bq_model.specs.NoShut.{NeverShut};
ghost use Rattle.bq_model.specs.Proper.{IsProper};
ghost use Rattle.job_lanes.specs.Seats.{seat};
ghost use Rattle.job_lanes.specs.Rest.{IsAtRest};
ghost use Rattle.job_lanes.specs.Rows.{AtEach, Longer, Ends};

use crate::desk::Desk;
use bq_model::{Lane, OutOfMemory};
use bq_session::Session;
use std::alloc::Global;

/// The most operations of a batch, and the most tickets of a session.
const MOST: u32 = 256;

/// Gives each desk a session on the lane of these passes.
pub fn seat_all<L: Lane>(
    alloc: Global,
    number: u32,
    lane: &L,
    mut passes: Vec<L::Pass>,
    desks: &mut Vec<Desk<L>>,
) -> Result<(), OutOfMemory>
    requires one_each { length desks.old.items ≡ length passes.items }
    requires callers { map L.callers passes.items ≡ map (λ c. c ∷ []) (range_with_len 0 (length passes.items)) }
    requires of_this_lane { All (λ pass. L.pass_identity pass ≡ L.identity lane.now) passes.items }
    requires of_this_shape { All (λ pass. L.pass_shape pass ≡ L.lane_shape lane.now) passes.items }
    requires nothing_seen { All (λ pass. L.seen pass ≡ []) passes.items }
    requires batch { (L.lane_shape lane.now).batch ≡ 256 }
    ensures seated { OnOk result (AtEach (λ c old new. Longer
        (λ s. (seat (L.pass_identity s.pass) (L.pass_shape s.pass) (L.callers s.pass) ≡ seat (L.identity lane.now) (L.lane_shape lane.now) (c ∷ []))
        × (L.seen s.pass ≡ []) × IsAtRest number c s)
        new.sessions.items old.sessions.items) 0 desks.old.items desks.new.items) }
{
    while let Some(pass) = passes.pop() {
        let session = Session::new(alloc, number, pass, MOST, MOST)?;
        let desk = &mut desks[passes.len()];
        desk.sessions.push(session)?;
    }
    Ok(())
}

// Ends the last session of a desk, on which nothing is pending.
fn end_last<L: Lane>(desks: &mut Vec<Desk<L>>, at: usize) -> L::Pass
    requires within { at < length desks.old.items }
    requires nothing_pending { (d : _) → Ends (λ s. s.pending ≡ []) (slice_index_or desks.old.items at d).sessions.items }
    ensures taken { (desk : _) × (desks.new.items ≡ slice_set desks.old.items at desk)
        × ((d : _) → Longer (λ s. s.pass ≡ result) (slice_index_or desks.old.items at d).sessions.items desk.sessions.items) }
{
    let desk = &mut desks[at];
    match desk.sessions.pop() {
        Some(session) => match session.end() {
            Ok(pass) => pass,
            Err(_) => unreachable!(),
        },
        None => unreachable!(),
    }
}

/// Closes a lane, on which each desk has its last session.
pub fn close_last<L: Lane>(lane: L, desks: &mut Vec<Desk<L>>) -> L::Book
    requires some { 0 < length desks.old.items }
    requires callers { (L.lane_shape lane).callers ≡ length desks.old.items }
    requires seated { AllZip (λ c desk. Ends
        (λ s. (seat (L.pass_identity s.pass) (L.pass_shape s.pass) (L.callers s.pass) ≡ seat (L.identity lane) (L.lane_shape lane) (c ∷ []))
        × (s.pending ≡ [])) desk.sessions.items) (range_with_len 0 (length desks.old.items)) desks.old.items }
    ensures begun { AtEach (λ c old new. Longer (λ s. SawMore c (L.seen s.pass) (L.history result)) old.sessions.items new.sessions.items) 0 desks.old.items desks.new.items }
    ensures proper { IsProper (length desks.old.items) (L.history result) }
    ensures never_shut { NeverShut (L.history result) }
{
    let mut at = desks.len() - 1;
    let mut all = end_last(desks, at);
    while at > 0 {
        at -= 1;
        let pass = end_last(desks, at);
        all = lane.gather(pass, all);
    }
    lane.close(all)
}
