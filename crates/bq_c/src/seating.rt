// A new lane, with a seat for each of its callers.
ghost use Rattle.std.specs.Prelude.{◌≡◌, ◌+◌, [], ◌∷◌, ◌++◌, length, map, reverse, All, IfSome, IfNone, IfOk, OnOk, OnErr};
ghost use Rattle.std.specs.Arc.{arc_value};
ghost use Rattle.std.specs.List.{range_with_len};
ghost use Rattle.bq_c.specs.Gathering.{OneCallerOf, OfOneLane, callers_of};

use crate::pass::BqPass;
use crate::seat::Seat;
use bq_lane::{BqLane, Pass};
use bq_model::{Lane, OutOfMemory, Shape};
use std::alloc::Global;
use std::sync::Arc;

// The last of the passes that are left.
fn last_pass(lane: &Arc<BqLane>, passes: &mut Vec<Pass>) -> Option<Pass>
    requires table { All (λ pass. pass.table ≡ (arc_value lane.now).table) passes.old.items }
    requires shape { All (λ pass. pass.shape ≡ (arc_value lane.now).shape) passes.old.items }
    requires one_caller { All (λ pass. length pass.callers ≡ 1) passes.old.items }
    requires nothing_seen { All (λ pass. pass.seen ≡ []) passes.old.items }
    ensures its_lane { IfSome result (λ pass. (pass.table ≡ (arc_value lane.now).table) × (pass.shape ≡ (arc_value lane.now).shape)) }
    ensures its_caller { IfSome result (λ pass. length pass.callers ≡ 1) }
    ensures table { All (λ pass. pass.table ≡ (arc_value lane.now).table) passes.new.items }
    ensures shape { All (λ pass. pass.shape ≡ (arc_value lane.now).shape) passes.new.items }
    ensures one_caller { All (λ pass. length pass.callers ≡ 1) passes.new.items }
    ensures it_saw_nothing { IfSome result (λ pass. pass.seen ≡ []) }
    ensures nothing_seen { All (λ pass. pass.seen ≡ []) passes.new.items }
    ensures all_taken { IfNone result (passes.old.items ≡ []) }
    ensures one_less { IfSome result (λ _. length passes.new.items + 1 ≡ length passes.old.items) }
    ensures callers { IfSome result (λ pass. map (λ p. p.callers) passes.old.items ≡ map (λ p. p.callers) passes.new.items ++ pass.callers ∷ []) }
{
    let _shared = lane;
    passes.pop()
}

// The seats of these passes, the last one first.
fn seats_of(
    alloc: Global,
    lane: &Arc<BqLane>,
    mut passes: Vec<Pass>,
    most: u32,
) -> Result<Vec<Box<Seat>>, OutOfMemory>
    requires most { most ≡ (arc_value lane.now).shape.batch }
    requires table { All (λ pass. pass.table ≡ (arc_value lane.now).table) passes.items }
    requires shape { All (λ pass. pass.shape ≡ (arc_value lane.now).shape) passes.items }
    requires one_caller { All (λ pass. length pass.callers ≡ 1) passes.items }
    requires nothing_seen { All (λ pass. pass.seen ≡ []) passes.items }
    ensures one_each { IfOk result (λ seats. length seats.items ≡ length passes.items) }
    ensures nothing_seen { IfOk result (λ seats. All (λ seat. seat.value.pass.seen ≡ []) seats.items) }
    ensures callers { IfOk result (λ seats. reverse (map (λ seat. seat.value.pass.callers) seats.items) ≡ map (λ pass. pass.callers) passes.items) }
    ensures of_this_lane { IfOk result (λ seats. All (λ seat. OneCallerOf (arc_value lane.now) seat.value.pass) seats.items) }
{
    let mut seats = Vec::new(alloc);
    while let Some(pass) = last_pass(lane, &mut passes) {
        let seat = Seat::new(alloc, Arc::try_clone(lane)?, pass, most)?;
        seats.push(Box::new(alloc, seat)?)?;
    }
    Ok(seats)
}

// Puts the seats into the passes, the last one first.
fn put_all(lane: &Arc<BqLane>, mut seats: Vec<Box<Seat>>, out: &mut [BqPass])
    requires one_each { length seats.items ≡ length out.old }
    requires nothing_seen { All (λ seat. seat.value.pass.seen ≡ []) seats.items }
    requires of_this_lane { All (λ seat. OneCallerOf (arc_value lane.now) seat.value.pass) seats.items }
    ensures of_this_lane { All (λ pass. IfSome pass.address.seat (λ seat. OneCallerOf (arc_value lane.now) seat.pass)) out.new }
    ensures callers { map callers_of out.new ≡ reverse (map (λ seat. seat.value.pass.callers) seats.items) }
    ensures fresh { All (λ pass. (pass.state ≡ 1) × IfSome pass.address.seat (λ seat. seat.pass.seen ≡ [])) out.new }
{
    let _shared = lane;
    for k in 0..out.len() {
        match seats.pop() {
            Some(seat) => out[k].put(seat),
            None => unreachable!(),
        }
    }
}

/// Makes a lane, and puts the seats of its callers into the passes, in the order of their numbers.
pub fn seat_all(alloc: Global, shape: &Shape, out: &mut [BqPass]) -> Result<(), OutOfMemory>
    requires one_each { length out.old ≡ shape.now.callers }
    ensures ok { OnOk result (All (λ pass. (pass.state ≡ 1) × IfSome pass.address.seat (λ seat. seat.pass.seen ≡ [])) out.new) }
    ensures one_lane { OnOk result (OfOneLane out.new) }
    ensures one_caller_each { OnOk result (map callers_of out.new ≡ map (λ c. c ∷ []) (range_with_len 0 shape.now.callers)) }
    ensures err { OnErr result (out.new ≡ out.old) }
{
    let most = shape.batch();
    let made = BqLane::make(alloc, shape)?;
    let (lane, passes) = made;
    let lane = Arc::new(alloc, lane)?;
    let seats = seats_of(alloc, &lane, passes, most)?;
    put_all(&lane, seats, out);
    Ok(())
}
