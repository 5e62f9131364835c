//! The lane without locks as a C program calls it: `bq.h` declares these functions.
//!
//! `seat` is the place of one caller at a lane, or of several that were gathered, `seating` makes a lane with its seats,
//! `pass` is what C keeps of a seat, by its `address`, `crossing` has operations and answers as C has them, and `status` what
//! a call answers.
#![tactic(auto)]

ghost use Rattle.std.specs.Prelude.{◌≡◌, ◌≢◌, ◌↔◌, ◌⊎◌, ◌<◌, [], ◌∷◌, true, length, map, All, Any, IfSome};
ghost use Rattle.std.specs.List.{range_with_len};
ghost use Rattle.bq_model.specs.declared.op.Op.{Op};
ghost use Rattle.bq_model.specs.declared.op.Answer.{Answer};
ghost use Rattle.bq_model.specs.History.{operations};
ghost use Rattle.bq_model.specs.Own.{mine};
ghost use Rattle.bq_model.specs.Grows.{the_caller, Grew, SawMore, AtSomePoint};
ghost use Rattle.bq_model.specs.Rooms.{PassesAllowance, PassesRoom};
ghost use Rattle.bq_model.specs.Limits.{InLimits};
ghost use Rattle.bq_c.specs.Crossing.{IsKnown, op_of, Applied};
ghost use Rattle.bq_c.specs.Gathering.{OfOneLane, Gathered, callers_of};

mod address;
mod crossing;
mod pass;
mod seat;
mod seating;
mod status;

use crate::seat::Seat;
use crate::seating::seat_all;
use crate::status::{BAD_ARGUMENT, DONE, IN_USE, NO_MEMORY, NO_PASS};
use bq_model::Shape;
use core::mem::replace_with;
pub use crossing::{BqAnswer, BqOp};
pub use pass::BqPass;
use std::alloc::Global;

// Whether there is a pass among these.
fn some_open(passes: &[BqPass]) -> bool
    ensures some { result ≡ true → Any (λ pass. pass.state ≡ 1) passes.now }
    ensures none { result ≢ true → All (λ pass. pass.state ≢ 1) passes.now }
{
    for pass in passes {
        if pass.is_open() {
            return true;
        }
    }
    false
}

/// Makes a lane, with a pass for each of its callers.
#[unsafe(no_mangle)]
pub extern "C" fn bq_make(
    alloc: Global,
    passes: &mut [BqPass],
    batch: u32,
    room: u32,
    allowance: u64,
) -> u32
    ensures known { (result ≡ 0) ⊎ (result ≡ 4) ⊎ (result ≡ 5) ⊎ (result ≡ 7) }
    ensures bad { (result ≡ 5) ↔ ¬ InLimits (length passes.old) batch room allowance 0 }
    ensures in_use { (result ≡ 7) ↔ (InLimits (length passes.old) batch room allowance 0 × Any (λ pass. pass.state ≡ 1) passes.old) }
    ensures made { result ≡ 0 → All (λ pass. (pass.state ≡ 1) × IfSome pass.address.seat (λ seat. seat.pass.seen ≡ [])) passes.new }
    ensures one_lane { result ≡ 0 → OfOneLane passes.new }
    ensures one_caller_each { result ≡ 0 → map callers_of passes.new ≡ map (λ c. c ∷ []) (range_with_len 0 (length passes.old)) }
    ensures refused_changes_nothing { result ≢ 0 → passes.new ≡ passes.old }
{
    let Ok(callers) = u32::try_from(passes.len()) else {
        return BAD_ARGUMENT;
    };
    let Some(shape) = Shape::new(callers, batch, room, allowance, 0) else {
        return BAD_ARGUMENT;
    };
    if some_open(passes) {
        return IN_USE;
    }
    match seat_all(alloc, &shape, passes) {
        Ok(()) => DONE,
        Err(_) => NO_MEMORY,
    }
}

/// Appends a value.
#[unsafe(no_mangle)]
pub extern "C" fn bq_enqueue(alloc: Global, pass: &mut BqPass, value: u64) -> u32
    ensures no_pass { pass.old.state ≢ 1 → (result ≡ 6) × (pass.new ≡ pass.old) }
    ensures known { pass.old.state ≡ 1 → (result ≡ 0) ⊎ (result ≡ 2) ⊎ (result ≡ 3) ⊎ (result ≡ 8) }
    ensures several { pass.old.state ≡ 1 → IfSome pass.old.address.seat (λ old. (result ≡ 8) ↔ (length old.pass.callers ≢ 1)) }
    ensures several_changes_nothing { result ≡ 8 → pass.new.address.seat ≡ pass.old.address.seat }
    ensures stays_open { pass.old.state ≡ 1 → pass.new.state ≡ 1 }
    ensures same_caller { pass.old.state ≡ 1 → IfSome pass.old.address.seat (λ old. IfSome pass.new.address.seat (λ new.
        (new.pass.table ≡ old.pass.table) × (new.pass.shape ≡ old.pass.shape) × (new.pass.callers ≡ old.pass.callers))) }
    ensures done { result ≡ 0 → IfSome pass.old.address.seat (λ old. IfSome pass.new.address.seat (λ new.
        Grew (the_caller old.pass.callers) (Op.Enq value ∷ []) (Answer.Done ∷ []) old.pass.seen new.pass.seen)) }
    ensures refused { (result ≡ 2) ⊎ (result ≡ 3) → IfSome pass.old.address.seat (λ old. IfSome pass.new.address.seat (λ new.
        SawMore (the_caller old.pass.callers) old.pass.seen new.pass.seen)) }
    ensures full { result ≡ 2 → IfSome pass.old.address.seat (λ old. IfSome pass.new.address.seat (λ new.
        AtSomePoint (λ point. PassesRoom old.pass.shape point (the_caller old.pass.callers) (Op.Enq value ∷ [])) old.pass.seen new.pass.seen)) }
    ensures spent { pass.old.state ≡ 1 → IfSome pass.old.address.seat (λ old.
        (result ≡ 3) ↔ (length old.pass.callers ≡ 1) × PassesAllowance old.pass.shape old.pass.seen (the_caller old.pass.callers) (Op.Enq value ∷ [])) }
{
    match pass.take(alloc) {
        Some(mut seat) => {
            let status = seat.enqueue(value);
            pass.put(seat);
            status
        }
        None => NO_PASS,
    }
}

/// Takes the first value, if there is one.
#[unsafe(no_mangle)]
pub extern "C" fn bq_dequeue(alloc: Global, pass: &mut BqPass, value: &mut u64) -> u32
    ensures no_pass { pass.old.state ≢ 1 → (result ≡ 6) × (pass.new ≡ pass.old) }
    ensures known { pass.old.state ≡ 1 → (result ≡ 0) ⊎ (result ≡ 1) ⊎ (result ≡ 3) ⊎ (result ≡ 8) }
    ensures several { pass.old.state ≡ 1 → IfSome pass.old.address.seat (λ old. (result ≡ 8) ↔ (length old.pass.callers ≢ 1)) }
    ensures several_changes_nothing { result ≡ 8 → pass.new.address.seat ≡ pass.old.address.seat }
    ensures stays_open { pass.old.state ≡ 1 → pass.new.state ≡ 1 }
    ensures same_caller { pass.old.state ≡ 1 → IfSome pass.old.address.seat (λ old. IfSome pass.new.address.seat (λ new.
        (new.pass.table ≡ old.pass.table) × (new.pass.shape ≡ old.pass.shape) × (new.pass.callers ≡ old.pass.callers))) }
    ensures done { result ≡ 0 → IfSome pass.old.address.seat (λ old. IfSome pass.new.address.seat (λ new.
        Grew (the_caller old.pass.callers) (Op.Deq ∷ []) (Answer.Got value.new ∷ []) old.pass.seen new.pass.seen)) }
    ensures empty { result ≡ 1 → IfSome pass.old.address.seat (λ old. IfSome pass.new.address.seat (λ new.
        Grew (the_caller old.pass.callers) (Op.Deq ∷ []) (Answer.Empty ∷ []) old.pass.seen new.pass.seen)) }
    ensures value_stays { result ≢ 0 → value.new ≡ value.old }
    ensures refused { result ≡ 3 → IfSome pass.old.address.seat (λ old. IfSome pass.new.address.seat (λ new.
        SawMore (the_caller old.pass.callers) old.pass.seen new.pass.seen)) }
    ensures spent { pass.old.state ≡ 1 → IfSome pass.old.address.seat (λ old.
        (result ≡ 3) ↔ (length old.pass.callers ≡ 1) × PassesAllowance old.pass.shape old.pass.seen (the_caller old.pass.callers) (Op.Deq ∷ [])) }
{
    match pass.take(alloc) {
        Some(mut seat) => {
            let status = seat.dequeue(value);
            pass.put(seat);
            status
        }
        None => NO_PASS,
    }
}

/// Makes operations as one batch.
#[unsafe(no_mangle)]
pub extern "C" fn bq_apply(
    alloc: Global,
    pass: &mut BqPass,
    ops: &[BqOp],
    answers: &mut [BqAnswer],
) -> u32
    ensures no_pass { pass.old.state ≢ 1 → (result ≡ 6) × (pass.new ≡ pass.old) }
    ensures known { pass.old.state ≡ 1 → (result ≡ 0) ⊎ (result ≡ 2) ⊎ (result ≡ 3) ⊎ (result ≡ 5) ⊎ (result ≡ 8) }
    ensures several { pass.old.state ≡ 1 → IfSome pass.old.address.seat (λ old. (result ≡ 8) ↔ (length old.pass.callers ≢ 1)) }
    ensures several_changes_nothing { result ≡ 8 → pass.new.address.seat ≡ pass.old.address.seat }
    ensures stays_open { pass.old.state ≡ 1 → pass.new.state ≡ 1 }
    ensures same_caller { pass.old.state ≡ 1 → IfSome pass.old.address.seat (λ old. IfSome pass.new.address.seat (λ new.
        (new.pass.table ≡ old.pass.table) × (new.pass.shape ≡ old.pass.shape) × (new.pass.callers ≡ old.pass.callers))) }
    ensures done { result ≡ 0 → IfSome pass.old.address.seat (λ old. IfSome pass.new.address.seat (λ new.
        Applied ops.now answers.new old.pass new.pass)) }
    ensures bad { pass.old.state ≡ 1 → IfSome pass.old.address.seat (λ old.
        (result ≡ 5) ↔ (length old.pass.callers ≡ 1) × ((length ops.now ≡ 0) ⊎ (old.pass.shape.batch < length ops.now) ⊎ (length answers.old ≢ length ops.now) ⊎ ¬ All IsKnown ops.now)) }
    ensures bad_changes_nothing { result ≡ 5 → IfSome pass.old.address.seat (λ old. IfSome pass.new.address.seat (λ new. new.pass ≡ old.pass)) }
    ensures answers_stay { result ≢ 0 → answers.new ≡ answers.old }
    ensures refused { (result ≡ 2) ⊎ (result ≡ 3) → IfSome pass.old.address.seat (λ old. IfSome pass.new.address.seat (λ new.
        SawMore (the_caller old.pass.callers) old.pass.seen new.pass.seen)) }
    ensures full { result ≡ 2 → IfSome pass.old.address.seat (λ old. IfSome pass.new.address.seat (λ new.
        AtSomePoint (λ point. PassesRoom old.pass.shape point (the_caller old.pass.callers) (map op_of ops.now)) old.pass.seen new.pass.seen)) }
    ensures spent { result ≡ 3 → IfSome pass.old.address.seat (λ old.
        PassesAllowance old.pass.shape old.pass.seen (the_caller old.pass.callers) (map op_of ops.now)) }
{
    match pass.take(alloc) {
        Some(mut seat) => {
            let status = seat.apply(ops, answers);
            pass.put(seat);
            status
        }
        None => NO_PASS,
    }
}

/// Tells the number of the pass's caller.
#[unsafe(no_mangle)]
pub extern "C" fn bq_caller(alloc: Global, pass: &mut BqPass, caller: &mut u32) -> u32
    ensures no_pass { (result ≡ 6) ↔ (pass.old.state ≢ 1) }
    ensures known { pass.old.state ≡ 1 → (result ≡ 0) ⊎ (result ≡ 8) }
    ensures several { pass.old.state ≡ 1 → IfSome pass.old.address.seat (λ seat. (result ≡ 8) ↔ (length seat.pass.callers ≢ 1)) }
    ensures caller_stays { result ≢ 0 → caller.new ≡ caller.old }
    ensures caller { result ≡ 0 → IfSome pass.old.address.seat (λ seat. caller.new ≡ the_caller seat.pass.callers) }
    ensures stays { (pass.new.state ≡ pass.old.state) × (pass.new.address.seat ≡ pass.old.address.seat) }
{
    match pass.take(alloc) {
        Some(seat) => {
            let status = seat.tell_caller(caller);
            pass.put(seat);
            status
        }
        None => NO_PASS,
    }
}

/// Tells how many operations the pass's caller has made.
#[unsafe(no_mangle)]
pub extern "C" fn bq_made(alloc: Global, pass: &mut BqPass, made: &mut u64) -> u32
    ensures no_pass { (result ≡ 6) ↔ (pass.old.state ≢ 1) }
    ensures known { pass.old.state ≡ 1 → (result ≡ 0) ⊎ (result ≡ 8) }
    ensures several { pass.old.state ≡ 1 → IfSome pass.old.address.seat (λ seat. (result ≡ 8) ↔ (length seat.pass.callers ≢ 1)) }
    ensures made_stays { result ≢ 0 → made.new ≡ made.old }
    ensures made { result ≡ 0 → IfSome pass.old.address.seat (λ seat. made.new ≡ length (operations (mine seat.pass.seen (the_caller seat.pass.callers)))) }
    ensures stays { (pass.new.state ≡ pass.old.state) × (pass.new.address.seat ≡ pass.old.address.seat) }
{
    match pass.take(alloc) {
        Some(seat) => {
            let status = seat.tell_made(made);
            pass.put(seat);
            status
        }
        None => NO_PASS,
    }
}

// One seat of two, and nothing beside it.
fn gathered(first: Seat, second: Seat) -> (Seat, ())
    requires of_one_lane { (second.pass.table ≡ first.pass.table) × (second.pass.shape ≡ first.pass.shape) }
    ensures { Gathered first.pass second.pass result.0.pass }
{
    (first.gather(second), ())
}

// Takes another seat's callers into the seat.
fn take_in(seat: &mut Seat, other: Seat)
    requires of_one_lane { (other.pass.table ≡ seat.old.pass.table) × (other.pass.shape ≡ seat.old.pass.shape) }
    ensures { Gathered seat.old.pass other.pass seat.new.pass }
{
    replace_with(seat, other, gathered)
}

/// Joins the callers of another pass of the same lane to those of this one. The other is no pass then.
#[unsafe(no_mangle)]
pub extern "C" fn bq_gather(alloc: Global, pass: &mut BqPass, other: &mut BqPass) -> u32
    requires of_one_lane { IfSome pass.old.address.seat (λ first. IfSome other.old.address.seat (λ second.
        (second.pass.table ≡ first.pass.table) × (second.pass.shape ≡ first.pass.shape))) }
    ensures known { (result ≡ 0) ⊎ (result ≡ 6) }
    ensures done { (result ≡ 0) ↔ (pass.old.state ≡ 1) × (other.old.state ≡ 1) }
    ensures gathered { result ≡ 0 → IfSome pass.old.address.seat (λ first. IfSome other.old.address.seat (λ second. IfSome pass.new.address.seat (λ both.
        Gathered first.pass second.pass both.pass))) }
    ensures pass_stays_open { result ≡ 0 → pass.new.state ≡ 1 }
    ensures other_is_closed { result ≡ 0 → other.new.state ≢ 1 }
    ensures refused_changes_nothing { result ≢ 0 → (pass.new ≡ pass.old) × (other.new ≡ other.old) }
{
    if !pass.is_open() || !other.is_open() {
        return NO_PASS;
    }
    match (pass.take(alloc), other.take(alloc)) {
        (Some(mut seat), Some(second)) => {
            take_in(&mut seat, Box::into_inner(second));
            pass.put(seat);
            DONE
        }
        _ => unreachable!(),
    }
}

/// Gives a pass back. With the last pass of a lane its memory is free again.
#[unsafe(no_mangle)]
pub extern "C" fn bq_close(alloc: Global, pass: &mut BqPass) -> u32
    ensures done { (result ≡ 0) ↔ (pass.old.state ≡ 1) }
    ensures no_pass { pass.old.state ≢ 1 → (result ≡ 6) × (pass.new ≡ pass.old) }
    ensures closed { pass.new.state ≢ 1 }
{
    match pass.take(alloc) {
        Some(_) => DONE,
        None => NO_PASS,
    }
}
