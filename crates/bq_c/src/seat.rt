// The place of one caller, or of several that were gathered, at a lane that callers share.
ghost use Rattle.std.specs.Prelude.{◌≡◌, ◌≢◌, ◌↔◌, ◌⊎◌, ◌<◌, ℕ, [], ◌∷◌, ◌++◌, true, length, map, All, Contains, IfOk};
ghost use Rattle.std.specs.Arc.{arc_value};
ghost use Rattle.bq_model.specs.declared.op.Op.{Op};
ghost use Rattle.bq_model.specs.declared.op.Answer.{Answer};
ghost use Rattle.bq_model.specs.History.{operations};
ghost use Rattle.bq_model.specs.Own.{mine};
ghost use Rattle.bq_model.specs.Proper.{IsProper};
ghost use Rattle.bq_model.specs.Grows.{the_caller, Grew, SawMore, AtSomePoint};
ghost use Rattle.bq_model.specs.Rooms.{PassesAllowance, PassesRoom};
ghost use Rattle.bq_c.specs.Crossing.{IsKnown, op_of, Applied};

use crate::crossing::{BqAnswer, BqOp, hand_out, lay_out};
use crate::status::{BAD_ARGUMENT, DONE, EMPTY, SEVERAL, of_refusal};
use bq_lane::{BqLane, Pass};
use bq_model::{Answer, Answers, Batch, Lane, OutOfMemory};
use std::alloc::Global;
use std::sync::Arc;

/// The lane with a pass of it, and memory for a batch.
#[derive(Drop)]
pub struct Seat {
    lane: Arc<BqLane>,
    pass: Pass,
    batch: Batch,
    answers: Answers,
    most: u32,
    // Whether the pass holds one caller: then alone it can make calls.
    alone: bool,
    ghost of_this_lane: { (pass.table ≡ (arc_value lane).table) × (pass.shape ≡ (arc_value lane).shape) },
    ghost some_caller: { 0 < length pass.callers },
    ghost alone_by_itself: { (alone ≡ true) ↔ (length pass.callers ≡ 1) },
    ghost most_of_a_batch: { most ≡ (arc_value lane).shape.batch },
    ghost room: { (batch.capacity ≡ most) × (answers.capacity ≡ most) },
}

impl Seat {
    /// The seat of the caller of this pass.
    pub fn new(alloc: Global, lane: Arc<BqLane>, pass: Pass, most: u32) -> Result<Seat, OutOfMemory>
        requires most { most ≡ (arc_value lane).shape.batch }
        requires of_this_lane { (pass.table ≡ (arc_value lane).table) × (pass.shape ≡ (arc_value lane).shape) }
        requires one_caller { length pass.callers ≡ 1 }
        ensures pass { IfOk result (λ seat. seat.pass ≡ pass) }
        ensures lane { IfOk result (λ seat. arc_value seat.lane ≡ arc_value lane) }
    {
        Ok(Seat {
            batch: Batch::new(alloc, most)?,
            answers: Answers::new(alloc, most)?,
            lane,
            pass,
            most,
            alone: true,
        })
    }

    /// Appends a value.
    pub fn enqueue(&mut self, value: u64) -> u32
        ensures known { (result ≡ 0) ⊎ (result ≡ 2) ⊎ (result ≡ 3) ⊎ (result ≡ 8) }
        ensures several { (result ≡ 8) ↔ (length self.old.pass.callers ≢ 1) }
        ensures several_changes_nothing { result ≡ 8 → self.new ≡ self.old }
        ensures done { result ≡ 0 → Grew (the_caller self.old.pass.callers) (Op.Enq value ∷ []) (Answer.Done ∷ []) self.old.pass.seen self.new.pass.seen }
        ensures refused { (result ≡ 2) ⊎ (result ≡ 3) → SawMore (the_caller self.old.pass.callers) self.old.pass.seen self.new.pass.seen }
        ensures full { result ≡ 2 → AtSomePoint (λ point. PassesRoom self.old.pass.shape point (the_caller self.old.pass.callers) (Op.Enq value ∷ [])) self.old.pass.seen self.new.pass.seen }
        ensures spent { (result ≡ 3) ↔ (length self.old.pass.callers ≡ 1) × PassesAllowance self.old.pass.shape self.old.pass.seen (the_caller self.old.pass.callers) (Op.Enq value ∷ []) }
        ensures same_caller { (self.new.pass.table ≡ self.old.pass.table) × (self.new.pass.shape ≡ self.old.pass.shape) × (self.new.pass.callers ≡ self.old.pass.callers) }
    {
        if !self.alone {
            return SEVERAL;
        }
        match self.lane.enqueue(&mut self.pass, value) {
            Ok(()) => DONE,
            Err(refusal) => of_refusal(refusal),
        }
    }

    /// Takes the first value, if there is one.
    pub fn dequeue(&mut self, value: &mut u64) -> u32
        ensures known { (result ≡ 0) ⊎ (result ≡ 1) ⊎ (result ≡ 3) ⊎ (result ≡ 8) }
        ensures several { (result ≡ 8) ↔ (length self.old.pass.callers ≢ 1) }
        ensures several_changes_nothing { result ≡ 8 → self.new ≡ self.old }
        ensures done { result ≡ 0 → Grew (the_caller self.old.pass.callers) (Op.Deq ∷ []) (Answer.Got value.new ∷ []) self.old.pass.seen self.new.pass.seen }
        ensures empty { result ≡ 1 → Grew (the_caller self.old.pass.callers) (Op.Deq ∷ []) (Answer.Empty ∷ []) self.old.pass.seen self.new.pass.seen }
        ensures spent { (result ≡ 3) ↔ (length self.old.pass.callers ≡ 1) × PassesAllowance self.old.pass.shape self.old.pass.seen (the_caller self.old.pass.callers) (Op.Deq ∷ []) }
        ensures refused { result ≡ 3 → SawMore (the_caller self.old.pass.callers) self.old.pass.seen self.new.pass.seen }
        ensures value_stays { result ≢ 0 → value.new ≡ value.old }
        ensures same_caller { (self.new.pass.table ≡ self.old.pass.table) × (self.new.pass.shape ≡ self.old.pass.shape) × (self.new.pass.callers ≡ self.old.pass.callers) }
    {
        if !self.alone {
            return SEVERAL;
        }
        match self.lane.dequeue(&mut self.pass) {
            Ok(Answer::Got(got)) => {
                *value = got;
                DONE
            }
            Ok(Answer::Empty) => EMPTY,
            Ok(Answer::Done | Answer::Refused) => unreachable!(),
            Err(refusal) => of_refusal(refusal),
        }
    }

    /// Makes the operations as one batch, and writes the answers, each in its place.
    pub fn apply(&mut self, ops: &[BqOp], answers: &mut [BqAnswer]) -> u32
        ensures known { (result ≡ 0) ⊎ (result ≡ 2) ⊎ (result ≡ 3) ⊎ (result ≡ 5) ⊎ (result ≡ 8) }
        ensures several { (result ≡ 8) ↔ (length self.old.pass.callers ≢ 1) }
        ensures several_changes_nothing { result ≡ 8 → self.new ≡ self.old }
        ensures done { result ≡ 0 → Applied ops.now answers.new self.old.pass self.new.pass }
        ensures refused { (result ≡ 2) ⊎ (result ≡ 3) → SawMore (the_caller self.old.pass.callers) self.old.pass.seen self.new.pass.seen }
        ensures full { result ≡ 2 → AtSomePoint (λ point. PassesRoom self.old.pass.shape point (the_caller self.old.pass.callers) (map op_of ops.now)) self.old.pass.seen self.new.pass.seen }
        ensures spent { result ≡ 3 → PassesAllowance self.old.pass.shape self.old.pass.seen (the_caller self.old.pass.callers) (map op_of ops.now) }
        ensures bad { (result ≡ 5) ↔ (length self.old.pass.callers ≡ 1) × ((length ops.now ≡ 0) ⊎ (self.old.pass.shape.batch < length ops.now) ⊎ (length answers.old ≢ length ops.now) ⊎ ¬ All IsKnown ops.now) }
        ensures bad_changes_nothing { result ≡ 5 → self.new.pass ≡ self.old.pass }
        ensures answers_stay { result ≢ 0 → answers.new ≡ answers.old }
        ensures same_caller { (self.new.pass.table ≡ self.old.pass.table) × (self.new.pass.shape ≡ self.old.pass.shape) × (self.new.pass.callers ≡ self.old.pass.callers) }
    {
        if !self.alone {
            return SEVERAL;
        }
        if ops.is_empty() || ops.len() > self.most as usize || answers.len() != ops.len() {
            return BAD_ARGUMENT;
        }
        if !lay_out(&mut self.batch, ops) {
            return BAD_ARGUMENT;
        }
        match self
            .lane
            .apply(&mut self.pass, &self.batch, &mut self.answers)
        {
            Ok(()) => {
                hand_out(self.answers.as_slice(), answers);
                DONE
            }
            Err(refusal) => of_refusal(refusal),
        }
    }

    /// Tells the number of its caller.
    pub fn tell_caller(&self, caller: &mut u32) -> u32
        ensures known { (result ≡ 0) ⊎ (result ≡ 8) }
        ensures several { (result ≡ 8) ↔ (length self.now.pass.callers ≢ 1) }
        ensures caller { result ≡ 0 → caller.new ≡ the_caller self.now.pass.callers }
        ensures caller_stays { result ≢ 0 → caller.new ≡ caller.old }
    {
        if !self.alone {
            return SEVERAL;
        }
        *caller = BqLane::caller(&self.pass);
        DONE
    }

    /// Tells how many operations its caller has made.
    pub fn tell_made(&self, made: &mut u64) -> u32
        ensures known { (result ≡ 0) ⊎ (result ≡ 8) }
        ensures several { (result ≡ 8) ↔ (length self.now.pass.callers ≢ 1) }
        ensures made { result ≡ 0 → made.new ≡ length (operations (mine self.now.pass.seen (the_caller self.now.pass.callers))) }
        ensures made_stays { result ≢ 0 → made.new ≡ made.old }
    {
        if !self.alone {
            return SEVERAL;
        }
        *made = BqLane::made(&self.pass);
        DONE
    }

    /// One seat for the callers of two at one lane, which has seen what each of them had seen.
    pub fn gather(self, other: Seat) -> Seat
        requires of_one_lane { (other.pass.table ≡ self.pass.table) × (other.pass.shape ≡ self.pass.shape) }
        ensures same_lane { (result.pass.table ≡ self.pass.table) × (result.pass.shape ≡ self.pass.shape) }
        ensures of_both { result.pass.callers ≡ self.pass.callers ++ other.pass.callers }
        ensures goes_on_the_first { (c : ℕ) → Contains self.pass.callers c → SawMore c self.pass.seen result.pass.seen }
        ensures goes_on_the_second { (c : ℕ) → Contains other.pass.callers c → SawMore c other.pass.seen result.pass.seen }
        ensures proper { IsProper result.pass.shape.callers result.pass.seen }
    {
        let Seat {
            lane,
            pass,
            batch,
            answers,
            most,
            alone: _,
        } = self;
        let Seat {
            lane: _,
            pass: joined,
            batch: _,
            answers: _,
            most: _,
            alone: _,
        } = other;
        let pass = lane.gather(pass, joined);
        Seat {
            lane,
            pass,
            batch,
            answers,
            most,
            alone: false,
        }
    }
}
