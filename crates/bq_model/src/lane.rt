// What every queue of this project promises to those who use it.
ghost use Rattle.std.specs.Prelude.{◌≡◌, ◌≢◌, ◌↔◌, ◌<◌, ◌≤◌, ℕ, List, [], ◌∷◌, ◌++◌, length, map, All, Contains, IfOk, IsErrOf, OnOk, OnErr};
ghost use Rattle.std.specs.List.{range_with_len};
ghost use Rattle.bq_model.specs.declared.op.Op.{Op};
ghost use Rattle.bq_model.specs.declared.op.Answer.{Answer};
ghost use Rattle.bq_model.specs.declared.group.Group.{Group};
ghost use Rattle.bq_model.specs.declared.shape.Shape.{Shape};
ghost use Rattle.bq_model.specs.History.{operations};
ghost use Rattle.bq_model.specs.Own.{mine};
ghost use Rattle.bq_model.specs.NoShut.{NoShut, NeverShut};
ghost use Rattle.bq_model.specs.Proper.{IsProper};
ghost use Rattle.bq_model.specs.Grows.{the_caller, Grew, SawMore, AtSomePoint};
ghost use Rattle.bq_model.specs.Rooms.{PassesAllowance, PassesRoom};
ghost use Rattle.bq_model.specs.Values.{enqueued};

use crate::batch::Batch;
use crate::bounded::Answers;
use crate::error::{OutOfMemory, Refusal};
use crate::op::Answer;
use crate::shape::Shape;
use std::alloc::Global;

/// A queue that several callers share. Nothing shuts it.
///
/// Each call returns, whatever the other callers do or leave undone: it waits for nobody.
///
/// A caller uses it through a pass, which knows the history as far as its callers have seen it. The histories that
/// the passes of a lane have seen are beginnings of one history, in which each call stands as one group.
pub trait Lane: Send + Sync + Drop {
    /// What one caller or several keep of a lane between their calls.
    type Pass: Send + Drop;
    /// The whole history of a lane that was closed.
    type Book: Send + Drop;

    // What tells one lane from another.
    ghost Identity: { Type 0 };

    ghost identity: { Self → Identity };

    ghost lane_shape: { Self → Shape };

    // Of a pass: its lane, and that lane's shape; the callers that it holds, and the history that these have seen.
    ghost pass_identity: { Self.Pass → Identity };

    ghost pass_shape: { Self.Pass → Shape };

    ghost callers: { Self.Pass → List ℕ };

    ghost seen: { Self.Pass → List Group };

    ghost history: { Self.Book → List Group };

    /// An empty lane, and a pass for each of its callers, in the order of their numbers. It takes all memory that
    /// the lane and its passes ever need.
    fn make(alloc: Global, shape: &Shape) -> Result<(Self, Vec<Self::Pass>), OutOfMemory>
        ensures shape { IfOk result (λ made. lane_shape made.0 ≡ shape.now) }
        ensures one_pass_each { IfOk result (λ made. map callers made.1.items ≡ map (λ c. c ∷ []) (range_with_len 0 shape.now.callers)) }
        ensures of_this_lane { IfOk result (λ made. All (λ pass. pass_identity pass ≡ identity made.0) made.1.items) }
        ensures of_this_shape { IfOk result (λ made. All (λ pass. pass_shape pass ≡ shape.now) made.1.items) }
        ensures nothing_seen { IfOk result (λ made. All (λ pass. seen pass ≡ []) made.1.items) };

    /// The caller of a pass that holds one.
    fn caller(pass: &Self::Pass) -> u32
        requires one_caller { length (callers pass.now) ≡ 1 }
        ensures caller { result ≡ the_caller (callers pass.now) }
        ensures known { result < (pass_shape pass.now).callers };

    /// How many operations the caller of a pass has made.
    fn made(pass: &Self::Pass) -> u64
        requires one_caller { length (callers pass.now) ≡ 1 }
        ensures made { result ≡ length (operations (mine (seen pass.now) (the_caller (callers pass.now)))) }
        ensures within_allowance { result ≤ (pass_shape pass.now).allowance };

    /// Makes the operations of a batch, as one group, and puts their answers into `out`.
    fn apply(&self, pass: &mut Self::Pass, batch: &Batch, out: &mut Answers) -> Result<(), Refusal>
        requires of_this_lane { (pass_identity pass.old ≡ identity self.now) × (pass_shape pass.old ≡ lane_shape self.now) }
        requires one_caller { length (callers pass.old) ≡ 1 }
        requires some_operation { batch.now.items ≢ [] }
        requires no_shut { NoShut batch.now.items }
        requires not_too_long { length batch.now.items ≤ (lane_shape self.now).batch }
        requires room_for_answers { length batch.now.items ≤ out.old.capacity }
        ensures ok { OnOk result (Grew (the_caller (callers pass.old)) batch.now.items out.new.items (seen pass.old) (seen pass.new)) }
        ensures refused { OnErr result (SawMore (the_caller (callers pass.old)) (seen pass.old) (seen pass.new)) }
        ensures no_answers_when_refused { OnErr result (out.new.items ≡ []) }
        ensures capacity_stays { out.new.capacity ≡ out.old.capacity }
        ensures spent { IsErrOf result Refusal.Spent ↔ PassesAllowance (lane_shape self.now) (seen pass.old) (the_caller (callers pass.old)) batch.now.items }
        ensures full { IsErrOf result Refusal.Full
            → (0 < length (enqueued batch.now.items)) × AtSomePoint (λ point. PassesRoom (lane_shape self.now) point (the_caller (callers pass.old)) batch.now.items) (seen pass.old) (seen pass.new) }
        ensures proper { IsProper (lane_shape self.now).callers (seen pass.new) }
        ensures never_shut { NeverShut (seen pass.new) }
        ensures pass_stays { (pass_identity pass.new ≡ pass_identity pass.old) × (pass_shape pass.new ≡ pass_shape pass.old) × (callers pass.new ≡ callers pass.old) };

    /// Appends a value.
    fn enqueue(&self, pass: &mut Self::Pass, v: u64) -> Result<(), Refusal>
        requires of_this_lane { (pass_identity pass.old ≡ identity self.now) × (pass_shape pass.old ≡ lane_shape self.now) }
        requires one_caller { length (callers pass.old) ≡ 1 }
        ensures ok { OnOk result (Grew (the_caller (callers pass.old)) (Op.Enq v ∷ []) (Answer.Done ∷ []) (seen pass.old) (seen pass.new)) }
        ensures refused { OnErr result (SawMore (the_caller (callers pass.old)) (seen pass.old) (seen pass.new)) }
        ensures spent { IsErrOf result Refusal.Spent ↔ PassesAllowance (lane_shape self.now) (seen pass.old) (the_caller (callers pass.old)) (Op.Enq v ∷ []) }
        ensures full { IsErrOf result Refusal.Full
            → (0 < length (enqueued (Op.Enq v ∷ []))) × AtSomePoint (λ point. PassesRoom (lane_shape self.now) point (the_caller (callers pass.old)) (Op.Enq v ∷ [])) (seen pass.old) (seen pass.new) }
        ensures proper { IsProper (lane_shape self.now).callers (seen pass.new) }
        ensures never_shut { NeverShut (seen pass.new) }
        ensures pass_stays { (pass_identity pass.new ≡ pass_identity pass.old) × (pass_shape pass.new ≡ pass_shape pass.old) × (callers pass.new ≡ callers pass.old) };

    /// Takes the first value, if there is one. It is never refused with Full.
    fn dequeue(&self, pass: &mut Self::Pass) -> Result<Answer, Refusal>
        requires of_this_lane { (pass_identity pass.old ≡ identity self.now) × (pass_shape pass.old ≡ lane_shape self.now) }
        requires one_caller { length (callers pass.old) ≡ 1 }
        ensures ok { IfOk result (λ answer. Grew (the_caller (callers pass.old)) (Op.Deq ∷ []) (answer ∷ []) (seen pass.old) (seen pass.new)) }
        ensures refused { OnErr result (SawMore (the_caller (callers pass.old)) (seen pass.old) (seen pass.new)) }
        ensures spent { IsErrOf result Refusal.Spent ↔ PassesAllowance (lane_shape self.now) (seen pass.old) (the_caller (callers pass.old)) (Op.Deq ∷ []) }
        ensures never_full { ¬ IsErrOf result Refusal.Full }
        ensures proper { IsProper (lane_shape self.now).callers (seen pass.new) }
        ensures never_shut { NeverShut (seen pass.new) }
        ensures pass_stays { (pass_identity pass.new ≡ pass_identity pass.old) × (pass_shape pass.new ≡ pass_shape pass.old) × (callers pass.new ≡ callers pass.old) };

    /// One pass for the callers of two, which has seen what each of them had seen.
    fn gather(&self, a: Self::Pass, b: Self::Pass) -> Self::Pass
        requires first_of_this_lane { (pass_identity a ≡ identity self.now) × (pass_shape a ≡ lane_shape self.now) }
        requires second_of_this_lane { (pass_identity b ≡ identity self.now) × (pass_shape b ≡ lane_shape self.now) }
        ensures of_this_lane { (pass_identity result ≡ identity self.now) × (pass_shape result ≡ lane_shape self.now) }
        ensures of_both { callers result ≡ callers a ++ callers b }
        ensures goes_on_the_first { (c : ℕ) → Contains (callers a) c → SawMore c (seen a) (seen result) }
        ensures goes_on_the_second { (c : ℕ) → Contains (callers b) c → SawMore c (seen b) (seen result) }
        ensures proper { IsProper (lane_shape self.now).callers (seen result) }
        ensures never_shut { NeverShut (seen result) };

    /// Gives up a lane for its whole history, which the pass that holds every caller has seen.
    fn close(self, pass: Self::Pass) -> Self::Book
        requires of_this_lane { (pass_identity pass ≡ identity self) × (pass_shape pass ≡ lane_shape self) }
        requires every_caller { (c : ℕ) → c < (lane_shape self).callers → Contains (callers pass) c }
        ensures history { history result ≡ seen pass }
        ensures proper { IsProper (lane_shape self).callers (history result) }
        ensures never_shut { NeverShut (history result) };
}
