// A lane without locks, with its calls.
ghost use Rattle.std.specs.Prelude.{◌≡◌, ◌≢◌, ◌↔◌, ◌<◌, ◌≤◌, [], ◌∷◌, length, IfOk, IsErrOf, OnOk, OnErr};
ghost use Rattle.atomic_table.specs.Seated.{TableId};
ghost use Rattle.bq_model.specs.declared.op.Op.{Op};
ghost use Rattle.bq_model.specs.declared.op.Answer.{Answer};
ghost use Rattle.bq_model.specs.NoShut.{NoShut, NeverShut};
ghost use Rattle.bq_model.specs.Proper.{IsProper};
ghost use Rattle.bq_model.specs.Grows.{the_caller, Grew, SawMore, AtSomePoint};
ghost use Rattle.bq_model.specs.Rooms.{PassesAllowance, PassesRoom};
ghost use Rattle.bq_model.specs.Values.{enqueued};

use crate::drive::{perform, perform_dequeue};
use crate::enqueue::enqueue;
use crate::make::{make_passes, opening_words};
use crate::pass::{Book, Pass, Seated};
use crate::start::{lay_out, lay_out_nothing};
use atomic_table::Table;
use bq_model::{Answer, Answers, Batch, Lane, Op, OutOfMemory, Refusal, Shape};
use excess_count::count;
use lane_rule::{LaneRule, View};
use lane_steps::first_point;
use std::alloc::Global;
use std::marker::Model;

/// A queue that its callers share without locks, on the words of one table.
#[derive(Drop)]
pub struct BqLane {
    table: Table<u64, View, Shape, LaneRule, Global>,
    shape: Shape,
}

impl Model for BqLane {
    ghost use Rattle.std.specs.Prelude.{◌≡◌};
    ghost use Rattle.word_rows.specs.Sizes.{words_of};
    ghost use Rattle.bq_lane.specs.Pass.{LaneState};

    ghost Value = { LaneState };

    ghost view = { λ l. record { table = l.table.shared.table_id; shape = l.shape } };

    ghost invariant = { λ l. (l.table.shared.key ≡ l.shape) × (l.table.shared.table_id.words ≡ words_of l.shape) };
}

impl BqLane {
    // Makes operations of the seat's one caller as one command.
    fn make_ops(&self, seated: &mut Seated, ops: &[Op], out: &mut Answers) -> Result<(), Refusal>
        requires of_this_lane { (seated.old.table ≡ self.now.table) × (seated.old.shape ≡ self.now.shape) }
        requires one_caller { length seated.old.callers ≡ 1 }
        requires some_operation { ops.now ≢ [] }
        requires no_shut { NoShut ops.now }
        requires not_too_long { length ops.now ≤ self.now.shape.batch }
        requires room_for_answers { length ops.now ≤ out.old.capacity }
        ensures ok { OnOk result (Grew (the_caller seated.old.callers) ops.now out.new.items seated.old.seen seated.new.seen) }
        ensures refused { OnErr result (SawMore (the_caller seated.old.callers) seated.old.seen seated.new.seen) }
        ensures spent_changes_nothing { IsErrOf result Refusal.Spent → seated.new ≡ seated.old }
        ensures no_answers_when_refused { OnErr result (out.new.items ≡ []) }
        ensures capacity_stays { out.new.capacity ≡ out.old.capacity }
        ensures spent { IsErrOf result Refusal.Spent ↔ PassesAllowance self.now.shape seated.old.seen (the_caller seated.old.callers) ops.now }
        ensures full { IsErrOf result Refusal.Full → (0 < length (enqueued ops.now)) × AtSomePoint (λ point. PassesRoom self.now.shape point (the_caller seated.old.callers) ops.now) seated.old.seen seated.new.seen }
        ensures proper { IsProper self.now.shape.callers seated.new.seen }
        ensures never_shut { NeverShut seated.new.seen }
        ensures pass_stays { (seated.new.table ≡ seated.old.table) × (seated.new.shape ≡ seated.old.shape) × (seated.new.callers ≡ seated.old.callers) }
    {
        let operations = ops.len() as u64;
        if seated.operated + operations > self.shape.allowance() {
            out.clear();
            return Err(Refusal::Spent);
        }
        lay_out(&mut seated.scratch, ops);
        let first = first_point(
            &self.shape,
            seated.caller,
            seated.batches,
            ops,
            count(ops),
            seated.scratch.puts.as_slice(),
        );
        let done = perform(
            &self.table.shared,
            &self.shape,
            seated.caller,
            &mut seated.token,
            first,
            ops,
            &mut seated.scratch,
            out,
        );
        if !done {
            return Err(Refusal::Full);
        }
        seated.batches += 1;
        seated.operated += operations;
        Ok(())
    }

    // Makes a dequeue of the seat's one caller.
    fn make_dequeue(&self, seated: &mut Seated, out: &mut Answers) -> Result<(), Refusal>
        requires of_this_lane { (seated.old.table ≡ self.now.table) × (seated.old.shape ≡ self.now.shape) }
        requires one_caller { length seated.old.callers ≡ 1 }
        requires room_for_answers { 1 ≤ out.old.capacity }
        ensures ok { OnOk result (Grew (the_caller seated.old.callers) (Op.Deq ∷ []) out.new.items seated.old.seen seated.new.seen) }
        ensures refused { OnErr result (SawMore (the_caller seated.old.callers) seated.old.seen seated.new.seen) }
        ensures spent_changes_nothing { IsErrOf result Refusal.Spent → seated.new ≡ seated.old }
        ensures capacity_stays { out.new.capacity ≡ out.old.capacity }
        ensures spent { IsErrOf result Refusal.Spent ↔ PassesAllowance self.now.shape seated.old.seen (the_caller seated.old.callers) (Op.Deq ∷ []) }
        ensures never_full { ¬ IsErrOf result Refusal.Full }
        ensures proper { IsProper self.now.shape.callers seated.new.seen }
        ensures never_shut { NeverShut seated.new.seen }
        ensures pass_stays { (seated.new.table ≡ seated.old.table) × (seated.new.shape ≡ seated.old.shape) × (seated.new.callers ≡ seated.old.callers) }
    {
        let operations = 1;
        if seated.operated + operations > self.shape.allowance() {
            return Err(Refusal::Spent);
        }
        lay_out_nothing(&mut seated.scratch);
        let done = perform_dequeue(
            &self.table.shared,
            &self.shape,
            seated.caller,
            &mut seated.token,
            &mut seated.scratch,
            out,
        );
        if done {
            seated.batches += 1;
            seated.operated += operations;
            Ok(())
        } else {
            Err(Refusal::Full)
        }
    }
}

impl Lane for BqLane {
    type Pass = Pass;

    type Book = Book;

    ghost Identity = { TableId };

    ghost identity = { λ lane. lane.table };

    ghost lane_shape = { λ lane. lane.shape };

    ghost pass_identity = { λ pass. pass.table };

    ghost pass_shape = { λ pass. pass.shape };

    ghost callers = { λ pass. pass.callers };

    ghost seen = { λ pass. pass.seen };

    ghost history = { λ book. book };

    fn make(alloc: Global, shape: &Shape) -> Result<(Self, Vec<Pass>), OutOfMemory> {
        let words = opening_words(alloc, shape)?;
        let (table, mut maker) = Table::of_words(alloc, words.as_slice(), shape)?;
        let passes = make_passes(alloc, &table.shared, &mut maker, shape)?;
        Ok((
            BqLane {
                table,
                shape: *shape,
            },
            passes,
        ))
    }

    fn caller(pass: &Pass) -> u32 {
        pass.seated.caller()
    }

    fn made(pass: &Pass) -> u64 {
        pass.seated.made()
    }

    fn apply(&self, pass: &mut Pass, batch: &Batch, out: &mut Answers) -> Result<(), Refusal>
        requires of_this_lane { (pass.old.table ≡ self.now.table) × (pass.old.shape ≡ self.now.shape) }
        requires one_caller { length pass.old.callers ≡ 1 }
        requires some_operation { batch.now.items ≢ [] }
        requires no_shut { NoShut batch.now.items }
        requires not_too_long { length batch.now.items ≤ self.now.shape.batch }
        requires room_for_answers { length batch.now.items ≤ out.old.capacity }
        ensures ok { OnOk result (Grew (the_caller pass.old.callers) batch.now.items out.new.items pass.old.seen pass.new.seen) }
        ensures refused { OnErr result (SawMore (the_caller pass.old.callers) pass.old.seen pass.new.seen) }
        ensures no_answers_when_refused { OnErr result (out.new.items ≡ []) }
        ensures capacity_stays { out.new.capacity ≡ out.old.capacity }
        ensures spent { IsErrOf result Refusal.Spent ↔ PassesAllowance self.now.shape pass.old.seen (the_caller pass.old.callers) batch.now.items }
        ensures full { IsErrOf result Refusal.Full → (0 < length (enqueued batch.now.items)) × AtSomePoint (λ point. PassesRoom self.now.shape point (the_caller pass.old.callers) batch.now.items) pass.old.seen pass.new.seen }
        ensures proper { IsProper self.now.shape.callers pass.new.seen }
        ensures never_shut { NeverShut pass.new.seen }
        ensures pass_stays { (pass.new.table ≡ pass.old.table) × (pass.new.shape ≡ pass.old.shape) × (pass.new.callers ≡ pass.old.callers) }

        // A call that is refused with Spent makes no step.
        ensures spent_changes_nothing { IsErrOf result Refusal.Spent → pass.new ≡ pass.old }
    {
        self.make_ops(&mut pass.seated, batch.as_slice(), out)
    }

    fn enqueue(&self, pass: &mut Pass, v: u64) -> Result<(), Refusal>
        requires of_this_lane { (pass.old.table ≡ self.now.table) × (pass.old.shape ≡ self.now.shape) }
        requires one_caller { length pass.old.callers ≡ 1 }
        ensures ok { OnOk result (Grew (the_caller pass.old.callers) (Op.Enq v ∷ []) (Answer.Done ∷ []) pass.old.seen pass.new.seen) }
        ensures refused { OnErr result (SawMore (the_caller pass.old.callers) pass.old.seen pass.new.seen) }
        ensures spent { IsErrOf result Refusal.Spent ↔ PassesAllowance self.now.shape pass.old.seen (the_caller pass.old.callers) (Op.Enq v ∷ []) }
        ensures full { IsErrOf result Refusal.Full → (0 < length (enqueued (Op.Enq v ∷ []))) × AtSomePoint (λ point. PassesRoom self.now.shape point (the_caller pass.old.callers) (Op.Enq v ∷ [])) pass.old.seen pass.new.seen }
        ensures proper { IsProper self.now.shape.callers pass.new.seen }
        ensures never_shut { NeverShut pass.new.seen }
        ensures pass_stays { (pass.new.table ≡ pass.old.table) × (pass.new.shape ≡ pass.old.shape) × (pass.new.callers ≡ pass.old.callers) }
        ensures spent_changes_nothing { IsErrOf result Refusal.Spent → pass.new ≡ pass.old }
    {
        enqueue(
            &self.table.shared,
            &self.shape,
            &mut pass.seated,
            v,
            &mut pass.answer,
        )
    }

    fn dequeue(&self, pass: &mut Pass) -> Result<Answer, Refusal>
        requires of_this_lane { (pass.old.table ≡ self.now.table) × (pass.old.shape ≡ self.now.shape) }
        requires one_caller { length pass.old.callers ≡ 1 }
        ensures ok { IfOk result (λ answer. Grew (the_caller pass.old.callers) (Op.Deq ∷ []) (answer ∷ []) pass.old.seen pass.new.seen) }
        ensures refused { OnErr result (SawMore (the_caller pass.old.callers) pass.old.seen pass.new.seen) }
        ensures spent { IsErrOf result Refusal.Spent ↔ PassesAllowance self.now.shape pass.old.seen (the_caller pass.old.callers) (Op.Deq ∷ []) }
        ensures never_full { ¬ IsErrOf result Refusal.Full }
        ensures proper { IsProper self.now.shape.callers pass.new.seen }
        ensures never_shut { NeverShut pass.new.seen }
        ensures pass_stays { (pass.new.table ≡ pass.old.table) × (pass.new.shape ≡ pass.old.shape) × (pass.new.callers ≡ pass.old.callers) }
        ensures spent_changes_nothing { IsErrOf result Refusal.Spent → pass.new ≡ pass.old }
    {
        match self.make_dequeue(&mut pass.seated, &mut pass.answer) {
            Ok(()) => Ok(pass.answer.get(0)),
            Err(refusal) => Err(refusal),
        }
    }

    fn gather(&self, a: Pass, b: Pass) -> Pass {
        let Pass { seated, answer } = a;
        let Pass {
            seated: other,
            answer: _,
        } = b;
        Pass {
            seated: seated.gather(&self.table.shared, other),
            answer,
        }
    }

    fn close(self, pass: Pass) -> Book {
        pass.seated.is_never_shut();
        Book::new(pass)
    }
}
