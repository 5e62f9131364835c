// A plain enqueue as a whole call: what it begins with, its steps and its answer.
ghost use Rattle.std.specs.Prelude.{◌≡◌, ℕ, ◌<◌, ◌↔◌, [], ◌∷◌, length, IsErrOf, OnOk, OnErr};
ghost use Rattle.word_rows.specs.Sizes.{words_of};
ghost use Rattle.bq_model.specs.declared.op.Op.{Op};
ghost use Rattle.bq_model.specs.Grows.{the_caller, Grew, SawMore, AtSomePoint};
ghost use Rattle.bq_model.specs.NoShut.{NeverShut};
ghost use Rattle.bq_model.specs.Proper.{IsProper};
ghost use Rattle.bq_model.specs.Rooms.{PassesAllowance, PassesRoom};
ghost use Rattle.bq_model.specs.Values.{enqueued};
ghost use Rattle.lane_steps.specs.Functions.{Distinct};
ghost use Rattle.lane_steps.specs.LaneSizes.{lane_sizes};
ghost use Rattle.lane_steps.specs.Take.{search};
ghost use Rattle.lane_steps.specs.declared.point.Taking.TheVariants as taking;
ghost use Rattle.lane_rule.specs.Plays.{IsIdle};
ghost use Rattle.bq_lane.specs.Applied.{Called};
ghost use Rattle.lane_course.specs.Running.{Agrees, begun_seat};
ghost use Rattle.lane_course.specs.Scratch.{Reserves, SameRoom};

use crate::drive::{answer, drive};
use crate::pass::Seated;
use crate::start::lay_out;
use bq_model::{Answers, Op, Refusal, Shape};
use lane_course::Scratch;
use lane_rule::{Token, Words};
use lane_steps::Point;
use plain_ways::put_first;
use std::marker::Brand;
use word_rows::{item_row, items};

// The whole enqueue of an idle caller. Gives whether it was done.
fn perform_put(
    words: &Words,
    shape: &Shape,
    caller: u32,
    token: &mut Token,
    value: u64,
    scratch: &mut Scratch,
    out: &mut Answers,
) -> bool
    requires idle { IsIdle words.now.table_id words.now.key shape.now caller (Op.Enq value ∷ []) (search (lane_sizes shape.now) caller (taking.Enqueue value)) token.old }
    requires known { caller < shape.now.callers }
    requires puts { scratch.old.puts.items ≡ value ∷ [] }
    requires agrees { (n : ℕ) → Agrees (begun_seat token.old n (Op.Enq value ∷ [])).me.0.kept scratch.old }
    requires reserves { Reserves shape.now scratch.old }
    requires few { length token.old.me.0.kept.retired < shape.now.callers }
    requires apart { Distinct token.old.me.0.kept.retired }
    requires room { 0 < out.old.capacity }
    ensures called { Called token.old (Op.Enq value ∷ []) out.new.items scratch.new token.new result }
    ensures out { out.new.capacity ≡ out.old.capacity }
    ensures room { SameRoom scratch.old scratch.new }
{
    let ops = &[Op::Enq(value)];
    let row = item_row(shape, caller, 0);
    let left = items(shape) - 1;
    let mut goes = Point::Idle;
    match put_first::<Brand>(
        words, shape, caller, token, value, row, left, &mut goes, scratch,
    ) {
        None => drive(words, shape, caller, token, goes, ops, scratch, out),
        Some(closing) => answer(closing, ops, scratch.values.as_slice(), out),
    }
}

/// Makes an enqueue of the seat's one caller as one command.
pub fn enqueue(
    words: &Words,
    shape: &Shape,
    seated: &mut Seated,
    value: u64,
    out: &mut Answers,
) -> Result<(), Refusal>
    requires size { (words.now.key ≡ shape.now) × (words.now.table_id.words ≡ words_of shape.now) }
    requires of_this_lane { (seated.old.table ≡ words.now.table_id) × (seated.old.shape ≡ shape.now) }
    requires one_caller { length seated.old.callers ≡ 1 }
    requires room_for_answers { 0 < out.old.capacity }
    ensures ok { OnOk result (Grew (the_caller seated.old.callers) (Op.Enq value ∷ []) out.new.items seated.old.seen seated.new.seen) }
    ensures refused { OnErr result (SawMore (the_caller seated.old.callers) seated.old.seen seated.new.seen) }
    ensures spent_changes_nothing { IsErrOf result Refusal.Spent → seated.new ≡ seated.old }
    ensures capacity_stays { out.new.capacity ≡ out.old.capacity }
    ensures spent { IsErrOf result Refusal.Spent ↔ PassesAllowance shape.now seated.old.seen (the_caller seated.old.callers) (Op.Enq value ∷ []) }
    ensures full { IsErrOf result Refusal.Full → (0 < length (enqueued (Op.Enq value ∷ []))) × AtSomePoint (λ point. PassesRoom shape.now point (the_caller seated.old.callers) (Op.Enq value ∷ [])) seated.old.seen seated.new.seen }
    ensures proper { IsProper shape.now.callers seated.new.seen }
    ensures never_shut { NeverShut seated.new.seen }
    ensures pass_stays { (seated.new.table ≡ seated.old.table) × (seated.new.shape ≡ seated.old.shape) × (seated.new.callers ≡ seated.old.callers) }
{
    if seated.operated + 1 > shape.allowance() {
        return Err(Refusal::Spent);
    }
    lay_out(&mut seated.scratch, &[Op::Enq(value)]);
    let done = perform_put(
        words,
        shape,
        seated.caller,
        &mut seated.token,
        value,
        &mut seated.scratch,
        out,
    );
    if !done {
        return Err(Refusal::Full);
    }
    seated.batches += 1;
    seated.operated += 1;
    Ok(())
}
