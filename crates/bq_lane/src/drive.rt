// A command on the table, step by step: the machine's points, each made on the table's words, until the command ends. One
// general step serves all points, so a new kind of step costs nothing here.
ghost use Rattle.std.specs.Prelude.{◌≡◌, ℕ, ◌<◌, ◌≤◌, [], ◌∷◌, length};
ghost use Rattle.bq_model.specs.Values.{enqueued};
ghost use Rattle.lane_steps.specs.Answers.{closing_answers};
ghost use Rattle.lane_steps.specs.Close.{is_done};
ghost use Rattle.lane_steps.specs.Functions.{Distinct};
ghost use Rattle.lane_steps.specs.declared.point.Point.TheVariants.{Dequeue};
ghost use Rattle.lane_steps.specs.declared.point.DequeuePoint.TheVariants.{LoadHead};
ghost use Rattle.lane_rule.specs.Plays.{IsIdle};
ghost use Rattle.bq_lane.specs.Applied.{Called};
ghost use Rattle.lane_course.specs.Running.{Agrees, Running, Ended, IsNext, begun_seat};
ghost use Rattle.lane_course.specs.Scratch.{Reserves, SameRoom, SamePuts};

use crate::seek::seek;
use batch_ways::{announce_alone, fill_first, fill_from, install, stop_from};
use bq_model::{Answers, Op, Shape};
use excess_count::pair;
use help_ways::{
    dequeue_many, dequeue_many_first, dequeue_many_on, help_found, help_on, read_answers,
};
use lane_course::{Next, Scratch, follow};
use lane_rule::{Command, Token, Words, first_step, step};
use lane_steps::{
    AnswerPoint, BatchPoint, Closing, DequeuePoint, EnqueuePoint, GuardPoint, Guarding, HelpPoint,
    Item, ManyPoint, Point, TakePoint, Taking,
};
use plain_ways::{dequeue_first, dequeue_on, finish_at, link, put_first, put_into};
use std::marker::Brand;
use word_rows::AnnField;

// The next step of the running command, or all those of the way that it is on.
fn advance(
    words: &Words,
    shape: &Shape,
    caller: u32,
    token: &mut Token,
    point: Point,
    scratch: &mut Scratch,
) -> Next
    requires { Running words.now.table_id words.now.key shape.now caller point scratch.old token.old }
    ensures next { IsNext words.now.table_id words.now.key shape.now caller scratch.new token.old token.new result }
    ensures same { SamePuts scratch.old scratch.new }
{
    match point {
        Point::Take(taking, TakePoint::LoadMark { row, left }) => {
            seek(words, shape, caller, token, taking, row, left, scratch)
        }
        Point::Take(Taking::Enqueue(value), TakePoint::ClearMark { row }) => {
            let mut goes = point;
            let item = Item { row, value };
            let end = put_into(words, shape, caller, token, item, &mut goes, scratch);
            Next::of(end, goes)
        }
        Point::Take(Taking::Batch(notice, value), TakePoint::ClearMark { row }) => {
            fill_from(words, shape, caller, token, notice, value, row, scratch)
        }
        Point::Take(Taking::Stopper(notice), TakePoint::ClearMark { row }) => {
            stop_from(words, shape, caller, token, notice, row, scratch)
        }
        Point::Enqueue(item, EnqueuePoint::LoadTail) => {
            let mut goes = point;
            let end = link(words, shape, caller, token, item, &mut goes, scratch);
            Next::of(end, goes)
        }
        Point::Dequeue(DequeuePoint::LoadHead) => {
            let mut goes = point;
            let end = dequeue_on(words, shape, caller, token, &mut goes, scratch);
            Next::of(end, goes)
        }
        Point::Close(closing, point) => {
            finish_at(words, shape, caller, token, closing, point, scratch);
            Next::Ends(closing)
        }
        Point::Guard(Guarding::Help(help), GuardPoint::StoreHazard) => {
            help_found(words, shape, caller, token, help, scratch)
        }
        Point::Guard(Guarding::Many(plan), GuardPoint::StoreHazard) => {
            dequeue_many(words, shape, caller, token, &plan, scratch)
        }
        Point::Many(plan, ManyPoint::LoadHead) => {
            dequeue_many_on(words, shape, caller, token, &plan, scratch)
        }
        Point::Help(help, HelpPoint::LoadTail) => {
            help_on(words, shape, caller, token, &help, scratch)
        }
        Point::Answer(AnswerPoint::LoadOldTail(help)) => {
            read_answers(words, shape, caller, token, &help, scratch)
        }
        Point::Batch(draft, BatchPoint::LoadHead) if 0 < draft.notice.counts.enqs => {
            install(words, shape, caller, token, draft, scratch)
        }
        Point::Batch(draft, BatchPoint::StoreAll(AnnField::OldHead))
            if draft.notice.counts.enqs == 0 => {
            announce_alone(words, shape, caller, token, &draft, scratch)
        }
        _ => {
            let found = step(words, shape, caller, token, point);
            follow(shape, caller, point, found, scratch)
        }
    }
}

// The start of a command that begins at this point, with its first step.
fn begin_step<C: Command>(
    words: &Words,
    shape: &Shape,
    caller: u32,
    token: &mut Token,
    point: Point,
    ops: &[Op],
    scratch: &mut Scratch,
) -> Next
    requires command { C.ops ≡ ops.now }
    requires idle { IsIdle words.now.table_id words.now.key shape.now caller C.ops point token.old }
    requires known { caller < shape.now.callers }
    requires puts { scratch.old.puts.items ≡ enqueued C.ops }
    requires agrees { (n : ℕ) → Agrees (begun_seat token.old n C.ops).me.0.kept scratch.old }
    requires reserves { Reserves shape.now scratch.old }
    requires few { length token.old.me.0.kept.retired < shape.now.callers }
    requires apart { Distinct token.old.me.0.kept.retired }
    ensures next { (n : ℕ) × (length token.old.me.0.seen ≤ n)
        × IsNext words.now.table_id words.now.key shape.now caller scratch.new (begun_seat token.old n C.ops) token.new result }
    ensures same { SamePuts scratch.old scratch.new }
{
    let found = first_step::<C>(words, shape, caller, token, point);
    follow(shape, caller, point, found, scratch)
}

// The same, with all steps of the way that it is on.
fn begin<C: Command>(
    words: &Words,
    shape: &Shape,
    caller: u32,
    token: &mut Token,
    point: Point,
    ops: &[Op],
    scratch: &mut Scratch,
) -> Next
    requires command { C.ops ≡ ops.now }
    requires idle { IsIdle words.now.table_id words.now.key shape.now caller C.ops point token.old }
    requires known { caller < shape.now.callers }
    requires puts { scratch.old.puts.items ≡ enqueued C.ops }
    requires agrees { (n : ℕ) → Agrees (begun_seat token.old n C.ops).me.0.kept scratch.old }
    requires reserves { Reserves shape.now scratch.old }
    requires few { length token.old.me.0.kept.retired < shape.now.callers }
    requires apart { Distinct token.old.me.0.kept.retired }
    ensures next { (n : ℕ) × (length token.old.me.0.seen ≤ n)
        × IsNext words.now.table_id words.now.key shape.now caller scratch.new (begun_seat token.old n C.ops) token.new result }
    ensures same { SamePuts scratch.old scratch.new }
{
    match point {
        Point::Take(Taking::Enqueue(value), TakePoint::LoadMark { row, left }) => {
            let mut goes = point;
            let end = put_first::<C>(
                words, shape, caller, token, value, row, left, &mut goes, scratch,
            );
            Next::of(end, goes)
        }
        Point::Take(Taking::Batch(notice, value), TakePoint::LoadMark { row, left }) => {
            fill_first::<C>(
                words, shape, caller, token, notice, value, row, left, scratch,
            )
        }
        Point::Dequeue(DequeuePoint::LoadHead) => {
            let mut goes = point;
            let end = dequeue_first::<C>(words, shape, caller, token, &mut goes, scratch);
            Next::of(end, goes)
        }
        Point::Many(plan, ManyPoint::LoadHead) => {
            dequeue_many_first::<C>(words, shape, caller, token, &plan, scratch)
        }
        _ => begin_step::<C>(words, shape, caller, token, point, ops, scratch),
    }
}

/// Writes the answers of a command of these operations that has ended so, in place of what `out` had. Gives whether it was done.
pub fn answer(closing: Closing, ops: &[Op], values: &[u64], out: &mut Answers) -> bool
    requires room { (0 < out.old.capacity) × (length ops.now ≤ out.old.capacity) }
    ensures done { result ≡ is_done closing }
    ensures answers { out.new.items ≡ closing_answers ops.now values.now closing }
    ensures capacity { out.new.capacity ≡ out.old.capacity }
{
    match closing {
        Closing::Plain(answer) => {
            out.clear();
            out.push(answer);
            true
        }
        Closing::Batch(queued) => {
            pair(ops, queued, values, out);
            true
        }
        Closing::Full => {
            out.clear();
            false
        }
    }
}

/// The running command, step by step to its end. Gives whether it was done. Each step leaves less of it: the rank of the lane
/// has risen, or fewer steps are left until it ends or begins again.
pub fn drive(
    words: &Words,
    shape: &Shape,
    caller: u32,
    token: &mut Token,
    first: Point,
    ops: &[Op],
    scratch: &mut Scratch,
    out: &mut Answers,
) -> bool
    requires runs { Running words.now.table_id words.now.key shape.now caller first scratch.old token.old }
    requires ops { ops.now ≡ token.old.me.0.kept.ops }
    requires room { (0 < out.old.capacity) × (length ops.now ≤ out.old.capacity) }
    ensures ends { Ended token.old ops.now out.new.items scratch.new token.new result }
    ensures out { out.new.capacity ≡ out.old.capacity }
    ensures room { SameRoom scratch.old scratch.new }
{
    let mut point = first;
    'steps: loop {
        match advance(words, shape, caller, token, point, scratch) {
            Next::Goes(next) => point = next,
            Next::Ends(closing) => return answer(closing, ops, scratch.values.as_slice(), out),
        }
    }
}

/// A whole command of an idle caller, which begins at this point. Gives whether it was done.
pub fn perform(
    words: &Words,
    shape: &Shape,
    caller: u32,
    token: &mut Token,
    first: Point,
    ops: &[Op],
    scratch: &mut Scratch,
    out: &mut Answers,
) -> bool
    requires idle { IsIdle words.now.table_id words.now.key shape.now caller ops.now first token.old }
    requires known { caller < shape.now.callers }
    requires puts { scratch.old.puts.items ≡ enqueued ops.now }
    requires agrees { (n : ℕ) → Agrees (begun_seat token.old n ops.now).me.0.kept scratch.old }
    requires reserves { Reserves shape.now scratch.old }
    requires few { length token.old.me.0.kept.retired < shape.now.callers }
    requires apart { Distinct token.old.me.0.kept.retired }
    requires room { (0 < out.old.capacity) × (length ops.now ≤ out.old.capacity) }
    ensures called { Called token.old ops.now out.new.items scratch.new token.new result }
    ensures out { out.new.capacity ≡ out.old.capacity }
    ensures room { SameRoom scratch.old scratch.new }
{
    match begin::<Brand>(words, shape, caller, token, first, ops, scratch) {
        Next::Goes(point) => drive(words, shape, caller, token, point, ops, scratch, out),
        Next::Ends(closing) => answer(closing, ops, scratch.values.as_slice(), out),
    }
}

/// A dequeue of an idle caller, as a whole command. Gives whether it was done.
pub fn perform_dequeue(
    words: &Words,
    shape: &Shape,
    caller: u32,
    token: &mut Token,
    scratch: &mut Scratch,
    out: &mut Answers,
) -> bool
    requires idle { IsIdle words.now.table_id words.now.key shape.now caller (Op.Deq ∷ []) (Dequeue LoadHead) token.old }
    requires known { caller < shape.now.callers }
    requires puts { scratch.old.puts.items ≡ [] }
    requires agrees { (n : ℕ) → Agrees (begun_seat token.old n (Op.Deq ∷ [])).me.0.kept scratch.old }
    requires reserves { Reserves shape.now scratch.old }
    requires few { length token.old.me.0.kept.retired < shape.now.callers }
    requires apart { Distinct token.old.me.0.kept.retired }
    requires room { 1 ≤ out.old.capacity }
    ensures called { Called token.old (Op.Deq ∷ []) out.new.items scratch.new token.new result }
    ensures out { out.new.capacity ≡ out.old.capacity }
    ensures room { SameRoom scratch.old scratch.new }
{
    let ops = [Op::Deq];
    let mut goes = Point::Idle;
    match dequeue_first::<Brand>(words, shape, caller, token, &mut goes, scratch) {
        None => drive(words, shape, caller, token, goes, &ops, scratch, out),
        Some(closing) => answer(closing, &ops, scratch.values.as_slice(), out),
    }
}
