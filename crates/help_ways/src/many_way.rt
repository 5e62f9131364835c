// Several dequeues and no enqueue as straight code: one loop over the values behind the dummy, and one exchange of HEAD.
ghost use Rattle.std.specs.Prelude.{◌≡◌, ℕ, ◌<◌, ◌≤◌, length};
ghost use Rattle.bq_model.specs.Values.{enqueued};
ghost use Rattle.lane_steps.specs.Functions.{Distinct};
ghost use Rattle.lane_steps.specs.Many.{on_dummy};
ghost use Rattle.lane_steps.specs.declared.point.Point.TheVariants.{Many, Guard};
ghost use Rattle.lane_steps.specs.declared.point.Guarding.TheVariants as guard;
ghost use Rattle.lane_steps.specs.declared.point.GuardPoint.TheVariants.{StoreHazard};
ghost use Rattle.lane_steps.specs.declared.point.ManyPoint.TheVariants.{LoadHead, LoadDummy, LoadValue, LoadTail, MoveHead};
ghost use Rattle.lane_rule.specs.Plays.{IsIdle};
ghost use Rattle.lane_course.specs.Running.{Agrees, Running, IsNext, begun_seat};
ghost use Rattle.lane_course.specs.Scratch.{Reserves, SamePuts};

use crate::count::{far_behind, is_behind};
use crate::found::{is_dummy, is_same, row_in};
use bq_model::Shape;
use lane_course::{Next, Scratch, follow, forget, remember};
use lane_rule::{Command, Token, Words, exchange, first_load, load, store};
use lane_steps::{
    Closing, GuardPoint, Guarding, Hold, ManyPoint, Plan, Point, head_in, link_in, tail_in,
    value_in,
};
use plain_ways::{finish, finish_rows};
use word_rows::{Content, HeadWord, LinkWord, Location, Place};

// It moves the head over the rows of all its values, to this one.
fn move_head(
    words: &Words,
    shape: &Shape,
    caller: u32,
    token: &mut Token,
    plan: &Plan,
    row: u32,
    scratch: &mut Scratch,
) -> Next
    requires { Running words.now.table_id words.now.key shape.now caller (Many plan.now (MoveHead row)) scratch.old token.old }
    ensures next { IsNext words.now.table_id words.now.key shape.now caller scratch.new token.old token.new result }
    ensures same { SamePuts scratch.old scratch.new }
{
    let dummy = plan.notice.old_head;
    let deqs = plan.notice.counts.deqs;
    let old = Content::OfHead(HeadWord::Node(dummy));
    let new = Content::OfHead(HeadWord::Node(far_behind(dummy, row, deqs)));
    let found = exchange(words, shape, token, Location::Head, old, new);
    if is_dummy(found, dummy) {
        let closing = Closing::Batch(u64::from(deqs));
        finish_rows(words, shape, caller, token, closing, false, dummy, scratch);
        Next::Ends(closing)
    } else {
        let point = Point::Many(*plan, ManyPoint::MoveHead { row });
        follow(shape, caller, point, found, scratch)
    }
}

// It has read all its values, up to this row, and moves the head where the tail isn't before it.
fn pass_tail(
    words: &Words,
    shape: &Shape,
    caller: u32,
    token: &mut Token,
    plan: &Plan,
    row: u32,
    scratch: &mut Scratch,
) -> Next
    requires { Running words.now.table_id words.now.key shape.now caller (Many plan.now (LoadTail row)) scratch.old token.old }
    ensures next { IsNext words.now.table_id words.now.key shape.now caller scratch.new token.old token.new result }
    ensures same { SamePuts scratch.old scratch.new }
{
    let found = load(words, shape, token, Location::Tail);
    if is_behind(plan, tail_in(found)) {
        move_head(words, shape, caller, token, plan, row, scratch)
    } else {
        let point = Point::Many(*plan, ManyPoint::LoadTail { row });
        follow(shape, caller, point, found, scratch)
    }
}

// The values from this row on, so many and one more.
fn walk_values(
    words: &Words,
    shape: &Shape,
    caller: u32,
    token: &mut Token,
    plan: &Plan,
    first: u32,
    behind: u32,
    scratch: &mut Scratch,
) -> Next
    requires { Running words.now.table_id words.now.key shape.now caller (Many plan.now (LoadValue first behind)) scratch.old token.old }
    ensures next { IsNext words.now.table_id words.now.key shape.now caller scratch.new token.old token.new result }
    ensures same { SamePuts scratch.old scratch.new }
{
    let mut row = first;
    let mut left = behind;
    'values: loop {
        let value = value_in(load(words, shape, token, Location::Value { row }));
        remember(row, value, scratch);
        if left == 0 {
            return pass_tail(words, shape, caller, token, plan, row, scratch);
        }
        left -= 1;
        let found = load(words, shape, token, Location::Link { row });
        let Some(next) = row_in(found) else {
            let point = Point::Many(*plan, ManyPoint::LoadLink { row, left });
            return follow(shape, caller, point, found, scratch);
        };
        row = next;
    }
}

// It holds the dummy, and looks behind it.
fn walk(
    words: &Words,
    shape: &Shape,
    caller: u32,
    token: &mut Token,
    plan: &Plan,
    scratch: &mut Scratch,
) -> Next
    requires { Running words.now.table_id words.now.key shape.now caller (Many plan.now LoadDummy) scratch.old token.old }
    ensures next { IsNext words.now.table_id words.now.key shape.now caller scratch.new token.old token.new result }
    ensures same { SamePuts scratch.old scratch.new }
{
    let row = plan.notice.old_head.row;
    let found = load(words, shape, token, Location::Link { row });
    let Some(next) = row_in(found) else {
        return match link_in(found) {
            LinkWord::Nil => {
                let closing = Closing::Batch(0);
                finish(words, shape, caller, token, closing, scratch);
                Next::Ends(closing)
            }
            _ => {
                let point = Point::Many(*plan, ManyPoint::LoadDummy);
                follow(shape, caller, point, found, scratch)
            }
        };
    };
    forget(scratch);
    let left = plan.notice.counts.deqs.saturating_sub(1);
    walk_values(words, shape, caller, token, plan, next, left, scratch)
}

/// A batch of dequeues alone that found its dummy in HEAD.
pub fn dequeue_many(
    words: &Words,
    shape: &Shape,
    caller: u32,
    token: &mut Token,
    plan: &Plan,
    scratch: &mut Scratch,
) -> Next
    requires { Running words.now.table_id words.now.key shape.now caller (Guard (guard.Many plan.now) StoreHazard) scratch.old token.old }
    ensures next { IsNext words.now.table_id words.now.key shape.now caller scratch.new token.old token.new result }
    ensures same { SamePuts scratch.old scratch.new }
{
    let dummy = plan.notice.old_head;
    let named = Content::OfNodeHazard(Some(dummy.row));
    store(words, shape, token, Location::NodeHazard { caller }, named);
    scratch.row_hold = Hold::Names(dummy.row);
    let found = load(words, shape, token, Location::Head);
    if is_same(found, Content::OfHead(HeadWord::Node(dummy))) {
        scratch.row_hold = Hold::Held(dummy.row);
        walk(words, shape, caller, token, plan, scratch)
    } else {
        let point = Point::Guard(Guarding::Many(*plan), GuardPoint::LoadAgain);
        follow(shape, caller, point, found, scratch)
    }
}

// The plan with this old head.
#[inline(always)]
fn on_dummy(plan: &Plan, dummy: Place) -> Plan
    ensures { result ≡ on_dummy plan.now dummy }
{
    let mut on_dummy = *plan;
    on_dummy.notice.old_head = dummy;
    on_dummy
}

/// The steps of a batch of dequeues alone that loads the head.
pub fn dequeue_many_on(
    words: &Words,
    shape: &Shape,
    caller: u32,
    token: &mut Token,
    plan: &Plan,
    scratch: &mut Scratch,
) -> Next
    requires { Running words.now.table_id words.now.key shape.now caller (Many plan.now LoadHead) scratch.old token.old }
    ensures next { IsNext words.now.table_id words.now.key shape.now caller scratch.new token.old token.new result }
    ensures same { SamePuts scratch.old scratch.new }
{
    let found = load(words, shape, token, Location::Head);
    match head_in(found) {
        HeadWord::Node(dummy) => {
            let plan = on_dummy(plan, dummy);
            dequeue_many(words, shape, caller, token, &plan, scratch)
        }
        _ => {
            let point = Point::Many(*plan, ManyPoint::LoadHead);
            follow(shape, caller, point, found, scratch)
        }
    }
}

/// The start of a batch of dequeues alone of an idle caller, and its steps.
pub fn dequeue_many_first<C: Command>(
    words: &Words,
    shape: &Shape,
    caller: u32,
    token: &mut Token,
    plan: &Plan,
    scratch: &mut Scratch,
) -> Next
    requires idle { IsIdle words.now.table_id words.now.key shape.now caller C.ops (Many plan.now LoadHead) token.old }
    requires known { caller < shape.now.callers }
    requires puts { scratch.old.puts.items ≡ enqueued C.ops }
    requires agrees { (n : ℕ) → Agrees (begun_seat token.old n C.ops).me.0.kept scratch.old }
    requires reserves { Reserves shape.now scratch.old }
    requires few { length token.old.me.0.kept.retired < shape.now.callers }
    requires apart { Distinct token.old.me.0.kept.retired }
    ensures next { (n : ℕ) × (length token.old.me.0.seen ≤ n)
        × IsNext words.now.table_id words.now.key shape.now caller scratch.new (begun_seat token.old n C.ops) token.new result }
    ensures same { SamePuts scratch.old scratch.new }
{
    let point = Point::Many(*plan, ManyPoint::LoadHead);
    let found = first_load::<C>(words, shape, caller, token, point, Location::Head);
    match head_in(found) {
        HeadWord::Node(dummy) => {
            let plan = on_dummy(plan, dummy);
            dequeue_many(words, shape, caller, token, &plan, scratch)
        }
        _ => follow(shape, caller, point, found, scratch),
    }
}
