// A plain dequeue as straight code: it holds the dummy, reads the row behind it and moves the head over that. Where it meets an
// announcement, a chain or a tail that names the dummy, or another caller was before it, the general step goes on from there.
ghost use Rattle.std.specs.Prelude.{◌≡◌, ℕ, ◌<◌, ◌≤◌, length};
ghost use Rattle.bq_model.specs.Values.{enqueued};
ghost use Rattle.lane_steps.specs.Act.{is_node, same_place};
ghost use Rattle.lane_steps.specs.Functions.{Distinct};
ghost use Rattle.lane_steps.specs.State.{head_in, tail_in};
ghost use Rattle.lane_rule.specs.Plays.{IsIdle};
ghost use Rattle.lane_steps.specs.declared.point.Point.TheVariants.{Guard, Dequeue};
ghost use Rattle.lane_steps.specs.declared.point.Guarding.TheVariants as guarding;
ghost use Rattle.lane_steps.specs.declared.point.GuardPoint.TheVariants.{StoreHazard};
ghost use Rattle.lane_steps.specs.declared.point.DequeuePoint.TheVariants.{LoadHead, LoadLink, LoadTail, LoadValue};
ghost use Rattle.lane_course.specs.Next.{told};
ghost use Rattle.lane_course.specs.Running.{Agrees, Running, IsNext, begun_seat};
ghost use Rattle.lane_course.specs.Scratch.{Reserves, SamePuts};

use crate::end_way::{finish, finish_row};
use crate::leave::{dequeue_at, follow_dequeue};
use bq_model::{Answer, Shape};
use lane_course::Scratch;
use lane_rule::{Command, Token, Words, exchange, first_load, load, store};
use lane_steps::{Closing, DequeuePoint, Hold, Point, head_in, link_in, tail_in, value_in};
use word_rows::{Content, HeadWord, LinkWord, Location, Place};

// The head that was found names this dummy.
#[inline(always)]
fn names(found: Content, dummy: Place) -> bool
    ensures { result ≡ is_node (head_in found) dummy }
{
    head_in(found) == HeadWord::Node(dummy)
}

// The tail that was found names this dummy.
#[inline(always)]
fn lags(found: Content, dummy: Place) -> bool
    ensures { result ≡ same_place (tail_in found) dummy }
{
    tail_in(found) == dummy
}

// It loads the value of the row behind the dummy, and moves the head to that row.
#[inline(always)]
fn take_value(
    words: &Words,
    shape: &Shape,
    caller: u32,
    token: &mut Token,
    dummy: Place,
    row: u32,
    goes: &mut Point,
    scratch: &mut Scratch,
) -> Option<Closing>
    requires { Running words.now.table_id words.now.key shape.now caller (Dequeue (LoadValue dummy row)) scratch.old token.old }
    ensures next { IsNext words.now.table_id words.now.key shape.now caller scratch.new token.old token.new (told result goes.new) }
    ensures same { SamePuts scratch.old scratch.new }
{
    let value = value_in(load(words, shape, token, Location::Value { row }));
    let next = Place {
        row,
        count: dummy.count + 1,
    };
    let old = Content::OfHead(HeadWord::Node(dummy));
    let new = Content::OfHead(HeadWord::Node(next));
    let found = exchange(words, shape, token, Location::Head, old, new);
    if names(found, dummy) {
        let closing = Closing::Plain(Answer::Got(value));
        finish_row(words, shape, caller, token, closing, dummy, row, scratch);
        Some(closing)
    } else {
        dequeue_at(DequeuePoint::LoadHead, goes)
    }
}

// It has found this row behind the dummy, by a Single link, and loads the tail.
#[inline(always)]
fn pass_tail(
    words: &Words,
    shape: &Shape,
    caller: u32,
    token: &mut Token,
    dummy: Place,
    row: u32,
    goes: &mut Point,
    scratch: &mut Scratch,
) -> Option<Closing>
    requires { Running words.now.table_id words.now.key shape.now caller (Dequeue (LoadTail dummy row)) scratch.old token.old }
    ensures next { IsNext words.now.table_id words.now.key shape.now caller scratch.new token.old token.new (told result goes.new) }
    ensures same { SamePuts scratch.old scratch.new }
{
    let found = load(words, shape, token, Location::Tail);
    if lags(found, dummy) {
        dequeue_at(DequeuePoint::PassTail { dummy, row }, goes)
    } else {
        take_value(words, shape, caller, token, dummy, row, goes, scratch)
    }
}

// It holds the dummy, and loads its link.
#[inline(always)]
fn look_behind(
    words: &Words,
    shape: &Shape,
    caller: u32,
    token: &mut Token,
    dummy: Place,
    goes: &mut Point,
    scratch: &mut Scratch,
) -> Option<Closing>
    requires { Running words.now.table_id words.now.key shape.now caller (Dequeue (LoadLink dummy)) scratch.old token.old }
    ensures next { IsNext words.now.table_id words.now.key shape.now caller scratch.new token.old token.new (told result goes.new) }
    ensures same { SamePuts scratch.old scratch.new }
{
    let found = load(words, shape, token, Location::Link { row: dummy.row });
    match link_in(found) {
        LinkWord::Single(row) => {
            pass_tail(words, shape, caller, token, dummy, row, goes, scratch)
        }
        LinkWord::Nil => {
            let closing = Closing::Plain(Answer::Empty);
            finish(words, shape, caller, token, closing, scratch);
            Some(closing)
        }
        _ => {
            let at = DequeuePoint::LoadLink(dummy);
            follow_dequeue(shape, caller, at, found, goes, scratch)
        }
    }
}

// It names the dummy in its hazard word, and holds it where the head still names it.
#[inline(always)]
fn hold_dummy(
    words: &Words,
    shape: &Shape,
    caller: u32,
    token: &mut Token,
    dummy: Place,
    goes: &mut Point,
    scratch: &mut Scratch,
) -> Option<Closing>
    requires { Running words.now.table_id words.now.key shape.now caller (Guard (guarding.Dequeue dummy) StoreHazard) scratch.old token.old }
    ensures next { IsNext words.now.table_id words.now.key shape.now caller scratch.new token.old token.new (told result goes.new) }
    ensures same { SamePuts scratch.old scratch.new }
{
    let named = Content::OfNodeHazard(Some(dummy.row));
    store(words, shape, token, Location::NodeHazard { caller }, named);
    scratch.row_hold = Hold::Names(dummy.row);
    let again = load(words, shape, token, Location::Head);
    if names(again, dummy) {
        scratch.row_hold = Hold::Held(dummy.row);
        look_behind(words, shape, caller, token, dummy, goes, scratch)
    } else {
        dequeue_at(DequeuePoint::LoadHead, goes)
    }
}

/// The steps of a dequeue that loads the head.
pub fn dequeue_on(
    words: &Words,
    shape: &Shape,
    caller: u32,
    token: &mut Token,
    goes: &mut Point,
    scratch: &mut Scratch,
) -> Option<Closing>
    requires { Running words.now.table_id words.now.key shape.now caller (Dequeue LoadHead) scratch.old token.old }
    ensures next { IsNext words.now.table_id words.now.key shape.now caller scratch.new token.old token.new (told result goes.new) }
    ensures same { SamePuts scratch.old scratch.new }
{
    let found = load(words, shape, token, Location::Head);
    match head_in(found) {
        HeadWord::Node(dummy) => hold_dummy(words, shape, caller, token, dummy, goes, scratch),
        _ => {
            let at = DequeuePoint::LoadHead;
            follow_dequeue(shape, caller, at, found, goes, scratch)
        }
    }
}

/// The start of a dequeue of an idle caller, and its steps.
pub fn dequeue_first<C: Command>(
    words: &Words,
    shape: &Shape,
    caller: u32,
    token: &mut Token,
    goes: &mut Point,
    scratch: &mut Scratch,
) -> Option<Closing>
    requires idle { IsIdle words.now.table_id words.now.key shape.now caller C.ops (Dequeue LoadHead) token.old }
    requires known { caller < shape.now.callers }
    requires puts { scratch.old.puts.items ≡ enqueued C.ops }
    requires agrees { (n : ℕ) → Agrees (begun_seat token.old n C.ops).me.0.kept scratch.old }
    requires reserves { Reserves shape.now scratch.old }
    requires few { length token.old.me.0.kept.retired < shape.now.callers }
    requires apart { Distinct token.old.me.0.kept.retired }
    ensures next { (n : ℕ) × (length token.old.me.0.seen ≤ n)
        × IsNext words.now.table_id words.now.key shape.now caller scratch.new (begun_seat token.old n C.ops) token.new (told result goes.new) }
    ensures same { SamePuts scratch.old scratch.new }
{
    let point = Point::Dequeue(DequeuePoint::LoadHead);
    let found = first_load::<C>(words, shape, caller, token, point, Location::Head);
    match head_in(found) {
        HeadWord::Node(dummy) => hold_dummy(words, shape, caller, token, dummy, goes, scratch),
        _ => {
            let at = DequeuePoint::LoadHead;
            follow_dequeue(shape, caller, at, found, goes, scratch)
        }
    }
}
