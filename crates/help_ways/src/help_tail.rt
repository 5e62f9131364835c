// The tail of a help as straight code: it finds where the list ended when the batch was decided, links the chain or the
// stopper there where that is to be linked, and moves TAIL over it.
ghost use Rattle.std.specs.Prelude.{◌≡◌, ◌<◌, suc};
ghost use Rattle.lane_steps.specs.Help.{walk_on, walk_from, walk, at_old_tail};
ghost use Rattle.lane_steps.specs.declared.point.Point.TheVariants as point;
ghost use Rattle.lane_steps.specs.declared.point.HelpPoint.TheVariants.{LoadTail, LoadOldTail, LoadLink, RecordTail, LoadTailOver, MoveHead};
ghost use Rattle.lane_course.specs.declared.next.Next.TheVariants.{Goes};
ghost use Rattle.lane_course.specs.Running.{Running, IsNext};
ghost use Rattle.lane_course.specs.Scratch.{SamePuts};

use crate::count::{
    before_it, begins_with, far_behind, gets, has_enough, is_stopped, linked_rows, links_rows,
};
use crate::found::{is_place, is_same};
use bq_model::Shape;
use lane_course::Scratch;
use lane_rule::{Token, Words, exchange, load, store};
use lane_steps::{Help, HelpPoint, Hold, link_in, old_tail_in, tail_in};
use word_rows::{AnnField, Content, LinkWord, Location, Place};

// The batch gets so many values, and it has come to the row, with so many links to go.
#[inline(always)]
fn walk_on(values: u32, row: u32, left: u32) -> HelpPoint
    ensures { result ≡ walk_on values row left }
{
    if left == 0 {
        HelpPoint::MoveHead {
            passed: values,
            row,
        }
    } else {
        HelpPoint::LoadWalk {
            values,
            row,
            left: left - 1,
        }
    }
}

// It begins its walk to the new dummy, from the old one or from the old tail.
#[inline(always)]
fn walk_from(help: &Help, old_tail: Place, queued: u64, values: u32) -> HelpPoint
    ensures { result ≡ walk_from help.now old_tail queued values }
{
    if u64::from(values) < queued {
        walk_on(values, help.old_head.row, values)
    } else {
        walk_on(values, old_tail.row, values - queued as u32)
    }
}

// The stopper is the new dummy, right behind so many values, fewer than there are dequeues.
#[inline(always)]
fn walk_to_stopper(queued: u64, deqs: u32, last: u32) -> HelpPoint
    requires fewer { queued < deqs }
    ensures { result ≡ MoveHead (suc queued) last }
{
    HelpPoint::MoveHead {
        passed: queued as u32 + 1,
        row: last,
    }
}

// A stopper is the new dummy at once.
#[inline(always)]
fn walk(help: &Help, old_tail: Place) -> HelpPoint
    ensures { result ≡ walk help.now old_tail }
{
    let queued = before_it(help, old_tail);
    if is_stopped(help.counts, queued) {
        walk_to_stopper(queued, help.counts.deqs, help.last)
    } else {
        walk_from(help, old_tail, queued, gets(help.counts, queued))
    }
}

// It knows OldTail.
#[inline(always)]
fn at_old_tail(help: &Help, old_tail: Place) -> HelpPoint
    ensures { result ≡ at_old_tail help.now old_tail }
{
    if links_rows(help.counts, before_it(help, old_tail)) {
        HelpPoint::LoadTailOver(old_tail)
    } else {
        walk(help, old_tail)
    }
}

// It names the row of the tail in its hazard word, to hold it.
#[inline(always)]
fn hold_tail(
    words: &Words,
    shape: &Shape,
    caller: u32,
    token: &mut Token,
    help: &Help,
    scratch: &mut Scratch,
) -> HelpPoint
    requires { Running words.now.table_id words.now.key shape.now caller (point.Help help.now LoadTail) scratch.old token.old }
    ensures next { IsNext words.now.table_id words.now.key shape.now caller scratch.new token.old token.new (Goes (point.Help help.now result)) }
    ensures same { SamePuts scratch.old scratch.new }
{
    let tail = tail_in(load(words, shape, token, Location::Tail));
    let named = Content::OfNodeHazard(Some(tail.row));
    store(words, shape, token, Location::NodeHazard { caller }, named);
    scratch.row_hold = Hold::Names(tail.row);
    let found = load(words, shape, token, Location::Tail);
    if is_same(found, Content::OfTail(tail)) {
        scratch.row_hold = Hold::Held(tail.row);
        HelpPoint::LoadOldTail(tail)
    } else {
        HelpPoint::LoadTail
    }
}

// It records this tail, behind which the chain is linked.
#[inline(always)]
fn record_tail(
    words: &Words,
    shape: &Shape,
    caller: u32,
    token: &mut Token,
    help: &Help,
    tail: Place,
    scratch: &Scratch,
) -> HelpPoint
    requires { Running words.now.table_id words.now.key shape.now caller (point.Help help.now (RecordTail tail)) scratch.now token.old }
    ensures { IsNext words.now.table_id words.now.key shape.now caller scratch.now token.old token.new (Goes (point.Help help.now result)) }
{
    let location = Location::AnnWord {
        ann: help.ann,
        field: AnnField::OldTail,
    };
    let old = Content::OfOldTail(None);
    let new = Content::OfOldTail(Some(tail));
    let found = exchange(words, shape, token, location, old, new);
    match old_tail_in(found) {
        None => at_old_tail(help, tail),
        Some(known) => at_old_tail(help, known),
    }
}

// It links the chain behind this tail, or finds it there.
#[inline(always)]
fn link_chain(
    words: &Words,
    shape: &Shape,
    caller: u32,
    token: &mut Token,
    help: &Help,
    tail: Place,
    scratch: &Scratch,
) -> HelpPoint
    requires { Running words.now.table_id words.now.key shape.now caller (point.Help help.now (LoadLink tail)) scratch.now token.old }
    ensures { IsNext words.now.table_id words.now.key shape.now caller scratch.now token.old token.new (Goes (point.Help help.now result)) }
{
    let location = Location::Link { row: tail.row };
    match link_in(load(words, shape, token, location)) {
        LinkWord::Nil => {
            let old = Content::OfLink(LinkWord::Nil);
            let new = Content::OfLink(LinkWord::Chain(help.first));
            exchange(words, shape, token, location, old, new);
            HelpPoint::LoadTail
        }
        LinkWord::Chain(row) => {
            if begins_with(help, row) {
                record_tail(words, shape, caller, token, help, tail, scratch)
            } else {
                HelpPoint::LoadTail
            }
        }
        LinkWord::Single(row) => HelpPoint::PassTail { tail, row },
        LinkWord::Shut => HelpPoint::LoadTail,
    }
}

// It holds this tail.
#[inline(always)]
fn see_tail(
    words: &Words,
    shape: &Shape,
    caller: u32,
    token: &mut Token,
    help: &Help,
    tail: Place,
    scratch: &Scratch,
) -> HelpPoint
    requires { Running words.now.table_id words.now.key shape.now caller (point.Help help.now (LoadOldTail tail)) scratch.now token.old }
    ensures { IsNext words.now.table_id words.now.key shape.now caller scratch.now token.old token.new (Goes (point.Help help.now result)) }
{
    let location = Location::AnnWord {
        ann: help.ann,
        field: AnnField::OldTail,
    };
    match old_tail_in(load(words, shape, token, location)) {
        None => {
            if has_enough(help, tail) {
                HelpPoint::Decide(tail)
            } else {
                link_chain(words, shape, caller, token, help, tail, scratch)
            }
        }
        Some(known) => at_old_tail(help, known),
    }
}

// One look at the tail.
#[inline(always)]
fn look_at_tail(
    words: &Words,
    shape: &Shape,
    caller: u32,
    token: &mut Token,
    help: &Help,
    scratch: &mut Scratch,
) -> HelpPoint
    requires { Running words.now.table_id words.now.key shape.now caller (point.Help help.now LoadTail) scratch.old token.old }
    ensures next { IsNext words.now.table_id words.now.key shape.now caller scratch.new token.old token.new (Goes (point.Help help.now result)) }
    ensures same { SamePuts scratch.old scratch.new }
{
    match hold_tail(words, shape, caller, token, help, scratch) {
        HelpPoint::LoadOldTail(tail) => {
            see_tail(words, shape, caller, token, help, tail, scratch)
        }
        point => point,
    }
}

/// It looks at the tail until it knows OldTail, or has to do what is off the usual way.
pub fn find_old_tail(
    words: &Words,
    shape: &Shape,
    caller: u32,
    token: &mut Token,
    help: &Help,
    scratch: &mut Scratch,
) -> HelpPoint
    requires { Running words.now.table_id words.now.key shape.now caller (point.Help help.now LoadTail) scratch.old token.old }
    ensures next { IsNext words.now.table_id words.now.key shape.now caller scratch.new token.old token.new (Goes (point.Help help.now result)) }
    ensures same { SamePuts scratch.old scratch.new }
{
    'tails: loop {
        match look_at_tail(words, shape, caller, token, help, scratch) {
            HelpPoint::LoadTail => {}
            point => return point,
        }
    }
}

/// It moves the tail over the rows that were linked behind this old tail, where it is still there.
#[inline(always)]
pub fn move_tail_over(
    words: &Words,
    shape: &Shape,
    caller: u32,
    token: &mut Token,
    help: &Help,
    old_tail: Place,
    scratch: &Scratch,
) -> HelpPoint
    requires { Running words.now.table_id words.now.key shape.now caller (point.Help help.now (LoadTailOver old_tail)) scratch.now token.old }
    ensures { IsNext words.now.table_id words.now.key shape.now caller scratch.now token.old token.new (Goes (point.Help help.now result)) }
{
    let tail = tail_in(load(words, shape, token, Location::Tail));
    if is_place(tail, old_tail) {
        let rows = linked_rows(help.counts, before_it(help, old_tail));
        let old = Content::OfTail(old_tail);
        let new = Content::OfTail(far_behind(old_tail, help.last, rows));
        exchange(words, shape, token, Location::Tail, old, new);
        walk(help, old_tail)
    } else {
        walk(help, old_tail)
    }
}
