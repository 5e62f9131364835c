// A plain enqueue, step after step: it takes a free row, fills it, links it behind the tail's row and moves the tail.
ghost use Rattle.std.specs.Prelude.{◌≡◌, ℕ, ◌<◌, ◌≤◌, cond, length};
ghost use Rattle.bq_model.specs.Values.{enqueued};
ghost use Rattle.lane_steps.specs.Functions.{Distinct};
ghost use Rattle.lane_steps.specs.Act.{is_nil, same_content};
ghost use Rattle.lane_steps.specs.declared.point.Point.TheVariants.{Take, Enqueue};
ghost use Rattle.lane_steps.specs.declared.point.EnqueuePoint.TheVariants.{LoadTail, LoadLink, LinkSingle, MoveTail};
ghost use Rattle.lane_steps.specs.declared.point.TakePoint.TheVariants.{LoadMark, ClearMark};
ghost use Rattle.lane_steps.specs.declared.point.Taking.TheVariants as taking;
ghost use Rattle.lane_rule.specs.Plays.{IsIdle};
ghost use Rattle.lane_course.specs.declared.next.Next.TheVariants.{Ends};
ghost use Rattle.lane_course.specs.Along.{Along};
ghost use Rattle.lane_course.specs.Next.{told};
ghost use Rattle.lane_course.specs.Running.{Agrees, Running, IsNext, begun_seat};
ghost use Rattle.lane_course.specs.Scratch.{Reserves, SamePuts};

use crate::end_way::finish;
use crate::leave::{close_full, enqueue_at};
use crate::row_search::find;
use bq_model::{Answer, Shape};
use lane_course::Scratch;
use lane_rule::{Command, Token, Words, exchange, first_load, load, store};
use lane_steps::{
    Closing, EnqueuePoint, Hold, Item, Point, TakePoint, Taking, link_in, mark_in, tail_in,
};
use word_rows::{Content, LinkWord, Location, Marks, Place};

/// The steps of a plain enqueue of this value that searches for its row, from this one on, with so many behind it.
pub fn put(
    words: &Words,
    shape: &Shape,
    caller: u32,
    token: &mut Token,
    value: u64,
    first: u32,
    behind: u32,
    goes: &mut Point,
    scratch: &mut Scratch,
) -> Option<Closing>
    requires { Running words.now.table_id words.now.key shape.now caller (Take (taking.Enqueue value) (LoadMark first behind)) scratch.old token.old }
    ensures next { IsNext words.now.table_id words.now.key shape.now caller scratch.new token.old token.new (told result goes.new) }
    ensures same { SamePuts scratch.old scratch.new }
{
    let taking = Taking::Enqueue(value);
    match find(words, shape, caller, token, taking, first, behind, scratch) {
        Some(row) => {
            let item = Item { row, value };
            put_into(words, shape, caller, token, item, goes, scratch)
        }
        None => close_full(goes, scratch),
    }
}

/// The start of a plain enqueue of an idle caller that searches for its row, and its steps.
pub fn put_first<C: Command>(
    words: &Words,
    shape: &Shape,
    caller: u32,
    token: &mut Token,
    value: u64,
    row: u32,
    left: u32,
    goes: &mut Point,
    scratch: &mut Scratch,
) -> Option<Closing>
    requires idle { IsIdle words.now.table_id words.now.key shape.now caller C.ops (Take (taking.Enqueue value) (LoadMark row left)) token.old }
    requires known { caller < shape.now.callers }
    requires puts { scratch.old.puts.items ≡ enqueued C.ops }
    requires agrees { (n : ℕ) → Agrees (begun_seat token.old n C.ops).me.0.kept scratch.old }
    requires reserves { Reserves shape.now scratch.old }
    requires few { length token.old.me.0.kept.retired < shape.now.callers }
    requires apart { Distinct token.old.me.0.kept.retired }
    ensures next { (n : ℕ) × (length token.old.me.0.seen ≤ n)
        × IsNext words.now.table_id words.now.key shape.now caller scratch.new (begun_seat token.old n C.ops) token.new (told result goes.new) }
    ensures same { SamePuts scratch.old scratch.new }
{
    let point = Point::Take(Taking::Enqueue(value), TakePoint::LoadMark { row, left });
    let mark = Location::Mark { row };
    let found = first_load::<C>(words, shape, caller, token, point, mark);
    if mark_in(found).free {
        let item = Item { row, value };
        return put_into(words, shape, caller, token, item, goes, scratch);
    }
    if left == 0 {
        return close_full(goes, scratch);
    }
    let next = row + 1;
    let left = left - 1;
    put(
        words, shape, caller, token, value, next, left, goes, scratch,
    )
}

/// The same, from its free row on.
pub fn put_into(
    words: &Words,
    shape: &Shape,
    caller: u32,
    token: &mut Token,
    item: Item,
    goes: &mut Point,
    scratch: &mut Scratch,
) -> Option<Closing>
    requires { Running words.now.table_id words.now.key shape.now caller (Take (taking.Enqueue item.value) (ClearMark item.row)) scratch.old token.old }
    ensures next { IsNext words.now.table_id words.now.key shape.now caller scratch.new token.old token.new (told result goes.new) }
    ensures same { SamePuts scratch.old scratch.new }
{
    let row = item.row;
    let taken = Marks {
        read: false,
        passed: false,
        free: false,
    };
    store(
        words,
        shape,
        token,
        Location::Mark { row },
        Content::OfMark(taken),
    );
    store(
        words,
        shape,
        token,
        Location::Link { row },
        Content::OfLink(LinkWord::Nil),
    );
    store(
        words,
        shape,
        token,
        Location::Value { row },
        Content::OfValue(item.value),
    );
    link(words, shape, caller, token, item, goes, scratch)
}

// Whether a link names no row.
#[inline(always)]
fn is_nil(link: LinkWord) -> bool
    ensures { result ≡ is_nil link }
{
    match link {
        LinkWord::Nil => true,
        _ => false,
    }
}

// Whether the tail was found at this place.
#[inline(always)]
fn is_tail(found: Content, tail: Place) -> bool
    ensures { result ≡ same_content found (Content.OfTail tail) }
{
    match found {
        Content::OfTail(place) => place == tail,
        _ => false,
    }
}

// It names the row of the tail in its hazard word, until it holds that. Gives the tail.
#[inline(always)]
fn hold_tail(
    words: &Words,
    shape: &Shape,
    caller: u32,
    token: &mut Token,
    item: Item,
    scratch: &mut Scratch,
) -> Place
    requires { Running words.now.table_id words.now.key shape.now caller (Enqueue item LoadTail) scratch.old token.old }
    ensures held { Along words.now.table_id words.now.key shape.now caller (Enqueue item (LoadLink result)) scratch.new token.old token.new }
    ensures same { SamePuts scratch.old scratch.new }
{
    'holds: loop {
        let tail = tail_in(load(words, shape, token, Location::Tail));
        let row = tail.row;
        let named = Content::OfNodeHazard(Some(row));
        store(words, shape, token, Location::NodeHazard { caller }, named);
        scratch.row_hold = Hold::Names(row);
        let again = load(words, shape, token, Location::Tail);
        if is_tail(again, tail) {
            scratch.row_hold = Hold::Held(row);
            return tail;
        }
    }
}

// It links its row behind the tail's one. Gives whether it has.
#[inline(always)]
fn link_single(
    words: &Words,
    shape: &Shape,
    caller: u32,
    token: &mut Token,
    item: Item,
    tail: Place,
    scratch: &Scratch,
) -> bool
    requires { Running words.now.table_id words.now.key shape.now caller (Enqueue item (LinkSingle tail)) scratch.now token.old }
    ensures { Along words.now.table_id words.now.key shape.now caller (Enqueue item (cond result (MoveTail tail item.row) LoadTail)) scratch.now token.old token.new }
{
    let found = exchange(
        words,
        shape,
        token,
        Location::Link { row: tail.row },
        Content::OfLink(LinkWord::Nil),
        Content::OfLink(LinkWord::Single(item.row)),
    );
    is_nil(link_in(found))
}

// It moves the tail over its row, and is done. Gives how it ended.
#[inline(always)]
fn move_tail(
    words: &Words,
    shape: &Shape,
    caller: u32,
    token: &mut Token,
    item: Item,
    tail: Place,
    scratch: &mut Scratch,
) -> Closing
    requires { Running words.now.table_id words.now.key shape.now caller (Enqueue item (MoveTail tail item.row)) scratch.old token.old }
    ensures next { IsNext words.now.table_id words.now.key shape.now caller scratch.new token.old token.new (Ends result) }
    ensures same { SamePuts scratch.old scratch.new }
{
    let place = Place {
        row: item.row,
        count: tail.count + 1,
    };
    exchange(
        words,
        shape,
        token,
        Location::Tail,
        Content::OfTail(tail),
        Content::OfTail(place),
    );
    let closing = Closing::Plain(Answer::Done);
    finish(words, shape, caller, token, closing, scratch);
    closing
}

/// The same, from its filled row on.
pub fn link(
    words: &Words,
    shape: &Shape,
    caller: u32,
    token: &mut Token,
    item: Item,
    goes: &mut Point,
    scratch: &mut Scratch,
) -> Option<Closing>
    requires { Running words.now.table_id words.now.key shape.now caller (Enqueue item LoadTail) scratch.old token.old }
    ensures next { IsNext words.now.table_id words.now.key shape.now caller scratch.new token.old token.new (told result goes.new) }
    ensures same { SamePuts scratch.old scratch.new }
{
    'tries: loop {
        let tail = hold_tail(words, shape, caller, token, item, scratch);
        let found = load(words, shape, token, Location::Link { row: tail.row });
        match link_in(found) {
            LinkWord::Nil => {
                if link_single(words, shape, caller, token, item, tail, scratch) {
                    return Some(move_tail(words, shape, caller, token, item, tail, scratch));
                }
            }
            LinkWord::Single(row) => {
                return enqueue_at(item, EnqueuePoint::PassTail { tail, row }, goes);
            }
            LinkWord::Chain(_) => return enqueue_at(item, EnqueuePoint::LoadHead, goes),
            LinkWord::Shut => return enqueue_at(item, EnqueuePoint::LoadTail, goes),
        }
    }
}
