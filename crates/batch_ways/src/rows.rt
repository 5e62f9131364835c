// The rows of a batch, step after step: its owner takes a free row for each enqueue and fills it, and links them.
ghost use Rattle.std.specs.Prelude.{◌≡◌, ℕ, ◌<◌, ◌≤◌, length, get_or};
ghost use Rattle.bq_model.specs.Values.{enqueued};
ghost use Rattle.lane_steps.specs.Functions.{Distinct};
ghost use Rattle.lane_steps.specs.declared.point.FillPoint.TheVariants.{StoreValue, StoreChain};
ghost use Rattle.lane_steps.specs.declared.point.Point.TheVariants.{Take, Fill};
ghost use Rattle.lane_steps.specs.declared.point.TakePoint.TheVariants.{LoadMark, ClearMark};
ghost use Rattle.lane_steps.specs.declared.point.Taking.TheVariants as taking;
ghost use Rattle.lane_rule.specs.Plays.{IsIdle};
ghost use Rattle.lane_course.specs.Along.{Along};
ghost use Rattle.lane_course.specs.Running.{Agrees, Running, IsNext, begun_seat};
ghost use Rattle.lane_course.specs.Scratch.{Reserves, SamePuts};

use crate::announce::choose;
use bq_model::Shape;
use lane_course::{Next, Scratch, close, row_at, value_at, with_rows};
use lane_rule::{Command, Token, Words, first_load, store};
use lane_steps::{Closing, Notice, Point, TakePoint, Taking, mark_in};
use plain_ways::find;
use word_rows::{Content, LinkWord, Location, Marks, item_row, items};

/// The steps of a batch that searches for the row of this value, from this one on, with so many behind it.
pub fn fill(
    words: &Words,
    shape: &Shape,
    caller: u32,
    token: &mut Token,
    notice: Notice,
    value: u64,
    first: u32,
    behind: u32,
    scratch: &mut Scratch,
) -> Next
    requires { Running words.now.table_id words.now.key shape.now caller (Take (taking.Batch notice value) (LoadMark first behind)) scratch.old token.old }
    ensures next { IsNext words.now.table_id words.now.key shape.now caller scratch.new token.old token.new result }
    ensures same { SamePuts scratch.old scratch.new }
{
    let taking = Taking::Batch(notice, value);
    match find(words, shape, caller, token, taking, first, behind, scratch) {
        Some(row) => fill_from(words, shape, caller, token, notice, value, row, scratch),
        None => close(Closing::Full, scratch),
    }
}

/// The start of a batch of an idle caller that searches for its first row, and its steps.
pub fn fill_first<C: Command>(
    words: &Words,
    shape: &Shape,
    caller: u32,
    token: &mut Token,
    notice: Notice,
    value: u64,
    row: u32,
    left: u32,
    scratch: &mut Scratch,
) -> Next
    requires idle { IsIdle words.now.table_id words.now.key shape.now caller C.ops (Take (taking.Batch notice value) (LoadMark row left)) token.old }
    requires known { caller < shape.now.callers }
    requires puts { scratch.old.puts.items ≡ enqueued C.ops }
    requires agrees { (n : ℕ) → Agrees (begun_seat token.old n C.ops).me.0.kept scratch.old }
    requires reserves { Reserves shape.now scratch.old }
    requires few { length token.old.me.0.kept.retired < shape.now.callers }
    requires apart { Distinct token.old.me.0.kept.retired }
    ensures next { (n : ℕ) × (length token.old.me.0.seen ≤ n)
        × IsNext words.now.table_id words.now.key shape.now caller scratch.new (begun_seat token.old n C.ops) token.new result }
    ensures same { SamePuts scratch.old scratch.new }
{
    let taking = Taking::Batch(notice, value);
    let point = Point::Take(taking, TakePoint::LoadMark { row, left });
    let mark = Location::Mark { row };
    let found = first_load::<C>(words, shape, caller, token, point, mark);
    if mark_in(found).free {
        return fill_from(words, shape, caller, token, notice, value, row, scratch);
    }
    if left == 0 {
        return close(Closing::Full, scratch);
    }
    let next = row + 1;
    let left = left - 1;
    fill(
        words, shape, caller, token, notice, value, next, left, scratch,
    )
}

// It takes this free row for its enqueue of this value.
#[inline(always)]
fn take_row(
    words: &Words,
    shape: &Shape,
    caller: u32,
    token: &mut Token,
    notice: &Notice,
    value: u64,
    row: u32,
    scratch: &Scratch,
)
    requires { Running words.now.table_id words.now.key shape.now caller (Take (taking.Batch notice.now value) (ClearMark row)) scratch.now token.old }
    ensures { Along words.now.table_id words.now.key shape.now caller (Fill notice.now (StoreValue row value)) scratch.now token.old token.new }
{
    let taken = Marks {
        read: false,
        passed: false,
        free: false,
    };
    store(
        words,
        shape,
        token,
        Location::Mark { row },
        Content::OfMark(taken),
    );
    store(
        words,
        shape,
        token,
        Location::Link { row },
        Content::OfLink(LinkWord::Nil),
    );
}

/// The same, from its free row on.
pub fn fill_from(
    words: &Words,
    shape: &Shape,
    caller: u32,
    token: &mut Token,
    notice: Notice,
    first_value: u64,
    first_row: u32,
    scratch: &mut Scratch,
) -> Next
    requires { Running words.now.table_id words.now.key shape.now caller (Take (taking.Batch notice first_value) (ClearMark first_row)) scratch.old token.old }
    ensures next { IsNext words.now.table_id words.now.key shape.now caller scratch.new token.old token.new result }
    ensures same { SamePuts scratch.old scratch.new }
{
    let mut value = first_value;
    let mut row = first_row;
    'rows: loop {
        take_row(words, shape, caller, token, &notice, value, row, scratch);
        store(
            words,
            shape,
            token,
            Location::Value { row },
            Content::OfValue(value),
        );
        scratch.rows.push_back_reserved(row);
        let taken = scratch.rows.len();
        if taken == notice.counts.enqs as usize {
            let whole = with_rows(notice, &scratch.rows);
            if taken == 1 {
                scratch.named.clear();
                return choose(words, shape, caller, token, whole, scratch);
            }
            return chain(words, shape, caller, token, whole, scratch);
        }
        value = value_at(scratch.puts.as_slice(), taken);
        let taking = Taking::Batch(notice, value);
        let from = item_row(shape, caller, 0);
        let behind = items(shape) - 1;
        match find(words, shape, caller, token, taking, from, behind, scratch) {
            Some(found) => row = found,
            None => return close(Closing::Full, scratch),
        }
    }
}

/// The steps of a batch that has all its rows, several, and links them, from the first one on.
pub fn chain(
    words: &Words,
    shape: &Shape,
    caller: u32,
    token: &mut Token,
    notice: Notice,
    scratch: &mut Scratch,
) -> Next
    requires { Running words.now.table_id words.now.key shape.now caller (Fill notice (StoreChain 0 (get_or scratch.old.rows.items 0 0) (get_or scratch.old.rows.items 1 0))) scratch.old token.old }
    ensures next { IsNext words.now.table_id words.now.key shape.now caller scratch.new token.old token.new result }
    ensures same { SamePuts scratch.old scratch.new }
{
    let mut number = 0;
    'links: loop {
        let row = row_at(&scratch.rows, number);
        let next = row_at(&scratch.rows, number + 1);
        let single = Content::OfLink(LinkWord::Single(next));
        store(words, shape, token, Location::Link { row }, single);
        number += 1;
        if number + 1 == scratch.rows.len() {
            scratch.named.clear();
            return choose(words, shape, caller, token, notice, scratch);
        }
    }
}
