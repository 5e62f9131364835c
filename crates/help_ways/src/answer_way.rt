// The answers of an own finished batch as straight code: one loop over the values that its dequeues got.
ghost use Rattle.std.specs.Prelude.{◌≡◌};
ghost use Rattle.lane_steps.specs.declared.point.Point.TheVariants.{Answer};
ghost use Rattle.lane_steps.specs.declared.point.AnswerPoint.TheVariants.{LoadOldTail, LoadLink};
ghost use Rattle.lane_steps.specs.Answer.{reading};
ghost use Rattle.lane_course.specs.Running.{Running, IsNext};
ghost use Rattle.lane_course.specs.Scratch.{SamePuts};

use crate::count::{before_it, gets, is_stopped, links_rows};
use crate::found::row_in;
use bq_model::Shape;
use lane_course::{Next, Scratch, follow, forget, leave, remember};
use lane_rule::{Token, Words, load};
use lane_steps::{AnswerPoint, Closing, Help, Point, Reading, old_tail_in, value_in};
use plain_ways::finish_rows;
use word_rows::{AnnField, Location};

// The values behind this row, so many and one more.
fn read_values(
    words: &Words,
    shape: &Shape,
    caller: u32,
    token: &mut Token,
    reading: Reading,
    first: u32,
    behind: u32,
    scratch: &mut Scratch,
) -> Next
    requires { Running words.now.table_id words.now.key shape.now caller (Answer (LoadLink reading first behind)) scratch.old token.old }
    ensures next { IsNext words.now.table_id words.now.key shape.now caller scratch.new token.old token.new result }
    ensures same { SamePuts scratch.old scratch.new }
{
    let mut row = first;
    let mut left = behind;
    'values: loop {
        let link = load(words, shape, token, Location::Link { row });
        let Some(next) = row_in(link) else {
            let point = Point::Answer(AnswerPoint::LoadLink { reading, row, left });
            return follow(shape, caller, point, link, scratch);
        };
        let value = value_in(load(words, shape, token, Location::Value { row: next }));
        remember(next, value, scratch);
        if left == 0 {
            let closing = Closing::Batch(reading.queued);
            finish_rows(
                words,
                shape,
                caller,
                token,
                closing,
                reading.stopped,
                reading.dummy,
                scratch,
            );
            return Next::Ends(closing);
        }
        row = next;
        left -= 1;
    }
}

// The reading of its batch, which was on so many values.
#[inline(always)]
fn reading(help: &Help, queued: u64) -> Reading
    ensures { result ≡ reading help.now queued }
{
    Reading {
        dummy: help.old_head,
        queued,
        stopped: is_stopped(help.counts, queued),
    }
}

/// The answers of the caller's own batch, which it has helped.
pub fn read_answers(
    words: &Words,
    shape: &Shape,
    caller: u32,
    token: &mut Token,
    help: &Help,
    scratch: &mut Scratch,
) -> Next
    requires { Running words.now.table_id words.now.key shape.now caller (Answer (LoadOldTail help.now)) scratch.old token.old }
    ensures next { IsNext words.now.table_id words.now.key shape.now caller scratch.new token.old token.new result }
    ensures same { SamePuts scratch.old scratch.new }
{
    let ann = help.ann;
    let field = AnnField::OldTail;
    let found = load(words, shape, token, Location::AnnWord { ann, field });
    let Some(old_tail) = old_tail_in(found) else {
        let point = Point::Answer(AnswerPoint::LoadOldTail(*help));
        return follow(shape, caller, point, found, scratch);
    };
    let queued = before_it(help, old_tail);
    let reading = reading(help, queued);
    let left = gets(help.counts, queued);
    let linked = links_rows(help.counts, queued);
    leave(linked, scratch);
    forget(scratch);
    if left == 0 {
        let closing = Closing::Batch(reading.queued);
        finish_rows(
            words,
            shape,
            caller,
            token,
            closing,
            reading.stopped,
            reading.dummy,
            scratch,
        );
        return Next::Ends(closing);
    }
    let row = help.old_head.row;
    read_values(words, shape, caller, token, reading, row, left - 1, scratch)
}
