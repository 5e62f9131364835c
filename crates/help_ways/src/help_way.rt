// A help as straight code, from the announcement in HEAD on: it reads the announcement, sees to the tail, and moves HEAD.
ghost use Rattle.std.specs.Prelude.{◌≡◌};
ghost use Rattle.lane_steps.specs.declared.point.Point.TheVariants as point;
ghost use Rattle.lane_steps.specs.declared.point.Guarding.TheVariants as guard;
ghost use Rattle.lane_steps.specs.declared.point.GuardPoint.TheVariants.{StoreHazard};
ghost use Rattle.lane_steps.specs.declared.point.HelpPoint.TheVariants.{LoadOldHead, LoadTail, LoadWalk, MoveHead};
ghost use Rattle.lane_course.specs.declared.next.Next.TheVariants.{Goes};
ghost use Rattle.lane_course.specs.Running.{Running, IsNext};
ghost use Rattle.lane_course.specs.Scratch.{SamePuts};

use crate::answer_way::read_answers;
use crate::count::far_behind;
use crate::found::{chain_end_in, counts_in, dummy_in, is_same, row_in};
use crate::help_tail::{find_old_tail, move_tail_over};
use bq_model::Shape;
use lane_course::{Next, Scratch, follow};
use lane_rule::{Token, Words, exchange, load, step, store};
use lane_steps::{Back, GuardPoint, Guarding, Help, HelpPoint, Hold, Point};
use word_rows::{AnnField, Content, HeadWord, Location};

// It reads what the announcement says.
#[inline(always)]
fn read_notice(
    words: &Words,
    shape: &Shape,
    caller: u32,
    token: &mut Token,
    help: &mut Help,
    scratch: &Scratch,
)
    requires { Running words.now.table_id words.now.key shape.now caller (point.Help help.old LoadOldHead) scratch.now token.old }
    ensures { IsNext words.now.table_id words.now.key shape.now caller scratch.now token.old token.new (Goes (point.Help help.new LoadTail)) }
{
    let ann = help.ann;
    let field = AnnField::OldHead;
    help.old_head = dummy_in(load(words, shape, token, Location::AnnWord { ann, field }));
    let field = AnnField::First;
    help.first = chain_end_in(load(words, shape, token, Location::AnnWord { ann, field }));
    let field = AnnField::Last;
    help.last = chain_end_in(load(words, shape, token, Location::AnnWord { ann, field }));
    let field = AnnField::Counts;
    help.counts = counts_in(load(words, shape, token, Location::AnnWord { ann, field }));
}

// It moves the head over so many rows, to this one, and goes on with what the help was for.
fn move_head(
    words: &Words,
    shape: &Shape,
    caller: u32,
    token: &mut Token,
    help: &Help,
    passed: u32,
    row: u32,
    scratch: &mut Scratch,
) -> Next
    requires { Running words.now.table_id words.now.key shape.now caller (point.Help help.now (MoveHead passed row)) scratch.old token.old }
    ensures next { IsNext words.now.table_id words.now.key shape.now caller scratch.new token.old token.new result }
    ensures same { SamePuts scratch.old scratch.new }
{
    let old = Content::OfHead(HeadWord::Ann {
        ann: help.ann,
        count: help.old_head.count,
    });
    let new = Content::OfHead(HeadWord::Node(far_behind(help.old_head, row, passed)));
    let found = exchange(words, shape, token, Location::Head, old, new);
    match help.back {
        Back::Own => read_answers(words, shape, caller, token, help, scratch),
        _ => {
            let point = Point::Help(*help, HelpPoint::MoveHead { passed, row });
            follow(shape, caller, point, found, scratch)
        }
    }
}

// It walks to the new dummy, from this row, where the batch gets so many values.
fn walk_rows(
    words: &Words,
    shape: &Shape,
    caller: u32,
    token: &mut Token,
    help: &Help,
    values: u32,
    first: u32,
    behind: u32,
    scratch: &mut Scratch,
) -> Next
    requires { Running words.now.table_id words.now.key shape.now caller (point.Help help.now (LoadWalk values first behind)) scratch.old token.old }
    ensures next { IsNext words.now.table_id words.now.key shape.now caller scratch.new token.old token.new result }
    ensures same { SamePuts scratch.old scratch.new }
{
    let mut row = first;
    let mut left = behind;
    'rows: loop {
        let found = load(words, shape, token, Location::Link { row });
        let Some(next) = row_in(found) else {
            let point = Point::Help(*help, HelpPoint::LoadWalk { values, row, left });
            return follow(shape, caller, point, found, scratch);
        };
        if left == 0 {
            return move_head(words, shape, caller, token, help, values, next, scratch);
        }
        row = next;
        left -= 1;
    }
}

// It knows OldTail, and TAIL is past what it linked.
fn walk_on(
    words: &Words,
    shape: &Shape,
    caller: u32,
    token: &mut Token,
    help: &Help,
    next: HelpPoint,
    scratch: &mut Scratch,
) -> Next
    requires { Running words.now.table_id words.now.key shape.now caller (point.Help help.now next) scratch.old token.old }
    ensures next { IsNext words.now.table_id words.now.key shape.now caller scratch.new token.old token.new result }
    ensures same { SamePuts scratch.old scratch.new }
{
    match next {
        HelpPoint::LoadWalk { values, row, left } => {
            walk_rows(
                words, shape, caller, token, help, values, row, left, scratch,
            )
        }
        HelpPoint::MoveHead { passed, row } => {
            move_head(words, shape, caller, token, help, passed, row, scratch)
        }
        _ => {
            let point = Point::Help(*help, next);
            let found = step(words, shape, caller, token, point);
            follow(shape, caller, point, found, scratch)
        }
    }
}

/// A help that has read its announcement.
pub fn help_on(
    words: &Words,
    shape: &Shape,
    caller: u32,
    token: &mut Token,
    help: &Help,
    scratch: &mut Scratch,
) -> Next
    requires { Running words.now.table_id words.now.key shape.now caller (point.Help help.now LoadTail) scratch.old token.old }
    ensures next { IsNext words.now.table_id words.now.key shape.now caller scratch.new token.old token.new result }
    ensures same { SamePuts scratch.old scratch.new }
{
    match find_old_tail(words, shape, caller, token, help, scratch) {
        HelpPoint::LoadTailOver(old_tail) => {
            let point = move_tail_over(words, shape, caller, token, help, old_tail, scratch);
            walk_on(words, shape, caller, token, help, point, scratch)
        }
        point => walk_on(words, shape, caller, token, help, point, scratch),
    }
}

/// A help of an announcement that was found in HEAD.
pub fn help_found(
    words: &Words,
    shape: &Shape,
    caller: u32,
    token: &mut Token,
    mut help: Help,
    scratch: &mut Scratch,
) -> Next
    requires { Running words.now.table_id words.now.key shape.now caller (point.Guard (guard.Help help) StoreHazard) scratch.old token.old }
    ensures next { IsNext words.now.table_id words.now.key shape.now caller scratch.new token.old token.new result }
    ensures same { SamePuts scratch.old scratch.new }
{
    let ann = help.ann;
    let named = Content::OfAnnHazard(Some(ann));
    store(words, shape, token, Location::AnnHazard { caller }, named);
    scratch.hold = Hold::Names(ann);
    let found = load(words, shape, token, Location::Head);
    let count = help.old_head.count;
    if is_same(found, Content::OfHead(HeadWord::Ann { ann, count })) {
        scratch.hold = Hold::Held(ann);
        read_notice(words, shape, caller, token, &mut help, scratch);
        help_on(words, shape, caller, token, &help, scratch)
    } else {
        let point = Point::Guard(Guarding::Help(help), GuardPoint::LoadAgain);
        follow(shape, caller, point, found, scratch)
    }
}
