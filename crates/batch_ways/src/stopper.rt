// A batch of dequeues alone that found too few values, step after step: its owner takes a stopper, and stores all of its
// announcement before it installs that.
ghost use Rattle.std.specs.Prelude.{◌≡◌, cond, Some};
ghost use Rattle.word_rows.specs.declared.location.AnnField.TheVariants.{OldHead, BatchNo};
ghost use Rattle.lane_steps.specs.Batch.{after_whole};
ghost use Rattle.lane_steps.specs.Help.{own_help};
ghost use Rattle.lane_steps.specs.Notices.{field_in};
ghost use Rattle.lane_steps.specs.declared.point.BatchPoint.TheVariants as batch;
ghost use Rattle.lane_steps.specs.declared.point.GuardPoint.TheVariants.{StoreHazard};
ghost use Rattle.lane_steps.specs.declared.point.Guarding.TheVariants as guard;
ghost use Rattle.lane_steps.specs.declared.point.ManyPoint.TheVariants.{LoadHead};
ghost use Rattle.lane_steps.specs.declared.point.Point.TheVariants.{Take, Batch, Guard, Many};
ghost use Rattle.lane_steps.specs.declared.point.TakePoint.TheVariants.{LoadMark, ClearMark};
ghost use Rattle.lane_steps.specs.declared.point.Taking.TheVariants as taking;
ghost use Rattle.lane_course.specs.declared.next.Next.TheVariants.{Goes};
ghost use Rattle.lane_course.specs.Along.{Along};
ghost use Rattle.lane_course.specs.Running.{Running, IsNext};
ghost use Rattle.lane_course.specs.Scratch.{SamePuts};

use crate::announce::{choose, own_help};
use bq_model::Shape;
use help_ways::{help_found, is_dummy};
use lane_course::{Next, Scratch, close, with_rows};
use lane_rule::{Token, Words, exchange, store};
use lane_steps::{Closing, Draft, ManyPoint, Notice, Plan, Point, Taking};
use plain_ways::find;
use word_rows::{AnnField, Content, HeadWord, LinkWord, Location, Marks};

/// The steps of dequeues alone that search for a stopper, from this row on, with so many behind it.
pub fn stop(
    words: &Words,
    shape: &Shape,
    caller: u32,
    token: &mut Token,
    notice: Notice,
    first: u32,
    behind: u32,
    scratch: &mut Scratch,
) -> Next
    requires { Running words.now.table_id words.now.key shape.now caller (Take (taking.Stopper notice) (LoadMark first behind)) scratch.old token.old }
    ensures next { IsNext words.now.table_id words.now.key shape.now caller scratch.new token.old token.new result }
    ensures same { SamePuts scratch.old scratch.new }
{
    let taking = Taking::Stopper(notice);
    match find(words, shape, caller, token, taking, first, behind, scratch) {
        Some(row) => stop_from(words, shape, caller, token, notice, row, scratch),
        None => close(Closing::Full, scratch),
    }
}

/// The same, from its free row on.
pub fn stop_from(
    words: &Words,
    shape: &Shape,
    caller: u32,
    token: &mut Token,
    notice: Notice,
    row: u32,
    scratch: &mut Scratch,
) -> Next
    requires { Running words.now.table_id words.now.key shape.now caller (Take (taking.Stopper notice) (ClearMark row)) scratch.old token.old }
    ensures next { IsNext words.now.table_id words.now.key shape.now caller scratch.new token.old token.new result }
    ensures same { SamePuts scratch.old scratch.new }
{
    let taken = Marks {
        read: true,
        passed: false,
        free: false,
    };
    store(
        words,
        shape,
        token,
        Location::Mark { row },
        Content::OfMark(taken),
    );
    store(
        words,
        shape,
        token,
        Location::Link { row },
        Content::OfLink(LinkWord::Nil),
    );
    scratch.rows.clear();
    scratch.rows.push_back_reserved(row);
    scratch.named.clear();
    let whole = with_rows(notice, &scratch.rows);
    choose(words, shape, caller, token, whole, scratch)
}

// It stores this field of its announcement, which says this.
#[inline(always)]
fn write(
    words: &Words,
    shape: &Shape,
    caller: u32,
    token: &mut Token,
    draft: &Draft,
    field: AnnField,
    content: Content,
    scratch: &Scratch,
)
    requires runs { Running words.now.table_id words.now.key shape.now caller (Batch draft.now (batch.StoreAll field)) scratch.now token.old }
    requires content { field_in draft.now.notice field ≡ content }
    ensures { Along words.now.table_id words.now.key shape.now caller (Batch draft.now (after_whole field)) scratch.now token.old token.new }
{
    let ann = draft.ann;
    store(
        words,
        shape,
        token,
        Location::AnnWord { ann, field },
        content,
    );
}

// It writes the old head, and what its announcement says of its stopper and its counts.
#[inline(always)]
fn write_rows(
    words: &Words,
    shape: &Shape,
    caller: u32,
    token: &mut Token,
    draft: &Draft,
    scratch: &Scratch,
)
    requires { Running words.now.table_id words.now.key shape.now caller (Batch draft.now (batch.StoreAll OldHead)) scratch.now token.old }
    ensures { Along words.now.table_id words.now.key shape.now caller (Batch draft.now (batch.StoreAll BatchNo)) scratch.now token.old token.new }
{
    let head = Content::OfHead(HeadWord::Node(draft.notice.old_head));
    let none = Content::OfOldTail(None);
    let first = Content::OfChainEnd(draft.notice.first);
    let last = Content::OfChainEnd(draft.notice.last);
    let counts = Content::OfCounts(draft.notice.counts);
    let field = AnnField::OldHead;
    write(words, shape, caller, token, draft, field, head, scratch);
    let field = AnnField::OldTail;
    write(words, shape, caller, token, draft, field, none, scratch);
    let field = AnnField::First;
    write(words, shape, caller, token, draft, field, first, scratch);
    let field = AnnField::Last;
    write(words, shape, caller, token, draft, field, last, scratch);
    let field = AnnField::Counts;
    write(words, shape, caller, token, draft, field, counts, scratch);
}

// It writes the number of its batch, and which of its operations are enqueues, which is none.
#[inline(always)]
fn write_order(
    words: &Words,
    shape: &Shape,
    caller: u32,
    token: &mut Token,
    draft: &Draft,
    scratch: &Scratch,
)
    requires { Running words.now.table_id words.now.key shape.now caller (Batch draft.now (batch.StoreAll BatchNo)) scratch.now token.old }
    ensures { Along words.now.table_id words.now.key shape.now caller (Batch draft.now batch.Install) scratch.now token.old token.new }
{
    let number = Content::OfBatchNo(draft.notice.number);
    let order0 = Content::OfOrder(draft.notice.order0);
    let order1 = Content::OfOrder(draft.notice.order1);
    let order2 = Content::OfOrder(draft.notice.order2);
    let order3 = Content::OfOrder(draft.notice.order3);
    let field = AnnField::BatchNo;
    write(words, shape, caller, token, draft, field, number, scratch);
    let field = AnnField::Order0;
    write(words, shape, caller, token, draft, field, order0, scratch);
    let field = AnnField::Order1;
    write(words, shape, caller, token, draft, field, order1, scratch);
    let field = AnnField::Order2;
    write(words, shape, caller, token, draft, field, order2, scratch);
    let field = AnnField::Order3;
    write(words, shape, caller, token, draft, field, order3, scratch);
}

// It installs its announcement over the old head. Gives whether it has; else it begins its walk again.
#[inline(always)]
fn install(
    words: &Words,
    shape: &Shape,
    caller: u32,
    token: &mut Token,
    draft: &Draft,
    scratch: &Scratch,
) -> bool
    requires runs { Running words.now.table_id words.now.key shape.now caller (Batch draft.now batch.Install) scratch.now token.old }
    requires alone { draft.now.notice.counts.enqs ≡ 0 }
    ensures { IsNext words.now.table_id words.now.key shape.now caller scratch.now token.old token.new (Goes (cond result (Guard (guard.Help (own_help draft.now)) StoreHazard) (Many (record { ann = Some draft.now.ann; notice = draft.now.notice }) LoadHead))) }
{
    let old_head = draft.notice.old_head;
    let node = Content::OfHead(HeadWord::Node(old_head));
    let installed = Content::OfHead(HeadWord::Ann {
        ann: draft.ann,
        count: old_head.count,
    });
    let found = exchange(words, shape, token, Location::Head, node, installed);
    is_dummy(found, old_head)
}

/// The steps of dequeues alone that have their stopper and their announcement, and store and install that.
pub fn announce_alone(
    words: &Words,
    shape: &Shape,
    caller: u32,
    token: &mut Token,
    draft: &Draft,
    scratch: &mut Scratch,
) -> Next
    requires runs { Running words.now.table_id words.now.key shape.now caller (Batch draft.now (batch.StoreAll OldHead)) scratch.old token.old }
    requires alone { draft.now.notice.counts.enqs ≡ 0 }
    ensures next { IsNext words.now.table_id words.now.key shape.now caller scratch.new token.old token.new result }
    ensures same { SamePuts scratch.old scratch.new }
{
    write_rows(words, shape, caller, token, draft, scratch);
    write_order(words, shape, caller, token, draft, scratch);
    if install(words, shape, caller, token, draft, scratch) {
        help_found(words, shape, caller, token, own_help(*draft), scratch)
    } else {
        let plan = Plan {
            ann: Some(draft.ann),
            notice: draft.notice,
        };
        Next::Goes(Point::Many(plan, ManyPoint::LoadHead))
    }
}
