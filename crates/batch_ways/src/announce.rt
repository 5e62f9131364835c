// The announcement of a batch, step after step: its owner chooses one that no other caller holds, writes it and installs it.
ghost use Rattle.std.specs.Prelude.{◌≡◌, ◌<◌, cond, length};
ghost use Rattle.word_rows.specs.declared.location.AnnField.TheVariants.{OldHead, OldTail, BatchNo};
ghost use Rattle.lane_steps.specs.Act.{is_node};
ghost use Rattle.lane_steps.specs.Batch.{after_field};
ghost use Rattle.lane_steps.specs.Fill.{first_store, scan_from};
ghost use Rattle.lane_steps.specs.Help.{help_of, own_help};
ghost use Rattle.lane_steps.specs.LaneSizes.{lane_sizes};
ghost use Rattle.lane_steps.specs.Notices.{field_in};
ghost use Rattle.lane_steps.specs.declared.point.BatchPoint.TheVariants as batch;
ghost use Rattle.lane_steps.specs.declared.point.GuardPoint.TheVariants.{StoreHazard};
ghost use Rattle.lane_steps.specs.declared.point.Guarding.TheVariants as guard;
ghost use Rattle.lane_steps.specs.declared.point.Point.TheVariants.{Batch, Guard};
ghost use Rattle.lane_rule.specs.Goes.{left_of};
ghost use Rattle.lane_course.specs.Along.{Along};
ghost use Rattle.lane_course.specs.Running.{Running, IsNext};
ghost use Rattle.lane_course.specs.Scratch.{SamePuts};

use crate::stopper::announce_alone;
use bq_model::Shape;
use excess_count::Counts;
use help_ways::help_found;
use lane_course::{Next, Scratch, note};
use lane_rule::{Token, Words, exchange, load, store};
use lane_steps::{Back, Draft, Help, Notice, hazard_in, head_in, past};
use node_guard::AnnStock;
use word_rows::{AnnField, Content, HeadWord, Location, Place};

// It loads the hazard words of the other callers. Gives the announcement that it chooses.
#[inline(always)]
fn listen_to_all(
    words: &Words,
    shape: &Shape,
    caller: u32,
    token: &mut Token,
    notice: &Notice,
    scratch: &mut Scratch,
) -> u32
    requires runs { Running words.now.table_id words.now.key shape.now caller (scan_from (lane_sizes shape.now) caller scratch.old.named.items notice.now 0) scratch.old token.old }
    requires left { length scratch.old.named.items < shape.now.callers }
    ensures chosen { Along words.now.table_id words.now.key shape.now caller (first_store (record { ann = result; notice = notice.now })) scratch.new token.old token.new }
    ensures same { SamePuts scratch.old scratch.new }
{
    let mut next = 0;
    'callers: loop {
        let other = past(caller, next);
        if shape.callers() <= other {
            return AnnStock::new(shape, caller).pick(scratch.named.as_slice());
        }
        let found = load(words, shape, token, Location::AnnHazard { caller: other });
        note(&mut scratch.named, hazard_in(found));
        next = other + 1;
    }
}

/// The steps of a batch that has its rows and chooses an announcement.
pub fn choose(
    words: &Words,
    shape: &Shape,
    caller: u32,
    token: &mut Token,
    notice: Notice,
    scratch: &mut Scratch,
) -> Next
    requires runs { Running words.now.table_id words.now.key shape.now caller (scan_from (lane_sizes shape.now) caller scratch.old.named.items notice 0) scratch.old token.old }
    requires left { length scratch.old.named.items < shape.now.callers }
    ensures next { IsNext words.now.table_id words.now.key shape.now caller scratch.new token.old token.new result }
    ensures same { SamePuts scratch.old scratch.new }
{
    let ann = listen_to_all(words, shape, caller, token, &notice, scratch);
    let draft = Draft { ann, notice };
    if notice.counts.enqs == 0 {
        return announce_alone(words, shape, caller, token, &draft, scratch);
    }
    write_rows(words, shape, caller, token, &draft, scratch);
    write_order(words, shape, caller, token, &draft, scratch);
    install(words, shape, caller, token, draft, scratch)
}

// It stores this field of its announcement, which says this.
#[inline(always)]
fn write(
    words: &Words,
    shape: &Shape,
    caller: u32,
    token: &mut Token,
    draft: &Draft,
    field: AnnField,
    content: Content,
    scratch: &Scratch,
)
    requires runs { Running words.now.table_id words.now.key shape.now caller (Batch draft.now (batch.StoreField field)) scratch.now token.old }
    requires content { field_in draft.now.notice field ≡ content }
    ensures { Along words.now.table_id words.now.key shape.now caller (Batch draft.now (after_field field)) scratch.now token.old token.new }
{
    let ann = draft.ann;
    store(
        words,
        shape,
        token,
        Location::AnnWord { ann, field },
        content,
    );
}

// It writes what its announcement says of its rows and its counts.
#[inline(always)]
fn write_rows(
    words: &Words,
    shape: &Shape,
    caller: u32,
    token: &mut Token,
    draft: &Draft,
    scratch: &Scratch,
)
    requires { Running words.now.table_id words.now.key shape.now caller (Batch draft.now (batch.StoreField OldTail)) scratch.now token.old }
    ensures { Along words.now.table_id words.now.key shape.now caller (Batch draft.now (batch.StoreField BatchNo)) scratch.now token.old token.new }
{
    let none = Content::OfOldTail(None);
    let first = Content::OfChainEnd(draft.notice.first);
    let last = Content::OfChainEnd(draft.notice.last);
    let counts = Content::OfCounts(draft.notice.counts);
    let field = AnnField::OldTail;
    write(words, shape, caller, token, draft, field, none, scratch);
    let field = AnnField::First;
    write(words, shape, caller, token, draft, field, first, scratch);
    let field = AnnField::Last;
    write(words, shape, caller, token, draft, field, last, scratch);
    let field = AnnField::Counts;
    write(words, shape, caller, token, draft, field, counts, scratch);
}

// It writes the number of its batch, and which of its operations are enqueues.
#[inline(always)]
fn write_order(
    words: &Words,
    shape: &Shape,
    caller: u32,
    token: &mut Token,
    draft: &Draft,
    scratch: &Scratch,
)
    requires { Running words.now.table_id words.now.key shape.now caller (Batch draft.now (batch.StoreField BatchNo)) scratch.now token.old }
    ensures { Along words.now.table_id words.now.key shape.now caller (Batch draft.now batch.LoadHead) scratch.now token.old token.new }
{
    let number = Content::OfBatchNo(draft.notice.number);
    let order0 = Content::OfOrder(draft.notice.order0);
    let order1 = Content::OfOrder(draft.notice.order1);
    let order2 = Content::OfOrder(draft.notice.order2);
    let order3 = Content::OfOrder(draft.notice.order3);
    let field = AnnField::BatchNo;
    write(words, shape, caller, token, draft, field, number, scratch);
    let field = AnnField::Order0;
    write(words, shape, caller, token, draft, field, order0, scratch);
    let field = AnnField::Order1;
    write(words, shape, caller, token, draft, field, order1, scratch);
    let field = AnnField::Order2;
    write(words, shape, caller, token, draft, field, order2, scratch);
    let field = AnnField::Order3;
    write(words, shape, caller, token, draft, field, order3, scratch);
}

// Whether the head was found at this node.
#[inline(always)]
fn is_node(head: HeadWord, place: Place) -> bool
    ensures { result ≡ is_node head place }
{
    match head {
        HeadWord::Node(dummy) => dummy == place,
        HeadWord::Ann { .. } => false,
    }
}

// It stores the old head, and installs its announcement over that. Gives whether it has.
#[inline(always)]
fn install_over(
    words: &Words,
    shape: &Shape,
    caller: u32,
    token: &mut Token,
    draft: &Draft,
    scratch: &Scratch,
) -> bool
    requires runs { Running words.now.table_id words.now.key shape.now caller (Batch draft.now (batch.StoreField OldHead)) scratch.now token.old }
    requires puts { 0 < draft.now.notice.counts.enqs }
    ensures installed { Along words.now.table_id words.now.key shape.now caller (cond result (Guard (guard.Help (own_help draft.now)) StoreHazard) (Batch draft.now batch.LoadHead)) scratch.now token.old token.new }
    ensures less { left_of token.new.me.0 < left_of token.old.me.0 }
{
    let ann = draft.ann;
    let old_head = draft.notice.old_head;
    let node = Content::OfHead(HeadWord::Node(old_head));
    let installed = Content::OfHead(HeadWord::Ann {
        ann,
        count: old_head.count,
    });
    let field = AnnField::OldHead;
    write(words, shape, caller, token, draft, field, node, scratch);
    let found = exchange(words, shape, token, Location::Head, node, installed);
    is_node(head_in(found), old_head)
}

/// The steps of a batch that has written its announcement, but for the old head, and installs it.
pub fn install(
    words: &Words,
    shape: &Shape,
    caller: u32,
    token: &mut Token,
    draft: Draft,
    scratch: &mut Scratch,
) -> Next
    requires runs { Running words.now.table_id words.now.key shape.now caller (Batch draft batch.LoadHead) scratch.old token.old }
    requires puts { 0 < draft.notice.counts.enqs }
    ensures next { IsNext words.now.table_id words.now.key shape.now caller scratch.new token.old token.new result }
    ensures same { SamePuts scratch.old scratch.new }
{
    let mut draft = draft;
    'tries: loop {
        match head_in(load(words, shape, token, Location::Head)) {
            HeadWord::Node(old_head) => {
                draft.notice.old_head = old_head;
                if install_over(words, shape, caller, token, &draft, scratch) {
                    return help_found(words, shape, caller, token, own_help(draft), scratch);
                }
            }
            HeadWord::Ann { ann, count } => {
                let help = help_of(ann, count, Back::Batch(draft));
                return help_found(words, shape, caller, token, help, scratch);
            }
        }
    }
}

// The help of an announcement that was found in HEAD with this count.
fn help_of(ann: u32, count: u64, back: Back) -> Help
    ensures { result ≡ help_of ann count back }
{
    Help {
        ann,
        old_head: Place { row: 0, count },
        first: 0,
        last: 0,
        counts: Counts {
            enqs: 0,
            deqs: 0,
            excess: 0,
        },
        back,
    }
}

/// The help of its own announcement.
pub fn own_help(draft: Draft) -> Help
    ensures { result ≡ own_help draft }
{
    Help {
        ann: draft.ann,
        old_head: draft.notice.old_head,
        first: draft.notice.first,
        last: draft.notice.last,
        counts: draft.notice.counts,
        back: Back::Own,
    }
}
