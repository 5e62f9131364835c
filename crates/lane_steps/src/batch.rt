// A batch that has chosen its announcement, until this is installed: its owner stores the fields of the announcement. Where
// there is an enqueue it stores OldHead last, and again after an install that failed; dequeues alone store all from OldHead on.
ghost use Rattle.std.specs.Prelude.{◌≡◌};
ghost use Rattle.lane_steps.specs.Batch.{act, after_field, after_whole, after_head, retry, course, kind_of};

use crate::act::Act;
use crate::course::Course;
use crate::found::head_in;
use crate::help::{help_of, own_help};
use crate::kind::StepKind;
use crate::point::{Back, BatchPoint, Draft, GuardPoint, Guarding, ManyPoint, Notice, Plan, Point};
use word_rows::{AnnField, Content, HeadWord, Location};

// It has stored this field.
fn after_field(field: AnnField) -> BatchPoint
    ensures { result ≡ after_field field }
{
    BatchPoint::StoreField(match field {
        AnnField::OldHead => return BatchPoint::Install,
        AnnField::OldTail => AnnField::First,
        AnnField::First => AnnField::Last,
        AnnField::Last => AnnField::Counts,
        AnnField::Counts => AnnField::BatchNo,
        AnnField::BatchNo => AnnField::Order0,
        AnnField::Order0 => AnnField::Order1,
        AnnField::Order1 => AnnField::Order2,
        AnnField::Order2 => AnnField::Order3,
        AnnField::Order3 => return BatchPoint::LoadHead,
    })
}

// It has no enqueue, and has stored this field.
fn after_whole(field: AnnField) -> BatchPoint
    ensures { result ≡ after_whole field }
{
    BatchPoint::StoreAll(match field {
        AnnField::OldHead => AnnField::OldTail,
        AnnField::OldTail => AnnField::First,
        AnnField::First => AnnField::Last,
        AnnField::Last => AnnField::Counts,
        AnnField::Counts => AnnField::BatchNo,
        AnnField::BatchNo => AnnField::Order0,
        AnnField::Order0 => AnnField::Order1,
        AnnField::Order1 => AnnField::Order2,
        AnnField::Order2 => AnnField::Order3,
        AnnField::Order3 => return BatchPoint::Install,
    })
}

// It found this in HEAD.
fn after_head(draft: Draft, head: HeadWord) -> Point
    ensures { result ≡ after_head draft head }
{
    match head {
        HeadWord::Node(old_head) => {
            let notice = Notice {
                old_head,
                ..draft.notice
            };
            let ann = draft.ann;
            Point::Batch(
                Draft { ann, notice },
                BatchPoint::StoreField(AnnField::OldHead),
            )
        }
        HeadWord::Ann { ann, count } => Point::Guard(
            Guarding::Help(help_of(ann, count, Back::Batch(draft))),
            GuardPoint::StoreHazard,
        ),
    }
}

// Another head word was there at the install.
fn retry(draft: Draft) -> Point
    ensures { result ≡ retry draft }
{
    if draft.notice.counts.enqs == 0 {
        let plan = Plan {
            ann: Some(draft.ann),
            notice: draft.notice,
        };
        Point::Many(plan, ManyPoint::LoadHead)
    } else {
        Point::Batch(draft, BatchPoint::LoadHead)
    }
}

impl BatchPoint {
    /// What the next step does with its word.
    pub fn act(self, draft: Draft) -> Act
        ensures { result ≡ act draft self }
    {
        match self {
            BatchPoint::StoreField(field) | BatchPoint::StoreAll(field) => Act::Store(
                Location::AnnWord {
                    ann: draft.ann,
                    field,
                },
                draft.notice.field(field),
            ),
            BatchPoint::LoadHead => Act::Load(Location::Head),
            BatchPoint::Install => {
                let old_head = draft.notice.old_head;
                Act::Exchange(
                    Location::Head,
                    Content::OfHead(HeadWord::Node(old_head)),
                    Content::OfHead(HeadWord::Ann {
                        ann: draft.ann,
                        count: old_head.count,
                    }),
                )
            }
        }
    }

    /// What becomes of the call after the step that found this in its word.
    pub fn course(self, draft: Draft, found: Content) -> Course
        ensures { result ≡ course draft self found }
    {
        Course::GoesOn(match self {
            BatchPoint::StoreField(field) => Point::Batch(draft, after_field(field)),
            BatchPoint::StoreAll(field) => Point::Batch(draft, after_whole(field)),
            BatchPoint::LoadHead => after_head(draft, head_in(found)),
            BatchPoint::Install => {
                if head_in(found) == HeadWord::Node(draft.notice.old_head) {
                    Point::Guard(Guarding::Help(own_help(draft)), GuardPoint::StoreHazard)
                } else {
                    retry(draft)
                }
            }
        })
    }

    /// The kind of the next step.
    pub fn kind(self) -> StepKind
        ensures { result ≡ kind_of self }
    {
        match self {
            BatchPoint::StoreField(_) | BatchPoint::StoreAll(_) => StepKind::StoreAnn,
            BatchPoint::LoadHead => StepKind::LoadHead,
            BatchPoint::Install => StepKind::Install,
        }
    }
}
