// Several dequeues and no enqueue: the batch walks behind the dummy for its values, and moves HEAD over all of their rows at
// once. Where it finds fewer it announces itself, with its stopper as the chain.
ghost use Rattle.std.specs.Prelude.{◌≡◌};
ghost use Rattle.lane_steps.specs.Many.{act, after_head, after_chained, after_dummy, announces, after_link, after_value, after_tail, after_behind, course, kind_of};
ghost use Rattle.lane_steps.specs.Ranges.{CountsFit};

use crate::act::{Act, by_one};
use crate::course::Course;
use crate::found::{far_behind, head_in, link_in, tail_in, value_in};
use crate::help::help_of;
use crate::kind::StepKind;
use crate::point::{
    Back, BatchPoint, Closing, Draft, GuardPoint, Guarding, ManyPoint, Notice, Plan, Point, Taking,
};
use word_rows::{AnnField, Content, HeadWord, LinkWord, Location, Place};

// It found this in HEAD.
fn after_head(plan: Plan, head: HeadWord) -> Point
    ensures { result ≡ after_head plan head }
{
    match head {
        HeadWord::Node(old_head) => {
            let notice = Notice {
                old_head,
                ..plan.notice
            };
            let ann = plan.ann;
            Point::Guard(
                Guarding::Many(Plan { ann, notice }),
                GuardPoint::StoreHazard,
            )
        }
        HeadWord::Ann { ann, count } => Point::Guard(
            Guarding::Help(help_of(ann, count, Back::Many(plan))),
            GuardPoint::StoreHazard,
        ),
    }
}

// It met a chain, and found this in HEAD.
fn after_chained(plan: Plan, head: HeadWord) -> Point
    ensures { result ≡ after_chained plan head }
{
    match head {
        HeadWord::Node(_) => Point::Many(plan, ManyPoint::LoadHead),
        HeadWord::Ann { ann, count } => Point::Guard(
            Guarding::Help(help_of(ann, count, Back::Many(plan))),
            GuardPoint::StoreHazard,
        ),
    }
}

// It found this behind the dummy.
fn after_dummy(plan: Plan, link: LinkWord) -> Course
    ensures { result ≡ after_dummy plan link }
{
    let left = plan.notice.counts.deqs.saturating_sub(1);
    match link {
        LinkWord::Nil => Course::Closes(Closing::Batch(0)),
        LinkWord::Single(row) | LinkWord::Chain(row) => {
            Course::Walks(Point::Many(plan, ManyPoint::LoadValue { row, left }))
        }
        LinkWord::Shut => Course::GoesOn(Point::Many(plan, ManyPoint::LoadHead)),
    }
}

// There are too few values: it stores its announcement, for which it takes a stopper and chooses one first where it hasn't.
fn announces(notice: Notice, ann: Option<u32>) -> Course
    ensures { result ≡ announces notice ann }
{
    match ann {
        None => Course::Takes(Taking::Stopper(notice)),
        Some(ann) => {
            let point = BatchPoint::StoreAll(AnnField::OldHead);
            Course::GoesOn(Point::Batch(Draft { ann, notice }, point))
        }
    }
}

// It found this behind a row that it has walked to, with so many values to go behind the next one.
fn after_link(plan: Plan, left: u32, link: LinkWord) -> Course
    ensures { result ≡ after_link plan left link }
{
    let point = match link {
        LinkWord::Nil => return announces(plan.notice, plan.ann),
        LinkWord::Single(row) | LinkWord::Chain(row) => ManyPoint::LoadValue { row, left },
        LinkWord::Shut => ManyPoint::LoadHead,
    };
    Course::GoesOn(Point::Many(plan, point))
}

// It has read the value of the row, with so many to go.
fn after_value(row: u32, left: u32) -> ManyPoint
    ensures { result ≡ after_value row left }
{
    if left == 0 {
        ManyPoint::LoadTail { row }
    } else {
        ManyPoint::LoadLink {
            row,
            left: left - 1,
        }
    }
}

// It found this tail, where the row is to be the new dummy.
fn after_tail(plan: Plan, row: u32, tail: Place) -> Point
    ensures { result ≡ after_tail plan row tail }
{
    let passed = tail.count.saturating_sub(plan.notice.old_head.count);
    if u64::from(plan.notice.counts.deqs) <= passed {
        Point::Many(plan, ManyPoint::MoveHead { row })
    } else {
        Point::Guard(Guarding::ManyTail(plan, tail), GuardPoint::StoreHazard)
    }
}

// It found this behind the row of a tail that lies before the new dummy.
fn after_behind(tail: Place, link: LinkWord) -> ManyPoint
    ensures { result ≡ after_behind tail link }
{
    match link {
        LinkWord::Nil | LinkWord::Shut => ManyPoint::LoadHead,
        LinkWord::Single(row) => ManyPoint::PassTail { tail, row },
        LinkWord::Chain(_) => ManyPoint::LoadChained,
    }
}

impl ManyPoint {
    /// What the next step does with its word.
    pub fn act(self, plan: Plan) -> Act
        requires { CountsFit (Point.Many plan self) }
        ensures { result ≡ act plan self }
    {
        match self {
            ManyPoint::LoadHead | ManyPoint::LoadChained => Act::Load(Location::Head),
            ManyPoint::LoadDummy => Act::Load(Location::Link {
                row: plan.notice.old_head.row,
            }),
            ManyPoint::LoadLink { row, .. } => Act::Load(Location::Link { row }),
            ManyPoint::LoadValue { row, .. } => Act::Load(Location::Value { row }),
            ManyPoint::LoadTail { .. } => Act::Load(Location::Tail),
            ManyPoint::MoveHead { row } => {
                let old_head = plan.notice.old_head;
                let deqs = plan.notice.counts.deqs;
                Act::Exchange(
                    Location::Head,
                    Content::OfHead(HeadWord::Node(old_head)),
                    Content::OfHead(HeadWord::Node(far_behind(old_head, row, deqs))),
                )
            }
            ManyPoint::LoadBehind(tail) => Act::Load(Location::Link { row: tail.row }),
            ManyPoint::PassTail { tail, row } => by_one(tail, row),
        }
    }

    /// What becomes of the call after the step that found this in its word.
    pub fn course(self, plan: Plan, found: Content) -> Course
        ensures { result ≡ course plan self found }
    {
        let point = match self {
            ManyPoint::LoadHead => return Course::GoesOn(after_head(plan, head_in(found))),
            ManyPoint::LoadDummy => return after_dummy(plan, link_in(found)),
            ManyPoint::LoadLink { left, .. } => return after_link(plan, left, link_in(found)),
            ManyPoint::LoadValue { row, left } => {
                return Course::WalksMore {
                    point: Point::Many(plan, after_value(row, left)),
                    row,
                    value: value_in(found),
                };
            }
            ManyPoint::LoadTail { row } => {
                return Course::GoesOn(after_tail(plan, row, tail_in(found)));
            }
            ManyPoint::MoveHead { .. } => {
                if head_in(found) == HeadWord::Node(plan.notice.old_head) {
                    return Course::Moves {
                        dummy: plan.notice.old_head,
                        queued: u64::from(plan.notice.counts.deqs),
                    };
                }
                ManyPoint::LoadHead
            }
            ManyPoint::LoadBehind(tail) => after_behind(tail, link_in(found)),
            ManyPoint::PassTail { .. } => ManyPoint::LoadHead,
            ManyPoint::LoadChained => return Course::GoesOn(after_chained(plan, head_in(found))),
        };
        Course::GoesOn(Point::Many(plan, point))
    }

    /// The kind of the next step.
    pub fn kind(self) -> StepKind
        ensures { result ≡ kind_of self }
    {
        match self {
            ManyPoint::LoadHead | ManyPoint::LoadChained => StepKind::LoadHead,
            ManyPoint::LoadDummy | ManyPoint::LoadLink { .. } => StepKind::LoadLink,
            ManyPoint::LoadValue { .. } => StepKind::LoadValue,
            ManyPoint::LoadTail { .. } => StepKind::LoadTail,
            ManyPoint::MoveHead { .. } => StepKind::MoveHeadMany,
            ManyPoint::LoadBehind(_) => StepKind::LoadLink,
            ManyPoint::PassTail { .. } => StepKind::MoveTail,
        }
    }
}
