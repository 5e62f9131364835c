// A help of an announcement that the caller holds: it reads the announcement, links its chain or its stopper where it has
// one to link, records its old tail, and moves TAIL and HEAD.
ghost use Rattle.std.specs.Prelude.{◌≡◌, Some, None};
ghost use Rattle.lane_steps.specs.Help.{help_of, own_help, act, at_old_tail, after_old_tail, after_link, after_record, walk_on, walk_from, walk, back_point, after_walk, course, kind_of};
ghost use Rattle.lane_steps.specs.Ranges.{CountsFit};

use crate::act::{Act, by_one};
use crate::count::{before_it, gets, has_enough, is_stopped, linked_rows};
use crate::course::Course;
use crate::found::{far_behind, link_in, old_tail_in, tail_in};
use crate::kind::StepKind;
use crate::notice::{chain_end_in, counts_in, dummy_in};
use crate::point::{
    AnswerPoint, Back, BatchPoint, DequeuePoint, Draft, EnqueuePoint, GuardPoint, Guarding, Help,
    HelpPoint, ManyPoint, Point,
};
use excess_count::Counts;
use word_rows::{AnnField, Content, HeadWord, LinkWord, Location, Place};

/// The help of an announcement that was found in HEAD with this count, and of which nothing is read yet.
pub fn help_of(ann: u32, count: u64, back: Back) -> Help
    ensures { result ≡ help_of ann count back }
{
    Help {
        ann,
        old_head: Place { row: 0, count },
        first: 0,
        last: 0,
        counts: Counts {
            enqs: 0,
            deqs: 0,
            excess: 0,
        },
        back,
    }
}

/// The help of the own announcement, as it was written.
pub fn own_help(draft: Draft) -> Help
    ensures { result ≡ own_help draft }
{
    Help {
        ann: draft.ann,
        old_head: draft.notice.old_head,
        first: draft.notice.first,
        last: draft.notice.last,
        counts: draft.notice.counts,
        back: Back::Own,
    }
}

fn field_of(ann: u32, field: AnnField) -> Act
    ensures { result ≡ Act.Load (Location.AnnWord ann field) }
{
    Act::Load(Location::AnnWord { ann, field })
}

// It found this behind the row that TAIL names.
fn after_link(help: Help, tail: Place, link: LinkWord) -> HelpPoint
    ensures { result ≡ after_link help tail link }
{
    match link {
        LinkWord::Nil => HelpPoint::LinkChain(tail),
        LinkWord::Single(row) => HelpPoint::PassTail { tail, row },
        LinkWord::Chain(row) => {
            if row == help.first {
                HelpPoint::RecordTail(tail)
            } else {
                HelpPoint::LoadTail
            }
        }
        LinkWord::Shut => HelpPoint::LoadTail,
    }
}

// The batch gets so many values, and it has come to the row, with so many links to go.
fn walk_on(values: u32, row: u32, left: u32) -> HelpPoint
    ensures { result ≡ walk_on values row left }
{
    if left == 0 {
        HelpPoint::MoveHead {
            passed: values,
            row,
        }
    } else {
        HelpPoint::LoadWalk {
            values,
            row,
            left: left - 1,
        }
    }
}

// It begins its walk to the new dummy, from the old one or from the old tail.
fn walk_from(help: Help, old_tail: Place, queued: u64, values: u32) -> HelpPoint
    ensures { result ≡ walk_from help old_tail queued values }
{
    if u64::from(values) < queued {
        walk_on(values, help.old_head.row, values)
    } else {
        walk_on(values, old_tail.row, values - queued as u32)
    }
}

// A stopper is the new dummy at once.
fn walk(help: Help, old_tail: Place) -> HelpPoint
    ensures { result ≡ walk help old_tail }
{
    let queued = before_it(help, old_tail);
    if is_stopped(help.counts, queued) {
        HelpPoint::MoveHead {
            passed: queued as u32 + 1,
            row: help.last,
        }
    } else {
        walk_from(help, old_tail, queued, gets(help.counts, queued))
    }
}

// It knows OldTail.
fn at_old_tail(help: Help, old_tail: Place) -> HelpPoint
    ensures { result ≡ at_old_tail help old_tail }
{
    if 0 < linked_rows(help.counts, before_it(help, old_tail)) {
        HelpPoint::LoadTailOver(old_tail)
    } else {
        walk(help, old_tail)
    }
}

// It found this in OldTail.
fn after_old_tail(help: Help, tail: Place, old_tail: Option<Place>) -> HelpPoint
    ensures { result ≡ after_old_tail help tail old_tail }
{
    match old_tail {
        None => {
            if has_enough(help, tail) {
                HelpPoint::Decide(tail)
            } else {
                HelpPoint::LoadLink(tail)
            }
        }
        Some(known) => at_old_tail(help, known),
    }
}

// It wanted to record this tail, and found this in OldTail.
fn after_record(help: Help, tail: Place, old_tail: Option<Place>) -> HelpPoint
    ensures { result ≡ after_record help tail old_tail }
{
    match old_tail {
        None => at_old_tail(help, tail),
        Some(known) => at_old_tail(help, known),
    }
}

// The exchange of OldTail of an announcement, which isn't known yet, to this tail.
fn record_of(ann: u32, tail: Place) -> Act
    ensures { result ≡ Act.Exchange (Location.AnnWord ann AnnField.OldTail) (Content.OfOldTail None) (Content.OfOldTail (Some tail)) }
{
    Act::Exchange(
        Location::AnnWord {
            ann,
            field: AnnField::OldTail,
        },
        Content::OfOldTail(None),
        Content::OfOldTail(Some(tail)),
    )
}

/// Where the caller goes on after it.
pub fn back_point(help: Help, back: Back) -> Point
    ensures { result ≡ back_point help back }
{
    match back {
        Back::Own => Point::Answer(AnswerPoint::LoadOldTail(help)),
        Back::Enqueue(item) => Point::Enqueue(item, EnqueuePoint::LoadTail),
        Back::Dequeue => Point::Dequeue(DequeuePoint::LoadHead),
        Back::Batch(draft) => Point::Batch(draft, BatchPoint::LoadHead),
        Back::Many(plan) => Point::Many(plan, ManyPoint::LoadHead),
    }
}

// It found this on its walk.
fn after_walk(help: Help, values: u32, left: u32, link: LinkWord) -> Point
    ensures { result ≡ after_walk help values left link }
{
    match link {
        LinkWord::Single(row) => Point::Help(help, walk_on(values, row, left)),
        LinkWord::Chain(row) => Point::Help(help, walk_on(values, row, left)),
        LinkWord::Nil => back_point(help, help.back),
        LinkWord::Shut => back_point(help, help.back),
    }
}

impl HelpPoint {
    /// What the next step does with its word.
    pub fn act(self, help: Help) -> Act
        requires { CountsFit (Point.Help help self) }
        ensures { result ≡ act help self }
    {
        match self {
            HelpPoint::LoadOldHead => field_of(help.ann, AnnField::OldHead),
            HelpPoint::LoadFirst => field_of(help.ann, AnnField::First),
            HelpPoint::LoadLast => field_of(help.ann, AnnField::Last),
            HelpPoint::LoadCounts => field_of(help.ann, AnnField::Counts),
            HelpPoint::LoadOldTail(_) => field_of(help.ann, AnnField::OldTail),
            HelpPoint::LoadTail | HelpPoint::LoadTailOver(_) => Act::Load(Location::Tail),
            HelpPoint::LoadLink(tail) => Act::Load(Location::Link { row: tail.row }),
            HelpPoint::LoadWalk { row, .. } => Act::Load(Location::Link { row }),
            HelpPoint::LinkChain(tail) => Act::Exchange(
                Location::Link { row: tail.row },
                Content::OfLink(LinkWord::Nil),
                Content::OfLink(LinkWord::Chain(help.first)),
            ),
            HelpPoint::PassTail { tail, row } => by_one(tail, row),
            HelpPoint::RecordTail(tail) | HelpPoint::Decide(tail) => record_of(help.ann, tail),
            HelpPoint::MoveTailOver(tail) => {
                let rows = linked_rows(help.counts, before_it(help, tail));
                Act::Exchange(
                    Location::Tail,
                    Content::OfTail(tail),
                    Content::OfTail(far_behind(tail, help.last, rows)),
                )
            }
            HelpPoint::MoveHead { passed, row } => Act::Exchange(
                Location::Head,
                Content::OfHead(HeadWord::Ann {
                    ann: help.ann,
                    count: help.old_head.count,
                }),
                Content::OfHead(HeadWord::Node(far_behind(help.old_head, row, passed))),
            ),
        }
    }

    /// What becomes of the call after the step that found this in its word.
    pub fn course(self, help: Help, found: Content) -> Course
        ensures { result ≡ course help self found }
    {
        let point = match self {
            HelpPoint::LoadWalk { values, left, .. } => {
                return Course::GoesOn(after_walk(help, values, left, link_in(found)));
            }
            HelpPoint::MoveHead { .. } => return Course::GoesOn(back_point(help, help.back)),
            HelpPoint::LoadOldHead => {
                let old_head = dummy_in(found);
                return Course::GoesOn(Point::Help(Help { old_head, ..help }, HelpPoint::LoadFirst));
            }
            HelpPoint::LoadFirst => {
                let first = chain_end_in(found);
                return Course::GoesOn(Point::Help(Help { first, ..help }, HelpPoint::LoadLast));
            }
            HelpPoint::LoadLast => {
                let last = chain_end_in(found);
                return Course::GoesOn(Point::Help(Help { last, ..help }, HelpPoint::LoadCounts));
            }
            HelpPoint::LoadCounts => {
                let counts = counts_in(found);
                return Course::GoesOn(Point::Help(Help { counts, ..help }, HelpPoint::LoadTail));
            }
            HelpPoint::LoadTail => {
                return Course::GoesOn(Point::Guard(
                    Guarding::HelpTail(help, tail_in(found)),
                    GuardPoint::StoreHazard,
                ));
            }
            HelpPoint::LoadOldTail(tail) => after_old_tail(help, tail, old_tail_in(found)),
            HelpPoint::LoadLink(tail) => after_link(help, tail, link_in(found)),
            HelpPoint::LinkChain(_) | HelpPoint::PassTail { .. } => HelpPoint::LoadTail,
            HelpPoint::RecordTail(tail) | HelpPoint::Decide(tail) => {
                after_record(help, tail, old_tail_in(found))
            }
            HelpPoint::LoadTailOver(old_tail) => {
                if tail_in(found) == old_tail {
                    HelpPoint::MoveTailOver(old_tail)
                } else {
                    walk(help, old_tail)
                }
            }
            HelpPoint::MoveTailOver(old_tail) => walk(help, old_tail),
        };
        Course::GoesOn(Point::Help(help, point))
    }

    /// The kind of the next step.
    pub fn kind(self, help: Help) -> StepKind
        ensures { result ≡ kind_of help self }
    {
        match self {
            HelpPoint::LoadOldHead | HelpPoint::LoadFirst | HelpPoint::LoadLast => {
                StepKind::LoadAnn
            }
            HelpPoint::LoadCounts | HelpPoint::LoadOldTail(_) => StepKind::LoadAnn,
            HelpPoint::LoadTail | HelpPoint::LoadTailOver(_) => StepKind::LoadTail,
            HelpPoint::LoadLink(_) | HelpPoint::LoadWalk { .. } => StepKind::LoadLink,
            HelpPoint::LinkChain(_) => {
                if help.counts.enqs == 0 {
                    StepKind::LinkStopper
                } else {
                    StepKind::LinkChain
                }
            }
            HelpPoint::Decide(_) => StepKind::Decide,
            HelpPoint::PassTail { .. } => StepKind::MoveTail,
            HelpPoint::RecordTail(_) => StepKind::RecordTail,
            HelpPoint::MoveTailOver(_) => StepKind::MoveTailOver,
            HelpPoint::MoveHead { .. } => StepKind::MoveHeadAnn,
        }
    }
}
