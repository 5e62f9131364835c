// An enqueue of the value of an item, whose row is taken: it stores the value, and links the row behind the last one.
ghost use Rattle.std.specs.Prelude.{◌≡◌};
ghost use Rattle.lane_steps.specs.Enqueue.{act, after_link, after_head, course, kind_of};
ghost use Rattle.lane_steps.specs.Ranges.{CountsFit};

use crate::act::{Act, by_one};
use crate::course::Course;
use crate::found::{head_in, link_in, tail_in};
use crate::help::help_of;
use crate::kind::StepKind;
use crate::point::{Back, Closing, EnqueuePoint, GuardPoint, Guarding, Item, Point};
use bq_model::Answer;
use word_rows::{Content, HeadWord, LinkWord, Location, Place};

// It found this behind the row that TAIL names.
fn after_link(tail: Place, link: LinkWord) -> EnqueuePoint
    ensures { result ≡ after_link tail link }
{
    match link {
        LinkWord::Nil => EnqueuePoint::LinkSingle(tail),
        LinkWord::Single(row) => EnqueuePoint::PassTail { tail, row },
        LinkWord::Chain(_) => EnqueuePoint::LoadHead,
        LinkWord::Shut => EnqueuePoint::LoadTail,
    }
}

// It met a chain, and found this in HEAD.
fn after_head(item: Item, head: HeadWord) -> Point
    ensures { result ≡ after_head item head }
{
    match head {
        HeadWord::Node(_) => Point::Enqueue(item, EnqueuePoint::LoadTail),
        HeadWord::Ann { ann, count } => Point::Guard(
            Guarding::Help(help_of(ann, count, Back::Enqueue(item))),
            GuardPoint::StoreHazard,
        ),
    }
}

impl EnqueuePoint {
    /// What the next step does with its word.
    pub fn act(self, item: Item) -> Act
        requires { CountsFit (Point.Enqueue item self) }
        ensures { result ≡ act item self }
    {
        match self {
            EnqueuePoint::StoreValue => Act::Store(
                Location::Value { row: item.row },
                Content::OfValue(item.value),
            ),
            EnqueuePoint::LoadTail => Act::Load(Location::Tail),
            EnqueuePoint::LoadLink(tail) => Act::Load(Location::Link { row: tail.row }),
            EnqueuePoint::LinkSingle(tail) => Act::Exchange(
                Location::Link { row: tail.row },
                Content::OfLink(LinkWord::Nil),
                Content::OfLink(LinkWord::Single(item.row)),
            ),
            EnqueuePoint::PassTail { tail, row } | EnqueuePoint::MoveTail { tail, row } => {
                by_one(tail, row)
            }
            EnqueuePoint::LoadHead => Act::Load(Location::Head),
        }
    }

    /// What becomes of the call after the step that found this in its word.
    pub fn course(self, item: Item, found: Content) -> Course
        ensures { result ≡ course item self found }
    {
        Course::GoesOn(match self {
            EnqueuePoint::MoveTail { .. } => return Course::Closes(Closing::Plain(Answer::Done)),
            EnqueuePoint::LoadHead => after_head(item, head_in(found)),
            EnqueuePoint::StoreValue | EnqueuePoint::PassTail { .. } => {
                Point::Enqueue(item, EnqueuePoint::LoadTail)
            }
            EnqueuePoint::LoadTail => {
                Point::Guard(
                    Guarding::Enqueue(item, tail_in(found)),
                    GuardPoint::StoreHazard,
                )
            }
            EnqueuePoint::LoadLink(tail) => Point::Enqueue(item, after_link(tail, link_in(found))),
            EnqueuePoint::LinkSingle(tail) => {
                let point = if link_in(found) == LinkWord::Nil {
                    EnqueuePoint::MoveTail {
                        tail,
                        row: item.row,
                    }
                } else {
                    EnqueuePoint::LoadTail
                };
                Point::Enqueue(item, point)
            }
        })
    }

    /// The kind of the next step.
    pub fn kind(self) -> StepKind
        ensures { result ≡ kind_of self }
    {
        match self {
            EnqueuePoint::StoreValue => StepKind::StoreValue,
            EnqueuePoint::LoadTail => StepKind::LoadTail,
            EnqueuePoint::LoadLink(_) => StepKind::LoadLink,
            EnqueuePoint::LinkSingle(_) => StepKind::LinkSingle,
            EnqueuePoint::PassTail { .. } | EnqueuePoint::MoveTail { .. } => StepKind::MoveTail,
            EnqueuePoint::LoadHead => StepKind::LoadHead,
        }
    }
}
