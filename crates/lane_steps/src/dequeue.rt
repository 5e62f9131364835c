// A dequeue: it finds the row behind the dummy, and moves HEAD to it.
ghost use Rattle.std.specs.Prelude.{◌≡◌};
ghost use Rattle.lane_steps.specs.Dequeue.{act, after_head, after_link, course, kind_of};
ghost use Rattle.lane_steps.specs.Ranges.{CountsFit};

use crate::act::{Act, by_one};
use crate::course::Course;
use crate::found::{behind, head_in, link_in, tail_in, value_in};
use crate::help::help_of;
use crate::kind::StepKind;
use crate::point::{Back, Closing, DequeuePoint, GuardPoint, Guarding, Point};
use bq_model::Answer;
use word_rows::{Content, HeadWord, LinkWord, Location, Place};

// It found this in HEAD.
fn after_head(head: HeadWord) -> Point
    ensures { result ≡ after_head head }
{
    match head {
        HeadWord::Node(dummy) => { Point::Guard(Guarding::Dequeue(dummy), GuardPoint::StoreHazard) }
        HeadWord::Ann { ann, count } => Point::Guard(
            Guarding::Help(help_of(ann, count, Back::Dequeue)),
            GuardPoint::StoreHazard,
        ),
    }
}

// It found this behind the dummy.
fn after_link(dummy: Place, link: LinkWord) -> Course
    ensures { result ≡ after_link dummy link }
{
    let point = match link {
        LinkWord::Nil => return Course::Closes(Closing::Plain(Answer::Empty)),
        LinkWord::Single(row) => DequeuePoint::LoadTail { dummy, row },
        LinkWord::Chain(row) => DequeuePoint::LoadTailOver { dummy, row },
        LinkWord::Shut => DequeuePoint::LoadHead,
    };
    Course::GoesOn(Point::Dequeue(point))
}

impl DequeuePoint {
    /// What the next step does with its word.
    pub fn act(self) -> Act
        requires { CountsFit (Point.Dequeue self) }
        ensures { result ≡ act self }
    {
        match self {
            DequeuePoint::LoadHead => Act::Load(Location::Head),
            DequeuePoint::LoadLink(dummy) => Act::Load(Location::Link { row: dummy.row }),
            DequeuePoint::LoadTail { .. } | DequeuePoint::LoadTailOver { .. } => {
                Act::Load(Location::Tail)
            }
            DequeuePoint::PassTail { dummy: tail, row } => by_one(tail, row),
            DequeuePoint::LoadValue { row, .. } => Act::Load(Location::Value { row }),
            DequeuePoint::MoveHead { dummy, row, .. } => Act::Exchange(
                Location::Head,
                Content::OfHead(HeadWord::Node(dummy)),
                Content::OfHead(HeadWord::Node(behind(dummy, row))),
            ),
        }
    }

    /// What becomes of the call after the step that found this in its word.
    pub fn course(self, found: Content) -> Course
        ensures { result ≡ course self found }
    {
        let point = match self {
            DequeuePoint::LoadHead => return Course::GoesOn(after_head(head_in(found))),
            DequeuePoint::LoadLink(dummy) => return after_link(dummy, link_in(found)),
            DequeuePoint::MoveHead { dummy, row, value } => {
                if head_in(found) == HeadWord::Node(dummy) {
                    return Course::Passes {
                        closing: Closing::Plain(Answer::Got(value)),
                        dummy,
                        row,
                    };
                }
                DequeuePoint::LoadHead
            }
            DequeuePoint::LoadTail { dummy, row } => {
                if tail_in(found) == dummy {
                    DequeuePoint::PassTail { dummy, row }
                } else {
                    DequeuePoint::LoadValue { dummy, row }
                }
            }
            DequeuePoint::LoadTailOver { dummy, row } => {
                if tail_in(found) == dummy {
                    DequeuePoint::LoadHead
                } else {
                    DequeuePoint::LoadValue { dummy, row }
                }
            }
            DequeuePoint::PassTail { .. } => DequeuePoint::LoadHead,
            DequeuePoint::LoadValue { dummy, row } => DequeuePoint::MoveHead {
                dummy,
                row,
                value: value_in(found),
            },
        };
        Course::GoesOn(Point::Dequeue(point))
    }

    /// The kind of the next step.
    pub fn kind(self) -> StepKind
        ensures { result ≡ kind_of self }
    {
        match self {
            DequeuePoint::LoadHead => StepKind::LoadHead,
            DequeuePoint::LoadLink(_) => StepKind::LoadLink,
            DequeuePoint::LoadTail { .. } | DequeuePoint::LoadTailOver { .. } => StepKind::LoadTail,
            DequeuePoint::PassTail { .. } => StepKind::MoveTail,
            DequeuePoint::LoadValue { .. } => StepKind::LoadValue,
            DequeuePoint::MoveHead { .. } => StepKind::MoveHead,
        }
    }
}
