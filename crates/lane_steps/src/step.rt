// The next step of a caller: what it does with its word, what becomes of the command, and whether it adds a group to the
// history.
ghost use Rattle.std.specs.Prelude.{◌≡◌};
ghost use Rattle.lane_steps.specs.Step.{act, course, linearizes};
ghost use Rattle.lane_steps.specs.Ranges.{RowsFit, CountsFit};

use crate::act::Act;
use crate::course::Course;
use crate::found::{head_in, link_in, old_tail_in};
use crate::point::{DequeuePoint, EnqueuePoint, HelpPoint, ManyPoint, Point};
use word_rows::{Content, HeadWord, LinkWord, Location};

impl Point {
    /// What the next step of this caller does with its word.
    pub fn act(self, caller: u32) -> Act
        requires { CountsFit self }
        ensures { result ≡ act caller self }
    {
        match self {
            Point::Idle => Act::Load(Location::Head),
            Point::Enqueue(item, point) => point.act(item),
            Point::Dequeue(point) => point.act(),
            Point::Fill(_, point) => point.act(),
            Point::Batch(draft, point) => point.act(draft),
            Point::Many(plan, point) => point.act(plan),
            Point::Help(help, point) => point.act(help),
            Point::Answer(point) => point.act(),
            Point::Take(taking, point) => point.act(taking),
            Point::Guard(guarding, point) => point.act(caller, guarding),
            Point::Close(_, point) => point.act(caller),
        }
    }

    /// What becomes of the command after the step that found this in its word.
    pub fn course(self, found: Content) -> Course
        requires { RowsFit self }
        ensures { result ≡ course self found }
    {
        match self {
            Point::Idle => Course::GoesOn(Point::Idle),
            Point::Enqueue(item, point) => point.course(item, found),
            Point::Dequeue(point) => point.course(found),
            Point::Fill(notice, point) => point.course(notice, found),
            Point::Batch(draft, point) => point.course(draft, found),
            Point::Many(plan, point) => point.course(plan, found),
            Point::Help(help, point) => point.course(help, found),
            Point::Answer(point) => point.course(found),
            Point::Take(taking, point) => point.course(taking, found),
            Point::Guard(guarding, point) => point.course(guarding, found),
            Point::Close(closing, point) => point.course(closing, found),
        }
    }

    /// Whether the step that found this in its word adds a group to the history.
    pub fn linearizes(self, found: Content) -> bool
        ensures { result ≡ linearizes self found }
    {
        match self {
            Point::Enqueue(_, EnqueuePoint::LinkSingle(_)) => link_in(found) == LinkWord::Nil,
            Point::Dequeue(DequeuePoint::LoadLink(_)) => link_in(found) == LinkWord::Nil,
            Point::Dequeue(DequeuePoint::MoveHead { dummy, .. }) => {
                head_in(found) == HeadWord::Node(dummy)
            }
            Point::Many(_, ManyPoint::LoadDummy) => link_in(found) == LinkWord::Nil,
            Point::Many(plan, ManyPoint::MoveHead { .. }) => {
                head_in(found) == HeadWord::Node(plan.notice.old_head)
            }
            Point::Help(_, HelpPoint::LinkChain(_)) => link_in(found) == LinkWord::Nil,
            Point::Help(_, HelpPoint::Decide(_)) => old_tail_in(found).is_none(),
            _ => false,
        }
    }
}
