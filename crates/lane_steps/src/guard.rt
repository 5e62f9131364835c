// A caller makes sure of a row or an announcement that it found: it names that in its hazard word, and loads the word again
// in which it found it. Where that is as before, it holds what it named, and goes on; else it looks again.
ghost use Rattle.std.specs.Prelude.{◌≡◌};
ghost use Rattle.lane_steps.specs.Guard.{guarded, hazard, named, source, expected, held, again, act, rehold, course, source_kind, hazard_kind, kind_of};

use crate::act::Act;
use crate::course::Course;
use crate::help::back_point;
use crate::kind::StepKind;
use crate::point::{
    DequeuePoint, EnqueuePoint, GuardPoint, Guarding, HelpPoint, Hold, ManyPoint, Point,
};
use word_rows::{Content, HeadWord, Location};

impl Guarding {
    // The row or the announcement that it names.
    fn guarded(self) -> u32
        ensures { result ≡ guarded self }
    {
        match self {
            Guarding::Enqueue(_, tail) => tail.row,
            Guarding::Dequeue(dummy) => dummy.row,
            Guarding::Many(plan) => plan.notice.old_head.row,
            Guarding::ManyTail(_, tail) => tail.row,
            Guarding::Help(help) => help.ann,
            Guarding::HelpTail(_, tail) => tail.row,
        }
    }

    // In which hazard word of the caller.
    fn hazard(self, caller: u32) -> Location
        ensures { result ≡ hazard caller self }
    {
        match self {
            Guarding::Help(_) => Location::AnnHazard { caller },
            _ => Location::NodeHazard { caller },
        }
    }

    // What that has then.
    fn named(self) -> Content
        ensures { result ≡ named self }
    {
        match self {
            Guarding::Help(help) => Content::OfAnnHazard(Some(help.ann)),
            _ => Content::OfNodeHazard(Some(self.guarded())),
        }
    }

    // Where it found that.
    fn source(self) -> Location
        ensures { result ≡ source self }
    {
        match self {
            Guarding::Enqueue(..) | Guarding::ManyTail(..) | Guarding::HelpTail(..) => {
                Location::Tail
            }
            Guarding::Dequeue(_) | Guarding::Many(_) | Guarding::Help(_) => Location::Head,
        }
    }

    // What it found there.
    fn expected(self) -> Content
        ensures { result ≡ expected self }
    {
        match self {
            Guarding::Enqueue(_, tail) => Content::OfTail(tail),
            Guarding::Dequeue(dummy) => Content::OfHead(HeadWord::Node(dummy)),
            Guarding::Many(plan) => Content::OfHead(HeadWord::Node(plan.notice.old_head)),
            Guarding::ManyTail(_, tail) => Content::OfTail(tail),
            Guarding::Help(help) => Content::OfHead(HeadWord::Ann {
                ann: help.ann,
                count: help.old_head.count,
            }),
            Guarding::HelpTail(_, tail) => Content::OfTail(tail),
        }
    }

    // Where it goes on once it holds that.
    fn held(self) -> Point
        ensures { result ≡ held self }
    {
        match self {
            Guarding::Enqueue(item, tail) => Point::Enqueue(item, EnqueuePoint::LoadLink(tail)),
            Guarding::Dequeue(dummy) => Point::Dequeue(DequeuePoint::LoadLink(dummy)),
            Guarding::Many(plan) => Point::Many(plan, ManyPoint::LoadDummy),
            Guarding::ManyTail(plan, tail) => Point::Many(plan, ManyPoint::LoadBehind(tail)),
            Guarding::Help(help) => Point::Help(help, HelpPoint::LoadOldHead),
            Guarding::HelpTail(help, tail) => Point::Help(help, HelpPoint::LoadOldTail(tail)),
        }
    }

    // Where it looks again.
    fn again(self) -> Point
        ensures { result ≡ again self }
    {
        match self {
            Guarding::Enqueue(item, _) => Point::Enqueue(item, EnqueuePoint::LoadTail),
            Guarding::Dequeue(_) => Point::Dequeue(DequeuePoint::LoadHead),
            Guarding::Many(plan) | Guarding::ManyTail(plan, _) => {
                Point::Many(plan, ManyPoint::LoadHead)
            }
            Guarding::Help(help) => back_point(help, help.back),
            Guarding::HelpTail(help, _) => Point::Help(help, HelpPoint::LoadTail),
        }
    }

    // It goes on, and its hold has changed.
    fn rehold(self, point: Point, hold: Hold) -> Course
        ensures { result ≡ rehold self point hold }
    {
        match self {
            Guarding::Help(_) => Course::Guards(point, hold),
            _ => Course::Holds(point, hold),
        }
    }

    fn source_kind(self) -> StepKind
        ensures { result ≡ source_kind (source self) }
    {
        match self {
            Guarding::Enqueue(..) | Guarding::ManyTail(..) | Guarding::HelpTail(..) => {
                StepKind::LoadTail
            }
            Guarding::Dequeue(_) | Guarding::Many(_) | Guarding::Help(_) => StepKind::LoadHead,
        }
    }

    fn hazard_kind(self) -> StepKind
        ensures { result ≡ hazard_kind self }
    {
        match self {
            Guarding::Help(_) => StepKind::StoreAnnHazard,
            _ => StepKind::StoreNodeHazard,
        }
    }
}

impl GuardPoint {
    /// What the next step of this caller does with its word.
    pub fn act(self, caller: u32, guarding: Guarding) -> Act
        ensures { result ≡ act caller guarding self }
    {
        match self {
            GuardPoint::StoreHazard => Act::Store(guarding.hazard(caller), guarding.named()),
            GuardPoint::LoadAgain => Act::Load(guarding.source()),
        }
    }

    /// What becomes of the call after the step that found this in its word.
    pub fn course(self, guarding: Guarding, found: Content) -> Course
        ensures { result ≡ course guarding self found }
    {
        match self {
            GuardPoint::StoreHazard => guarding.rehold(
                Point::Guard(guarding, GuardPoint::LoadAgain),
                Hold::Names(guarding.guarded()),
            ),
            GuardPoint::LoadAgain => {
                if found == guarding.expected() {
                    guarding.rehold(guarding.held(), Hold::Held(guarding.guarded()))
                } else {
                    Course::GoesOn(guarding.again())
                }
            }
        }
    }

    /// The kind of the next step.
    pub fn kind(self, guarding: Guarding) -> StepKind
        ensures { result ≡ kind_of guarding self }
    {
        match self {
            GuardPoint::StoreHazard => guarding.hazard_kind(),
            GuardPoint::LoadAgain => guarding.source_kind(),
        }
    }
}
