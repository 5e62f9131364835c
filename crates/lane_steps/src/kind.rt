// The kinds of atomic step.
ghost use Rattle.std.specs.Prelude.{◌≡◌, ◌≢◌, Some};
ghost use Rattle.lane_steps.specs.Kind.{kind_of};
ghost use Rattle.lane_steps.specs.declared.point.Point.TheVariants.{Idle};

use crate::point::Point;

/// A kind of atomic step. Each is one load, one store or one exchange of one word.
#[derive(Clone, Copy, Debug, PartialEq, Eq, Hash)]
pub enum StepKind {
    /// Loads HEAD.
    LoadHead,
    /// Loads TAIL.
    LoadTail,
    /// Loads the LINK of a row.
    LoadLink,
    /// Loads the VALUE of a row.
    LoadValue,
    /// Stores the VALUE of an own row.
    StoreValue,
    /// Exchanges a LINK from Nil to Single of an own row.
    LinkSingle,
    /// Exchanges TAIL by one row.
    MoveTail,
    /// Exchanges HEAD by one row.
    MoveHead,
    /// Exchanges HEAD over all rows of a walk.
    MoveHeadMany,
    /// Stores the LINK of a row inside an own chain.
    StoreChain,
    /// Stores a field of an own announcement.
    StoreAnn,
    /// Exchanges HEAD from a node to an own announcement.
    Install,
    /// Loads a field of an announcement.
    LoadAnn,
    /// Exchanges a LINK from Nil to Chain of an announcement's first row.
    LinkChain,
    /// Exchanges a LINK from Nil to Chain of an announcement's stopper.
    LinkStopper,
    /// Exchanges OldTail of an announcement to a tail word before which its dequeues find enough values.
    Decide,
    /// Exchanges OldTail of an announcement to the tail word behind which its chain or its stopper is linked.
    RecordTail,
    /// Exchanges TAIL from the old tail of an announcement to the last row of its chain, or its stopper.
    MoveTailOver,
    /// Exchanges HEAD from an announcement to the new dummy.
    MoveHeadAnn,
    /// Stores the own ANN_HAZARD.
    StoreAnnHazard,
    /// Stores the own NODE_HAZARD.
    StoreNodeHazard,
    /// Loads a hazard word of some caller.
    LoadHazard,
    /// Loads the MARK of an own row.
    LoadMark,
    /// Stores the MARK of an own free row.
    ClearMark,
    /// Stores Nil in the LINK of an own row.
    ClearLink,
    /// Sets READ, PASSED or both in the MARK of a row.
    MarkRow,
    /// Sets FREE in the MARK of a retired row.
    MarkFree,
}

impl Point {
    /// The kind of the next step; `None` where no command runs.
    pub fn kind(self) -> Option<StepKind>
        ensures { result ≡ kind_of self }
    {
        Some(match self {
            Point::Idle => return None,
            Point::Enqueue(_, point) => point.kind(),
            Point::Dequeue(point) => point.kind(),
            Point::Fill(_, point) => point.kind(),
            Point::Batch(_, point) => point.kind(),
            Point::Many(_, point) => point.kind(),
            Point::Help(help, point) => point.kind(help),
            Point::Answer(point) => point.kind(),
            Point::Take(_, point) => point.kind(),
            Point::Guard(guarding, point) => point.kind(guarding),
            Point::Close(_, point) => point.kind(),
        })
    }
}

impl Point {
    /// The kind of the next step of a running command.
    pub fn running_kind(self) -> StepKind
        requires { self ≢ Idle }
        ensures { kind_of self ≡ Some result }
    {
        match self.kind() {
            Some(kind) => kind,
            None => unreachable!(),
        }
    }
}
