// A batch, until its announcement is chosen: its owner stores the value of each row that it took, links its rows, and then
// loads the ANN_HAZARD words of the other callers, by rising number. It chooses its least announcement that none of them names.
ghost use Rattle.std.specs.Prelude.{◌≡◌, ◌<◌, ◌^◌};
ghost use Rattle.lane_steps.specs.Fill.{act, course, past, kind_of, first_store};

use crate::act::Act;
use crate::course::Course;
use crate::found::hazard_in;
use crate::kind::StepKind;
use crate::point::{BatchPoint, Draft, FillPoint, Notice, Point};
use word_rows::{AnnField, Content, LinkWord, Location};

/// The next caller whose hazard word a caller loads, from this one on.
pub fn past(caller: u32, next: u32) -> u32
    requires { next < 2 ^ 31 }
    ensures { result ≡ past caller next }
{
    if next == caller { next + 1 } else { next }
}

/// Where a batch goes on once its announcement is chosen.
pub fn first_store(draft: Draft) -> Point
    ensures { result ≡ first_store draft }
{
    if draft.notice.counts.enqs == 0 {
        Point::Batch(draft, BatchPoint::StoreAll(AnnField::OldHead))
    } else {
        Point::Batch(draft, BatchPoint::StoreField(AnnField::OldTail))
    }
}

impl FillPoint {
    /// What the next step does with its word.
    pub fn act(self) -> Act
        ensures { result ≡ act self }
    {
        match self {
            FillPoint::StoreValue { row, value } => {
                Act::Store(Location::Value { row }, Content::OfValue(value))
            }
            FillPoint::StoreChain { row, next, .. } => Act::Store(
                Location::Link { row },
                Content::OfLink(LinkWord::Single(next)),
            ),
            FillPoint::LoadHazard { caller } => Act::Load(Location::AnnHazard { caller }),
        }
    }

    /// What becomes of the call after the step that found this in its word.
    pub fn course(self, notice: Notice, found: Content) -> Course
        ensures { result ≡ course notice self found }
    {
        match self {
            FillPoint::StoreValue { row, .. } => Course::Fills { notice, row },
            FillPoint::StoreChain { number, .. } => Course::Chains { notice, number },
            FillPoint::LoadHazard { caller } => Course::Hears {
                notice,
                caller,
                named: hazard_in(found),
            },
        }
    }

    /// The kind of the next step.
    pub fn kind(self) -> StepKind
        ensures { result ≡ kind_of self }
    {
        match self {
            FillPoint::StoreValue { .. } => StepKind::StoreValue,
            FillPoint::StoreChain { .. } => StepKind::StoreChain,
            FillPoint::LoadHazard { .. } => StepKind::LoadHazard,
        }
    }
}
