// The end of a call: the caller marks the rows that its operation passed and whose values it took, from the old dummy on, and
// then those that it took and didn't link. It clears its hazard words. Then it loads the NODE_HAZARD words of all callers, and
// frees the rows of its retired list that none of them names.
ghost use Rattle.std.specs.Prelude.{◌≡◌};
ghost use Rattle.lane_steps.specs.Close.{act, both_set, course, kind_of};
ghost use Rattle.lane_steps.specs.State.{both_marks};

use crate::act::Act;
use crate::course::Course;
use crate::found::{hazard_in, mark_in};
use crate::kind::StepKind;
use crate::point::{ClosePoint, Closing};
use word_rows::{Content, Location, Marks};

/// The marks of a row that can be freed.
fn both_marks() -> Marks
    ensures { result ≡ both_marks }
{
    Marks {
        read: true,
        passed: true,
        free: false,
    }
}

// Both marks are set, where these were found and these are set.
fn both_set(found: Marks, read: bool, passed: bool) -> bool
    ensures { result ≡ both_set found read passed }
{
    (found.read || read) && (found.passed || passed)
}

impl ClosePoint {
    /// What the next step of this caller does with its word.
    pub fn act(self, caller: u32) -> Act
        ensures { result ≡ act caller self }
    {
        match self {
            ClosePoint::MarkRow {
                place,
                read,
                passed,
                ..
            } => Act::Join {
                row: place.row,
                marks: Marks {
                    read,
                    passed,
                    free: false,
                },
            },
            ClosePoint::MarkLoose { row } => Act::Join {
                row,
                marks: both_marks(),
            },
            ClosePoint::ClearNode => {
                Act::Store(Location::NodeHazard { caller }, Content::OfNodeHazard(None))
            }
            ClosePoint::ClearAnn => {
                Act::Store(Location::AnnHazard { caller }, Content::OfAnnHazard(None))
            }
            ClosePoint::LoadHazard { caller } => Act::Load(Location::NodeHazard { caller }),
            ClosePoint::MarkFree { row } => Act::Join {
                row,
                marks: Marks {
                    read: false,
                    passed: false,
                    free: true,
                },
            },
        }
    }

    /// What becomes of the call after the step that found this in its word.
    pub fn course(self, closing: Closing, found: Content) -> Course
        ensures { result ≡ course closing self found }
    {
        match self {
            ClosePoint::MarkRow {
                place,
                read,
                passed,
                stopped,
            } => Course::Marks {
                closing,
                place,
                both: both_set(mark_in(found), read, passed),
                stopped,
            },
            ClosePoint::MarkLoose { row } => Course::Retires { closing, row },
            ClosePoint::ClearNode => Course::ClearsNode(closing),
            ClosePoint::ClearAnn => Course::ClearsAnn(closing),
            ClosePoint::LoadHazard { caller } => Course::Finds {
                closing,
                caller,
                named: hazard_in(found),
            },
            ClosePoint::MarkFree { .. } => Course::Frees(closing),
        }
    }

    /// The kind of the next step.
    pub fn kind(self) -> StepKind
        ensures { result ≡ kind_of self }
    {
        match self {
            ClosePoint::MarkRow { .. } | ClosePoint::MarkLoose { .. } => StepKind::MarkRow,
            ClosePoint::ClearNode => StepKind::StoreNodeHazard,
            ClosePoint::ClearAnn => StepKind::StoreAnnHazard,
            ClosePoint::LoadHazard { .. } => StepKind::LoadHazard,
            ClosePoint::MarkFree { .. } => StepKind::MarkFree,
        }
    }
}
