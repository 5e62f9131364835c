// A caller takes a row: it loads the marks of its own rows of the kind until one is free, stores those of a taken row, and
// clears the link.
ghost use Rattle.std.specs.Prelude.{◌≡◌, ◌<◌};
ghost use Rattle.lane_steps.specs.LaneSizes.{lane_sizes};
ghost use Rattle.lane_steps.specs.Take.{is_stopper, taken_marks, search, act, after_mark, after_take, course, kind_of};
ghost use Rattle.lane_steps.specs.Ranges.{RowsFit};

use crate::act::Act;
use crate::course::Course;
use crate::found::mark_in;
use crate::kind::StepKind;
use crate::point::{EnqueuePoint, FillPoint, Item, Point, TakePoint, Taking};
use bq_model::Shape;
use word_rows::{Content, LinkWord, Location, Marks, item_row, items, stopper_row, stoppers};

impl Taking {
    /// Whether it takes a stopper.
    pub fn is_stopper(self) -> bool
        ensures { result ≡ is_stopper self }
    {
        match self {
            Taking::Enqueue(_) | Taking::Batch(..) => false,
            Taking::Stopper(_) => true,
        }
    }
}

// The marks of a row that was taken: a stopper has no value to be read.
fn taken_marks(stopper: bool) -> Marks
    ensures { result ≡ taken_marks stopper }
{
    Marks {
        read: stopper,
        passed: false,
        free: false,
    }
}

/// Where the caller begins to take a row: at its first one of the kind.
pub fn search(shape: &Shape, caller: u32, taking: Taking) -> Point
    requires { caller < shape.now.callers }
    ensures { result ≡ search (lane_sizes shape.now) caller taking }
{
    let point = if taking.is_stopper() {
        TakePoint::LoadMark {
            row: stopper_row(shape, caller, 0),
            left: stoppers(shape) - 1,
        }
    } else {
        TakePoint::LoadMark {
            row: item_row(shape, caller, 0),
            left: items(shape) - 1,
        }
    };
    Point::Take(taking, point)
}

// It found the row free or not, with so many behind it.
fn after_mark(taking: Taking, row: u32, left: u32, free: bool) -> Course
    requires { RowsFit (Point.Take taking (TakePoint.LoadMark row left)) }
    ensures { result ≡ after_mark taking row left free }
{
    let point = if free {
        TakePoint::ClearMark { row }
    } else if left == 0 {
        return Course::Lacks;
    } else {
        TakePoint::LoadMark {
            row: row + 1,
            left: left - 1,
        }
    };
    Course::GoesOn(Point::Take(taking, point))
}

// The row is taken.
fn after_take(taking: Taking, row: u32) -> Course
    ensures { result ≡ after_take taking row }
{
    match taking {
        Taking::Enqueue(value) => {
            let item = Item { row, value };
            Course::GoesOn(Point::Enqueue(item, EnqueuePoint::StoreValue))
        }
        Taking::Batch(notice, value) => {
            Course::GoesOn(Point::Fill(notice, FillPoint::StoreValue { row, value }))
        }
        Taking::Stopper(notice) => Course::Stops { notice, row },
    }
}

impl TakePoint {
    /// What the next step does with its word.
    pub fn act(self, taking: Taking) -> Act
        ensures { result ≡ act taking self }
    {
        match self {
            TakePoint::LoadMark { row, .. } => Act::Load(Location::Mark { row }),
            TakePoint::ClearMark { row } => Act::Store(
                Location::Mark { row },
                Content::OfMark(taken_marks(taking.is_stopper())),
            ),
            TakePoint::ClearLink { row } => {
                Act::Store(Location::Link { row }, Content::OfLink(LinkWord::Nil))
            }
        }
    }

    /// What becomes of the call after the step that found this in its word.
    pub fn course(self, taking: Taking, found: Content) -> Course
        requires { RowsFit (Point.Take taking self) }
        ensures { result ≡ course taking self found }
    {
        match self {
            TakePoint::LoadMark { row, left } => {
                after_mark(taking, row, left, mark_in(found).free)
            }
            TakePoint::ClearMark { row } => {
                Course::GoesOn(Point::Take(taking, TakePoint::ClearLink { row }))
            }
            TakePoint::ClearLink { row } => after_take(taking, row),
        }
    }

    /// The kind of the next step.
    pub fn kind(self) -> StepKind
        ensures { result ≡ kind_of self }
    {
        match self {
            TakePoint::LoadMark { .. } => StepKind::LoadMark,
            TakePoint::ClearMark { .. } => StepKind::ClearMark,
            TakePoint::ClearLink { .. } => StepKind::ClearLink,
        }
    }
}
