// What comes after a step of a command: the machine's course, with what the call has at hand.
ghost use Rattle.std.specs.Prelude.{◌≡◌, ℕ, ◌<◌};
ghost use Rattle.bq_model.specs.Values.{enqueued};
ghost use Rattle.lane_steps.specs.LaneSizes.{lane_sizes};
ghost use Rattle.lane_steps.specs.State.{Caller};
ghost use Rattle.lane_steps.specs.Step.{course, followed};
ghost use Rattle.lane_steps.specs.Ranges.{RowsFit};
ghost use Rattle.lane_course.specs.Next.{Becomes, told};
ghost use Rattle.lane_course.specs.Scratch.{keeping, HasRoom, SamePuts};

use crate::call_end::{clear_ann, close, free_next, lose, mark, mark_all, pass, scan, scan_on};
use crate::fill::{fill_on, link_on, take_stopper};
use crate::read::{begin_reading, forget, read_more, remember};
use crate::scan::{listen, note};
use crate::scratch::Scratch;
use bq_model::Shape;
use lane_steps::{Closing, Course, Hold, Point, search};
use word_rows::Content;

/// What comes after a step of a command.
#[derive(Clone, Copy)]
pub enum Next {
    /// The step at this point.
    Goes(Point),
    /// Nothing: it ended so, and its answers are found so.
    Ends(Closing),
}

impl Next {
    /// Tells how the command ended, if it did, and else puts in its place the point where it goes on.
    #[inline(never)]
    pub fn tell(self, goes: &mut Point) -> Option<Closing>
        ensures { told result goes.new ≡ self }
    {
        match self {
            Next::Goes(point) => {
                *goes = point;
                None
            }
            Next::Ends(closing) => Some(closing),
        }
    }

    /// What comes next, where that was told so.
    pub fn of(end: Option<Closing>, goes: Point) -> Next
        ensures { result ≡ told end goes }
    {
        match end {
            Some(closing) => Next::Ends(closing),
            None => Next::Goes(goes),
        }
    }
}

/// What comes after the step of this caller at this point that found this.
#[inline(never)]
pub fn follow(
    shape: &Shape,
    caller: u32,
    point: Point,
    found: Content,
    scratch: &mut Scratch,
) -> Next
    requires known { caller < shape.now.callers }
    requires rows { RowsFit point }
    requires room { HasRoom shape.now.callers (course point found) scratch.old }
    ensures next { (n : ℕ) (k : Caller) → scratch.old.puts.items ≡ enqueued k.ops
        → Becomes n caller k scratch.new result (followed (lane_sizes shape.now) n caller (keeping k scratch.old) (course point found)) }
    ensures same { SamePuts scratch.old scratch.new }
{
    match point.course(found) {
        Course::GoesOn(point) => Next::Goes(point),
        Course::Closes(closing) => close(closing, scratch),
        Course::Lacks => close(Closing::Full, scratch),
        Course::Passes {
            closing,
            dummy,
            row,
        } => pass(closing, dummy, row, scratch),
        Course::Fills { notice, row } => {
            scratch.rows.push_back_reserved(row);
            fill_on(shape, caller, notice, scratch)
        }
        Course::Chains { notice, number } => {
            let last = number as usize + 2 == scratch.rows.len();
            link_on(shape, caller, notice, number + 1, last, scratch)
        }
        Course::Stops { notice, row } => take_stopper(shape, caller, notice, row, scratch),
        Course::Takes(taking) => Next::Goes(search(shape, caller, taking)),
        Course::Hears {
            notice,
            caller: other,
            named,
        } => {
            note(&mut scratch.named, named);
            listen(shape, caller, notice, other + 1, scratch)
        }
        Course::Guards(point, hold) => {
            scratch.hold = hold;
            Next::Goes(point)
        }
        Course::Holds(point, hold) => {
            scratch.row_hold = hold;
            Next::Goes(point)
        }
        Course::Reads {
            reading,
            row,
            left,
            linked,
        } => begin_reading(reading, row, left, linked, scratch),
        Course::ReadsMore {
            reading,
            row,
            left,
            value,
        } => read_more(reading, row, left, value, scratch),
        Course::Walks(point) => {
            forget(scratch);
            Next::Goes(point)
        }
        Course::WalksMore { point, row, value } => {
            remember(row, value, scratch);
            Next::Goes(point)
        }
        Course::Moves { dummy, queued } => {
            mark_all(Closing::Batch(queued), false, dummy, scratch)
        }
        Course::Marks {
            closing,
            place,
            both,
            stopped,
        } => mark(closing, place, both, stopped, scratch),
        Course::Retires { closing, row } => {
            scratch.retired.put(row);
            lose(closing, scratch)
        }
        Course::ClearsNode(closing) => {
            scratch.row_hold = Hold::Free;
            clear_ann(closing, scratch)
        }
        Course::ClearsAnn(closing) => {
            scratch.hold = Hold::Free;
            scan(closing, scratch)
        }
        Course::Finds {
            closing,
            caller: other,
            named,
        } => {
            note(&mut scratch.named, named);
            scan_on(shape, closing, other, scratch)
        }
        Course::Frees(closing) => {
            scratch.retired.take_unheld(scratch.named.as_slice());
            free_next(closing, scratch)
        }
    }
}
