// Where a way is left for the general step. These stand apart from the ways, so that the usual course of a call writes no point.
ghost use Rattle.std.specs.Prelude.{◌≡◌, ℕ, ◌<◌};
ghost use Rattle.bq_model.specs.Values.{enqueued};
ghost use Rattle.lane_steps.specs.LaneSizes.{lane_sizes};
ghost use Rattle.lane_steps.specs.Ranges.{RowsFit};
ghost use Rattle.lane_steps.specs.State.{Caller};
ghost use Rattle.lane_steps.specs.Step.{closes, course, followed};
ghost use Rattle.lane_steps.specs.declared.point.Closing.TheVariants.{Full};
ghost use Rattle.lane_steps.specs.declared.point.Point.TheVariants.{Enqueue, Dequeue};
ghost use Rattle.lane_course.specs.declared.next.Next.TheVariants.{Goes};
ghost use Rattle.lane_course.specs.Next.{Becomes, told};
ghost use Rattle.lane_course.specs.Scratch.{keeping, HasRoom, SamePuts};

use bq_model::Shape;
use lane_course::{Scratch, close, follow};
use lane_steps::{Closing, DequeuePoint, EnqueuePoint, Item, Point};
use word_rows::Content;

/// An enqueue of this item goes on at this point.
#[inline(never)]
pub fn enqueue_at(item: Item, at: EnqueuePoint, goes: &mut Point) -> Option<Closing>
    ensures { told result goes.new ≡ Goes (Enqueue item at) }
{
    *goes = Point::Enqueue(item, at);
    None
}

/// A dequeue goes on at this point.
#[inline(never)]
pub fn dequeue_at(at: DequeuePoint, goes: &mut Point) -> Option<Closing>
    ensures { told result goes.new ≡ Goes (Dequeue at) }
{
    *goes = Point::Dequeue(at);
    None
}

/// What comes after the step of a dequeue at this point that found this.
#[inline(never)]
pub fn follow_dequeue(
    shape: &Shape,
    caller: u32,
    at: DequeuePoint,
    found: Content,
    goes: &mut Point,
    scratch: &mut Scratch,
) -> Option<Closing>
    requires known { caller < shape.now.callers }
    requires rows { RowsFit (Dequeue at) }
    requires room { HasRoom shape.now.callers (course (Dequeue at) found) scratch.old }
    ensures next { (n : ℕ) (k : Caller) → scratch.old.puts.items ≡ enqueued k.ops
        → Becomes n caller k scratch.new (told result goes.new) (followed (lane_sizes shape.now) n caller (keeping k scratch.old) (course (Dequeue at) found)) }
    ensures same { SamePuts scratch.old scratch.new }
{
    follow(shape, caller, Point::Dequeue(at), found, scratch).tell(goes)
}

/// What comes after a search that found no free row.
#[inline(never)]
pub fn close_full(goes: &mut Point, scratch: &mut Scratch) -> Option<Closing>
    ensures next { (n c : ℕ) (k : Caller) → Becomes n c k scratch.new (told result goes.new) (closes n c (keeping k scratch.old) Full) }
    ensures same { SamePuts scratch.old scratch.new }
{
    close(Closing::Full, scratch).tell(goes)
}
