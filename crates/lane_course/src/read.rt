// What a batch reads for its answers, with what the call has at hand: values, and the rows that have these.
ghost use Rattle.std.specs.Prelude.{◌≡◌, ℕ, ◌++◌, [], ◌∷◌};
ghost use Rattle.lane_steps.specs.State.{Caller};
ghost use Rattle.lane_steps.specs.Step.{reads_on, rows_left};
ghost use Rattle.lane_course.specs.Next.{Becomes};
ghost use Rattle.lane_course.specs.Scratch.{keeping, HasPair, SamePuts};

use crate::call_end::mark_all;
use crate::next::Next;
use crate::scratch::Scratch;
use lane_steps::{AnswerPoint, Closing, Point, Reading};

/// Nothing is read.
pub fn forget(scratch: &mut Scratch)
    ensures nothing_read { (k : Caller) → keeping k scratch.new ≡ record (keeping k scratch.old) { values = []; walked = [] } }
    ensures same { SamePuts scratch.old scratch.new }
{
    scratch.values.clear();
    scratch.walked.clear();
}

/// One more value is read, of this row.
pub fn remember(row: u32, value: u64, scratch: &mut Scratch)
    requires room { HasPair scratch.old }
    ensures one_more { (k : Caller) → keeping k scratch.new ≡ record (keeping k scratch.old) { values = scratch.old.values.items ++ value ∷ []; walked = scratch.old.walked.items ++ row ∷ [] } }
    ensures same { SamePuts scratch.old scratch.new }
{
    scratch.values.push_reserved(value);
    scratch.walked.push_back_reserved(row);
}

/// The rows that were taken are linked, or not.
pub fn leave(linked: bool, scratch: &mut Scratch)
    ensures left { (k : Caller) → keeping k scratch.new ≡ record (keeping k scratch.old) { rows = rows_left linked scratch.old.rows.items } }
    ensures same { SamePuts scratch.old scratch.new }
{
    if linked {
        scratch.rows.clear();
    }
}

// The owner of a batch reads on, or has read all.
fn read_on(reading: Reading, row: u32, left: u32, scratch: &mut Scratch) -> Next
    ensures next { (n c : ℕ) (k : Caller) → Becomes n c k scratch.new result (reads_on n c (keeping k scratch.old) reading row left scratch.old.values.items scratch.old.walked.items) }
    ensures same { SamePuts scratch.old scratch.new }
{
    if left == 0 {
        let closing = Closing::Batch(reading.queued);
        mark_all(closing, reading.stopped, reading.dummy, scratch)
    } else {
        let left = left - 1;
        Next::Goes(Point::Answer(AnswerPoint::LoadLink { reading, row, left }))
    }
}

/// The owner of a batch, whose rows were linked or not, begins to read.
pub fn begin_reading(
    reading: Reading,
    row: u32,
    left: u32,
    linked: bool,
    scratch: &mut Scratch,
) -> Next
    ensures next { (n c : ℕ) (k : Caller) → Becomes n c k scratch.new result (reads_on n c (record (keeping k scratch.old) { rows = rows_left linked scratch.old.rows.items }) reading row left [] []) }
    ensures same { SamePuts scratch.old scratch.new }
{
    leave(linked, scratch);
    forget(scratch);
    read_on(reading, row, left, scratch)
}

/// The owner of a batch has read one more value, of this row.
pub fn read_more(reading: Reading, row: u32, left: u32, value: u64, scratch: &mut Scratch) -> Next
    requires room { HasPair scratch.old }
    ensures next { (n c : ℕ) (k : Caller) → Becomes n c k scratch.new result (reads_on n c (keeping k scratch.old) reading row left (scratch.old.values.items ++ value ∷ []) (scratch.old.walked.items ++ row ∷ [])) }
    ensures same { SamePuts scratch.old scratch.new }
{
    remember(row, value, scratch);
    read_on(reading, row, left, scratch)
}
