// The rows of a batch, with what the call has at hand: they are taken one after another, and then linked.
ghost use Rattle.std.specs.Prelude.{◌≡◌, ℕ, ◌<◌, [], ◌∷◌, length, get_or, slice_index, vec_len, vec_capacity};
ghost use Rattle.std.specs.VecDeque.{deque_len, deque_capacity};
ghost use Rattle.bq_model.specs.Values.{enqueued};
ghost use Rattle.lane_steps.specs.Batches.{with_rows};
ghost use Rattle.lane_steps.specs.LaneSizes.{lane_sizes};
ghost use Rattle.lane_steps.specs.State.{Caller};
ghost use Rattle.lane_steps.specs.Step.{listening, links_on, fills_row};
ghost use Rattle.lane_course.specs.Next.{Becomes};
ghost use Rattle.lane_course.specs.Scratch.{keeping, SamePuts};

use crate::next::Next;
use crate::scan::listen;
use crate::scratch::Scratch;
use bq_model::Shape;
use lane_steps::{FillPoint, Notice, Point, Taking, search};
use std::collections::VecDeque;

/// The value in this place, 0 where there is none.
pub fn value_at(values: &[u64], place: usize) -> u64
    ensures { result ≡ slice_index values.now place }
{
    values.get(place).copied().unwrap_or(0)
}

/// The row in this place, 0 where there is none.
pub fn row_at(rows: &VecDeque<u32>, place: usize) -> u32
    ensures { result ≡ get_or rows.now.items place 0 }
{
    match rows.get(place) {
        Some(row) => *row,
        None => 0,
    }
}

/// What is said of a batch that has taken these rows.
pub fn with_rows(notice: Notice, rows: &VecDeque<u32>) -> Notice
    ensures { result ≡ with_rows notice rows.now.items }
{
    let mut whole = notice;
    whole.first = row_at(rows, 0);
    whole.last = row_at(rows, rows.len().saturating_sub(1));
    whole
}

/// It links its row of this number to the next one, or, where it is the last one, chooses an announcement.
pub fn link_on(
    shape: &Shape,
    caller: u32,
    notice: Notice,
    number: u32,
    last: bool,
    scratch: &mut Scratch,
) -> Next
    requires known { caller < shape.now.callers }
    ensures next { (n : ℕ) (k : Caller) → Becomes n caller k scratch.new result (links_on (lane_sizes shape.now) caller (keeping k scratch.old) notice number last) }
    ensures same { SamePuts scratch.old scratch.new }
{
    if last {
        scratch.named.clear();
        return listen(shape, caller, notice, 0, scratch);
    }
    let row = row_at(&scratch.rows, number as usize);
    let next = row_at(&scratch.rows, number as usize + 1);
    Next::Goes(Point::Fill(notice, FillPoint::StoreChain { number, row, next }))
}

/// It takes another row for its next enqueue, or, where it has all, links them.
pub fn fill_on(shape: &Shape, caller: u32, notice: Notice, scratch: &mut Scratch) -> Next
    requires known { caller < shape.now.callers }
    ensures next { (n : ℕ) (k : Caller) → scratch.old.puts.items ≡ enqueued k.ops → Becomes n caller k scratch.new result (fills_row (lane_sizes shape.now) caller (keeping k scratch.old) notice) }
    ensures same { SamePuts scratch.old scratch.new }
{
    let taken = scratch.rows.len();
    if taken == notice.counts.enqs as usize {
        let whole = with_rows(notice, &scratch.rows);
        return link_on(shape, caller, whole, 0, taken == 1, scratch);
    }
    let value = value_at(scratch.puts.as_slice(), taken);
    Next::Goes(search(shape, caller, Taking::Batch(notice, value)))
}

/// It has taken this stopper, and chooses an announcement.
pub fn take_stopper(
    shape: &Shape,
    caller: u32,
    notice: Notice,
    row: u32,
    scratch: &mut Scratch,
) -> Next
    requires known { caller < shape.now.callers }
    requires room { 0 < deque_capacity scratch.old.rows }
    ensures next { (n : ℕ) (k : Caller) → Becomes n caller k scratch.new result (listening (lane_sizes shape.now) caller (record (keeping k scratch.old) { rows = row ∷ [] }) (with_rows notice (row ∷ [])) 0 []) }
    ensures same { SamePuts scratch.old scratch.new }
{
    scratch.rows.clear();
    scratch.rows.push_back_reserved(row);
    scratch.named.clear();
    let whole = with_rows(notice, &scratch.rows);
    listen(shape, caller, whole, 0, scratch)
}
