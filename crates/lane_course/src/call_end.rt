// The end of a call, with what it has at hand: its marks, its hazard words and its scan.
ghost use Rattle.std.specs.Prelude.{◌≡◌, ℕ, ◌<◌, ◌^◌, [], ◌∷◌, nat_lt, false, length};
ghost use Rattle.std.specs.VecDeque.{deque_capacity};
ghost use Rattle.lane_steps.specs.Close.{to_pass};
ghost use Rattle.lane_steps.specs.LaneSizes.{lane_sizes};
ghost use Rattle.lane_steps.specs.State.{Caller};
ghost use Rattle.lane_steps.specs.Step.{frees_next, scans, clears_ann, clears_node, loses, closes, marks_on, marks_all, retires, scans_on};
ghost use Rattle.lane_course.specs.Next.{Becomes};
ghost use Rattle.lane_course.specs.Scratch.{keeping, SamePuts};

use crate::next::Next;
use crate::order::put_in_order;
use crate::scratch::Scratch;
use bq_model::Shape;
use lane_steps::{ClosePoint, Closing, Hold, Point};
use word_rows::Place;

/// It frees the first row of its retired list that no hazard word names, or ends.
pub fn free_next(closing: Closing, scratch: &Scratch) -> Next
    ensures { (n c : ℕ) (k : Caller) → Becomes n c k scratch.now result (frees_next n c (keeping k scratch.now) closing) }
{
    match scratch.retired.first_unheld(scratch.named.as_slice()) {
        Some(row) => Next::Goes(Point::Close(closing, ClosePoint::MarkFree { row })),
        None => Next::Ends(closing),
    }
}

/// It has loaded the NODE_HAZARD of this caller, and loads the next one, or frees.
pub fn scan_on(shape: &Shape, closing: Closing, other: u32, scratch: &Scratch) -> Next
    requires known { other < shape.now.callers }
    ensures { (n c : ℕ) (k : Caller) → Becomes n c k scratch.now result (scans_on (lane_sizes shape.now) n c (keeping k scratch.now) closing other) }
{
    let next = other + 1;
    if next == shape.callers() {
        free_next(closing, scratch)
    } else {
        Next::Goes(Point::Close(closing, ClosePoint::LoadHazard { caller: next }))
    }
}

/// It begins its scan; where its retired list is empty it makes none.
pub fn scan(closing: Closing, scratch: &mut Scratch) -> Next
    ensures next { (n c : ℕ) (k : Caller) → Becomes n c k scratch.new result (scans n c (keeping k scratch.old) closing scratch.old.retired.items) }
    ensures same { SamePuts scratch.old scratch.new }
{
    if scratch.retired.len() == 0 {
        return Next::Ends(closing);
    }
    scratch.named.clear();
    Next::Goes(Point::Close(closing, ClosePoint::LoadHazard { caller: 0 }))
}

/// It clears its ANN_HAZARD first, where that names something.
pub fn clear_ann(closing: Closing, scratch: &mut Scratch) -> Next
    ensures next { (n c : ℕ) (k : Caller) → Becomes n c k scratch.new result (clears_ann n c (keeping k scratch.old) closing scratch.old.hold) }
    ensures same { SamePuts scratch.old scratch.new }
{
    match scratch.hold {
        Hold::Free => scan(closing, scratch),
        Hold::Names(_) => Next::Goes(Point::Close(closing, ClosePoint::ClearAnn)),
        Hold::Held(_) => Next::Goes(Point::Close(closing, ClosePoint::ClearAnn)),
    }
}

// It clears its NODE_HAZARD before, where that names something.
fn clear_node(closing: Closing, scratch: &mut Scratch) -> Next
    ensures next { (n c : ℕ) (k : Caller) → Becomes n c k scratch.new result (clears_node n c (keeping k scratch.old) closing scratch.old.row_hold) }
    ensures same { SamePuts scratch.old scratch.new }
{
    match scratch.row_hold {
        Hold::Free => clear_ann(closing, scratch),
        Hold::Names(_) => Next::Goes(Point::Close(closing, ClosePoint::ClearNode)),
        Hold::Held(_) => Next::Goes(Point::Close(closing, ClosePoint::ClearNode)),
    }
}

/// It marks the rows before that it took and didn't link, one after another.
pub fn lose(closing: Closing, scratch: &mut Scratch) -> Next
    ensures next { (n c : ℕ) (k : Caller) → Becomes n c k scratch.new result (loses n c (keeping k scratch.old) closing scratch.old.rows.items) }
    ensures same { SamePuts scratch.old scratch.new }
{
    match scratch.rows.pop_front() {
        Some(row) => Next::Goes(Point::Close(closing, ClosePoint::MarkLoose { row })),
        None => clear_node(closing, scratch),
    }
}

/// The same, from the least of these on.
pub fn close(closing: Closing, scratch: &mut Scratch) -> Next
    ensures next { (n c : ℕ) (k : Caller) → Becomes n c k scratch.new result (closes n c (keeping k scratch.old) closing) }
    ensures same { SamePuts scratch.old scratch.new }
{
    put_in_order(&mut scratch.rows);
    lose(closing, scratch)
}

/// Whether a row was passed with so many to be marked behind it, the last of which was passed too where the stopper is the new
/// dummy.
pub fn was_passed(behind: usize, stopped: bool) -> bool
    ensures { result ≡ nat_lt 0 (to_pass behind stopped) }
{
    0 < behind || stopped
}

// It marks the rows behind this place before.
fn mark_on(closing: Closing, stopped: bool, place: Place, scratch: &mut Scratch) -> Next
    requires fits { place.count < 2 ^ 44 }
    ensures next { (n c : ℕ) (k : Caller) → Becomes n c k scratch.new result (marks_on n c (keeping k scratch.old) closing stopped place scratch.old.walked.items) }
    ensures same { SamePuts scratch.old scratch.new }
{
    match scratch.walked.pop_front() {
        Some(row) => {
            let place = Place {
                row,
                count: place.count + 1,
            };
            let passed = was_passed(scratch.walked.len(), stopped);
            let read = true;
            Next::Goes(Point::Close(
                closing,
                ClosePoint::MarkRow {
                    place,
                    read,
                    passed,
                    stopped,
                },
            ))
        }
        None => close(closing, scratch),
    }
}

/// It marks the old dummy before, where the head has passed that.
pub fn mark_all(closing: Closing, stopped: bool, dummy: Place, scratch: &mut Scratch) -> Next
    ensures next { (n c : ℕ) (k : Caller) → Becomes n c k scratch.new result (marks_all n c (keeping k scratch.old) closing stopped dummy) }
    ensures same { SamePuts scratch.old scratch.new }
{
    if was_passed(scratch.walked.len(), stopped) {
        Next::Goes(Point::Close(
            closing,
            ClosePoint::MarkRow {
                place: dummy,
                read: false,
                passed: true,
                stopped,
            },
        ))
    } else {
        scratch.walked.clear();
        close(closing, scratch)
    }
}

/// Puts a row into the retired list that has both marks now, or not.
pub fn retire(row: u32, both: bool, scratch: &mut Scratch)
    requires room { length scratch.old.retired.items < scratch.old.retired.capacity }
    ensures retired { (k : Caller) → keeping k scratch.new ≡ retires (keeping k scratch.old) row both }
    ensures same { SamePuts scratch.old scratch.new }
{
    if both {
        scratch.retired.put(row);
    }
}

/// It has marked the row at this place, which has both marks now, or not.
pub fn mark(
    closing: Closing,
    place: Place,
    both: bool,
    stopped: bool,
    scratch: &mut Scratch,
) -> Next
    requires fits { place.count < 2 ^ 44 }
    requires room { length scratch.old.retired.items < scratch.old.retired.capacity }
    ensures next { (n c : ℕ) (k : Caller) → Becomes n c k scratch.new result (marks_on n c (retires (keeping k scratch.old) place.row both) closing stopped place (retires (keeping k scratch.old) place.row both).walked) }
    ensures same { SamePuts scratch.old scratch.new }
{
    retire(place.row, both, scratch);
    mark_on(closing, stopped, place, scratch)
}

/// It has moved the head from this place to this row, whose value it took.
pub fn pass(closing: Closing, dummy: Place, row: u32, scratch: &mut Scratch) -> Next
    requires room { 0 < deque_capacity scratch.old.walked }
    ensures next { (n c : ℕ) (k : Caller) → Becomes n c k scratch.new result (marks_all n c (record (keeping k scratch.old) { walked = row ∷ [] }) closing false dummy) }
    ensures same { SamePuts scratch.old scratch.new }
{
    scratch.walked.clear();
    scratch.walked.push_back_reserved(row);
    mark_all(closing, false, dummy, scratch)
}
