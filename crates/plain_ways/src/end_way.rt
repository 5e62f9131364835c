// The end of a call as straight code: its marks, its hazard words, its scan and the rows that it frees. Each function makes the
// steps of one kind, as the machine has them in `lane_steps`, and goes on with the next kind.
ghost use Rattle.std.specs.Prelude.{◌≡◌, ℕ, ◌<◌, [], ◌∷◌, false, length};
ghost use Rattle.std.specs.VecDeque.{deque_capacity};
ghost use Rattle.atomic_table.specs.declared.shared.Seat.{Seat};
ghost use Rattle.lane_steps.specs.Close.{both_set};
ghost use Rattle.lane_steps.specs.Step.{frees_next, scans, clears_ann, clears_node, closes, marks_all};
ghost use Rattle.lane_steps.specs.declared.point.Point.TheVariants.{Close};
ghost use Rattle.lane_steps.specs.declared.point.ClosePoint.TheVariants as at;
ghost use Rattle.lane_rule.specs.declared.view.View.{View};
ghost use Rattle.lane_course.specs.declared.next.Next.TheVariants.{Ends};
ghost use Rattle.lane_course.specs.Led.{Led};
ghost use Rattle.lane_course.specs.Running.{Running, IsNext};
ghost use Rattle.lane_course.specs.Scratch.{SamePuts};

use bq_model::Shape;
use lane_course::{Scratch, note, put_in_order, retire, was_passed};
use lane_rule::{Token, Words, join, load, store};
use lane_steps::{ClosePoint, Closing, Hold, hazard_in, mark_in};
use word_rows::{Content, Location, Marks, Place};

// Both marks are set, where these were found and these are set.
#[inline(always)]
fn both_set(found: Marks, read: bool, passed: bool) -> bool
    ensures { result ≡ both_set found read passed }
{
    (found.read || read) && (found.passed || passed)
}

// It frees this row, and then all others that no hazard word names.
fn free_rows(
    words: &Words,
    shape: &Shape,
    caller: u32,
    token: &mut Token,
    closing: Closing,
    first: u32,
    scratch: &mut Scratch,
)
    requires { Running words.now.table_id words.now.key shape.now caller (Close closing (at.MarkFree first)) scratch.old token.old }
    ensures next { IsNext words.now.table_id words.now.key shape.now caller scratch.new token.old token.new (Ends closing) }
    ensures same { SamePuts scratch.old scratch.new }
{
    let freed = Marks {
        read: false,
        passed: false,
        free: true,
    };
    let mut row = first;
    'rows: loop {
        join(words, shape, token, row, freed);
        scratch.retired.take_unheld(scratch.named.as_slice());
        match scratch.retired.first_unheld(scratch.named.as_slice()) {
            Some(other) => row = other,
            None => return,
        }
    }
}

// It frees the rows that no hazard word names.
fn free_unheld(
    words: &Words,
    shape: &Shape,
    caller: u32,
    token: &mut Token,
    closing: Closing,
    scratch: &mut Scratch,
)
    requires led { (p : Seat ℕ View) × Led words.now.table_id words.now.key shape.now caller (λ n k. frees_next n caller k closing) scratch.old p token.old }
    ensures next { (p : Seat ℕ View) → Led words.now.table_id words.now.key shape.now caller (λ n k. frees_next n caller k closing) scratch.old p token.old
        → IsNext words.now.table_id words.now.key shape.now caller scratch.new p token.new (Ends closing) }
    ensures same { SamePuts scratch.old scratch.new }
{
    match scratch.retired.first_unheld(scratch.named.as_slice()) {
        Some(row) => free_rows(words, shape, caller, token, closing, row, scratch),
        None => {}
    }
}

// It loads the hazard words of all callers from this one on.
fn scan_from(
    words: &Words,
    shape: &Shape,
    caller: u32,
    token: &mut Token,
    closing: Closing,
    first: u32,
    scratch: &mut Scratch,
)
    requires { Running words.now.table_id words.now.key shape.now caller (Close closing (at.LoadHazard first)) scratch.old token.old }
    ensures next { IsNext words.now.table_id words.now.key shape.now caller scratch.new token.old token.new (Ends closing) }
    ensures same { SamePuts scratch.old scratch.new }
{
    let mut other = first;
    'others: loop {
        let found = load(words, shape, token, Location::NodeHazard { caller: other });
        note(&mut scratch.named, hazard_in(found));
        other += 1;
        if other == shape.callers() {
            return free_unheld(words, shape, caller, token, closing, scratch);
        }
    }
}

// It begins its scan; where its retired list is empty it makes none.
fn scan(
    words: &Words,
    shape: &Shape,
    caller: u32,
    token: &mut Token,
    closing: Closing,
    scratch: &mut Scratch,
)
    requires led { (p : Seat ℕ View) × Led words.now.table_id words.now.key shape.now caller (λ n k. scans n caller k closing k.retired) scratch.old p token.old }
    ensures next { (p : Seat ℕ View) → Led words.now.table_id words.now.key shape.now caller (λ n k. scans n caller k closing k.retired) scratch.old p token.old
        → IsNext words.now.table_id words.now.key shape.now caller scratch.new p token.new (Ends closing) }
    ensures same { SamePuts scratch.old scratch.new }
{
    if scratch.retired.len() == 0 {
        return;
    }
    scratch.named.clear();
    scan_from(words, shape, caller, token, closing, 0, scratch)
}

// It clears its ANN_HAZARD.
fn let_ann_go(
    words: &Words,
    shape: &Shape,
    caller: u32,
    token: &mut Token,
    closing: Closing,
    scratch: &mut Scratch,
)
    requires { Running words.now.table_id words.now.key shape.now caller (Close closing at.ClearAnn) scratch.old token.old }
    ensures next { IsNext words.now.table_id words.now.key shape.now caller scratch.new token.old token.new (Ends closing) }
    ensures same { SamePuts scratch.old scratch.new }
{
    let nothing = Content::OfAnnHazard(None);
    store(words, shape, token, Location::AnnHazard { caller }, nothing);
    scratch.hold = Hold::Free;
    scan(words, shape, caller, token, closing, scratch)
}

// It clears its ANN_HAZARD first, where that names something.
#[inline(always)]
fn clear_ann(
    words: &Words,
    shape: &Shape,
    caller: u32,
    token: &mut Token,
    closing: Closing,
    scratch: &mut Scratch,
)
    requires led { (p : Seat ℕ View) × Led words.now.table_id words.now.key shape.now caller (λ n k. clears_ann n caller k closing k.hold) scratch.old p token.old }
    ensures next { (p : Seat ℕ View) → Led words.now.table_id words.now.key shape.now caller (λ n k. clears_ann n caller k closing k.hold) scratch.old p token.old
        → IsNext words.now.table_id words.now.key shape.now caller scratch.new p token.new (Ends closing) }
    ensures same { SamePuts scratch.old scratch.new }
{
    match scratch.hold {
        Hold::Free => scan(words, shape, caller, token, closing, scratch),
        Hold::Names(_) => let_ann_go(words, shape, caller, token, closing, scratch),
        Hold::Held(_) => let_ann_go(words, shape, caller, token, closing, scratch),
    }
}

// It clears its NODE_HAZARD.
#[inline(always)]
fn let_node_go(
    words: &Words,
    shape: &Shape,
    caller: u32,
    token: &mut Token,
    closing: Closing,
    scratch: &mut Scratch,
)
    requires { Running words.now.table_id words.now.key shape.now caller (Close closing at.ClearNode) scratch.old token.old }
    ensures next { IsNext words.now.table_id words.now.key shape.now caller scratch.new token.old token.new (Ends closing) }
    ensures same { SamePuts scratch.old scratch.new }
{
    let nothing = Content::OfNodeHazard(None);
    store(
        words,
        shape,
        token,
        Location::NodeHazard { caller },
        nothing,
    );
    scratch.row_hold = Hold::Free;
    clear_ann(words, shape, caller, token, closing, scratch)
}

// It clears its NODE_HAZARD before, where that names something.
#[inline(always)]
fn clear_node(
    words: &Words,
    shape: &Shape,
    caller: u32,
    token: &mut Token,
    closing: Closing,
    scratch: &mut Scratch,
)
    requires led { (p : Seat ℕ View) × Led words.now.table_id words.now.key shape.now caller (λ n k. clears_node n caller k closing k.row_hold) scratch.old p token.old }
    ensures next { (p : Seat ℕ View) → Led words.now.table_id words.now.key shape.now caller (λ n k. clears_node n caller k closing k.row_hold) scratch.old p token.old
        → IsNext words.now.table_id words.now.key shape.now caller scratch.new p token.new (Ends closing) }
    ensures same { SamePuts scratch.old scratch.new }
{
    match scratch.row_hold {
        Hold::Free => clear_ann(words, shape, caller, token, closing, scratch),
        Hold::Names(_) => let_node_go(words, shape, caller, token, closing, scratch),
        Hold::Held(_) => let_node_go(words, shape, caller, token, closing, scratch),
    }
}

// It marks this row, which it took and didn't link, and then the others of these.
fn lose_rows(
    words: &Words,
    shape: &Shape,
    caller: u32,
    token: &mut Token,
    closing: Closing,
    first: u32,
    scratch: &mut Scratch,
)
    requires { Running words.now.table_id words.now.key shape.now caller (Close closing (at.MarkLoose first)) scratch.old token.old }
    ensures next { IsNext words.now.table_id words.now.key shape.now caller scratch.new token.old token.new (Ends closing) }
    ensures same { SamePuts scratch.old scratch.new }
{
    let both = Marks {
        read: true,
        passed: true,
        free: false,
    };
    let mut row = first;
    'rows: loop {
        join(words, shape, token, row, both);
        scratch.retired.put(row);
        match scratch.rows.pop_front() {
            Some(other) => row = other,
            None => return clear_node(words, shape, caller, token, closing, scratch),
        }
    }
}

/// The end of a call that has no row of its list to mark: it marks the rows that it took and didn't link, from the least on.
#[inline(always)]
pub fn finish(
    words: &Words,
    shape: &Shape,
    caller: u32,
    token: &mut Token,
    closing: Closing,
    scratch: &mut Scratch,
)
    requires led { (p : Seat ℕ View) × Led words.now.table_id words.now.key shape.now caller (λ n k. closes n caller k closing) scratch.old p token.old }
    ensures next { (p : Seat ℕ View) → Led words.now.table_id words.now.key shape.now caller (λ n k. closes n caller k closing) scratch.old p token.old
        → IsNext words.now.table_id words.now.key shape.now caller scratch.new p token.new (Ends closing) }
    ensures same { SamePuts scratch.old scratch.new }
{
    put_in_order(&mut scratch.rows);
    match scratch.rows.pop_front() {
        Some(row) => lose_rows(words, shape, caller, token, closing, row, scratch),
        None => clear_node(words, shape, caller, token, closing, scratch),
    }
}

// It marks the row at this place, and then those of its list behind it.
fn mark_rows(
    words: &Words,
    shape: &Shape,
    caller: u32,
    token: &mut Token,
    closing: Closing,
    first: Place,
    was_read: bool,
    was_left: bool,
    stopped: bool,
    scratch: &mut Scratch,
)
    requires { Running words.now.table_id words.now.key shape.now caller (Close closing (at.MarkRow first was_read was_left stopped)) scratch.old token.old }
    ensures next { IsNext words.now.table_id words.now.key shape.now caller scratch.new token.old token.new (Ends closing) }
    ensures same { SamePuts scratch.old scratch.new }
{
    let mut row = first.row;
    let mut count = first.count;
    let mut read = was_read;
    let mut passed = was_left;
    'rows: loop {
        let marks = Marks {
            read,
            passed,
            free: false,
        };
        let found = join(words, shape, token, row, marks);
        retire(row, both_set(mark_in(found), read, passed), scratch);
        match scratch.walked.pop_front() {
            Some(next) => {
                row = next;
                count += 1;
                read = true;
                passed = was_passed(scratch.walked.len(), stopped);
            }
            None => return finish(words, shape, caller, token, closing, scratch),
        }
    }
}

/// The end of a call that marks the rows of its list, and the old dummy before, where the head has passed that.
#[inline(always)]
pub fn finish_rows(
    words: &Words,
    shape: &Shape,
    caller: u32,
    token: &mut Token,
    closing: Closing,
    stopped: bool,
    dummy: Place,
    scratch: &mut Scratch,
)
    requires led { (p : Seat ℕ View) × Led words.now.table_id words.now.key shape.now caller (λ n k. marks_all n caller k closing stopped dummy) scratch.old p token.old }
    ensures next { (p : Seat ℕ View) → Led words.now.table_id words.now.key shape.now caller (λ n k. marks_all n caller k closing stopped dummy) scratch.old p token.old
        → IsNext words.now.table_id words.now.key shape.now caller scratch.new p token.new (Ends closing) }
    ensures same { SamePuts scratch.old scratch.new }
{
    if was_passed(scratch.walked.len(), stopped) {
        mark_rows(
            words, shape, caller, token, closing, dummy, false, true, stopped, scratch,
        )
    } else {
        scratch.walked.clear();
        finish(words, shape, caller, token, closing, scratch)
    }
}

/// The end of a call that has moved the head from this place to this row, whose value it took.
#[inline(always)]
pub fn finish_row(
    words: &Words,
    shape: &Shape,
    caller: u32,
    token: &mut Token,
    closing: Closing,
    dummy: Place,
    row: u32,
    scratch: &mut Scratch,
)
    requires room { 0 < deque_capacity scratch.old.walked }
    requires led { (p : Seat ℕ View) × Led words.now.table_id words.now.key shape.now caller (λ n k. marks_all n caller (record k { walked = row ∷ [] }) closing false dummy) scratch.old p token.old }
    ensures next { (p : Seat ℕ View) → Led words.now.table_id words.now.key shape.now caller (λ n k. marks_all n caller (record k { walked = row ∷ [] }) closing false dummy) scratch.old p token.old
        → IsNext words.now.table_id words.now.key shape.now caller scratch.new p token.new (Ends closing) }
    ensures same { SamePuts scratch.old scratch.new }
{
    scratch.walked.clear();
    scratch.walked.push_back_reserved(row);
    finish_rows(words, shape, caller, token, closing, false, dummy, scratch)
}

/// The end of a call from this point on.
pub fn finish_at(
    words: &Words,
    shape: &Shape,
    caller: u32,
    token: &mut Token,
    closing: Closing,
    point: ClosePoint,
    scratch: &mut Scratch,
)
    requires { Running words.now.table_id words.now.key shape.now caller (Close closing point) scratch.old token.old }
    ensures next { IsNext words.now.table_id words.now.key shape.now caller scratch.new token.old token.new (Ends closing) }
    ensures same { SamePuts scratch.old scratch.new }
{
    match point {
        ClosePoint::MarkRow {
            place,
            read,
            passed,
            stopped,
        } => mark_rows(
            words, shape, caller, token, closing, place, read, passed, stopped, scratch,
        ),
        ClosePoint::MarkLoose { row } => {
            lose_rows(words, shape, caller, token, closing, row, scratch)
        }
        ClosePoint::ClearNode => let_node_go(words, shape, caller, token, closing, scratch),
        ClosePoint::ClearAnn => let_ann_go(words, shape, caller, token, closing, scratch),
        ClosePoint::LoadHazard { caller: other } => {
            scan_from(words, shape, caller, token, closing, other, scratch)
        }
        ClosePoint::MarkFree { row } => {
            free_rows(words, shape, caller, token, closing, row, scratch)
        }
    }
}
