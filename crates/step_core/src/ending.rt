// The end of a call: what the caller goes on with once its operation has taken effect, or once it lacks a row.
ghost use Rattle.std.specs.Prelude.{◌≡◌, ◌++◌, ◌<◌, false, suc, nat_lt, [], ◌∷◌, length, ◌^◌, Some};
ghost use Rattle.node_guard.specs.Retired.{without_first_unheld};
ghost use Rattle.lane_steps.specs.declared.point.Hold.TheVariants.{Free};
ghost use Rattle.lane_steps.specs.Close.{to_pass};
ghost use Rattle.lane_steps.specs.Fill.{noted};
ghost use Rattle.lane_steps.specs.LaneSizes.{lane_sizes};
ghost use Rattle.lane_steps.specs.Step.{done, ended, frees_next, scans, scans_on, clears_ann, clears_node, loses, closes, marks_on, marks_all, retires};
ghost use Rattle.step_core.specs.Calls.{call_of, IsReady, MayEnd};

use crate::call::Call;
use bq_model::{Group, Ops, Shape};
use excess_count::pair;
use lane_steps::{CallEnd, ClosePoint, Closing, Hold, Point, sort_rows};
use std::mem;
use word_rows::Place;

// Whether any row is to be marked as passed, where so many lie behind the first one.
fn passes_any(behind: usize, stopped: bool) -> bool
    ensures { result ≡ nat_lt 0 (to_pass behind stopped) }
{
    stopped || behind > 0
}

impl Call {
    // The command ends with Done and the answers that stand there, and its group joins the ended ones.
    fn end(&mut self, caller: u32, now: usize)
        requires { MayEnd self.old }
        ensures ended { call_of self.new ≡ done now caller (call_of self.old) self.old.answers.items }
        ensures ready { IsReady self.old.answers.capacity self.old.named.capacity self.new }
    {
        let ops = mem::replace(&mut self.ops, Ops::new(self.alloc));
        self.operations += ops.len() as u64;
        self.mine.push_reserved(Group {
            caller,
            batch: self.mine.len() as u64,
            ops,
        });
        self.puts.clear();
        self.point = Point::Idle;
        self.outcome = Some(CallEnd::Done);
        self.ended_at = Some(now);
    }

    // The command ends with Full.
    fn refuse(&mut self, now: usize)
        requires { MayEnd self.old }
        ensures refused { call_of self.new ≡ record (call_of self.old) { point = Point.Idle; ops = []; outcome = Some CallEnd.Full; answers = []; ended_at = Some now } }
        ensures ready { IsReady self.old.answers.capacity self.old.named.capacity self.new }
    {
        self.ops = Ops::new(self.alloc);
        self.puts.clear();
        self.answers.clear();
        self.point = Point::Idle;
        self.outcome = Some(CallEnd::Full);
        self.ended_at = Some(now);
    }

    // It ends, with the answers that it has then.
    fn end_with(&mut self, caller: u32, closing: Closing, now: usize)
        requires may { MayEnd self.old }
        requires some { 0 < self.old.answers.capacity }
        ensures ended { call_of self.new ≡ ended now caller (call_of self.old) closing }
        ensures ready { IsReady self.old.answers.capacity self.old.named.capacity self.new }
    {
        match closing {
            Closing::Plain(answer) => {
                self.answers.clear();
                self.answers.push(answer);
                self.end(caller, now);
            }
            Closing::Batch(queued) => {
                pair(
                    self.ops.as_slice(),
                    queued,
                    self.values.as_slice(),
                    &mut self.answers,
                );
                self.end(caller, now);
            }
            Closing::Full => self.refuse(now),
        }
    }

    // It frees the next row of its retired list that isn't named, or ends.
    fn free_next(&mut self, caller: u32, closing: Closing, now: usize)
        requires may { MayEnd self.old }
        requires some { 0 < self.old.answers.capacity }
        ensures frees { call_of self.new ≡ frees_next now caller (call_of self.old) closing }
        ensures ready { IsReady self.old.answers.capacity self.old.named.capacity self.new }
    {
        match self.retired.first_unheld(self.named.as_slice()) {
            Some(row) => self.point = Point::Close(closing, ClosePoint::MarkFree { row }),
            None => self.end_with(caller, closing, now),
        }
    }

    // It has freed that row.
    pub(crate) fn free(&mut self, caller: u32, closing: Closing, now: usize)
        requires may { MayEnd self.old }
        requires some { 0 < self.old.answers.capacity }
        ensures frees { call_of self.new ≡ frees_next now caller (record (call_of self.old) { retired = without_first_unheld self.old.named.items self.old.retired.items }) closing }
        ensures ready { IsReady self.old.answers.capacity self.old.named.capacity self.new }
    {
        let _: Option<u32> = self.retired.take_unheld(self.named.as_slice());
        self.free_next(caller, closing, now);
    }

    // It has found this in the NODE_HAZARD of that caller.
    pub(crate) fn find(
        &mut self,
        shape: &Shape,
        caller: u32,
        closing: Closing,
        other: u32,
        found: Option<u32>,
        now: usize,
    )
        requires may { MayEnd self.old }
        requires some { 0 < self.old.answers.capacity }
        requires inside { other < shape.now.callers }
        requires room { length self.old.named.items < self.old.named.capacity }
        ensures finds { call_of self.new ≡ scans_on (lane_sizes shape.now) now caller (record (call_of self.old) { named = noted self.old.named.items found }) closing other }
        ensures ready { IsReady self.old.answers.capacity self.old.named.capacity self.new }
    {
        match found {
            Some(row) => self.named.push(row),
            None => {}
        }
        let next = other + 1;
        if next == shape.callers() {
            self.free_next(caller, closing, now);
        } else {
            self.point = Point::Close(closing, ClosePoint::LoadHazard { caller: next });
        }
    }

    // Its hazard words are clear: it scans those of all callers, where it has a row to free.
    fn scan(&mut self, caller: u32, closing: Closing, now: usize)
        requires may { MayEnd self.old }
        requires some { 0 < self.old.answers.capacity }
        ensures scans { call_of self.new ≡ scans now caller (call_of self.old) closing self.old.retired.items }
        ensures ready { IsReady self.old.answers.capacity self.old.named.capacity self.new }
    {
        if self.retired.len() == 0 {
            self.end_with(caller, closing, now);
        } else {
            self.named.clear();
            self.point = Point::Close(closing, ClosePoint::LoadHazard { caller: 0 });
        }
    }

    // Its NODE_HAZARD is clear: it clears its ANN_HAZARD, where that names something.
    fn leave_ann(&mut self, caller: u32, closing: Closing, now: usize)
        requires may { MayEnd self.old }
        requires some { 0 < self.old.answers.capacity }
        ensures clears { call_of self.new ≡ clears_ann now caller (call_of self.old) closing self.old.hold }
        ensures ready { IsReady self.old.answers.capacity self.old.named.capacity self.new }
    {
        match self.hold {
            Hold::Free => self.scan(caller, closing, now),
            Hold::Names(_) | Hold::Held(_) => {
                self.point = Point::Close(closing, ClosePoint::ClearAnn);
            }
        }
    }

    // It clears its hazard words, where they name something.
    fn leave_row(&mut self, caller: u32, closing: Closing, now: usize)
        requires may { MayEnd self.old }
        requires some { 0 < self.old.answers.capacity }
        ensures clears { call_of self.new ≡ clears_node now caller (call_of self.old) closing self.old.row_hold }
        ensures ready { IsReady self.old.answers.capacity self.old.named.capacity self.new }
    {
        match self.row_hold {
            Hold::Free => self.leave_ann(caller, closing, now),
            Hold::Names(_) | Hold::Held(_) => {
                self.point = Point::Close(closing, ClosePoint::ClearNode);
            }
        }
    }

    // It has cleared its NODE_HAZARD.
    pub(crate) fn clear_node(&mut self, caller: u32, closing: Closing, now: usize)
        requires may { MayEnd self.old }
        requires some { 0 < self.old.answers.capacity }
        ensures clears { call_of self.new ≡ clears_ann now caller (record (call_of self.old) { row_hold = Free }) closing self.old.hold }
        ensures ready { IsReady self.old.answers.capacity self.old.named.capacity self.new }
    {
        self.row_hold = Hold::Free;
        self.leave_ann(caller, closing, now);
    }

    // It has cleared its ANN_HAZARD.
    pub(crate) fn clear_ann(&mut self, caller: u32, closing: Closing, now: usize)
        requires may { MayEnd self.old }
        requires some { 0 < self.old.answers.capacity }
        ensures scans { call_of self.new ≡ scans now caller (record (call_of self.old) { hold = Free }) closing self.old.retired.items }
        ensures ready { IsReady self.old.answers.capacity self.old.named.capacity self.new }
    {
        self.hold = Hold::Free;
        self.scan(caller, closing, now);
    }

    // It marks the first of its rows that it took and didn't link, or clears its hazard words.
    fn lose(&mut self, caller: u32, closing: Closing, now: usize)
        requires may { MayEnd self.old }
        requires some { 0 < self.old.answers.capacity }
        ensures loses { call_of self.new ≡ loses now caller (call_of self.old) closing self.old.rows.items }
        ensures ready { IsReady self.old.answers.capacity self.old.named.capacity self.new }
    {
        if self.rows.is_empty() {
            self.leave_row(caller, closing, now);
        } else {
            let row = self.rows.remove(0);
            self.point = Point::Close(closing, ClosePoint::MarkLoose { row });
        }
    }

    // It has marked this one, which both marks are set on now.
    pub(crate) fn retire(&mut self, caller: u32, closing: Closing, row: u32, now: usize)
        requires may { MayEnd self.old }
        requires some { 0 < self.old.answers.capacity }
        requires room { length self.old.retired.items < self.old.retired.capacity }
        ensures retires { call_of self.new ≡ loses now caller (record (call_of self.old) { retired = self.old.retired.items ++ row ∷ [] }) closing self.old.rows.items }
        ensures ready { IsReady self.old.answers.capacity self.old.named.capacity self.new }
    {
        self.retired.put(row);
        self.lose(caller, closing, now);
    }

    /// It marks no row of the list any more, and comes to those that it took and didn't link, by rising number.
    pub(crate) fn close(&mut self, caller: u32, closing: Closing, now: usize)
        requires may { MayEnd self.old }
        requires some { 0 < self.old.answers.capacity }
        ensures closes { call_of self.new ≡ closes now caller (call_of self.old) closing }
        ensures ready { IsReady self.old.answers.capacity self.old.named.capacity self.new }
    {
        sort_rows(self.rows.as_mut_slice());
        self.lose(caller, closing, now);
    }

    // It marks the next of the rows that it walked, which lies behind this place, or closes.
    fn mark_on(&mut self, caller: u32, closing: Closing, stopped: bool, place: Place, now: usize)
        requires may { MayEnd self.old }
        requires some { 0 < self.old.answers.capacity }
        requires counts { place.count < 2 ^ 44 }
        ensures marks { call_of self.new ≡ marks_on now caller (call_of self.old) closing stopped place self.old.walked.items }
        ensures ready { IsReady self.old.answers.capacity self.old.named.capacity self.new }
    {
        if self.walked.is_empty() {
            self.close(caller, closing, now);
        } else {
            let row = self.walked.remove(0);
            let count = place.count + 1;
            let point = ClosePoint::MarkRow {
                place: Place { row, count },
                read: true,
                passed: passes_any(self.walked.len(), stopped),
                stopped,
            };
            self.point = Point::Close(closing, point);
        }
    }

    // It has marked the row at this place, which has both marks now, or not.
    pub(crate) fn mark(
        &mut self,
        caller: u32,
        closing: Closing,
        place: Place,
        both: bool,
        stopped: bool,
        now: usize,
    )
        requires may { MayEnd self.old }
        requires some { 0 < self.old.answers.capacity }
        requires counts { place.count < 2 ^ 44 }
        requires room { length self.old.retired.items < self.old.retired.capacity }
        ensures marks { call_of self.new ≡ marks_on now caller (retires (call_of self.old) place.row both) closing stopped place self.old.walked.items }
        ensures ready { IsReady self.old.answers.capacity self.old.named.capacity self.new }
    {
        if both {
            self.retired.put(place.row);
        }
        self.mark_on(caller, closing, stopped, place, now);
    }

    /// It marks the rows from the old dummy on, where the head has passed that, or closes.
    pub(crate) fn mark_all(
        &mut self,
        caller: u32,
        closing: Closing,
        stopped: bool,
        dummy: Place,
        now: usize,
    )
        requires may { MayEnd self.old }
        requires some { 0 < self.old.answers.capacity }
        ensures marks { call_of self.new ≡ marks_all now caller (call_of self.old) closing stopped dummy }
        ensures ready { IsReady self.old.answers.capacity self.old.named.capacity self.new }
    {
        if passes_any(self.walked.len(), stopped) {
            let point = ClosePoint::MarkRow {
                place: dummy,
                read: false,
                passed: true,
                stopped,
            };
            self.point = Point::Close(closing, point);
        } else {
            self.walked.clear();
            self.close(caller, closing, now);
        }
    }

    /// It has moved the head from this dummy over one row, whose value it took.
    pub(crate) fn pass(&mut self, caller: u32, closing: Closing, dummy: Place, row: u32, now: usize)
        requires may { MayEnd self.old }
        requires some { 0 < self.old.answers.capacity }
        ensures passes { call_of self.new ≡ marks_all now caller (record (call_of self.old) { walked = row ∷ [] }) closing false dummy }
        ensures ready { IsReady self.old.answers.capacity self.old.named.capacity self.new }
    {
        self.walked.clear();
        self.walked.push_reserved(row);
        self.mark_all(caller, closing, false, dummy, now);
    }
}
