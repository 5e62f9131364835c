// What the machine keeps of a caller. All memory that a command's steps need is there before its first step.
ghost use Rattle.std.specs.Prelude.{◌≡◌, ◌≢◌, ℕ, suc, ◌+◌, ◌++◌, ◌==◌, ◌^◌, ◌<◌, ◌≤◌, IfOk, OnOk, IsTrue, [], ◌∷◌, length, get_or, vec_len, vec_capacity, Some, None};
ghost use Rattle.bq_model.specs.Values.{enqueued};
ghost use Rattle.lane_steps.specs.Step.{after, guarding, holding, listening, links_on, fills_row, reads_on, rows_left, stepped, stepped_with};
ghost use Rattle.lane_steps.specs.Batches.{with_rows};
ghost use Rattle.lane_steps.specs.Fill.{noted};
ghost use Rattle.lane_steps.specs.LaneSizes.{lane_sizes};
ghost use Rattle.lane_steps.specs.Start.{newcomer};
ghost use Rattle.step_core.specs.Calls.{call_of, IsReady, MayEnd, MayGo};

use bq_model::{Answers, Bounded, Group, Ops, OutOfMemory, Shape};
use lane_steps::{
    AnswerPoint, CallEnd, Closing, Course, Draft, FillPoint, Hold, Notice, Point, Reading, Taking,
    first_store, past, search,
};
use node_guard::{AnnStock, Retired};
use std::alloc::Global;
use word_rows::Content;

/// The point of a caller in its call, and what of its calls is kept.
#[derive(Drop)]
pub struct Call {
    pub alloc: Global,
    /// The step that comes next.
    pub point: Point,
    /// The operations of the running command.
    pub ops: Ops,
    /// The values that they enqueue, in order.
    pub puts: Vec<u64>,
    /// The groups of the commands that were done.
    pub mine: Vec<Group>,
    /// How many operations they have.
    pub operations: u64,
    /// The rows that its batch took and hasn't linked, in the order of taking.
    pub rows: Vec<u32>,
    /// The values that it has read for the answers of its batch, and the rows that have these; then those that it has yet to
    /// mark.
    pub values: Vec<u64>,
    pub walked: Vec<u32>,
    /// The rows that both marks were set on and that it has yet to free.
    pub retired: Retired,
    /// What it has found in the hazard words of others, in its last choice of an announcement or its last scan.
    pub named: Bounded<u32>,
    /// What its own hazard words name.
    pub row_hold: Hold,
    pub hold: Hold,
    /// How the last ended command ended, and its answers.
    pub outcome: Option<CallEnd>,
    pub answers: Answers,
    /// How many groups the history had at the start of the last command, and at its end.
    pub started_at: usize,
    pub ended_at: Option<usize>,
}

impl Call {
    /// A caller that made no command yet, with memory for the rows and the answers of a batch, and for what it finds in hazard
    /// words.
    pub fn new(alloc: Global, shape: &Shape) -> Result<Call, OutOfMemory>
        ensures newcomer { IfOk result (λ call. call_of call ≡ newcomer) }
        ensures ready { IfOk result (λ call. IsReady shape.now.batch shape.now.callers call) }
    {
        let most = shape.batch() as usize;
        Ok(Call {
            alloc,
            point: Point::Idle,
            ops: Ops::new(alloc),
            puts: Vec::new(alloc),
            mine: Vec::new(alloc),
            operations: 0,
            rows: Vec::with_capacity(alloc, most)?,
            values: Vec::with_capacity(alloc, most)?,
            walked: Vec::with_capacity(alloc, most)?,
            retired: Retired::new(alloc, shape)?,
            named: Bounded::new(alloc, shape.callers())?,
            row_hold: Hold::Free,
            hold: Hold::Free,
            outcome: None,
            answers: Answers::new(alloc, shape.batch())?,
            started_at: 0,
            ended_at: None,
        })
    }

    /// Takes the memory that the end of a command needs.
    pub fn reserve(&mut self) -> Result<(), OutOfMemory>
        ensures same { call_of self.new ≡ call_of self.old }
        ensures ready { (batch callers : ℕ) → IsReady batch callers self.old → IsReady batch callers self.new }
        ensures room { OnOk result (vec_len self.new.mine < vec_capacity self.new.mine) }
    {
        self.mine.reserve(1)?;
        Ok(())
    }

    /// A command starts, when the history has `now` groups.
    pub fn begin(&mut self, point: Point, ops: Ops, puts: Vec<u64>, now: usize)
        requires ready { IsReady self.old.answers.capacity self.old.named.capacity self.old }
        requires room { vec_len self.old.mine < vec_capacity self.old.mine }
        requires fits { length ops ≤ self.old.answers.capacity }
        requires puts { puts.items ≡ enqueued ops }
        ensures begins { call_of self.new ≡ record (call_of self.old) { point = point; ops = ops; rows = []; values = []; walked = []; started_at = now; ended_at = None } }
        ensures ready { IsReady self.old.answers.capacity self.old.named.capacity self.new }
    {
        self.point = point;
        self.ops = ops;
        self.puts = puts;
        self.rows.clear();
        self.values.clear();
        self.walked.clear();
        self.started_at = now;
        self.ended_at = None;
    }

    // What its own ANN_HAZARD names, or whether it holds that, has changed.
    fn guard(&mut self, point: Point, hold: Hold)
        requires { MayEnd self.old }
        ensures guards { call_of self.new ≡ guarding (call_of self.old) point hold }
        ensures ready { IsReady self.old.answers.capacity self.old.named.capacity self.new }
    {
        self.point = point;
        self.hold = hold;
    }

    // The same of its NODE_HAZARD.
    fn guard_row(&mut self, point: Point, hold: Hold)
        requires { MayEnd self.old }
        ensures holds { call_of self.new ≡ holding (call_of self.old) point hold }
        ensures ready { IsReady self.old.answers.capacity self.old.named.capacity self.new }
    {
        self.point = point;
        self.row_hold = hold;
    }

    // A batch goes on with the hazard words of the callers from this one on, or chooses its announcement.
    fn listen_on(&mut self, shape: &Shape, caller: u32, notice: Notice, other: u32)
        requires may { MayEnd self.old }
        requires known { caller < shape.now.callers }
        requires inside { other ≤ shape.now.callers }
        requires few { length self.old.named.items < shape.now.callers }
        ensures listens { call_of self.new ≡ listening (lane_sizes shape.now) caller (call_of self.old) notice other self.old.named.items }
        ensures ready { IsReady self.old.answers.capacity self.old.named.capacity self.new }
    {
        let next = past(caller, other);
        self.point = if next < shape.callers() {
            Point::Fill(notice, FillPoint::LoadHazard { caller: next })
        } else {
            let ann = AnnStock::new(shape, caller).pick(self.named.as_slice());
            first_store(Draft { ann, notice })
        };
    }

    // It begins with that.
    fn listen(&mut self, shape: &Shape, caller: u32, notice: Notice)
        requires may { MayEnd self.old }
        requires known { caller < shape.now.callers }
        ensures listens { call_of self.new ≡ listening (lane_sizes shape.now) caller (call_of self.old) notice 0 [] }
        ensures ready { IsReady self.old.answers.capacity self.old.named.capacity self.new }
    {
        self.named.clear();
        self.listen_on(shape, caller, notice, 0);
    }

    // It found this in the word of that caller.
    fn hear(&mut self, shape: &Shape, caller: u32, notice: Notice, other: u32, found: Option<u32>)
        requires may { MayEnd self.old }
        requires known { caller < shape.now.callers }
        requires inside { other < shape.now.callers }
        requires room { length self.old.named.items < self.old.named.capacity }
        requires few { length self.old.named.items + 1 < shape.now.callers }
        ensures hears { call_of self.new ≡ listening (lane_sizes shape.now) caller (call_of self.old) notice (suc other) (noted self.old.named.items found) }
        ensures ready { IsReady self.old.answers.capacity self.old.named.capacity self.new }
    {
        match found {
            Some(ann) => self.named.push(ann),
            None => {}
        }
        self.listen_on(shape, caller, notice, other + 1);
    }

    // The row of this number.
    fn row(&self, number: usize) -> u32
        ensures { result ≡ get_or self.now.rows.items number 0 }
    {
        self.rows.get(number).copied().unwrap_or(0)
    }

    // What a batch says, with the first and the last of its rows.
    fn with_rows(&self, notice: Notice) -> Notice
        ensures { result ≡ with_rows notice self.now.rows.items }
    {
        Notice {
            first: self.row(0),
            last: self.row(self.rows.len().saturating_sub(1)),
            ..notice
        }
    }

    // A batch links its row of this number to the next one, or, where it is the last one, chooses an announcement.
    fn link_on(&mut self, shape: &Shape, caller: u32, notice: Notice, number: u32, last: bool)
        requires may { MayEnd self.old }
        requires known { caller < shape.now.callers }
        ensures links { call_of self.new ≡ links_on (lane_sizes shape.now) caller (call_of self.old) notice number last }
        ensures ready { IsReady self.old.answers.capacity self.old.named.capacity self.new }
    {
        if last {
            self.listen(shape, caller, notice);
        } else {
            let chain = FillPoint::StoreChain {
                number,
                row: self.row(number as usize),
                next: self.row(number as usize + 1),
            };
            self.point = Point::Fill(notice, chain);
        }
    }

    // A batch has filled this row: it takes one for its next enqueue, or links its rows.
    fn fill(&mut self, shape: &Shape, caller: u32, notice: Notice, row: u32)
        requires may { MayEnd self.old }
        requires known { caller < shape.now.callers }
        requires room { vec_len self.old.rows < vec_capacity self.old.rows }
        ensures fills { call_of self.new ≡ fills_row (lane_sizes shape.now) caller (record (call_of self.old) { rows = self.old.rows.items ++ row ∷ [] }) notice }
        ensures ready { IsReady self.old.answers.capacity self.old.named.capacity self.new }
    {
        self.rows.push_reserved(row);
        if self.rows.len() == notice.counts.enqs as usize {
            let only = self.rows.len() == 1;
            let notice = self.with_rows(notice);
            self.link_on(shape, caller, notice, 0, only);
        } else {
            let value = self.puts.get(self.rows.len()).copied().unwrap_or(0);
            self.point = search(shape, caller, Taking::Batch(notice, value));
        }
    }

    // A batch of dequeues alone has taken this stopper, and chooses an announcement.
    fn stop(&mut self, shape: &Shape, caller: u32, notice: Notice, row: u32)
        requires may { MayEnd self.old }
        requires known { caller < shape.now.callers }
        requires some { 0 < vec_capacity self.old.rows }
        ensures stops { call_of self.new ≡ listening (lane_sizes shape.now) caller (record (call_of self.old) { rows = row ∷ [] }) (with_rows notice (row ∷ [])) 0 [] }
        ensures ready { IsReady self.old.answers.capacity self.old.named.capacity self.new }
    {
        self.rows.clear();
        self.rows.push_reserved(row);
        let notice = self.with_rows(notice);
        self.listen(shape, caller, notice);
    }

    // A batch has read some values, and goes on from the row where some are left. Else it marks the rows that it passed.
    fn read_on(&mut self, caller: u32, reading: Reading, row: u32, left: u32, now: usize)
        requires may { MayEnd self.old }
        requires some { 0 < self.old.answers.capacity }
        ensures reads { call_of self.new ≡ reads_on now caller (call_of self.old) reading row left self.old.values.items self.old.walked.items }
        ensures ready { IsReady self.old.answers.capacity self.old.named.capacity self.new }
    {
        if left == 0 {
            self.mark_all(
                caller,
                Closing::Batch(reading.queued),
                reading.stopped,
                reading.dummy,
                now,
            );
        } else {
            let left = left - 1;
            self.point = Point::Answer(AnswerPoint::LoadLink { reading, row, left });
        }
    }

    // It begins to read them.
    fn read(&mut self, caller: u32, reading: Reading, row: u32, left: u32, linked: bool, now: usize)
        requires may { MayEnd self.old }
        requires some { 0 < self.old.answers.capacity }
        ensures reads { call_of self.new ≡ reads_on now caller (record (call_of self.old) { rows = rows_left linked self.old.rows.items }) reading row left [] [] }
        ensures ready { IsReady self.old.answers.capacity self.old.named.capacity self.new }
    {
        if linked {
            self.rows.clear();
        }
        self.values.clear();
        self.walked.clear();
        self.read_on(caller, reading, row, left, now);
    }

    // It has read this value, the one of the row.
    fn read_more(
        &mut self,
        caller: u32,
        reading: Reading,
        row: u32,
        left: u32,
        value: u64,
        now: usize,
    )
        requires may { MayEnd self.old }
        requires some { 0 < self.old.answers.capacity }
        requires room { vec_len self.old.values < vec_capacity self.old.values }
        requires rows { vec_len self.old.walked < vec_capacity self.old.walked }
        ensures reads { call_of self.new ≡ reads_on now caller (call_of self.old) reading row left (self.old.values.items ++ value ∷ []) (self.old.walked.items ++ row ∷ []) }
        ensures ready { IsReady self.old.answers.capacity self.old.named.capacity self.new }
    {
        self.values.push_reserved(value);
        self.walked.push_reserved(row);
        self.read_on(caller, reading, row, left, now);
    }

    // A batch of dequeues alone begins its walk, with no value read.
    fn walk(&mut self, point: Point)
        requires { MayEnd self.old }
        ensures walks { call_of self.new ≡ stepped_with (call_of self.old) point [] [] }
        ensures ready { IsReady self.old.answers.capacity self.old.named.capacity self.new }
    {
        self.values.clear();
        self.walked.clear();
        self.point = point;
    }

    // A batch of dequeues alone goes on with its walk, with one more value read, of this row.
    fn walk_on(&mut self, point: Point, row: u32, value: u64)
        requires may { MayEnd self.old }
        requires room { vec_len self.old.values < vec_capacity self.old.values }
        requires rows { vec_len self.old.walked < vec_capacity self.old.walked }
        ensures walks { call_of self.new ≡ stepped_with (call_of self.old) point (self.old.values.items ++ value ∷ []) (self.old.walked.items ++ row ∷ []) }
        ensures ready { IsReady self.old.answers.capacity self.old.named.capacity self.new }
    {
        self.values.push_reserved(value);
        self.walked.push_reserved(row);
        self.point = point;
    }

    /// The caller goes on after the step that found this in its word, when the history has `now` groups.
    pub fn go(&mut self, shape: &Shape, caller: u32, found: Content, now: usize)
        requires { MayGo shape.now caller self.old }
        ensures goes { call_of self.new ≡ after (lane_sizes shape.now) now caller (call_of self.old) self.old.point found }
        ensures ready { IsReady self.old.answers.capacity self.old.named.capacity self.new }
    {
        match self.point.course(found) {
            Course::GoesOn(point) => self.point = point,
            Course::Closes(closing) => self.close(caller, closing, now),
            Course::Lacks => self.close(caller, Closing::Full, now),
            Course::Passes {
                closing,
                dummy,
                row,
            } => self.pass(caller, closing, dummy, row, now),
            Course::Fills { notice, row } => self.fill(shape, caller, notice, row),
            Course::Chains { notice, number } => {
                let last = number as usize + 2 == self.rows.len();
                self.link_on(shape, caller, notice, number + 1, last);
            }
            Course::Stops { notice, row } => self.stop(shape, caller, notice, row),
            Course::Takes(taking) => self.point = search(shape, caller, taking),
            Course::Hears {
                notice,
                caller: other,
                named,
            } => self.hear(shape, caller, notice, other, named),
            Course::Guards(point, hold) => self.guard(point, hold),
            Course::Holds(point, hold) => self.guard_row(point, hold),
            Course::Reads {
                reading,
                row,
                left,
                linked,
            } => self.read(caller, reading, row, left, linked, now),
            Course::ReadsMore {
                reading,
                row,
                left,
                value,
            } => self.read_more(caller, reading, row, left, value, now),
            Course::Walks(point) => self.walk(point),
            Course::WalksMore { point, row, value } => self.walk_on(point, row, value),
            Course::Moves { dummy, queued } => {
                self.mark_all(caller, Closing::Batch(queued), false, dummy, now);
            }
            Course::Marks {
                closing,
                place,
                both,
                stopped,
            } => self.mark(caller, closing, place, both, stopped, now),
            Course::Retires { closing, row } => self.retire(caller, closing, row, now),
            Course::ClearsNode(closing) => self.clear_node(caller, closing, now),
            Course::ClearsAnn(closing) => self.clear_ann(caller, closing, now),
            Course::Finds {
                closing,
                caller: other,
                named,
            } => self.find(shape, caller, closing, other, named, now),
            Course::Frees(closing) => self.free(caller, closing, now),
        }
    }
}
