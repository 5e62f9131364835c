// The points of a call: where its caller is, with its operands and what it has read.

use bq_model::Answer;
use excess_count::Counts;
use word_rows::{AnnField, BatchNumber, Place};

/// The row that an enqueue links, and the value that it has.
#[derive(Clone, Copy)]
pub struct Item {
    pub row: u32,
    pub value: u64,
}

/// What an announcement says of its batch, in all its words but OldTail.
#[derive(Clone, Copy)]
pub struct Notice {
    /// The dummy that HEAD named before the announcement.
    pub old_head: Place,
    /// The first row of its chain; the stopper of dequeues alone.
    pub first: u32,
    /// The last row of its chain; the stopper of dequeues alone.
    pub last: u32,
    /// How many operations there are.
    pub counts: Counts,
    /// Whose batch it is, and which.
    pub number: BatchNumber,
    /// Which of the operations 0 to 63 are enqueues.
    pub order0: u64,
    /// Which of the operations 64 to 127 are enqueues.
    pub order1: u64,
    /// Which of the operations 128 to 191 are enqueues.
    pub order2: u64,
    /// Which of the operations 192 to 255 are enqueues.
    pub order3: u64,
}

/// An announcement that its owner has yet to install, and what it is to say.
#[derive(Clone, Copy)]
pub struct Draft {
    pub ann: u32,
    pub notice: Notice,
}

/// What a batch of several dequeues and no enqueue is to say, and which announcement is to say it, once that is chosen.
#[derive(Clone, Copy)]
pub struct Plan {
    pub ann: Option<u32>,
    pub notice: Notice,
}

/// What a caller takes a row for.
#[derive(Clone, Copy)]
pub enum Taking {
    /// For its enqueue of this value.
    Enqueue(u64),
    /// For the next enqueue of its batch, of this value.
    Batch(Notice, u64),
    /// For the stopper of its batch of dequeues alone.
    Stopper(Notice),
}

/// Where a caller is that takes a row: the step that comes next.
#[derive(Clone, Copy)]
pub enum TakePoint {
    /// It loads the marks of an own row, with so many own rows of this kind behind it.
    LoadMark { row: u32, left: u32 },
    /// The row is free, and it takes it.
    ClearMark { row: u32 },
    /// It clears the link of the row that it took.
    ClearLink { row: u32 },
}

/// Where a helping caller goes on after the help.
#[derive(Clone, Copy)]
pub enum Back {
    /// With the answers of its own batch, which it helped.
    Own,
    /// With an enqueue of this item.
    Enqueue(Item),
    /// With a dequeue.
    Dequeue,
    /// With a batch of its own, which it has yet to install.
    Batch(Draft),
    /// With a batch of dequeues alone, which begins its walk again.
    Many(Plan),
}

/// An announcement that a caller helps, as far as it has read it.
#[derive(Clone, Copy)]
pub struct Help {
    pub ann: u32,
    pub old_head: Place,
    pub first: u32,
    pub last: u32,
    pub counts: Counts,
    pub back: Back,
}

/// What a caller names in a hazard word to hold it, and where it found that.
#[derive(Clone, Copy)]
pub enum Guarding {
    /// An enqueue names the tail's row.
    Enqueue(Item, Place),
    /// A dequeue names the dummy.
    Dequeue(Place),
    /// A batch of dequeues alone names the dummy, which its plan has.
    Many(Plan),
    /// A batch of dequeues alone names the row of a tail that lies before the rows that it has walked.
    ManyTail(Plan, Place),
    /// A help names its announcement.
    Help(Help),
    /// A help names the tail's row.
    HelpTail(Help, Place),
}

/// Where a caller is that makes sure of a row or an announcement: the step that comes next.
#[derive(Clone, Copy)]
pub enum GuardPoint {
    /// It names that in its hazard word.
    StoreHazard,
    /// It loads the head or the tail a second time; where that is as before, it holds what it named.
    LoadAgain,
}

/// Where an enqueue is: the step that comes next.
#[derive(Clone, Copy)]
pub enum EnqueuePoint {
    /// It stores its value.
    StoreValue,
    /// It loads the tail.
    LoadTail,
    /// It loads the link of the tail's row.
    LoadLink(Place),
    /// It links its row behind the tail's row.
    LinkSingle(Place),
    /// It moves the tail over another caller's row, and begins again.
    PassTail { tail: Place, row: u32 },
    /// It moves the tail over its own row, and is done.
    MoveTail { tail: Place, row: u32 },
    /// It met a chain, and loads the head.
    LoadHead,
}

/// Where a help is: the step that comes next.
#[derive(Clone, Copy)]
pub enum HelpPoint {
    /// It loads OldHead.
    LoadOldHead,
    /// It loads the first row.
    LoadFirst,
    /// It loads the last row.
    LoadLast,
    /// It loads the counts.
    LoadCounts,
    /// It loads the tail.
    LoadTail,
    /// It loads OldTail.
    LoadOldTail(Place),
    /// It loads the link of the tail's row.
    LoadLink(Place),
    /// It links the chain or the stopper behind the tail's row.
    LinkChain(Place),
    /// It records a tail before which dequeues alone find enough values, so that nothing is linked.
    Decide(Place),
    /// It moves the tail over one row, and begins again.
    PassTail { tail: Place, row: u32 },
    /// It records the tail behind which the chain is linked.
    RecordTail(Place),
    /// It knows OldTail, behind which rows were linked, and loads the tail.
    LoadTailOver(Place),
    /// It moves the tail over the chain or the stopper.
    MoveTailOver(Place),
    /// The batch gets so many values; it loads the link of the row, with so many links to go.
    LoadWalk { values: u32, row: u32, left: u32 },
    /// It moves the head over so many rows, to this one.
    MoveHead { passed: u32, row: u32 },
}

/// Where a dequeue is: the step that comes next.
#[derive(Clone, Copy)]
pub enum DequeuePoint {
    /// It loads the head.
    LoadHead,
    /// It loads the link of the dummy.
    LoadLink(Place),
    /// It loads the tail, after a Single link to the row.
    LoadTail { dummy: Place, row: u32 },
    /// It loads the tail, after a Chain link to the row.
    LoadTailOver { dummy: Place, row: u32 },
    /// It moves a tail that names the dummy, and begins again.
    PassTail { dummy: Place, row: u32 },
    /// It loads the value of the row behind the dummy.
    LoadValue { dummy: Place, row: u32 },
    /// It moves the head to that row, which has this value.
    MoveHead { dummy: Place, row: u32, value: u64 },
}

/// Where the owner of a batch is, until its announcement is chosen: the step that comes next.
#[derive(Clone, Copy)]
pub enum FillPoint {
    /// It stores the value of its enqueue into the row that it took for it.
    StoreValue { row: u32, value: u64 },
    /// It links its row of this number to the next one.
    StoreChain { number: u32, row: u32, next: u32 },
    /// It loads the hazard word of another caller, to choose an announcement that none of them names.
    LoadHazard { caller: u32 },
}

/// Where the owner of a batch is that has chosen its announcement, until this is installed: the step that comes next.
#[derive(Clone, Copy)]
pub enum BatchPoint {
    /// It stores a field of its announcement, OldHead last.
    StoreField(AnnField),
    /// It has no enqueue, and stores a field of its announcement, OldHead first.
    StoreAll(AnnField),
    /// It loads the head.
    LoadHead,
    /// It installs its announcement.
    Install,
}

/// Where a batch of several dequeues and no enqueue is on its walk: the step that comes next. Its plan has the dummy from
/// which it walks.
#[derive(Clone, Copy)]
pub enum ManyPoint {
    /// It loads the head.
    LoadHead,
    /// It loads the link of the dummy.
    LoadDummy,
    /// It loads the link of the last row whose value it has read, with so many values to go.
    LoadLink { row: u32, left: u32 },
    /// It loads the value of the next row, with so many values to go behind it.
    LoadValue { row: u32, left: u32 },
    /// It has read all values, up to this row, and loads the tail.
    LoadTail { row: u32 },
    /// It moves the head to that row.
    MoveHead { row: u32 },
    /// The tail lies before that row; it loads the link of the tail's row.
    LoadBehind(Place),
    /// It moves the tail over one row, and begins again.
    PassTail { tail: Place, row: u32 },
    /// It met a chain, and loads the head.
    LoadChained,
}

/// What the owner of a finished batch knows of it.
#[derive(Clone, Copy)]
pub struct Reading {
    /// The dummy before it.
    pub dummy: Place,
    /// So many values were queued before it.
    pub queued: u64,
    /// Its stopper is linked, and is the dummy behind it.
    pub stopped: bool,
}

/// Where the owner of a finished batch is: the step that comes next.
#[derive(Clone, Copy)]
pub enum AnswerPoint {
    /// It loads OldTail.
    LoadOldTail(Help),
    /// It loads the link of the row, with so many values to go.
    LoadLink {
        reading: Reading,
        row: u32,
        left: u32,
    },
    /// It loads the value of the row, with so many values to go behind it.
    LoadValue {
        reading: Reading,
        row: u32,
        left: u32,
    },
}

/// How a command ends, and with what answers.
#[derive(Clone, Copy)]
pub enum Closing {
    /// With the one answer of a plain call.
    Plain(Answer),
    /// With those of a batch, from the values that it has read, where so many were queued.
    Batch(u64),
    /// With Full.
    Full,
}

/// Where a caller is at the end of its call: the step that comes next.
#[derive(Clone, Copy)]
pub enum ClosePoint {
    /// It marks the row at this place, whose value its operation took, or which its operation passed. Where the stopper is
    /// the new dummy, the last of these rows was passed too.
    MarkRow {
        place: Place,
        read: bool,
        passed: bool,
        stopped: bool,
    },
    /// It marks a row that it took and didn't link.
    MarkLoose {
        row: u32,
    },
    /// It clears its NODE_HAZARD.
    ClearNode,
    /// It clears its ANN_HAZARD.
    ClearAnn,
    /// It loads the NODE_HAZARD of this caller.
    LoadHazard {
        caller: u32,
    },
    /// It frees this row of its retired list, which no hazard word names.
    MarkFree {
        row: u32,
    },
}

/// What a hazard word of a caller names, and whether the caller holds that.
#[derive(Clone, Copy)]
pub enum Hold {
    /// It names nothing.
    Free,
    /// It names this row or announcement, which the caller doesn't hold.
    Names(u32),
    /// It names this row or announcement, and the caller holds it.
    Held(u32),
}

/// Where a caller is in its command, with what it has read.
#[derive(Clone, Copy)]
pub enum Point {
    /// No command runs.
    Idle,
    /// It takes a row.
    Take(Taking, TakePoint),
    /// It makes sure of a row or an announcement.
    Guard(Guarding, GuardPoint),
    /// An enqueue.
    Enqueue(Item, EnqueuePoint),
    /// A dequeue.
    Dequeue(DequeuePoint),
    /// A batch whose owner has yet to choose its announcement.
    Fill(Notice, FillPoint),
    /// A batch that its owner has yet to install.
    Batch(Draft, BatchPoint),
    /// Several dequeues and no enqueue.
    Many(Plan, ManyPoint),
    /// A help.
    Help(Help, HelpPoint),
    /// The answers of a batch.
    Answer(AnswerPoint),
    /// The end of the call.
    Close(Closing, ClosePoint),
}

/// How a command ended.
#[derive(Clone, Copy, Debug, PartialEq, Eq, Hash)]
pub enum CallEnd {
    /// Its operations took effect.
    Done,
    /// No own row was free, and nothing happened.
    Full,
}
