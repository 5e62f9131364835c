// The words of a lane: HEAD, TAIL, the LINK, the VALUE and the MARK of each row, the two hazard words of each caller, and the
// words of each announcement.
ghost use Rattle.std.specs.Prelude.{◌≡◌, ◌<◌, ◌^◌, ℕ, IfOk, slice_index_or, vec_len};
ghost use Rattle.word_rows.specs.Opening.{opening_marks};
ghost use Rattle.lane_steps.specs.Ranges.{IsWord};
ghost use Rattle.lane_steps.specs.State.{read, read_field, write, write_field};
ghost use Rattle.step_core.specs.Words.{memory_of, opening_words, sizes_of, sizes_for};

use bq_model::OutOfMemory;
use lane_steps::{Notice, hazard_in, head_in, link_in, mark_in, old_tail_in, tail_in, value_in};
use std::alloc::Global;
use word_rows::{AnnField, Content, HeadWord, LinkWord, Location, Marks, Place};

/// The words, as what they hold.
#[derive(Drop)]
pub struct Words {
    pub head: HeadWord,
    pub tail: Place,
    pub links: Vec<LinkWord>,
    pub values: Vec<u64>,
    /// Of each announcement OldTail, none while it isn't known.
    pub old_tails: Vec<Option<Place>>,
    /// Of each announcement what its other words say.
    pub notices: Vec<Notice>,
    /// Of each caller the announcement that its ANN_HAZARD names.
    pub ann_hazards: Vec<Option<u32>>,
    /// Of each row READ, PASSED and FREE.
    pub marks: Vec<Marks>,
    /// Of each caller the row that its NODE_HAZARD names.
    pub node_hazards: Vec<Option<u32>>,
}

// The marks of so many rows of an empty lane: all are free but the first dummy, whose value counts as read.
fn first_marks(alloc: Global, rows: usize) -> Result<Vec<Marks>, OutOfMemory>
    requires { 0 < rows }
    ensures len { IfOk result (λ marks. vec_len marks ≡ rows) }
    ensures opening { IfOk result (λ marks. (λ r. slice_index_or marks.items r (opening_marks r)) ≡ opening_marks) }
{
    let dummy = Marks {
        read: true,
        passed: false,
        free: false,
    };
    let unused = Marks {
        read: true,
        passed: true,
        free: true,
    };
    let mut marks = vec![in alloc; unused; rows]?;
    marks[0] = dummy;
    Ok(marks)
}

impl Words {
    /// The words of an empty lane with so many rows, announcements and callers, whose counts begin at `first`.
    pub fn new(
        alloc: Global,
        rows: usize,
        anns: usize,
        callers: usize,
        first: u64,
    ) -> Result<Words, OutOfMemory>
        requires { 0 < rows }
        ensures opening { IfOk result (λ words. memory_of words ≡ opening_words first) }
        ensures sizes { IfOk result (λ words. sizes_of words ≡ sizes_for rows anns callers) }
    {
        let dummy = Place {
            row: 0,
            count: first,
        };
        Ok(Words {
            head: HeadWord::Node(dummy),
            tail: dummy,
            links: vec![in alloc; LinkWord::Nil; rows]?,
            values: vec![in alloc; 0; rows]?,
            old_tails: vec![in alloc; None; anns]?,
            notices: vec![in alloc; Notice::blank(); anns]?,
            ann_hazards: vec![in alloc; None; callers]?,
            marks: first_marks(alloc, rows)?,
            node_hazards: vec![in alloc; None; callers]?,
        })
    }

    // What the word of an announcement holds.
    fn read_field(&self, ann: u32, field: AnnField) -> Content
        requires old_tails { ann < vec_len self.now.old_tails }
        requires notices { ann < vec_len self.now.notices }
        ensures { result ≡ read_field (memory_of self.now) ann field }
    {
        match field {
            AnnField::OldTail => Content::OfOldTail(self.old_tails[ann as usize]),
            _ => self.notices[ann as usize].field(field),
        }
    }

    /// What the word holds.
    pub fn read(&self, word: Location) -> Content
        requires links { IsWord (vec_len self.now.links) (vec_len self.now.ann_hazards) (vec_len self.now.old_tails) word }
        requires values { IsWord (vec_len self.now.values) (vec_len self.now.node_hazards) (vec_len self.now.notices) word }
        requires marks { IsWord (vec_len self.now.marks) (vec_len self.now.node_hazards) (vec_len self.now.notices) word }
        ensures { result ≡ read (memory_of self.now) word }
    {
        match word {
            Location::Head => Content::OfHead(self.head),
            Location::Tail => Content::OfTail(self.tail),
            Location::Link { row } => Content::OfLink(self.links[row as usize]),
            Location::Value { row } => Content::OfValue(self.values[row as usize]),
            Location::AnnWord { ann, field } => self.read_field(ann, field),
            Location::Mark { row } => Content::OfMark(self.marks[row as usize]),
            Location::NodeHazard { caller } => {
                Content::OfNodeHazard(self.node_hazards[caller as usize])
            }
            Location::AnnHazard { caller } => {
                Content::OfAnnHazard(self.ann_hazards[caller as usize])
            }
        }
    }

    // Stores into the word of an announcement.
    fn write_field(&mut self, ann: u32, field: AnnField, content: Content)
        requires old_tails { ann < vec_len self.old.old_tails }
        requires notices { ann < vec_len self.old.notices }
        ensures memory { memory_of self.new ≡ write_field (memory_of self.old) ann field content }
        ensures sizes_stay { sizes_of self.new ≡ sizes_of self.old }
    {
        match field {
            AnnField::OldTail => self.old_tails[ann as usize] = old_tail_in(content),
            _ => {
                let notice = self.notices[ann as usize];
                self.notices[ann as usize] = notice.with_field(field, content);
            }
        }
    }

    /// Stores into the word.
    pub fn write(&mut self, word: Location, content: Content)
        requires links { IsWord (vec_len self.old.links) (vec_len self.old.ann_hazards) (vec_len self.old.old_tails) word }
        requires values { IsWord (vec_len self.old.values) (vec_len self.old.node_hazards) (vec_len self.old.notices) word }
        requires marks { IsWord (vec_len self.old.marks) (vec_len self.old.node_hazards) (vec_len self.old.notices) word }
        ensures memory { memory_of self.new ≡ write (memory_of self.old) word content }
        ensures sizes_stay { sizes_of self.new ≡ sizes_of self.old }
    {
        match word {
            Location::Head => self.head = head_in(content),
            Location::Tail => self.tail = tail_in(content),
            Location::Link { row } => self.links[row as usize] = link_in(content),
            Location::Value { row } => self.values[row as usize] = value_in(content),
            Location::AnnWord { ann, field } => self.write_field(ann, field, content),
            Location::AnnHazard { caller } => self.ann_hazards[caller as usize] = hazard_in(
                content,
            ),
            Location::Mark { row } => self.marks[row as usize] = mark_in(content),
            Location::NodeHazard { caller } => self.node_hazards[caller as usize] = hazard_in(
                content,
            ),
        }
    }
}
