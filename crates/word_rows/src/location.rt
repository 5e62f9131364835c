// The words of a lane, by name.
ghost use Rattle.std.specs.Prelude.{◌≡◌, ◌↔◌, ◌+◌, ◌*◌, ◌<◌, IsSome};
ghost use Rattle.bq_model.specs.declared.shape.Shape.{Shape};
ghost use Rattle.word_rows.specs.Sizes.{rows_of, words_of};
ghost use Rattle.word_rows.specs.ReadsBack.{ReadsBack};
ghost use Rattle.word_rows.specs.Layout.{field_number, IsValid, index_of};

use crate::index;
use crate::sizes::words;
use bq_model::Shape;

/// The words of an announcement.
#[derive(Clone, Copy, Debug, PartialEq, Eq, Hash)]
pub enum AnnField {
    /// What HEAD held before the announcement.
    OldHead,
    /// Where the list ended when the batch was decided.
    OldTail,
    /// The first row of the chain.
    First,
    /// The last row of the chain.
    Last,
    /// The counts of the batch.
    Counts,
    /// Whose batch it is, and which.
    BatchNo,
    /// Which of the operations 0 to 63 are enqueues.
    Order0,
    /// Which of the operations 64 to 127 are enqueues.
    Order1,
    /// Which of the operations 128 to 191 are enqueues.
    Order2,
    /// Which of the operations 192 to 255 are enqueues.
    Order3,
}

impl AnnField {
    /// Which of the announcement's words it is, counted from 0.
    #[inline(always)]
    pub fn number(self) -> u32
        ensures in_the_order_of_the_layout { result ≡ field_number self }
        ensures one_of_ten { result < 10 }
    {
        match self {
            AnnField::OldHead => 0,
            AnnField::OldTail => 1,
            AnnField::First => 2,
            AnnField::Last => 3,
            AnnField::Counts => 4,
            AnnField::BatchNo => 5,
            AnnField::Order0 => 6,
            AnnField::Order1 => 7,
            AnnField::Order2 => 8,
            AnnField::Order3 => 9,
        }
    }

    /// The word of this number.
    pub fn at(number: u32) -> AnnField
        requires { number < 10 }
        ensures { field_number result ≡ number }
    {
        match number {
            0 => AnnField::OldHead,
            1 => AnnField::OldTail,
            2 => AnnField::First,
            3 => AnnField::Last,
            4 => AnnField::Counts,
            5 => AnnField::BatchNo,
            6 => AnnField::Order0,
            7 => AnnField::Order1,
            8 => AnnField::Order2,
            _ => AnnField::Order3,
        }
    }
}

/// A word of a lane.
#[derive(Clone, Copy, Debug, PartialEq, Eq, Hash)]
pub enum Location {
    /// Names the dummy or an announcement.
    Head,
    /// Names the last row, or one before it.
    Tail,
    /// How a row goes on.
    Link {
        /// The number of the row.
        row: u32,
    },
    /// The value of a row.
    Value {
        /// The number of the row.
        row: u32,
    },
    /// The marks of a row.
    Mark {
        /// The number of the row.
        row: u32,
    },
    /// The row that a caller holds.
    NodeHazard {
        /// The number of the caller.
        caller: u32,
    },
    /// The announcement that a caller holds.
    AnnHazard {
        /// The number of the caller.
        caller: u32,
    },
    /// A word of an announcement.
    AnnWord {
        /// The number of the announcement.
        ann: u32,
        /// Which of its words.
        field: AnnField,
    },
}

impl Location {
    /// Where the word lies in the lane's table.
    #[inline(always)]
    pub fn index(self, shape: &Shape) -> u32
        requires { IsValid shape.now self }
        ensures by_the_layout { result ≡ index_of shape.now self }
        ensures in_the_table { result < words_of shape.now }
    {
        match self {
            Location::Head => index::head(shape),
            Location::Tail => index::tail(shape),
            Location::Link { row } => index::link(shape, row),
            Location::Value { row } => index::value(shape, row),
            Location::Mark { row } => index::mark(shape, row),
            Location::NodeHazard { caller } => index::node_hazard(shape, caller),
            Location::AnnHazard { caller } => index::ann_hazard(shape, caller),
            Location::AnnWord { ann, field } => index::ann_word(shape, ann, field),
        }
    }

    /// The word that lies there.
    pub fn at(shape: &Shape, index: u32) -> Option<Location>
        ensures its_word { ReadsBack (IsValid shape.now) (index_of shape.now) index result }
        ensures every_index_is_taken { IsSome result ↔ (index < words_of shape.now) }
    {
        let callers = index::callers_start(shape);
        let anns = index::anns_start(shape);
        if index < index::ENDS {
            Some(end_at(index))
        } else if index < callers {
            Some(row_word_at(index - index::ENDS))
        } else if index < anns {
            Some(caller_word_at(index - callers))
        } else if index < words(shape) {
            Some(Location::AnnWord {
                ann: (index - anns) / index::ANN_WORDS,
                field: AnnField::at((index - anns) % index::ANN_WORDS),
            })
        } else {
            None
        }
    }
}

/// Which end of the list it is, HEAD first.
fn end_at(number: u32) -> Location
    requires { number < 2 }
    ensures { (s : Shape) → IsValid s result × (index_of s result ≡ number) }
{
    if number == 0 {
        Location::Head
    } else {
        Location::Tail
    }
}

/// Which word of a row it is, counted from the first word of row 0.
fn row_word_at(number: u32) -> Location
    ensures { (s : Shape) → number < 3 * rows_of s → IsValid s result × (index_of s result ≡ 2 + number) }
{
    let row = number / index::ROW_WORDS;
    match number % index::ROW_WORDS {
        0 => Location::Link { row },
        1 => Location::Value { row },
        _ => Location::Mark { row },
    }
}

/// Which word of a caller it is, counted from the first word of caller 0.
fn caller_word_at(number: u32) -> Location
    ensures { (s : Shape) → number < 2 * s.callers
        → IsValid s result × (index_of s result ≡ 2 + 3 * rows_of s + number) }
{
    let caller = number / index::CALLER_WORDS;
    if number % index::CALLER_WORDS == 0 {
        Location::NodeHazard { caller }
    } else {
        Location::AnnHazard { caller }
    }
}
