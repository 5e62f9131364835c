// What HEAD holds.
ghost use Rattle.std.specs.Prelude.{◌≡◌, ◌↔◌, ◌%◌, ◌≤◌, None};
ghost use Rattle.word_rows.specs.Packing.{head_word};
ghost use Rattle.word_rows.specs.ReadsBack.{ReadsBack};
ghost use Rattle.word_rows.specs.Fits.{HeadFits, coding_limits};

use crate::packing::{count_in, counted, kind_in, number_in};
use crate::place::{NODE, Place};

/// What HEAD names: the dummy, or the announcement that stands before it.
#[derive(Clone, Copy, Debug, PartialEq, Eq, Hash)]
pub enum HeadWord {
    /// The dummy's place.
    Node(Place),
    /// An announcement.
    Ann {
        /// The number of the announcement.
        ann: u32,
        /// The count of the dummy that HEAD named before it.
        count: u64,
    },
}

/// The kind of a word that names an announcement.
const ANN: u64 = 1;

impl HeadWord {
    /// What HEAD names, as a word.
    #[inline(always)]
    pub fn pack(self) -> u64
        requires { HeadFits coding_limits self }
        ensures { result ≡ head_word self }
    {
        match self {
            HeadWord::Node(place) => place.pack(),
            HeadWord::Ann { ann, count } => counted(count, ann, ANN),
        }
    }

    /// What the word names.
    #[inline(always)]
    pub fn unpack(word: u64) -> Option<HeadWord>
        ensures none_of_other_kinds { (result ≡ None) ↔ (2 ≤ word % 4) }
        ensures its_head { ReadsBack (HeadFits coding_limits) head_word word result }
    {
        let count = count_in(word);
        let number = number_in(word);
        match kind_in(word) {
            NODE => Some(HeadWord::Node(Place { row: number, count })),
            ANN => Some(HeadWord::Ann { ann: number, count }),
            _ => None,
        }
    }
}
