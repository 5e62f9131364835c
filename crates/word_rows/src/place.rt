// A row of the list with its count.
ghost use Rattle.std.specs.Prelude.{◌≡◌, ◌≢◌, ◌↔◌, ◌%◌, None};
ghost use Rattle.word_rows.specs.Packing.{place_word};
ghost use Rattle.word_rows.specs.ReadsBack.{ReadsBack};
ghost use Rattle.word_rows.specs.Fits.{PlaceFits, coding_limits};

use crate::packing::{count_in, counted, kind_in, number_in};

/// A row of the lane's list, with its count. TAIL holds one.
#[derive(Clone, Copy, Debug, PartialEq, Eq, Hash)]
pub struct Place {
    /// The number of the row.
    pub row: u32,
    /// The lane's first count, and 1 for each row that was linked since then, up to and with this one.
    pub count: u64,
}

/// The kind of a word that names a row.
pub(crate) const NODE: u64 = 0;

impl Place {
    /// The place as a word.
    #[inline(always)]
    pub fn pack(self) -> u64
        requires { PlaceFits coding_limits self }
        ensures { result ≡ place_word self }
    {
        counted(self.count, self.row, NODE)
    }

    /// The place that the word is.
    #[inline(always)]
    pub fn unpack(word: u64) -> Option<Place>
        ensures none_of_other_kinds { (result ≡ None) ↔ (word % 4 ≢ 0) }
        ensures its_place { ReadsBack (PlaceFits coding_limits) place_word word result }
    {
        if kind_in(word) == NODE {
            Some(Place {
                row: number_in(word),
                count: count_in(word),
            })
        } else {
            None
        }
    }
}
