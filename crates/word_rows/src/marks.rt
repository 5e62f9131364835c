// What the MARK of a row holds.
ghost use Rattle.std.specs.Prelude.{◌≡◌, bit_or};
ghost use Rattle.word_rows.specs.Packing.{joined_marks, marks_word};
ghost use Rattle.word_rows.specs.ReadsBack.{ReadsBack};

/// What is known of the use of a row.
#[derive(Clone, Copy, Debug, PartialEq, Eq, Hash)]
pub struct Marks {
    /// Its value was taken, or it has none.
    pub read: bool,
    /// HEAD went past it.
    pub passed: bool,
    /// It may be taken again.
    pub free: bool,
}

/// The weight of `read`.
const READ: u64 = 1;
/// The weight of `passed`.
const PASSED: u64 = 2;
/// The weight of `free`.
const FREE: u64 = 4;
/// Words of marks are below this.
const MARKS: u64 = 8;

impl Marks {
    /// The marks as a word, the sum of READ 1, PASSED 2 and FREE 4.
    #[inline(always)]
    pub fn pack(self) -> u64
        ensures { result ≡ marks_word self }
    {
        u64::from(self.read) * READ + u64::from(self.passed) * PASSED + u64::from(self.free) * FREE
    }

    /// The marks that the word is.
    #[inline(always)]
    pub fn unpack(word: u64) -> Option<Marks>
        ensures { ReadsBack (λ (_ : Marks). Unit {0}) marks_word word result }
    {
        if word < MARKS {
            Some(Marks {
                read: word & READ != 0,
                passed: word & PASSED != 0,
                free: word & FREE != 0,
            })
        } else {
            None
        }
    }

    /// The marks that either has: what a `fetch_or` of two words of marks leaves.
    #[inline(always)]
    pub fn joined(self, other: Marks) -> Marks
        ensures marks_of_either { result ≡ joined_marks self other }
        ensures bits_of_either { marks_word result ≡ bit_or (marks_word self) (marks_word other) }
    {
        Marks {
            read: self.read || other.read,
            passed: self.passed || other.passed,
            free: self.free || other.free,
        }
    }
}
