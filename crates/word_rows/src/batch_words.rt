// What an announcement says of its batch in one word each.
ghost use Rattle.std.specs.Prelude.{◌≡◌};
ghost use Rattle.word_rows.specs.Packing.{counts_word, batch_word};
ghost use Rattle.word_rows.specs.ReadsBack.{ReadsBack};
ghost use Rattle.word_rows.specs.Fits.{CountsFit, BatchFits, coding_limits};

use excess_count::Counts;

/// Each count is below this.
const COUNTS: u64 = 1 << 16;

/// The counts of a batch as a word.
#[inline(always)]
pub fn pack_counts(counts: Counts) -> u64
    requires { CountsFit counts }
    ensures { result ≡ counts_word counts }
{
    u64::from(counts.enqs)
        + u64::from(counts.deqs) * COUNTS
        + u64::from(counts.excess) * COUNTS * COUNTS
}

/// The counts that the word is.
#[inline(always)]
pub fn unpack_counts(word: u64) -> Option<Counts>
    ensures { ReadsBack CountsFit counts_word word result }
{
    let excess = word / COUNTS / COUNTS;
    if excess < COUNTS {
        Some(Counts {
            enqs: (word % COUNTS) as u32,
            deqs: (word / COUNTS % COUNTS) as u32,
            excess: excess as u32,
        })
    } else {
        None
    }
}

/// Whose batch it is, and which of this caller's.
#[derive(Clone, Copy, Debug, PartialEq, Eq, Hash)]
pub struct BatchNumber {
    /// How many batches the caller made before.
    pub batch: u64,
    /// The number of the caller.
    pub caller: u32,
}

/// Numbers of callers are below this.
const CALLERS: u64 = 32;

impl BatchNumber {
    /// The number as a word.
    #[inline(always)]
    pub fn pack(self) -> u64
        requires { BatchFits coding_limits self }
        ensures { result ≡ batch_word self }
    {
        self.batch * CALLERS + u64::from(self.caller)
    }

    /// The number that the word is.
    #[inline(always)]
    pub fn unpack(word: u64) -> BatchNumber
        ensures { ReadsBack (BatchFits coding_limits) batch_word word (Some result) }
    {
        BatchNumber {
            batch: word / CALLERS,
            caller: (word % CALLERS) as u32,
        }
    }
}
