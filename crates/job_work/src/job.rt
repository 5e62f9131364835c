// The kinds of job.
use bq_model::{Bytes, Numbers, Texts};

/// A job, with all that its answer depends on.
#[derive(Debug, Drop)]
pub enum Job {
    /// Adds the numbers up, as whole numbers that don't wrap. There may be none.
    Sum(Numbers),
    /// The SHA-256 digest of the bytes, as FIPS 180-4 has it.
    Digest(Bytes),
    /// How often the byte stands among the bytes.
    Count { byte: u8, bytes: Bytes },
    /// The number after so many turns of a linear congruential generator, Knuth's for 64 bits.
    Mix { start: u64, turns: u32 },
    /// How often each different word stands there. There may be none.
    Words(Texts),
}
