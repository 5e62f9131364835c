// Jobs whose arguments may name earlier jobs.
ghost use Rattle.std.specs.Prelude.{◌≡◌};
ghost use Rattle.dep_text.specs.Places.{answers_number, answers_shortly, serves};

use bq_model::{Bytes, Items, Texts};

/// A number, or the job whose answer stands for it.
#[derive(Clone, Copy, Debug)]
pub enum Arg {
    /// The number itself.
    Number(u64),
    /// The answer of the job of this number, as a number modulo 2^64.
    Of(u32),
}

/// A list of numbers and of jobs whose answers stand for them.
pub type Args = Items<Arg>;

/// Bytes, or the job whose answer stands for them.
#[derive(Debug, Drop)]
pub enum Piece {
    /// The bytes themselves.
    Plain(Bytes),
    /// The bytes of the answer of the job of this number.
    Of(u32),
}

/// What a job does, which is known once the jobs that it names are answered.
#[derive(Debug, Drop)]
pub enum DepWork {
    /// Adds the numbers up. There may be none.
    Sum(Args),
    /// The SHA-256 digest of the bytes.
    Digest(Piece),
    /// How often the byte stands among the bytes.
    Count { byte: u8, bytes: Piece },
    /// The number after so many turns of the generator.
    Mix { start: Arg, turns: u32 },
    /// How often each different word stands there. There may be none, and none of them names a job.
    Words(Texts),
}

/// A job of a file, and the lane that it takes.
#[derive(Debug, Drop)]
pub struct DepJob {
    /// The number of the lane.
    pub lane: u32,
    /// What it does.
    pub work: DepWork,
}

/// Where the answer of a job that is named stands.
#[derive(Clone, Copy, Debug)]
pub enum Place {
    /// In place of a number.
    AsNumber,
    /// In place of bytes, of which an answer has at most 64.
    AsBytes,
}

// Whether the answer of this work is a number.
fn answers_number(work: &DepWork) -> bool
    ensures { result ≡ answers_number work.now }
{
    matches!(
        work,
        DepWork::Sum(_) | DepWork::Count { .. } | DepWork::Mix { .. }
    )
}

// Whether the answer of this work has at most 64 bytes.
fn answers_shortly(work: &DepWork) -> bool
    ensures { result ≡ answers_shortly work.now }
{
    !matches!(work, DepWork::Words(_))
}

/// Whether the answer of this work can stand in such a place.
pub(crate) fn serves(place: Place, work: &DepWork) -> bool
    ensures { result ≡ serves place work.now }
{
    match place {
        Place::AsNumber => answers_number(work),
        Place::AsBytes => answers_shortly(work),
    }
}
