// The answer of a job.
ghost use Rattle.std.specs.Prelude.{◌≡◌, IfOk};
ghost use Rattle.job_work.specs.Answer.{answer_of};

use crate::count::count_text;
use crate::digest::digest_text;
use crate::job::Job;
use crate::mix::mix_text;
use crate::sum::sum_text;
use crate::words::words_text;
use bq_model::{OutOfMemory, Text};
use std::alloc::Global;

/// The answer of a job as text, with no line end. It fails only where memory is lacking.
pub fn answer(alloc: Global, job: &Job) -> Result<Text, OutOfMemory>
    ensures { IfOk result (λ text. text ≡ answer_of job.now) }
{
    match job {
        Job::Sum(numbers) => sum_text(alloc, numbers.as_slice()),
        Job::Digest(bytes) => digest_text(alloc, bytes.as_slice()),
        Job::Count { byte, bytes } => count_text(alloc, *byte, bytes.as_slice()),
        Job::Mix { start, turns } => mix_text(alloc, *start, *turns),
        Job::Words(words) => words_text(alloc, words.as_slice()),
    }
}
