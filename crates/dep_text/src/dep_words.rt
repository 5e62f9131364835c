// The jobs that words are.
ghost use Rattle.std.specs.Prelude.{◌≡◌, ◌≤◌, length, IfOk, Ok};
ghost use Rattle.bq_model.specs.declared.fault.TextCause.{TextCause};
ghost use Rattle.text_lines.specs.Number.{number_within};
ghost use Rattle.text_lines.specs.Parts.{or_bad_number};
ghost use Rattle.text_lines.specs.Refusals.{ReadsPart};
ghost use Rattle.job_text.specs.JobFile.{most_turns};
ghost use Rattle.dep_text.specs.DepFile.{most_dep_jobs};
ghost use Rattle.dep_text.specs.DepWords.{arg_of, all_of, sum_of, digest_of, count_of, mix_of, work_of, dep_job_of};
ghost use Rattle.dep_text.specs.SoFar.{said, one_more};

use crate::job::{Arg, Args, DepJob, DepWork};
use crate::parts::both;
use crate::references::{read_arg, read_piece};
use bq_model::{OutOfMemory, TextCause};
use job_text::{read_lane, read_texts};
use std::alloc::Global;
use text_lines::{LineRefused, Words, byte_word, first_of, number_within};

/// The most turns of a mix.
const MOST_TURNS: u64 = 1_000_000;

const BAD_WORD: LineRefused = LineRefused::Cause(TextCause::BadWord);

/// A lane and what a job does.
pub(crate) fn read_dep_job(
    alloc: Global,
    jobs: &[DepJob],
    mut words: Words,
) -> Result<DepJob, LineRefused>
    requires { length jobs.now ≤ most_dep_jobs }
    ensures { ReadsPart (dep_job_of jobs.now words.entry) result }
{
    let Some(lane) = words.next() else {
        return Err(BAD_WORD);
    };
    let (lane, work) = both(read_lane(lane), read_work(alloc, jobs, words))?;
    Ok(DepJob { lane, work })
}

fn read_work(alloc: Global, jobs: &[DepJob], mut words: Words) -> Result<DepWork, LineRefused>
    requires { length jobs.now ≤ most_dep_jobs }
    ensures { ReadsPart (work_of jobs.now words.entry) result }
{
    let Some(kind) = words.next() else {
        return Err(BAD_WORD);
    };
    if kind == b"sum".as_slice() {
        read_sum(alloc, jobs, words)
    } else if kind == b"digest".as_slice() {
        read_digest(alloc, jobs, words)
    } else if kind == b"count".as_slice() {
        read_count(alloc, jobs, words)
    } else if kind == b"mix".as_slice() {
        read_mix(jobs, words)
    } else if kind == b"words".as_slice() {
        Ok(DepWork::Words(read_texts(alloc, words)?))
    } else {
        Err(BAD_WORD)
    }
}

fn read_sum(alloc: Global, jobs: &[DepJob], words: Words) -> Result<DepWork, LineRefused>
    requires { length jobs.now ≤ most_dep_jobs }
    ensures { ReadsPart (sum_of jobs.now words.entry) result }
{
    let args = read_args(alloc, jobs, words)?;
    Ok(DepWork::Sum(args))
}

// The numbers of all words, or the cause that comes first.
fn read_args(alloc: Global, jobs: &[DepJob], words: Words) -> Result<Args, LineRefused>
    requires { length jobs.now ≤ most_dep_jobs }
    ensures { ReadsPart (all_of (arg_of jobs.now) words.entry) result }
{
    let mut args = Args::new(alloc);
    let mut refused = None;
    for word in words {
        refused = with_arg(&mut args, refused, read_arg(jobs, word))?;
    }
    match refused {
        Some(cause) => Err(LineRefused::Cause(cause)),
        None => Ok(args),
    }
}

// One number more, or the first cause of those so far and of this one.
fn with_arg(
    args: &mut Args,
    refused: Option<TextCause>,
    arg: Result<Arg, TextCause>,
) -> Result<Option<TextCause>, OutOfMemory>
    ensures { IfOk result (λ next. said args.new next ≡ one_more (said args.old refused) arg) }
{
    match arg {
        Ok(arg) => {
            args.push(arg)?;
            Ok(refused)
        }
        Err(cause) => match refused {
            Some(before) => Ok(Some(first_of(before, cause))),
            None => Ok(Some(cause)),
        },
    }
}

fn read_digest(alloc: Global, jobs: &[DepJob], mut words: Words) -> Result<DepWork, LineRefused>
    requires { length jobs.now ≤ most_dep_jobs }
    ensures { ReadsPart (digest_of jobs.now words.entry) result }
{
    let Some(bytes) = words.next() else {
        return Err(BAD_WORD);
    };
    if words.next().is_some() {
        return Err(BAD_WORD);
    }
    let bytes = read_piece(alloc, jobs, bytes)?;
    Ok(DepWork::Digest(bytes))
}

fn read_count(alloc: Global, jobs: &[DepJob], mut words: Words) -> Result<DepWork, LineRefused>
    requires { length jobs.now ≤ most_dep_jobs }
    ensures { ReadsPart (count_of jobs.now words.entry) result }
{
    let Some(byte) = words.next() else {
        return Err(BAD_WORD);
    };
    let Some(bytes) = words.next() else {
        return Err(BAD_WORD);
    };
    if words.next().is_some() {
        return Err(BAD_WORD);
    }
    let byte = byte_word(byte).ok_or(TextCause::BadNumber);
    let (byte, bytes) = both(byte, read_piece(alloc, jobs, bytes))?;
    Ok(DepWork::Count { byte, bytes })
}

fn read_mix(jobs: &[DepJob], mut words: Words) -> Result<DepWork, LineRefused>
    requires { length jobs.now ≤ most_dep_jobs }
    ensures { ReadsPart (mix_of jobs.now words.entry) result }
{
    let Some(start) = words.next() else {
        return Err(BAD_WORD);
    };
    let Some(turns) = words.next() else {
        return Err(BAD_WORD);
    };
    if words.next().is_some() {
        return Err(BAD_WORD);
    }
    let (start, turns) = both(read_arg(jobs, start), read_turns(turns))?;
    Ok(DepWork::Mix { start, turns })
}

fn read_turns(word: &[u8]) -> Result<u32, LineRefused>
    ensures { ReadsPart (or_bad_number (number_within 0 most_turns word.now)) result }
{
    match number_within(word, 0, MOST_TURNS) {
        Some(turns) => Ok(turns as u32),
        None => Err(LineRefused::Cause(TextCause::BadNumber)),
    }
}
