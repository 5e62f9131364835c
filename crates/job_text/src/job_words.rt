// The jobs and lanes that words are.
ghost use Rattle.std.specs.Prelude.{◌≡◌, [], IfOk, IfSome, Ok, Err};
ghost use Rattle.text_lines.specs.Number.{number_of};
ghost use Rattle.text_lines.specs.Refusals.{ReadsPart};
ghost use Rattle.text_lines.specs.Each.{each_of};
ghost use Rattle.job_text.specs.JobWords.{lane_of, sum_of, digest_of, count_of, mix_of, job_of, job_of_kind, lane_job_of, only_lane_of};

use bq_model::{Numbers, OutOfMemory, Text, TextCause, Texts};
use job_work::Job;
use std::alloc::Global;
use text_lines::{LineRefused, Words, byte_word, first_of, hex_word, number, number_within};

/// The highest number of a lane.
const MOST_LANE: u64 = 15;
/// The most turns of a mix.
const MOST_TURNS: u64 = 1_000_000;
/// The numbers of a sum for which there is room from the first.
const FEW: usize = 3;

const BAD_WORD: LineRefused = LineRefused::Cause(TextCause::BadWord);

const BAD_NUMBER: LineRefused = LineRefused::Cause(TextCause::BadNumber);

/// A lane and a job.
pub(crate) fn read_lane_job(alloc: Global, mut words: Words) -> Result<(u32, Job), LineRefused>
    ensures { ReadsPart (lane_job_of words.entry) result }
{
    let Some(word) = words.next() else {
        return Err(BAD_WORD);
    };
    let lane = read_lane(word);
    match read_job(alloc, words) {
        Ok(job) => match lane {
            Ok(lane) => Ok((lane, job)),
            Err(cause) => Err(LineRefused::Cause(cause)),
        },
        Err(LineRefused::Cause(other)) => match lane {
            Ok(_) => Err(LineRefused::Cause(other)),
            Err(cause) => Err(LineRefused::Cause(first_of(cause, other))),
        },
        Err(LineRefused::NoMemory) => Err(LineRefused::NoMemory),
    }
}

/// A lane, and no further word.
pub(crate) fn read_only_lane(mut words: Words) -> Result<u32, TextCause>
    ensures { result ≡ only_lane_of words.entry }
{
    let Some(word) = words.next() else {
        return Err(TextCause::BadWord);
    };
    if words.next().is_some() {
        return Err(TextCause::BadWord);
    }
    read_lane(word)
}

/// The lane that a word names.
pub fn read_lane(word: &[u8]) -> Result<u32, TextCause>
    ensures { result ≡ lane_of word.now }
{
    match number(word) {
        Some(lane) if lane <= MOST_LANE => Ok(lane as u32),
        Some(_) => Err(TextCause::BadLane),
        None => Err(TextCause::BadNumber),
    }
}

/// A job: its kind and its arguments.
pub(crate) fn read_job(alloc: Global, mut words: Words) -> Result<Job, LineRefused>
    ensures { ReadsPart (job_of words.entry) result }
{
    let Some(kind) = words.next() else {
        return Err(BAD_WORD);
    };
    if kind == b"sum".as_slice() {
        read_sum(alloc, words)
    } else if kind == b"digest".as_slice() {
        read_digest(alloc, words)
    } else if kind == b"count".as_slice() {
        read_count(alloc, words)
    } else if kind == b"mix".as_slice() {
        read_mix(words)
    } else if kind == b"words".as_slice() {
        read_words(alloc, words)
    } else {
        Err(BAD_WORD)
    }
}

fn read_sum(alloc: Global, words: Words) -> Result<Job, LineRefused>
    ensures { ReadsPart (sum_of words.entry) result }
{
    match read_numbers(alloc, words)? {
        Some(numbers) => Ok(Job::Sum(numbers)),
        None => Err(BAD_NUMBER),
    }
}

fn read_numbers(alloc: Global, words: Words) -> Result<Option<Numbers>, OutOfMemory>
    ensures { IfOk result (λ numbers. numbers ≡ each_of number_of words.entry) }
{
    let mut numbers = room_for_few(alloc)?;
    for word in words {
        let Some(number) = number(word) else {
            return Ok(None);
        };
        numbers.push(number)?;
    }
    Ok(Some(numbers))
}

// No number, with room for a few. A list of up to three takes the least that the heap gives.
fn room_for_few(alloc: Global) -> Result<Numbers, OutOfMemory>
    ensures { IfOk result (λ numbers. numbers ≡ []) }
{
    Ok(Numbers::from(Vec::with_capacity(alloc, FEW)?))
}

fn read_digest(alloc: Global, mut words: Words) -> Result<Job, LineRefused>
    ensures { ReadsPart (digest_of words.entry) result }
{
    let Some(bytes) = words.next() else {
        return Err(BAD_WORD);
    };
    if words.next().is_some() {
        return Err(BAD_WORD);
    }
    match hex_word(alloc, bytes)? {
        Some(bytes) => Ok(Job::Digest(bytes)),
        None => Err(BAD_NUMBER),
    }
}

fn read_count(alloc: Global, mut words: Words) -> Result<Job, LineRefused>
    ensures { ReadsPart (count_of words.entry) result }
{
    let Some(byte) = words.next() else {
        return Err(BAD_WORD);
    };
    let Some(bytes) = words.next() else {
        return Err(BAD_WORD);
    };
    if words.next().is_some() {
        return Err(BAD_WORD);
    }
    let Some(byte) = byte_word(byte) else {
        return Err(BAD_NUMBER);
    };
    match hex_word(alloc, bytes)? {
        Some(bytes) => Ok(Job::Count { byte, bytes }),
        None => Err(BAD_NUMBER),
    }
}

fn read_mix(mut words: Words) -> Result<Job, LineRefused>
    ensures { ReadsPart (mix_of words.entry) result }
{
    let Some(start) = words.next() else {
        return Err(BAD_WORD);
    };
    let Some(turns) = words.next() else {
        return Err(BAD_WORD);
    };
    if words.next().is_some() {
        return Err(BAD_WORD);
    }
    let Some(start) = number(start) else {
        return Err(BAD_NUMBER);
    };
    match number_within(turns, 0, MOST_TURNS) {
        Some(turns) => Ok(Job::Mix {
            start,
            turns: turns as u32,
        }),
        None => Err(BAD_NUMBER),
    }
}

fn read_words(alloc: Global, words: Words) -> Result<Job, LineRefused>
    ensures { ReadsPart (Ok (Job.Words words.entry)) result }
{
    Ok(Job::Words(read_texts(alloc, words)?))
}

/// The words themselves.
pub fn read_texts(alloc: Global, words: Words) -> Result<Texts, OutOfMemory>
    ensures { IfOk result (λ texts. texts ≡ words.entry) }
{
    let mut texts = Texts::new(alloc);
    for word in words {
        let mut text = Text::new(alloc);
        text.append_parts(&[word])?;
        texts.push(text)?;
    }
    Ok(texts)
}
