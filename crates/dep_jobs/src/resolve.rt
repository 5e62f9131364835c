// The job that one which names others is, once those are answered.
ghost use Rattle.std.specs.Prelude.{◌≡◌, ◌+◌, ◌-◌, ◌*◌, ◌%◌, ◌^◌, map, IfOk};
ghost use Rattle.dep_jobs.specs.Resolve.{number_in, arg_value, piece_bytes, resolve};

use crate::texts::{copied, text_at};
use bq_model::{Bytes, Numbers, OutOfMemory, Text, Texts};
use dep_text::{Arg, DepWork, Piece};
use job_work::Job;
use std::alloc::Global;

/// The job that this work is, where the jobs have these answers.
pub(crate) fn resolved(alloc: Global, work: &DepWork, texts: &[Text]) -> Result<Job, OutOfMemory>
    ensures { IfOk result (λ job. job ≡ resolve work.now texts.now) }
{
    match work {
        DepWork::Sum(args) => Ok(Job::Sum(values(alloc, args.as_slice(), texts)?)),
        DepWork::Digest(piece) => Ok(Job::Digest(piece_bytes(alloc, piece, texts)?)),
        DepWork::Count { byte, bytes } => Ok(Job::Count {
            byte: *byte,
            bytes: piece_bytes(alloc, bytes, texts)?,
        }),
        DepWork::Mix { start, turns } => Ok(Job::Mix {
            start: arg_value(*start, texts),
            turns: *turns,
        }),
        DepWork::Words(words) => Ok(Job::Words(copied_words(alloc, words.as_slice())?)),
    }
}

fn values(alloc: Global, args: &[Arg], texts: &[Text]) -> Result<Numbers, OutOfMemory>
    ensures { IfOk result (λ numbers. numbers ≡ map (arg_value texts.now) args.now) }
{
    let mut numbers = Vec::with_capacity(alloc, args.len())?;
    for arg in args {
        numbers.push(arg_value(*arg, texts))?;
    }
    Ok(Numbers::from(numbers))
}

fn arg_value(arg: Arg, texts: &[Text]) -> u64
    ensures { result ≡ arg_value texts.now arg }
{
    match arg {
        Arg::Number(number) => number,
        Arg::Of(job) => number_in(text_at(texts, job)),
    }
}

// The number that the digits of an answer write, modulo 2^64.
fn number_in(answer: &[u8]) -> u64
    ensures { result ≡ number_in answer.now }
{
    let mut number = 0;
    for digit in answer {
        number = with_digit(number, *digit);
    }
    number
}

// The number with one more digit at its end.
fn with_digit(number: u64, digit: u8) -> u64
    ensures { result ≡ (number * 10 + (digit - 48)) % 2 ^ 64 }
{
    number
        .wrapping_mul(10)
        .wrapping_add(u64::from(digit.saturating_sub(b'0')))
}

fn piece_bytes(alloc: Global, piece: &Piece, texts: &[Text]) -> Result<Bytes, OutOfMemory>
    ensures { IfOk result (λ bytes. bytes ≡ piece_bytes texts.now piece.now) }
{
    match piece {
        Piece::Plain(bytes) => copied(alloc, bytes.as_slice()),
        Piece::Of(job) => copied(alloc, text_at(texts, *job)),
    }
}

fn copied_words(alloc: Global, words: &[Text]) -> Result<Texts, OutOfMemory>
    ensures { IfOk result (λ copy. copy ≡ words.now) }
{
    let mut copy = Vec::with_capacity(alloc, words.len())?;
    for word in words {
        let text = copied(alloc, word.as_slice())?;
        copy.push(text)?;
    }
    Ok(Texts::from(copy))
}
