// Job files that are made up, one for each number of jobs.
ghost use Rattle.std.specs.Prelude.{◌≡◌, ◌+◌, ◌≤◌, ◌<◌, [], ◌∷◌, codes, IfOk};
ghost use Rattle.job_work.specs.declared.job.Job.{Job};
ghost use Rattle.job_text.specs.Generator.{gen_of, jobs_from, made_job, eight_digits, digit_word};

use crate::file::{JobFile, Unit};
use bq_model::{Bytes, Items, Numbers, OutOfMemory, Text, Texts};
use job_work::Job;
use std::alloc::Global;

/// Units have one job more than a number below this.
const SIZES: u32 = 7;
/// How many lanes have a unit.
const LANES: u32 = 3;
/// The turns of each mix.
const TURNS: u32 = 100;

/// A file of n jobs of all kinds, in units of one to seven jobs on three lanes. The same n gives the same file.
pub fn generated(alloc: Global, n: u32) -> Result<JobFile, OutOfMemory>
    requires { n ≤ 500000 }
    ensures { IfOk result (λ file. file ≡ gen_of n) }
{
    let units = made_units(alloc, n)?;
    JobFile::new(alloc, units)
}

fn made_units(alloc: Global, n: u32) -> Result<Vec<Unit>, OutOfMemory>
    requires { n ≤ 500000 }
    ensures { IfOk result (λ units. units.items ≡ gen_of n) }
{
    let mut units = Vec::new(alloc);
    let mut first = 0;
    let mut unit = 0;
    while first < n {
        let count = (1 + unit % SIZES).min(n - first);
        let jobs = made_jobs(alloc, first, count)?;
        units.push(Unit {
            lane: unit % LANES,
            jobs,
        })?;
        first += count;
        unit += 1;
    }
    Ok(units)
}

// So many jobs, of which the first has this number.
fn made_jobs(alloc: Global, first: u32, count: u32) -> Result<Items<Job>, OutOfMemory>
    requires { first + count ≤ 500000 }
    ensures { IfOk result (λ jobs. jobs ≡ jobs_from first count) }
{
    let mut jobs = Vec::with_capacity(alloc, count as usize)?;
    for place in 0..count {
        let job = made_job(alloc, first + place)?;
        jobs.push(job)?;
    }
    Ok(Items::from(jobs))
}

fn made_job(alloc: Global, number: u32) -> Result<Job, OutOfMemory>
    requires { number < 500000 }
    ensures { IfOk result (λ job. job ≡ made_job number) }
{
    match number % 5 {
        0 => two_numbers(alloc, u64::from(number)),
        1 => Ok(Job::Digest(eight_digits(alloc, number)?)),
        2 => Ok(Job::Count {
            byte: 0,
            bytes: eight_digits(alloc, number)?,
        }),
        3 => Ok(Job::Mix {
            start: u64::from(number),
            turns: TURNS,
        }),
        _ => three_words(alloc, number),
    }
}

fn two_numbers(alloc: Global, number: u64) -> Result<Job, OutOfMemory>
    requires { number < 500000 }
    ensures { IfOk result (λ job. job ≡ Job.Sum (number ∷ (number + 1) ∷ [])) }
{
    let numbers = vec![in alloc; number, number + 1]?;
    Ok(Job::Sum(Numbers::from(numbers)))
}

// The bytes whose hex word is the number in eight digits.
fn eight_digits(alloc: Global, number: u32) -> Result<Bytes, OutOfMemory>
    ensures { IfOk result (λ bytes. bytes ≡ eight_digits number) }
{
    let bytes = Vec::from_slice(alloc, &number.to_be_bytes())?;
    Ok(Bytes::from(bytes))
}

fn three_words(alloc: Global, number: u32) -> Result<Job, OutOfMemory>
    ensures { IfOk result (λ job. job ≡ Job.Words (digit_word number ∷ codes "x" ∷ digit_word number ∷ [])) }
{
    let first = digit_word(alloc, number)?;
    let middle = Text::from(Vec::from_slice(alloc, b"x")?);
    let last = digit_word(alloc, number)?;
    let words = vec![in alloc; first, middle, last]?;
    Ok(Job::Words(Texts::from(words)))
}

// The letter `w` and the last digit of the number.
fn digit_word(alloc: Global, number: u32) -> Result<Text, OutOfMemory>
    ensures { IfOk result (λ word. word ≡ digit_word number) }
{
    let digit = b'0' + (number % 10) as u8;
    let word = Vec::from_slice(alloc, &[b'w', digit])?;
    Ok(Text::from(word))
}
