// The canonical text of a job file.
ghost use Rattle.std.specs.Prelude.{◌≡◌, ◌≤◌, ◌∷◌, ◌++◌, length, map, codes, decimal, IfOk, OnOk, Ok};
ghost use Rattle.std.specs.List.{join_with_byte};
ghost use Rattle.text_lines.specs.Reading.{most_bytes};
ghost use Rattle.text_lines.specs.Printed.{printed_line, printed_lines, spaced};
ghost use Rattle.job_text.specs.Grammar.{jobs_of};
ghost use Rattle.job_text.specs.Canon.{canon, job_words, put_line, block_lines, unit_lines};

use crate::file::{JobFile, Unit};
use bq_model::{OutOfMemory, Text};
use itoa::Buffer;
use job_work::Job;
use std::alloc::Global;
use text_lines::{append_byte_word, append_hex_word};

/// The bytes that are reserved for each job.
const LINE_BYTES: usize = 24;

/// The text of a file in its canonical form. If it isn't longer than a text may be, it is read as the same file.
pub fn print_jobs(alloc: Global, file: &JobFile) -> Result<Text, OutOfMemory>
    ensures form { IfOk result (λ text. text ≡ canon file.now) }
    ensures read_back { IfOk result (λ text. length text ≤ most_bytes → jobs_of text ≡ Ok file.now) }
{
    let room = file.count() as usize * LINE_BYTES;
    let mut text = Text::from(Vec::with_capacity(alloc, room)?);
    text.append_parts(&[b"bqjobs 1\n"])?;
    for unit in file.units() {
        print_unit(&mut text, unit)?;
    }
    Ok(text)
}

fn print_unit(text: &mut Text, unit: &Unit) -> Result<(), OutOfMemory>
    ensures { OnOk result (text.new ≡ text.old ++ printed_lines (unit_lines unit.now)) }
{
    let jobs = unit.jobs.as_slice();
    if jobs.len() == 1 {
        print_single(text, unit.lane, &jobs[0])
    } else {
        print_block(text, unit.lane, jobs)
    }
}

fn print_single(text: &mut Text, lane: u32, job: &Job) -> Result<(), OutOfMemory>
    ensures { OnOk result (text.new ≡ text.old ++ printed_line (codes "job" ∷ decimal lane ∷ job_words job.now)) }
{
    text.append_parts(&[b"job"])?;
    print_number(text, u64::from(lane))?;
    text.append_parts(&[b" "])?;
    print_job(text, job)?;
    text.append_parts(&[b"\n"])
}

fn print_block(text: &mut Text, lane: u32, jobs: &[Job]) -> Result<(), OutOfMemory>
    ensures { OnOk result (text.new ≡ text.old ++ printed_lines (block_lines lane jobs.now)) }
{
    text.append_parts(&[b"block"])?;
    print_number(text, u64::from(lane))?;
    text.append_parts(&[b"\n"])?;
    for job in jobs {
        print_put(text, job)?;
    }
    text.append_parts(&[b"end\n"])
}

fn print_put(text: &mut Text, job: &Job) -> Result<(), OutOfMemory>
    ensures { OnOk result (text.new ≡ text.old ++ printed_line (put_line job.now)) }
{
    text.append_parts(&[b"put "])?;
    print_job(text, job)?;
    text.append_parts(&[b"\n"])
}

// Appends the words of a job.
fn print_job(text: &mut Text, job: &Job) -> Result<(), OutOfMemory>
    ensures { OnOk result (text.new ≡ text.old ++ join_with_byte 32 (job_words job.now)) }
{
    match job {
        Job::Sum(numbers) => {
            text.append_parts(&[b"sum"])?;
            print_numbers(text, numbers.as_slice())
        }
        Job::Digest(bytes) => {
            text.append_parts(&[b"digest "])?;
            append_hex_word(text, bytes.as_slice())
        }
        Job::Count { byte, bytes } => {
            text.append_parts(&[b"count "])?;
            append_byte_word(text, *byte)?;
            text.append_parts(&[b" "])?;
            append_hex_word(text, bytes.as_slice())
        }
        Job::Mix { start, turns } => {
            text.append_parts(&[b"mix"])?;
            print_number(text, *start)?;
            print_number(text, u64::from(*turns))
        }
        Job::Words(words) => {
            text.append_parts(&[b"words"])?;
            print_words(text, words.as_slice())
        }
    }
}

// Appends a blank and the number.
fn print_number(text: &mut Text, number: u64) -> Result<(), OutOfMemory>
    ensures { OnOk result (text.new ≡ text.old ++ codes " " ++ decimal number) }
{
    let mut buffer = Buffer::new();
    text.append_parts(&[b" ", buffer.format(number).as_bytes()])
}

fn print_numbers(text: &mut Text, numbers: &[u64]) -> Result<(), OutOfMemory>
    ensures { OnOk result (text.new ≡ text.old ++ spaced (map decimal numbers.now)) }
{
    for number in numbers {
        print_number(text, *number)?;
    }
    Ok(())
}

fn print_words(text: &mut Text, words: &[Text]) -> Result<(), OutOfMemory>
    ensures { OnOk result (text.new ≡ text.old ++ spaced words.now) }
{
    for word in words {
        text.append_parts(&[b" ", word.as_slice()])?;
    }
    Ok(())
}
