// Numbers and bytes, or jobs whose answers stand for them.
ghost use Rattle.std.specs.Prelude.{◌≡◌, ◌≤◌, length, option_map};
ghost use Rattle.text_lines.specs.Number.{number_of};
ghost use Rattle.text_lines.specs.Refusals.{ReadsPart};
ghost use Rattle.dep_text.specs.DepFile.{most_dep_jobs};
ghost use Rattle.dep_text.specs.DepWords.{behind_mark, job_named, arg_of, piece_of};

use crate::job::{Arg, DepJob, Piece, Place, serves};
use bq_model::TextCause;
use std::alloc::Global;
use text_lines::{LineRefused, hex_word, number};

// What stands behind the mark of a reference. None where a word isn't one.
fn behind_mark(word: &[u8]) -> Option<&[u8]>
    ensures { option_map (λ name. name.now) result ≡ behind_mark word.now }
{
    if word.first() == Some(&b'@') {
        Some(&word[1..])
    } else {
        None
    }
}

// The number of the job that is named for such a place.
fn job_named(place: Place, jobs: &[DepJob], name: &[u8]) -> Result<u32, TextCause>
    requires { length jobs.now ≤ most_dep_jobs }
    ensures { result ≡ job_named place jobs.now (number_of name.now) }
{
    let Some(number) = number(name) else {
        return Err(TextCause::BadNumber);
    };
    if number >= jobs.len() as u64 {
        return Err(TextCause::BadNumber);
    }
    if serves(place, &jobs[number as usize].work) {
        Ok(number as u32)
    } else {
        Err(TextCause::BadWord)
    }
}

/// A number, or the job that a reference names in its place.
pub(crate) fn read_arg(jobs: &[DepJob], word: &[u8]) -> Result<Arg, TextCause>
    requires { length jobs.now ≤ most_dep_jobs }
    ensures { result ≡ arg_of jobs.now word.now }
{
    match behind_mark(word) {
        Some(name) => match job_named(Place::AsNumber, jobs, name) {
            Ok(number) => Ok(Arg::Of(number)),
            Err(cause) => Err(cause),
        },
        None => match number(word) {
            Some(number) => Ok(Arg::Number(number)),
            None => Err(TextCause::BadNumber),
        },
    }
}

/// Bytes, or the job that a reference names in their place.
pub(crate) fn read_piece(alloc: Global, jobs: &[DepJob], word: &[u8]) -> Result<Piece, LineRefused>
    requires { length jobs.now ≤ most_dep_jobs }
    ensures { ReadsPart (piece_of jobs.now word.now) result }
{
    match behind_mark(word) {
        Some(name) => match job_named(Place::AsBytes, jobs, name) {
            Ok(number) => Ok(Piece::Of(number)),
            Err(cause) => Err(LineRefused::Cause(cause)),
        },
        None => match hex_word(alloc, word)? {
            Some(bytes) => Ok(Piece::Plain(bytes)),
            None => Err(LineRefused::Cause(TextCause::BadNumber)),
        },
    }
}
