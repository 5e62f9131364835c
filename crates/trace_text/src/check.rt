// The reader and judge of a history's text.
ghost use Rattle.std.specs.Prelude.{◌≡◌, ◌≤◌, ◌+◌, length};
ghost use Rattle.text_lines.specs.Lines.{lines_of};
ghost use Rattle.text_lines.specs.Reading.{most_bytes};
ghost use Rattle.trace_text.specs.HistoryText.{history_at_end, is_second, version_word};
ghost use Rattle.trace_text.specs.Refusals.{Gives};
ghost use Rattle.trace_text.specs.Verdicts.{verdict_in, verdict_at_end};

use crate::history::Claims;
use crate::verdict::{Verdict, judged};
use bq_model::{OutOfMemory, TextCause, TextFault, TextRefused};
use std::alloc::Global;
use text_lines::{Lines, Words, is_header, read_text};

/// Judges the history that a text is. A text that is none is refused with its fault, also where a line before the
/// fault is illegal. It takes time in proportion to the text.
pub fn check_history(alloc: Global, bytes: &[u8]) -> Result<Verdict, TextRefused>
    ensures { Gives (verdict_in bytes.now) result }
{
    let second = is_second(bytes);
    let mut claims = Claims::new(alloc, second);
    match read_text(&mut claims, b"bqhist", version(second), bytes) {
        Ok(()) => verdict(alloc, &claims, bytes),
        Err(refused) => Err(refused),
    }
}

// Whether the header of a text is that of version 2.
fn is_second(bytes: &[u8]) -> bool
    ensures { result ≡ is_second bytes.now }
{
    match Lines::new(bytes).next() {
        Some(line) => is_header(Words::new(line), b"bqhist", b"2"),
        None => false,
    }
}

fn version(second: bool) -> &'static [u8]
    ensures { result.now ≡ version_word second }
{
    if second { b"2" } else { b"1" }
}

// What is found where the text ends here.
fn verdict(alloc: Global, claims: &Claims, bytes: &[u8]) -> Result<Verdict, TextRefused>
    requires { length bytes.now ≤ most_bytes }
    ensures { Gives (verdict_at_end (length (lines_of bytes.now) + 1) claims.now) result }
{
    let Some(callers) = claims.callers() else {
        return Err(TextRefused::Text(TextFault {
            line: line_behind(bytes),
            cause: TextCause::BadWord,
        }));
    };
    match judged(alloc, callers, claims.entries()) {
        Ok(verdict) => Ok(verdict),
        Err(OutOfMemory) => Err(TextRefused::Memory),
    }
}

// The number of the line behind the last one.
pub(crate) fn line_behind(bytes: &[u8]) -> u32
    requires { length bytes.now ≤ most_bytes }
    ensures { result ≡ length (lines_of bytes.now) + 1 }
{
    let mut number = 1;
    for _line in Lines::new(bytes) {
        number += 1;
    }
    number
}
