// The lines of a text, up to the first fault.
ghost use Rattle.std.specs.Prelude.{◌≡◌, ℕ, List, Result};
ghost use Rattle.bq_model.specs.declared.fault.TextCause.{TextCause};
ghost use Rattle.text_lines.specs.Reading.{text_state, text_line, fault};
ghost use Rattle.text_lines.specs.Refusals.{ReadsLine, ReadsText};

use crate::lines::{Lines, is_text};
use crate::refused::LineRefused;
use crate::words::{Words, is_header, is_passed_over};
use bq_model::{TextCause, TextFault, TextRefused};

/// The most bytes of a text.
const MOST_BYTES: usize = 16_777_216;

/// What the lines of a kind of text mean, behind the header.
pub trait LineReader {
    /// What becomes of the state by the words of the line with this number, or what is wrong with the line.
    ghost meaning: { ℕ → Self → List (List ℕ) → Result Self TextCause };

    /// Takes a line that is not passed over. After a refusal the state is of no use.
    fn line(&mut self, number: u32, words: Words) -> Result<(), LineRefused>
        ensures { ReadsLine (meaning number self.old words.entry) result self.new };
}

/// Reads the lines of a text whose header is the words `name` and `version`, up to its first fault.
pub fn read_text<R: LineReader>(
    reader: &mut R,
    name: &[u8],
    version: &[u8],
    text: &[u8],
) -> Result<(), TextRefused>
    ensures { ReadsText (text_state name.now version.now R.meaning reader.old text.now) result reader.new }
{
    if text.len() > MOST_BYTES {
        return Err(refused(0, TextCause::TooLong));
    }
    if text.is_empty() {
        return Err(refused(1, TextCause::NoHeader));
    }
    let mut number = 1;
    for line in Lines::new(text) {
        match read_line(reader, name, version, number, line) {
            Ok(()) => number += 1,
            Err(LineRefused::Cause(cause)) => return Err(refused(number, cause)),
            Err(LineRefused::NoMemory) => return Err(TextRefused::Memory),
        }
    }
    Ok(())
}

fn read_line<R: LineReader>(
    reader: &mut R,
    name: &[u8],
    version: &[u8],
    number: u32,
    line: &[u8],
) -> Result<(), LineRefused>
    ensures { ReadsLine (text_line name.now version.now R.meaning number reader.old line.now) result reader.new }
{
    if !is_text(line) {
        return Err(LineRefused::Cause(TextCause::NotText));
    }
    if number == 1 {
        if is_header(Words::new(line), name, version) {
            return Ok(());
        }
        return Err(LineRefused::Cause(TextCause::NoHeader));
    }
    if is_passed_over(Words::new(line)) {
        return Ok(());
    }
    reader.line(number, Words::new(line))
}

fn refused(line: u32, cause: TextCause) -> TextRefused
    ensures { result ≡ TextRefused.Text (fault line cause) }
{
    TextRefused::Text(TextFault { line, cause })
}
