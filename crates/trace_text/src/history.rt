// What the lines of a history say, one after another.
ghost use Rattle.std.specs.Prelude.{◌≡◌, ◌≤◌};
ghost use Rattle.trace_text.specs.HistoryText.{callers_in};

use crate::claim::{Entry, read_entry};
use bq_model::TextCause;
use std::alloc::Global;
use std::marker::Model;
use text_lines::{LineReader, LineRefused, Words, number_within};

/// The most callers of a history.
const MOST_CALLERS: u64 = 17;
/// The most operations of a history.
const MOST_OPERATIONS: usize = 1_000_000;

/// The number of callers, once it was read, and the groups.
#[derive(Drop)]
pub(crate) struct Claims {
    alloc: Global,
    // Whether the text is of version 2.
    second: bool,
    callers: Option<u32>,
    entries: Vec<Entry>,
    // How many operations the entries have.
    count: usize,
}

impl Model for Claims {
    ghost use Rattle.std.specs.Prelude.{◌≡◌, ◌≤◌};
    ghost use Rattle.trace_text.specs.HistoryText.{LinesSay, operation_count, most_operations};

    ghost Value = { LinesSay };

    ghost view = { λ c. record { second = c.second; callers = c.callers; entries = c.entries.items } };

    ghost invariant = { λ c. (c.count ≡ operation_count c.entries.items) × (c.count ≤ most_operations) };
}

impl LineReader for Claims {
    ghost use Rattle.trace_text.specs.HistoryText.{meaning};

    ghost meaning = { meaning };

    fn line(&mut self, number: u32, words: Words) -> Result<(), LineRefused> {
        if self.callers.is_some() {
            return self.group(number, words);
        }
        match read_callers(words) {
            Ok(callers) => {
                self.callers = Some(callers);
                Ok(())
            }
            Err(cause) => Err(LineRefused::Cause(cause)),
        }
    }
}

impl Claims {
    ghost use Rattle.text_lines.specs.Refusals.{ReadsLine};
    ghost use Rattle.trace_text.specs.HistoryText.{nothing_yet, group_line, add_entry, operation_count, most_operations};

    /// Before the first line of a text of version 2, or of version 1.
    pub(crate) fn new(alloc: Global, second: bool) -> Self
        ensures { result ≡ nothing_yet second }
    {
        Claims {
            alloc,
            second,
            callers: None,
            entries: Vec::new(alloc),
            count: 0,
        }
    }

    /// The number of callers, if it was read.
    pub(crate) fn callers(&self) -> Option<u32>
        ensures { result ≡ self.now.callers }
    {
        self.callers
    }

    /// The groups, first to last.
    pub(crate) fn entries(&self) -> &[Entry]
        ensures entries { result.now ≡ self.now.entries }
        ensures few { operation_count result.now ≤ most_operations }
    {
        self.entries.as_slice()
    }

    fn group(&mut self, line: u32, mut words: Words) -> Result<(), LineRefused>
        ensures { ReadsLine (group_line self.old.second line self.old.callers self.old.entries words.entry) result self.new }
    {
        let Some(word) = words.next() else {
            return Err(LineRefused::Cause(TextCause::BadWord));
        };
        if word != b"group".as_slice() {
            return Err(LineRefused::Cause(TextCause::BadWord));
        }
        let entry = read_entry(self.alloc, self.second, line, words)?;
        self.add(entry)
    }

    fn add(&mut self, entry: Entry) -> Result<(), LineRefused>
        ensures { ReadsLine (add_entry self.old.second self.old.callers self.old.entries entry) result self.new }
    {
        let more = entry.claims.len();
        if more > MOST_OPERATIONS - self.count {
            return Err(LineRefused::Cause(TextCause::TooMany));
        }
        if self.entries.push(entry).is_err() {
            return Err(LineRefused::NoMemory);
        }
        self.count += more;
        Ok(())
    }
}

// The number behind the word `callers`.
fn read_callers(mut words: Words) -> Result<u32, TextCause>
    ensures { result ≡ callers_in words.entry }
{
    let (Some(word), Some(number), None) = (words.next(), words.next(), words.next()) else {
        return Err(TextCause::BadWord);
    };
    if word != b"callers".as_slice() {
        return Err(TextCause::BadWord);
    }
    match number_within(number, 1, MOST_CALLERS) {
        Some(callers) => Ok(callers as u32),
        None => Err(TextCause::BadNumber),
    }
}
