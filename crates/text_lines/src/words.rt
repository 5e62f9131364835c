// The words of a line.
ghost use Rattle.std.specs.Prelude.{◌≡◌, ◌≢◌, ◌<◌, length, slice_index};
ghost use Rattle.std.specs.Iterator.{YieldsFirstRef, item_count};
ghost use Rattle.text_lines.specs.Words.{words_of, is_passed_over, is_header};

use memchr::memchr;
use std::marker::Model;

/// The words of a line that are still to come, first to last.
#[derive(Drop)]
pub struct Words<'t> {
    rest: &'t [u8],
}

impl<'t> Model for Words<'t> {
    ghost use Rattle.std.specs.Prelude.{List, ℕ};
    ghost use Rattle.text_lines.specs.Words.{words_of};

    ghost Value = { List (List ℕ) };

    ghost view = { λ w. words_of w.rest.now };
}

impl<'t> Words<'t> {
    /// Cuts the line at its blanks.
    pub fn new(line: &'t [u8]) -> Self
        ensures { result ≡ words_of line.now }
    {
        Words { rest: line }
    }
}

impl<'t> Iterator for Words<'t> {
    type Item = &'t [u8];

    ghost next_gives = { YieldsFirstRef (λ w. w) };

    ghost remaining = { item_count (λ w. w) };

    fn next(&mut self) -> Option<&'t [u8]> {
        let text = without_blanks(self.rest);
        if text.is_empty() {
            self.rest = text;
            return None;
        }
        match memchr(b' ', text) {
            Some(end) => {
                self.rest = &text[end..];
                Some(&text[..end])
            }
            None => {
                self.rest = &[];
                Some(text)
            }
        }
    }
}

// The line from its first byte that is no blank.
fn without_blanks(line: &[u8]) -> &[u8]
    ensures words { words_of result.now ≡ words_of line.now }
    ensures begins { 0 < length result.now → slice_index result.now 0 ≢ 32 }
{
    match line.iter().position(|byte| *byte != b' ') {
        Some(start) => &line[start..],
        None => &[],
    }
}

/// Whether a line of these words, behind the header, is passed over: it has no word, or its first one begins with `#`.
pub fn is_passed_over(mut words: Words) -> bool
    ensures { result ≡ is_passed_over words.entry }
{
    match words.next() {
        Some(word) => word.first() == Some(&b'#'),
        None => true,
    }
}

/// Whether the words are these two.
pub fn is_header(mut words: Words, name: &[u8], version: &[u8]) -> bool
    ensures { result ≡ is_header name.now version.now words.entry }
{
    words.next() == Some(name) && words.next() == Some(version) && words.next().is_none()
}
