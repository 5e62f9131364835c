// The lines of a text.
ghost use Rattle.std.specs.Prelude.{◌≡◌};
ghost use Rattle.std.specs.Iterator.{YieldsFirstRef, item_count};
ghost use Rattle.text_lines.specs.Lines.{lines_of, is_text};

use memchr::memchr;
use std::marker::Model;

/// The lines of a text that are still to come, first to last, without their line feeds.
#[derive(Drop)]
pub struct Lines<'t> {
    rest: &'t [u8],
}

impl<'t> Model for Lines<'t> {
    ghost use Rattle.std.specs.Prelude.{List, ℕ};
    ghost use Rattle.text_lines.specs.Lines.{lines_of};

    ghost Value = { List (List ℕ) };

    ghost view = { λ l. lines_of l.rest.now };
}

impl<'t> Lines<'t> {
    /// Cuts the text at its line feeds.
    pub fn new(text: &'t [u8]) -> Self
        ensures { result ≡ lines_of text.now }
    {
        Lines { rest: text }
    }
}

impl<'t> Iterator for Lines<'t> {
    type Item = &'t [u8];

    ghost next_gives = { YieldsFirstRef (λ l. l) };

    ghost remaining = { item_count (λ l. l) };

    fn next(&mut self) -> Option<&'t [u8]> {
        let text = self.rest;
        if text.is_empty() {
            return None;
        }
        match memchr(b'\n', text) {
            Some(end) => {
                self.rest = &text[end + 1..];
                Some(&text[..end])
            }
            None => {
                self.rest = &[];
                Some(text)
            }
        }
    }
}

/// Whether each byte of a line is between 32 and 126.
pub fn is_text(line: &[u8]) -> bool
    ensures { result ≡ is_text line.now }
{
    line.iter().all(|byte| (32..=126).contains(byte))
}
