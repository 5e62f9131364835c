// What the LINK of a row holds.
ghost use Rattle.std.specs.Prelude.{◌≡◌};
ghost use Rattle.word_rows.specs.Packing.{link_word};
ghost use Rattle.word_rows.specs.ReadsBack.{ReadsBack};
ghost use Rattle.word_rows.specs.Fits.{LinkFits, coding_limits};

use crate::packing::{NUMBER_SHIFT, NUMBERS, counted, kind_in};

/// How a row goes on.
#[derive(Clone, Copy, Debug, PartialEq, Eq, Hash)]
pub enum LinkWord {
    /// Nothing is linked behind the row.
    Nil,
    /// To this row, which was linked alone.
    Single(u32),
    /// To this row, the first of a chain that an announcement linked.
    Chain(u32),
    /// Nothing, and nothing can be linked any more.
    Shut,
}

/// The word where nothing is linked.
const NIL: u64 = 0;
/// The kind of a link to a row that was linked alone.
const SINGLE: u64 = 1;
/// The kind of a link to a chain.
const CHAIN: u64 = 2;
/// The word where nothing can be linked any more.
const SHUT: u64 = 3;

impl LinkWord {
    /// The link as a word.
    #[inline(always)]
    pub fn pack(self) -> u64
        requires { LinkFits coding_limits self }
        ensures { result ≡ link_word self }
    {
        match self {
            LinkWord::Nil => NIL,
            LinkWord::Single(row) => counted(0, row, SINGLE),
            LinkWord::Chain(row) => counted(0, row, CHAIN),
            LinkWord::Shut => SHUT,
        }
    }

    /// The link that the word is.
    #[inline(always)]
    pub fn unpack(word: u64) -> Option<LinkWord>
        ensures { ReadsBack (LinkFits coding_limits) link_word word result }
    {
        if word == NIL {
            return Some(LinkWord::Nil);
        }
        if word == SHUT {
            return Some(LinkWord::Shut);
        }
        let row = word >> NUMBER_SHIFT;
        if row >= NUMBERS {
            return None;
        }
        match kind_in(word) {
            SINGLE => Some(LinkWord::Single(row as u32)),
            CHAIN => Some(LinkWord::Chain(row as u32)),
            _ => None,
        }
    }
}
