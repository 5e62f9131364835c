// What a line of a history claims.
ghost use Rattle.std.specs.Prelude.{◌≡◌, ◌&&◌, not, bytes_eq, codes};
ghost use Rattle.text_lines.specs.Refusals.{ReadsPart};
ghost use Rattle.trace_text.specs.Claims.{enqueue_of, refusal_of, dequeue_of, has_letter, claim_of, op_claims_of, shut_before, claims_of};
ghost use Rattle.trace_text.specs.HistoryText.{entry_in};

use bq_model::{Answer, Items, Op, TextCause};
use std::alloc::Global;
use text_lines::{LineRefused, Words, number};

const BAD_WORD: LineRefused = LineRefused::Cause(TextCause::BadWord);

const BAD_NUMBER: LineRefused = LineRefused::Cause(TextCause::BadNumber);

/// An operation, and the answer that is claimed of it.
#[derive(Clone, Copy, Debug, PartialEq, Eq)]
pub struct Claim {
    /// What was done.
    pub op: Op,
    /// What it answered.
    pub answer: Answer,
}

/// A group of a history that is claimed.
#[derive(Debug, Drop)]
pub struct Entry {
    /// The number of its line.
    pub line: u32,
    /// Who made it.
    pub caller: u64,
    /// Its number among the groups of this caller.
    pub batch: u64,
    /// Its operations with their answers, first to last.
    pub claims: Items<Claim>,
}

/// A group in this line of a text of version 2, or of version 1: a caller, a batch number and operations.
pub(crate) fn read_entry(
    alloc: Global,
    second: bool,
    line: u32,
    mut words: Words,
) -> Result<Entry, LineRefused>
    ensures { ReadsPart (entry_in second line words.entry) result }
{
    let Some(caller) = words.next() else {
        return Err(BAD_WORD);
    };
    let Some(batch) = words.next() else {
        return Err(BAD_WORD);
    };
    let claims = read_claims(alloc, second, words)?;
    let Some(caller) = number(caller) else {
        return Err(BAD_NUMBER);
    };
    let Some(batch) = number(batch) else {
        return Err(BAD_NUMBER);
    };
    Ok(Entry {
        line,
        caller,
        batch,
        claims,
    })
}

// One or more operations with their answers. A wrong letter comes before a wrong number. In version 2 a Shut is the only
// word.
fn read_claims(alloc: Global, second: bool, mut words: Words) -> Result<Items<Claim>, LineRefused>
    ensures { ReadsPart (claims_of second words.entry) result }
{
    let mut claims = Items::new(alloc);
    let mut some = false;
    let mut right = true;
    while let Some(word) = words.next() {
        if is_shut(second, some, word) {
            return read_shut(alloc, words);
        }
        some = true;
        if !has_letter(second, word) {
            return Err(BAD_WORD);
        }
        match read_claim(word) {
            Some(claim) => claims.push(claim)?,
            None => right = false,
        }
    }
    if !some {
        return Err(BAD_WORD);
    }
    if !right {
        return Err(BAD_NUMBER);
    }
    Ok(claims)
}

// Whether a word is that of a Shut: in version 2, with no word before it.
fn is_shut(second: bool, some: bool, word: &[u8]) -> bool
    ensures { result ≡ (second && not some && bytes_eq word.now (codes "s")) }
{
    second && !some && word == b"s".as_slice()
}

// A Shut, with no word behind it.
fn read_shut(alloc: Global, mut words: Words) -> Result<Items<Claim>, LineRefused>
    ensures { ReadsPart (shut_before words.entry) result }
{
    if words.next().is_some() {
        return Err(BAD_WORD);
    }
    let mut claims = Items::new(alloc);
    claims.push(Claim {
        op: Op::Shut,
        answer: Answer::Done,
    })?;
    Ok(claims)
}

fn has_letter(second: bool, word: &[u8]) -> bool
    ensures { result ≡ has_letter second word.now }
{
    match word {
        [] => false,
        [letter, ..] => *letter == b'e' || *letter == b'd' || second && *letter == b'x',
    }
}

fn read_claim(word: &[u8]) -> Option<Claim>
    ensures { result ≡ claim_of word.now }
{
    let [letter, rest @ ..] = word else {
        return None;
    };
    if *letter == b'e' {
        return read_enqueue(rest);
    }
    if *letter == b'x' {
        return read_refusal(rest);
    }
    read_dequeue(rest)
}

fn read_enqueue(word: &[u8]) -> Option<Claim>
    ensures { result ≡ enqueue_of word.now }
{
    let v = number(word)?;
    Some(Claim {
        op: Op::Enq(v),
        answer: Answer::Done,
    })
}

fn read_refusal(word: &[u8]) -> Option<Claim>
    ensures { result ≡ refusal_of word.now }
{
    let v = number(word)?;
    Some(Claim {
        op: Op::Enq(v),
        answer: Answer::Refused,
    })
}

fn read_dequeue(word: &[u8]) -> Option<Claim>
    ensures { result ≡ dequeue_of word.now }
{
    if word == b"-".as_slice() {
        return Some(Claim {
            op: Op::Deq,
            answer: Answer::Empty,
        });
    }
    let v = number(word)?;
    Some(Claim {
        op: Op::Deq,
        answer: Answer::Got(v),
    })
}
