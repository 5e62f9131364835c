// The answer of words: for each different word in byte order the word, `=` and how often it stands there.
ghost use Rattle.std.specs.Prelude.{◌≡◌, ◌≢◌, ◌+◌, ◌^◌, ◌<◌, ◌↔◌, ℕ, List, [], ◌∷◌, ◌++◌, length, map, sum_by, Contains, Some, unwrap_or, IfOk, OnOk};
ghost use Rattle.std.specs.List.Sorted.{IsStrictlySortedBy};
ghost use Rattle.job_work.specs.CountMap.{count_of, counts_in, WordsRise};
ghost use Rattle.job_work.specs.Words.{byte_order, different, places_of, word_counts, entry_text, entries_text, words_answer};

use bq_model::{OutOfMemory, Text};
use itoa::Buffer;
use std::alloc::Global;
use std::collections::BTreeMap;

pub fn words_text(alloc: Global, words: &[Text]) -> Result<Text, OutOfMemory>
    ensures { IfOk result (λ text. text ≡ words_answer words.now) }
{
    if words.is_empty() {
        return Ok(Text::from(Vec::from_slice(alloc, b"-")?));
    }
    let counts = counted(alloc, words)?;
    let text = counts_text(alloc, &counts)?;
    Ok(Text::from(text))
}

// A key borrows the bytes of its word.
fn counted<'a>(alloc: Global, words: &'a [Text]) -> Result<BTreeMap<&'a [u8], u64>, OutOfMemory>
    ensures { IfOk result (λ counts. counts_in counts ≡ word_counts words.now) }
{
    let mut counts = BTreeMap::new(alloc);
    for word in words {
        count_word(&mut counts, word.as_slice())?;
    }
    Ok(counts)
}

// One more place of a word.
fn count_word<'a>(counts: &mut BTreeMap<&'a [u8], u64>, word: &'a [u8]) -> Result<(), OutOfMemory>
    requires { unwrap_or (count_of counts.old word.now) 0 + 1 < 2 ^ 64 }
    ensures counted { OnOk result (count_of counts.new word.now ≡ Some (unwrap_or (count_of counts.old word.now) 0 + 1)) }
    ensures others { OnOk result ((q : List ℕ) → q ≢ word.now → count_of counts.new q ≡ count_of counts.old q) }
    ensures rising { OnOk result (WordsRise counts.new) }
{
    *counts.entry(word)?.or_insert(0) += 1;
    Ok(())
}

fn counts_text(alloc: Global, counts: &BTreeMap<&[u8], u64>) -> Result<Vec<u8>, OutOfMemory>
    ensures { IfOk result (λ text. text.items ≡ entries_text (counts_in counts.now)) }
{
    let mut text = Vec::new(alloc);
    for (word, count) in counts {
        push_entry(&mut text, word, *count)?;
    }
    Ok(text)
}

// Appends an entry, behind a blank where it isn't the first.
fn push_entry(text: &mut Vec<u8>, word: &[u8], count: u64) -> Result<(), OutOfMemory>
    ensures first { text.old.items ≡ [] → OnOk result (text.new.items ≡ entry_text (word.now, count)) }
    ensures later { text.old.items ≢ [] → OnOk result (text.new.items ≡ text.old.items ++ 32 ∷ entry_text (word.now, count)) }
{
    if !text.is_empty() {
        text.push(b' ')?;
    }
    text.extend_from_slice(word)?;
    text.push(b'=')?;
    let mut buffer = Buffer::new();
    text.extend_from_slice(buffer.format(count).as_bytes())?;
    Ok(())
}

/// What holds of the counts of any words. It does nothing.
pub fn words_laws()
    ensures rising { (words : List (List ℕ)) → IsStrictlySortedBy byte_order (different words) }
    ensures same_words { (words : List (List ℕ)) (word : List ℕ) → Contains (different words) word ↔ Contains words word }
    ensures each_once { (words : List (List ℕ)) (word : List ℕ) → Contains words word → places_of (different words) word ≡ 1 }
    ensures counted { (words : List (List ℕ)) → word_counts words ≡ map (λ word. (word, places_of words word)) (different words) }
    ensures counts_add_up { (words : List (List ℕ)) → sum_by (λ e. e.1) (word_counts words) ≡ length words }
{}
