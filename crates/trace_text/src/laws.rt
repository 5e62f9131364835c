// Laws of the grammar and of the verdict. Each is proved of all texts; the functions do nothing.
ghost use Rattle.std.specs.Prelude.{◌≡◌, ◌≢◌, ◌+◌, ◌<◌, ◌≤◌, ◌↔◌, List, [], ℕ, length, take, codes, Ok, Err, None};
ghost use Rattle.bq_model.specs.declared.fault.TextCause.TheVariants.{TooLong, BadWord};
ghost use Rattle.bq_model.specs.declared.fault.TextFault.{TextFault};
ghost use Rattle.text_lines.specs.Lines.{lines_of};
ghost use Rattle.text_lines.specs.Reading.{most_bytes, fault, text_line, IsFirstFault};
ghost use Rattle.trace_text.specs.HistoryText.{History, LinesSay, operation_count, hist_of, said_of, meaning, nothing_yet, is_second, version_word};
ghost use Rattle.trace_text.specs.Verdicts.{verdict_of, verdict_in};
ghost use Rattle.trace_text.specs.Printed.{played_in};
ghost use Rattle.trace_text.specs.Legal.{IsLegal, IsFirstIllegal};
ghost use Rattle.trace_text.specs.declared.verdict.Verdict.TheVariants.{Legal, Illegal};

/// A history is legal exactly where its callers can make it and each answer is that of a single thread's queue. Else
/// the line of the verdict is the first one in which it is not.
pub fn verdict_is_that_of_the_replay()
    ensures legal { (text : List ℕ) (history : History) → hist_of text ≡ Ok history
        → (verdict_of history ≡ Legal (length history.entries) (operation_count history.entries)) ↔ IsLegal history.callers history.entries }
    ensures illegal { (text : List ℕ) (history : History) (line : ℕ) → hist_of text ≡ Ok history → verdict_of history ≡ Illegal line
        → IsFirstIllegal history.callers history.entries line }
{}

/// A text that is too long has that fault and no other. Else the fault is that of the first line with a fault; where no
/// line has one and no line has the callers, it is a bad word in the line behind the last one.
pub fn first_faulty_line_of_a_history_is_named()
    ensures too_long { (text : List ℕ) → most_bytes < length text → hist_of text ≡ Err (fault 0 TooLong) }
    ensures first_line { (text : List ℕ) (found : TextFault) → length text ≤ most_bytes → text ≢ []
        → (said_of text ≡ Err found) ↔ IsFirstFault (text_line (codes "bqhist") (version_word (is_second text)) meaning) 1 (nothing_yet (is_second text)) (lines_of text) found }
    ensures line_before_callers { (text : List ℕ) (found : TextFault) → (said_of text ≡ Err found) → hist_of text ≡ Err found }
    ensures no_callers { (text : List ℕ) (say : LinesSay) → (said_of text ≡ Ok say) → say.callers ≡ None
        → hist_of text ≡ Err (fault (length (lines_of text) + 1) BadWord) }
{}

/// A text is judged and played as its first 16,777,217 bytes are, so that no more of it need be looked at.
pub fn longer_texts_are_alike()
    ensures histories { (text : List ℕ) → verdict_in (take (most_bytes + 1) text) ≡ verdict_in text }
    ensures schedules { (text : List ℕ) → played_in (take (most_bytes + 1) text) ≡ played_in text }
{}
