// Laws above the definitions of `specs/`. Each is proved of all states and texts; the functions do nothing.
ghost use Rattle.std.specs.Prelude.{◌≡◌, ◌≢◌, ℕ, ◌<◌, ◌≤◌, ◌^◌, ◌++◌, ◌↔◌, List, [], Result, Err, Some, All, length, map, decimal};
ghost use Rattle.bq_model.specs.declared.fault.TextCause.{TextCause};
ghost use Rattle.bq_model.specs.declared.fault.TextCause.TheVariants.{NoHeader, TooLong};
ghost use Rattle.bq_model.specs.declared.fault.TextFault.{TextFault};
ghost use Rattle.text_lines.specs.Cause.{both, causes, IsFirstCause, NamesFirst};
ghost use Rattle.text_lines.specs.LineCauses.{line_causes};
ghost use Rattle.text_lines.specs.Lines.{lines_of};
ghost use Rattle.text_lines.specs.Words.{words_of, IsWord};
ghost use Rattle.text_lines.specs.Number.{number_of};
ghost use Rattle.text_lines.specs.Hex.{hex_of, byte_of};
ghost use Rattle.text_lines.specs.Printed.{printed_lines, printed_hex, printed_byte};
ghost use Rattle.text_lines.specs.Reading.{read_lines, text_line, text_state, fault, most_bytes, IsFirstFault};

/// Where parts of a line have faults, the line's fault is the one that comes first in the order. So it is with a whole
/// line, if it is with the words of each line behind the header; and a line is taken only where no fault applies to it.
pub fn fault_of_a_line_comes_first_in_the_order<A, B>()
    ensures parts { (one : Result A TextCause) (other : Result B TextCause) (cause : TextCause)
        → (both one other ≡ Err cause) → IsFirstCause (causes one ++ causes other) cause }
    ensures line { (name version : List ℕ) (meaning : ℕ → A → List (List ℕ) → Result A TextCause) (applying : ℕ → A → List (List ℕ) → List TextCause)
        → ((number : ℕ) (state : A) (words : List (List ℕ)) → NamesFirst (applying number state words) (meaning number state words))
        → (number : ℕ) (state : A) (line : List ℕ)
        → NamesFirst (line_causes name version applying number state line) (text_line name version meaning number state line) }
{}

/// A text that is too long has that fault and no other. Else its fault is that of the first line with a fault, and an
/// empty text has no header.
pub fn fault_of_a_text_is_that_of_its_first_faulty_line<S>()
    ensures lines { (take_line : ℕ → S → List ℕ → Result S TextCause) (number : ℕ) (state : S) (lines : List (List ℕ)) (found : TextFault)
        → (read_lines take_line number state lines ≡ Err found) ↔ IsFirstFault take_line number state lines found }
    ensures too_long { (name version : List ℕ) (meaning : ℕ → S → List (List ℕ) → Result S TextCause) (state : S) (text : List ℕ)
        → most_bytes < length text → text_state name version meaning state text ≡ Err (fault 0 TooLong) }
    ensures empty { (name version : List ℕ) (meaning : ℕ → S → List (List ℕ) → Result S TextCause) (state : S)
        → text_state name version meaning state [] ≡ Err (fault 1 NoHeader) }
    ensures text { (name version : List ℕ) (meaning : ℕ → S → List (List ℕ) → Result S TextCause) (state : S) (text : List ℕ) (found : TextFault)
        → length text ≤ most_bytes → text ≢ []
        → (text_state name version meaning state text ≡ Err found) ↔ IsFirstFault (text_line name version meaning) 1 state (lines_of text) found }
{}

/// Lines of words that are printed have these words, and a number, bytes or a byte that is printed as a word is that
/// word's value.
pub fn printed_words_are_read_back()
    ensures lines { (lines : List (List (List ℕ))) → All (All IsWord) lines → map words_of (lines_of (printed_lines lines)) ≡ lines }
    ensures number { (number : ℕ) → number < 2 ^ 64 → number_of (decimal number) ≡ Some number }
    ensures hex { (bytes : List ℕ) → All (λ byte. byte < 256) bytes → hex_of (printed_hex bytes) ≡ Some bytes }
    ensures byte { (byte : ℕ) → byte < 256 → byte_of (printed_byte byte) ≡ Some byte }
{}
