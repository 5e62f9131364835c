// Laws above the definitions of `specs/`. Each is proved of all lanes and contents; the functions do nothing.
ghost use Rattle.std.specs.Prelude.{◌≡◌, ◌≢◌, ◌↔◌, ℕ, ◌<◌, ◌≤◌, ◌^◌, ◌==◌, IsTrue, List, length, if◌then◌else◌};
ghost use Rattle.bq_model.specs.declared.shape.Shape.{Shape};
ghost use Rattle.word_rows.specs.declared.location.Location.{Location};
ghost use Rattle.word_rows.specs.declared.content.Content.{Content};
ghost use Rattle.word_rows.specs.Sizes.{items_of, stoppers_of, rows_of, words_of};
ghost use Rattle.word_rows.specs.Layout.{IsValid, index_of};
ghost use Rattle.word_rows.specs.Contents.{coded, CanCode, MayHold};
ghost use Rattle.word_rows.specs.Memory.{word_at, words_after, Shows, Writes};

/// No lane is larger than the one whose sizes are all at their limits.
pub fn no_lane_is_larger()
    ensures items { (s : Shape) → items_of s ≤ 4915 }
    ensures stoppers { (s : Shape) → stoppers_of s ≤ 4660 }
    ensures rows { (s : Shape) → rows_of s ≤ 162776 }
    ensures words { (s : Shape) → words_of s ≤ 491254 }
{}

/// Two words of a lane at one index are one word, and each lies in the table.
pub fn another_word_lies_at_another_index()
    ensures apart { (s : Shape) (a b : Location) → IsValid s a → IsValid s b → index_of s a ≡ index_of s b → a ≡ b }
    ensures in_the_table { (s : Shape) (l : Location) → IsValid s l → index_of s l < words_of s }
{}

/// Two contents of one word with one code are one content.
pub fn another_content_is_coded_otherwise()
    ensures apart { (l : Location) (a b : Content) → CanCode l a → CanCode l b → coded a ≡ coded b → a ≡ b }
    ensures in_a_word { (l : Location) (x : Content) → CanCode l x → coded x < 2 ^ 64 }
    ensures also_in_a_lane { (s : Shape) (l : Location) (x : Content) → MayHold s l x → CanCode l x }
{}

/// An exchange compares codes and writes a code. It is the exchange on contents: the new one stands there exactly
/// where the expected one stood.
pub fn exchange_of_words_is_that_of_contents()
    ensures compared { (s : Shape) (l : Location) (held expected : Content)
        → MayHold s l held → MayHold s l expected → IsTrue (coded held == coded expected) ↔ (held ≡ expected) }
    ensures exchanged { (s : Shape) (l : Location) (held expected new : Content)
        → MayHold s l held → MayHold s l expected → held ≡ expected
        → (if coded held == coded expected then coded new else coded held) ≡ coded new }
    ensures left { (s : Shape) (l : Location) (held expected new : Content)
        → MayHold s l held → MayHold s l expected → held ≢ expected
        → (if coded held == coded expected then coded new else coded held) ≡ coded held }
{}

/// A write is seen at its own location and at no other.
pub fn one_write_changes_one_word()
    ensures here { (s : Shape) (words : List ℕ) (l : Location) (x : Content)
        → length words ≡ words_of s → IsValid s l
        → word_at s (words_after s words l x) l ≡ coded x }
    ensures elsewhere { (s : Shape) (words : List ℕ) (k l : Location) (x : Content)
        → IsValid s k → IsValid s l → k ≢ l
        → word_at s (words_after s words l x) k ≡ word_at s words k }
    ensures shown { (s : Shape) (words : List ℕ) (old new : Location → Content) (l : Location) (x : Content)
        → Shows s words old → IsValid s l → Writes old l x new → Shows s (words_after s words l x) new }
{}

/// Three locations are written one after another: the first keeps what was written there, and every location beside
/// the three what it had.
pub fn three_writes_leave_the_rest()
    ensures first { (s : Shape) (words : List ℕ) (held : Location → Content) (a b c : Location) (x y z : Content)
        → Shows s words held → IsValid s a → IsValid s b → IsValid s c → a ≢ b → a ≢ c
        → word_at s (words_after s (words_after s (words_after s words a x) b y) c z) a ≡ coded x }
    ensures others { (s : Shape) (words : List ℕ) (held : Location → Content) (a b c k : Location) (x y z : Content)
        → Shows s words held → IsValid s a → IsValid s b → IsValid s c → IsValid s k → k ≢ a → k ≢ b → k ≢ c
        → word_at s (words_after s (words_after s (words_after s words a x) b y) c z) k ≡ coded (held k) }
{}
