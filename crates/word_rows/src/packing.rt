// A number with a count above it and two bits below it, as a place, a head word and a link word are coded.
ghost use Rattle.std.specs.Prelude.{◌≡◌, ◌^◌, ◌<◌, ◌/◌, ◌%◌};
ghost use Rattle.word_rows.specs.Packing.{counted_word};

/// Numbers of rows and announcements are below this.
pub(crate) const NUMBERS: u64 = 1 << 18;
/// How far the number stands above the last two bits, which tell kinds apart.
pub(crate) const NUMBER_SHIFT: u32 = 2;
/// How far the count stands above them.
const COUNT_SHIFT: u32 = 20;
/// The bits of a kind.
const KIND_BITS: u64 = 3;
/// The bits of a number, once they are shifted down.
const NUMBER_BITS: u64 = NUMBERS - 1;

/// A count, a number and a kind as one word.
#[inline(always)]
pub(crate) fn counted(count: u64, number: u32, kind: u64) -> u64
    requires count { count < 2 ^ 44 }
    requires number { number < 2 ^ 18 }
    requires kind { kind < 4 }
    ensures { result ≡ counted_word count number kind }
{
    count << COUNT_SHIFT | u64::from(number) << NUMBER_SHIFT | kind
}

/// The count of such a word.
#[inline(always)]
pub(crate) fn count_in(word: u64) -> u64
    ensures value { result ≡ word / 2 ^ 20 }
    ensures fits { result < 2 ^ 44 }
{
    word >> COUNT_SHIFT
}

/// The number of such a word.
#[inline(always)]
pub(crate) fn number_in(word: u64) -> u32
    ensures value { result ≡ word / 4 % 2 ^ 18 }
    ensures fits { result < 2 ^ 18 }
{
    (word >> NUMBER_SHIFT & NUMBER_BITS) as u32
}

/// The kind of such a word.
#[inline(always)]
pub(crate) fn kind_in(word: u64) -> u64
    ensures { result ≡ word % 4 }
{
    word & KIND_BITS
}
