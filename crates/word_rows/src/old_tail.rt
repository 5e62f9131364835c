// What OldTail of an announcement holds.
ghost use Rattle.std.specs.Prelude.{◌≡◌};
ghost use Rattle.word_rows.specs.Packing.{old_tail_word};
ghost use Rattle.word_rows.specs.ReadsBack.{ReadsBack};
ghost use Rattle.word_rows.specs.Fits.{OldTailFits, coding_limits};

use crate::place::Place;

/// The word of a tail that isn't known.
const UNKNOWN: u64 = 3;

/// Where the list ended, or nothing where that isn't known, as a word.
#[inline(always)]
pub fn pack_old_tail(place: Option<Place>) -> u64
    requires { OldTailFits coding_limits place }
    ensures { result ≡ old_tail_word place }
{
    match place {
        None => UNKNOWN,
        Some(place) => place.pack(),
    }
}

/// The old tail that the word is.
#[inline(always)]
pub fn unpack_old_tail(word: u64) -> Option<Option<Place>>
    ensures { ReadsBack (OldTailFits coding_limits) old_tail_word word result }
{
    if word == UNKNOWN {
        Some(None)
    } else {
        Some(Some(Place::unpack(word)?))
    }
}
