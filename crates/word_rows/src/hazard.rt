// What the hazard words hold.
ghost use Rattle.std.specs.Prelude.{◌≡◌, ◌^◌};
ghost use Rattle.word_rows.specs.Packing.{hazard_word};
ghost use Rattle.word_rows.specs.ReadsBack.{ReadsBack};
ghost use Rattle.word_rows.specs.Fits.{HazardFits};

use crate::packing::NUMBERS;

/// A row or announcement that a caller holds, or none, as a word.
#[inline(always)]
pub fn pack_hazard(number: Option<u32>) -> u64
    ensures { result ≡ hazard_word number }
{
    match number {
        None => 0,
        Some(number) => 1 + u64::from(number),
    }
}

/// What the hazard word names.
#[inline(always)]
pub fn unpack_hazard(word: u64) -> Option<Option<u32>>
    ensures { ReadsBack (HazardFits (2 ^ 18)) hazard_word word result }
{
    if word == 0 {
        Some(None)
    } else if word <= NUMBERS {
        Some(Some((word - 1) as u32))
    } else {
        None
    }
}
