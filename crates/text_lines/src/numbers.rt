// The numbers of a text.
ghost use Rattle.std.specs.Prelude.{◌≡◌, ◌+◌, ◌-◌, ◌*◌, ◌^◌, ◌<◌, SomeIff};
ghost use Rattle.std.specs.Char.{IsAsciiDigit};
ghost use Rattle.text_lines.specs.Number.{number_of, number_within};

/// The number that a word is: one or more decimal digits, leading zeros allowed. None where it has another byte,
/// no byte, or a value beyond `u64`.
pub fn number(word: &[u8]) -> Option<u64>
    ensures { result ≡ number_of word.now }
{
    if word.is_empty() {
        return None;
    }
    let mut value = 0;
    for byte in word {
        value = with_digit(value, *byte)?;
    }
    Some(value)
}

// The number with one more digit at its end.
fn with_digit(value: u64, byte: u8) -> Option<u64>
    ensures { SomeIff result (IsAsciiDigit byte × (value * 10 + (byte - 48) < 2 ^ 64)) (value * 10 + (byte - 48)) }
{
    if !byte.is_ascii_digit() {
        return None;
    }
    value.checked_mul(10)?.checked_add(u64::from(byte - b'0'))
}

/// The number that a word is, if it is from `least` to `most`.
pub fn number_within(word: &[u8], least: u64, most: u64) -> Option<u64>
    ensures { result ≡ number_within least most word.now }
{
    let number = number(word)?;
    if least <= number && number <= most {
        Some(number)
    } else {
        None
    }
}
