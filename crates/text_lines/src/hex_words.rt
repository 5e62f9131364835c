// Hex words and byte words, read and printed.
ghost use Rattle.hex.specs.Hex.{encode_lower};
ghost use Rattle.std.specs.Prelude.{◌≡◌, ℕ, ◌++◌, take, IfOk, OnOk, OnErr};
ghost use Rattle.text_lines.specs.Hex.{hex_of, byte_of};
ghost use Rattle.text_lines.specs.Printed.{printed_hex, printed_byte};

use bq_model::{Bytes, OutOfMemory, Text};
use hex::{FromHexError, decode, decode_to_slice};
use std::alloc::Global;

/// The hexadecimal digits in the case that is printed.
const DIGITS: [u8; 16] = *b"0123456789abcdef";

/// The bytes that a hex word is: `-` is no bytes, else each byte has two hexadecimal digits in either case. None
/// where the word has another form.
pub fn hex_word(alloc: Global, word: &[u8]) -> Result<Option<Bytes>, OutOfMemory>
    ensures { IfOk result (λ bytes. bytes ≡ hex_of word.now) }
{
    if word == b"-".as_slice() {
        return Ok(Some(Bytes::new(alloc)));
    }
    if word.is_empty() {
        return Ok(None);
    }
    match decode(alloc, word) {
        Ok(bytes) => Ok(Some(Bytes::from(bytes))),
        Err(FromHexError::OutOfMemory) => Err(OutOfMemory),
        Err(_) => Ok(None),
    }
}

/// The byte that a byte word is: exactly two hexadecimal digits in either case.
pub fn byte_word(word: &[u8]) -> Option<u8>
    ensures { result ≡ byte_of word.now }
{
    let mut byte = [0];
    match decode_to_slice(word, &mut byte) {
        Ok(()) => Some(byte[0]),
        Err(_) => None,
    }
}

/// Appends the hex word of these bytes: `-` for none, else two digits in lower case for each. Where memory is lacking,
/// the digits of the first bytes may stand there.
pub fn append_hex_word(text: &mut Text, bytes: &[u8]) -> Result<(), OutOfMemory>
    ensures ok { OnOk result (text.new ≡ text.old ++ printed_hex bytes.now) }
    ensures err { OnErr result ((k : ℕ) × (text.new ≡ text.old ++ encode_lower (take k bytes.now))) }
{
    if bytes.is_empty() {
        return text.append_parts(&[b"-"]);
    }
    for byte in bytes {
        append_byte_word(text, *byte)?;
    }
    Ok(())
}

/// Appends the byte word of this byte, in lower case. Where memory is lacking, the text stays.
pub fn append_byte_word(text: &mut Text, byte: u8) -> Result<(), OutOfMemory>
    ensures ok { OnOk result (text.new ≡ text.old ++ printed_byte byte) }
    ensures err { OnErr result (text.new ≡ text.old) }
{
    let high = DIGITS[usize::from(byte / 16)];
    let low = DIGITS[usize::from(byte % 16)];
    text.append_parts(&[&[high, low]])
}
