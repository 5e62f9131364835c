// The answer of a count: how often the byte stands among the bytes, in decimal.
ghost use Rattle.std.specs.Prelude.{◌≡◌, ◌==◌, IfOk, count_by, decimal};

use crate::decimal::decimal_text;
use bq_model::{OutOfMemory, Text};
use memchr::memchr_iter;
use std::alloc::Global;

pub fn count_text(alloc: Global, byte: u8, bytes: &[u8]) -> Result<Text, OutOfMemory>
    ensures { IfOk result (λ text. text ≡ decimal (count_by (λ b. b == byte) bytes.now)) }
{
    let places = memchr_iter(byte, bytes).count();
    decimal_text(alloc, places as u128)
}
