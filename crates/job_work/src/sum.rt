// The answer of a sum: the sum of the numbers, in decimal.
ghost use Rattle.std.specs.Prelude.{◌≡◌, ◌+◌, ◌^◌, ◌<◌, IfOk, sum, decimal};

use crate::decimal::decimal_text;
use bq_model::{OutOfMemory, Text};
use std::alloc::Global;

pub fn sum_text(alloc: Global, numbers: &[u64]) -> Result<Text, OutOfMemory>
    ensures { IfOk result (λ text. text ≡ decimal (sum numbers.now)) }
{
    decimal_text(alloc, total(numbers))
}

// A slice has fewer than 2^64 numbers, so that the sum has room in 128 bits.
fn total(numbers: &[u64]) -> u128
    ensures { result ≡ sum numbers.now }
{
    let mut total = 0u128;
    for number in numbers {
        total += u128::from(*number);
    }
    total
}
