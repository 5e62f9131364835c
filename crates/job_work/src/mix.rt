// The answer of a mix: the number after so many turns of the generator, in decimal.
ghost use Rattle.std.specs.Prelude.{◌≡◌, IfOk, decimal};
ghost use Rattle.job_work.specs.Mix.{mixed};

use crate::decimal::decimal_text;
use bq_model::{OutOfMemory, Text};
use std::alloc::Global;

/// What a turn multiplies by.
const MULTIPLIER: u64 = 6_364_136_223_846_793_005;
/// What a turn adds.
const INCREMENT: u64 = 1_442_695_040_888_963_407;

pub fn mix_text(alloc: Global, start: u64, turns: u32) -> Result<Text, OutOfMemory>
    ensures { IfOk result (λ text. text ≡ decimal (mixed start turns)) }
{
    decimal_text(alloc, u128::from(after_turns(start, turns)))
}

// A loop as plain as this one the compiler unrolls, and makes one step of several turns.
fn after_turns(start: u64, turns: u32) -> u64
    ensures { result ≡ mixed start turns }
{
    let mut number = start;
    for _turn in 0..turns {
        number = number.wrapping_mul(MULTIPLIER).wrapping_add(INCREMENT);
    }
    number
}
