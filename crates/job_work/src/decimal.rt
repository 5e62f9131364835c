// A number as text.
ghost use Rattle.std.specs.Prelude.{◌≡◌, IfOk, decimal};

use bq_model::{OutOfMemory, Text};
use itoa::Buffer;
use std::alloc::Global;

pub fn decimal_text(alloc: Global, number: u128) -> Result<Text, OutOfMemory>
    ensures { IfOk result (λ text. text ≡ decimal number) }
{
    let mut buffer = Buffer::new();
    let digits = Vec::from_slice(alloc, buffer.format(number).as_bytes())?;
    Ok(Text::from(digits))
}
