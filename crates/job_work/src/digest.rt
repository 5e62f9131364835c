// The answer of a digest: SHA-256 of the bytes, in lower case hexadecimal digits.
ghost use Rattle.std.specs.Prelude.{◌≡◌, IfOk};
ghost use Rattle.sha2.specs.Sha256.{sha256};
ghost use Rattle.hex.specs.Hex.{encode_lower};

use bq_model::{OutOfMemory, Text};
use sha2::{Digest, Sha256};
use std::alloc::Global;

pub fn digest_text(alloc: Global, bytes: &[u8]) -> Result<Text, OutOfMemory>
    ensures { IfOk result (λ text. text ≡ encode_lower (sha256 bytes.now)) }
{
    let digest = Sha256::digest(bytes);
    let digits = hex::encode(alloc, digest)?;
    Ok(Text::from(digits.into_bytes()))
}
