// A source, read in pieces.
ghost use Rattle.std.specs.Prelude.{◌≡◌, ◌<◌, ◌≤◌, [], length, vec_len, is_some, IfOk, OnErr};
ghost use Rattle.std.specs.Io.KnownBytes.{Consumes, IsAtEnd};
ghost use Rattle.bq_model.specs.Device.{Rose};

use bq_model::{Failed, OutOfMemory, Source};
use std::alloc::{AllocError, Global};

/// How many bytes one read asks for.
pub const PIECE: usize = 65_536;

/// Why the input was not read.
#[derive(Clone, Copy, Debug, PartialEq, Eq)]
pub enum InputFault {
    /// A read failed.
    Failed,
    /// Memory was lacking.
    Memory,
}

impl From<Failed> for InputFault {
    ghost use Rattle.byte_streams.specs.declared.read.InputFault.TheVariants.{Failed as ReadFailed};

    ghost from_gives = { λ _ fault. fault ≡ ReadFailed };

    fn from(_failed: Failed) -> Self {
        InputFault::Failed
    }
}

impl From<AllocError> for InputFault {
    ghost use Rattle.byte_streams.specs.declared.read.InputFault.TheVariants.{Memory};

    ghost from_gives = { λ _ fault. fault ≡ Memory };

    fn from(_error: AllocError) -> Self {
        InputFault::Memory
    }
}

impl From<OutOfMemory> for InputFault {
    ghost use Rattle.byte_streams.specs.declared.read.InputFault.TheVariants.{Memory};

    ghost from_gives = { λ _ fault. fault ≡ Memory };

    fn from(_error: OutOfMemory) -> Self {
        InputFault::Memory
    }
}

/// As many zeros, a buffer to read into.
pub fn zeros(alloc: Global, len: usize) -> Result<Vec<u8>, AllocError>
    ensures { IfOk result (λ buffer. vec_len buffer ≡ len) }
{
    vec![in alloc; 0u8; len]
}

/// Reads once, and gives what came. It is empty only at the end of the source.
pub fn read_piece<'a, S: Source>(source: &mut S, piece: &'a mut [u8]) -> Result<&'a [u8], Failed>
    requires { 0 < length piece.old }
    ensures consumed { IfOk result (λ bytes. Consumes (S.left source.old) (S.left source.new) bytes.now) }
    ensures fits { IfOk result (λ bytes. length bytes.now ≤ length piece.old) }
    ensures empty_at_end { IfOk result (λ bytes. bytes.now ≡ [] → IsAtEnd (S.left source.new)) }
    ensures failed_reads_nothing { OnErr result (S.left source.new ≡ S.left source.old) }
    ensures failed_is_counted { OnErr result (Rose (S.faults source.old) (S.faults source.new)) }
    ensures told { is_some (S.left source.new) ≡ is_some (S.left source.old) }
    ensures count_never_falls { S.faults source.old ≤ S.faults source.new }
{
    let n = source.read(piece)?;
    Ok(&piece[..n])
}
