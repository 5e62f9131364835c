// All of a source's bytes, read in pieces.
ghost use Rattle.std.specs.Prelude.{◌≡◌, ◌+◌, ◌≤◌, vec_len, is_some, IfOk, IsErrOf};
ghost use Rattle.std.specs.Io.KnownBytes.{Consumes, IsAtEnd};
ghost use Rattle.bq_model.specs.Device.{Rose};
ghost use Rattle.text_lines.specs.Reading.{most_bytes};

use bq_model::Source;
use byte_streams::{InputFault, PIECE, read_piece, zeros};
use std::alloc::Global;

/// One byte more than a text may have, so that a longer text is seen.
pub const MAX_READ: usize = 16_777_217;

/// Reads up to the end of the source, or `MAX_READ` bytes of it where it has more. Each read asks for 65,536 bytes
/// or for what is missing to `MAX_READ`, and takes a byte or more, or finds the end.
pub fn read_input<S: Source>(alloc: Global, source: &mut S) -> Result<Vec<u8>, InputFault>
    ensures consumed { IfOk result (λ input. Consumes (S.left source.old) (S.left source.new) input.items) }
    ensures at_most { IfOk result (λ input. vec_len input ≤ most_bytes + 1) }
    ensures whole { IfOk result (λ input. vec_len input ≤ most_bytes → IsAtEnd (S.left source.new)) }
    ensures failed_is_counted { IsErrOf result InputFault.Failed → Rose (S.faults source.old) (S.faults source.new) }
    ensures told { is_some (S.left source.new) ≡ is_some (S.left source.old) }
    ensures count_never_falls { S.faults source.old ≤ S.faults source.new }
{
    let mut buffer = zeros(alloc, PIECE)?;
    let piece = buffer.as_mut_slice();
    let mut input = Vec::new(alloc);
    while input.len() < MAX_READ {
        let most = PIECE.min(MAX_READ - input.len());
        let bytes = read_piece(source, &mut piece[..most])?;
        if bytes.is_empty() {
            return Ok(input);
        }
        input.extend_from_slice(bytes)?;
    }
    Ok(input)
}
