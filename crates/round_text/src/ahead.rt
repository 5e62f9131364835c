// The bytes that were read and belong to rounds still to come.
ghost use Rattle.std.specs.Prelude.{◌≡◌, ◌^◌, ◌<◌, ◌≤◌, [], length, drop, is_some, IfOk, OnOk, OnErr, IsErrOf};
ghost use Rattle.bq_model.specs.Device.{Rose};
ghost use Rattle.round_text.specs.Cutting.{Finds};
ghost use Rattle.round_text.specs.Coming.{TookPiece};

use crate::find::{Found, first_go};
use bq_model::{OutOfMemory, Source};
use byte_streams::{InputFault, PIECE, read_piece, zeros};
use std::alloc::Global;
use std::marker::Model;

/// Bytes from the beginning of a round on. The lines before `line` are no `go` lines, and from there to `seen` no line
/// feed stands, so each byte is looked at once.
#[derive(Drop)]
pub(crate) struct Ahead {
    bytes: Vec<u8>,
    line: usize,
    seen: usize,
}

impl Model for Ahead {
    ghost use Rattle.std.specs.Prelude.{List, ℕ};
    ghost use Rattle.round_text.specs.Cutting.{IsSearched};

    ghost Value = { List ℕ };

    ghost view = { λ a. a.bytes.items };

    ghost invariant = { λ a. IsSearched a.bytes.items a.line a.seen };
}

impl Ahead {
    /// No bytes.
    pub(crate) fn new(alloc: Global) -> Ahead
        ensures { result ≡ [] }
    {
        Ahead {
            bytes: Vec::new(alloc),
            line: 0,
            seen: 0,
        }
    }

    /// The bytes.
    pub(crate) fn as_slice(&self) -> &[u8]
        ensures { result.now ≡ self.now }
    {
        self.bytes.as_slice()
    }

    /// Looks for the first `go` line.
    pub(crate) fn find(&mut self) -> Found
        ensures stays { self.new ≡ self.old }
        ensures found { Finds self.old result }
    {
        let found = first_go(&self.bytes, self.line, self.seen);
        if let Found::Open { line } = found {
            self.line = line;
            self.seen = self.bytes.len();
        }
        found
    }

    /// Reads a piece, and appends it. There is none at the end of the source alone.
    pub(crate) fn read<S: Source>(
        &mut self,
        alloc: Global,
        source: &mut S,
    ) -> Result<bool, InputFault>
        ensures took { IfOk result (λ more. TookPiece more self.old self.new (S.left source.old) (S.left source.new)) }
        ensures failed_reads_nothing { IsErrOf result InputFault.Failed → (self.new ≡ self.old) × (S.left source.new ≡ S.left source.old) }
        ensures failed_is_counted { IsErrOf result InputFault.Failed → Rose (S.faults source.old) (S.faults source.new) }
        ensures within_memory { OnOk result (length self.new < 2 ^ 64) }
        ensures told { is_some (S.left source.new) ≡ is_some (S.left source.old) }
        ensures count_never_falls { S.faults source.old ≤ S.faults source.new }
    {
        let mut buffer = zeros(alloc, PIECE)?;
        let piece = read_piece(source, buffer.as_mut_slice())?;
        self.bytes.extend_from_slice(piece)?;
        Ok(!piece.is_empty())
    }

    /// Lets a round go: so many bytes at the front.
    pub(crate) fn skip(&mut self, end: usize) -> Result<(), OutOfMemory>
        requires { end ≤ length self.old }
        ensures ok { OnOk result (self.new ≡ drop end self.old) }
        ensures err { OnErr result (self.new ≡ self.old) }
    {
        let rest = self.bytes.split_off(end)?;
        *self = Ahead {
            bytes: rest,
            line: 0,
            seen: 0,
        };
        Ok(())
    }
}
