// A source of bytes in memory: of `bytes` the first `at` were read, and `reads` is the number of the next read.
ghost use Rattle.std.specs.Prelude.{◌≡◌, ◌<◌, ◌≤◌, ◌↔◌, [], ◌++◌, length, take, drop, min, IsErr, IfOk, OnErr};
ghost use Rattle.bq_model.specs.Device.{next_count};
ghost use Rattle.bq_model.specs.Memory.{NextReadFails};

use crate::error::Failed;
use crate::source::Source;
use std::marker::Model;

/// A source that gives bytes from memory in pieces, and whose reads fail where it was told so.
#[derive(Debug, Drop)]
pub struct MemorySource {
    bytes: Vec<u8>,
    at: usize,
    piece: usize,
    failing: Vec<u64>,
    reads: u64,
    faults: u64,
}

impl Model for MemorySource {
    ghost use Rattle.std.specs.Prelude.{◌≤◌, drop, length};
    ghost use Rattle.bq_model.specs.Memory.{SourceState};

    ghost Value = { SourceState };

    ghost view = { λ s. record {
      left = drop s.at s.bytes.items;
      piece = s.piece;
      failing = s.failing.items;
      reads = s.reads;
      faults = s.faults;
    } };

    ghost invariant = { λ s. (1 ≤ s.piece) × (s.at ≤ length s.bytes.items) };
}

impl MemorySource {
    /// A source of these bytes. A read gives at most `piece` of them, and fails where its number, counted from 0,
    /// stands in `failing`.
    pub fn new(bytes: Vec<u8>, piece: usize, failing: Vec<u64>) -> MemorySource
        requires { 1 ≤ piece }
        ensures { result ≡ record {
          left = bytes.items;
          piece = piece;
          failing = failing.items;
          reads = 0;
          faults = 0;
        } }
    {
        MemorySource {
            bytes,
            at: 0,
            piece,
            failing,
            reads: 0,
            faults: 0,
        }
    }

    /// The bytes still to come.
    pub fn left(&self) -> &[u8]
        ensures { result.now ≡ self.now.left }
    {
        &self.bytes[self.at..]
    }
}

impl Source for MemorySource {
    ghost use Rattle.std.specs.Prelude.{Some};

    ghost left = { λ s. Some s.left };

    ghost faults = { λ s. s.faults };

    /// The number of a read stays at its last value, as the count of faults does.
    fn read(&mut self, buf: &mut [u8]) -> Result<usize, Failed>
        requires { 0 < length buf.old }
        ensures fails_as_told { IsErr result ↔ NextReadFails self.old }
        ensures count { IfOk result
            (λ n. n ≡ min self.old.piece (min (length buf.old) (length self.old.left))) }
        ensures ends { IfOk result (λ n. (n ≡ 0) ↔ (self.old.left ≡ [])) }
        ensures moved { IfOk result (λ n. buf.new ≡ take n self.old.left ++ drop n buf.old) }
        ensures goes_on { IfOk result (λ n. self.new ≡ record self.old {
          left = drop n self.old.left;
          reads = next_count self.old.reads;
        }) }
        ensures failed_keeps_buffer { OnErr result (buf.new ≡ buf.old) }
        ensures failed_is_counted { OnErr result (self.new ≡ record self.old {
          reads = next_count self.old.reads;
          faults = next_count self.old.faults;
        }) }
        ensures count_never_falls { self.old.faults ≤ self.new.faults }
    {
        let fails = self.failing.contains(&self.reads);
        self.reads = self.reads.saturating_add(1);
        if fails {
            self.faults = self.faults.saturating_add(1);
            return Err(Failed);
        }
        let rest = &self.bytes[self.at..];
        let n = self.piece.min(buf.len()).min(rest.len());
        buf[..n].copy_from_slice(&rest[..n]);
        self.at += n;
        Ok(n)
    }
}
