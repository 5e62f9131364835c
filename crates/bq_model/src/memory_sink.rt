// A sink into memory: `bytes` has room for `capacity` bytes from the start, so no write takes memory, and `writes` is the
// number of the next write.
ghost use Rattle.std.specs.Prelude.{◌≡◌, ◌-◌, ◌<◌, ◌≤◌, ◌↔◌, [], ◌++◌, length, take, min, IsErr, IfOk, OnErr};
ghost use Rattle.bq_model.specs.Device.{next_count};
ghost use Rattle.bq_model.specs.Memory.{NextWriteFails};

use crate::error::{Failed, OutOfMemory};
use crate::sink::Sink;
use std::alloc::Global;
use std::marker::Model;

/// A sink that keeps a limited number of bytes in memory, takes them in pieces, and fails where it was told so.
#[derive(Debug, Drop)]
pub struct MemorySink {
    bytes: Vec<u8>,
    capacity: usize,
    piece: usize,
    failing: Vec<u64>,
    writes: u64,
    faults: u64,
}

impl Model for MemorySink {
    ghost use Rattle.std.specs.Prelude.{◌≤◌, vec_len, vec_capacity};
    ghost use Rattle.bq_model.specs.Memory.{SinkState};

    ghost Value = { SinkState };

    ghost view = { λ s. record {
      written = s.bytes.items;
      capacity = s.capacity;
      piece = s.piece;
      failing = s.failing.items;
      writes = s.writes;
      faults = s.faults;
    } };

    ghost invariant = { λ s. (1 ≤ s.piece) × (vec_len s.bytes ≤ s.capacity)
        × (s.capacity ≤ vec_capacity s.bytes) };
}

impl MemorySink {
    /// An empty sink with room for `capacity` bytes. A write takes at most `piece` of them, and fails where its number,
    /// counted from 0, stands in `failing`.
    pub fn new(
        alloc: Global,
        capacity: usize,
        piece: usize,
        failing: Vec<u64>,
    ) -> Result<MemorySink, OutOfMemory>
        requires { 1 ≤ piece }
        ensures { IfOk result (λ s. s ≡ record {
          written = [];
          capacity = capacity;
          piece = piece;
          failing = failing.items;
          writes = 0;
          faults = 0;
        }) }
    {
        let bytes = Vec::with_capacity(alloc, capacity)?;
        Ok(MemorySink {
            bytes,
            capacity,
            piece,
            failing,
            writes: 0,
            faults: 0,
        })
    }

    /// The bytes that were written.
    pub fn bytes(&self) -> &[u8]
        ensures written { result.now ≡ self.now.written }
        ensures within_capacity { length result.now ≤ self.now.capacity }
    {
        self.bytes.as_slice()
    }
}

impl Sink for MemorySink {
    ghost use Rattle.std.specs.Prelude.{Some};

    ghost written = { λ s. Some s.written };

    ghost faults = { λ s. s.faults };

    /// The number of a write stays at its last value, as the count of faults does.
    fn write(&mut self, bytes: &[u8]) -> Result<usize, Failed>
        requires { 0 < length bytes.now }
        ensures fails_as_told_or_full { IsErr result ↔ NextWriteFails self.old }
        ensures some { IfOk result (λ n. 1 ≤ n) }
        ensures count { IfOk result (λ n. n ≡ min self.old.piece
            (min (length bytes.now) (self.old.capacity - length self.old.written))) }
        ensures appended { IfOk result (λ n. self.new ≡ record self.old {
          written = self.old.written ++ take n bytes.now;
          writes = next_count self.old.writes;
        }) }
        ensures failed_is_counted { OnErr result (self.new ≡ record self.old {
          writes = next_count self.old.writes;
          faults = next_count self.old.faults;
        }) }
        ensures count_never_falls { self.old.faults ≤ self.new.faults }
    {
        let free = self.capacity - self.bytes.len();
        let fails = free == 0 || self.failing.contains(&self.writes);
        self.writes = self.writes.saturating_add(1);
        if fails {
            self.faults = self.faults.saturating_add(1);
            return Err(Failed);
        }
        let n = self.piece.min(bytes.len()).min(free);
        self.bytes.extend_from_slice(&bytes[..n]).unwrap();
        Ok(n)
    }
}
