// Where bytes go.
ghost use Rattle.std.specs.Prelude.{◌≡◌, ℕ, ◌<◌, ◌≤◌, List, Option, None, Ok, length, take, is_some, IfOk, IsOk, OnErr};
ghost use Rattle.std.specs.Io.KnownBytes.{Appends};
ghost use Rattle.bq_model.specs.Device.{Rose};

use crate::error::Failed;

/// A stream of bytes that is written in pieces.
pub trait Sink {
    /// The bytes that were written, where the sink tells them.
    ghost written: { Self → Option (List ℕ) };

    /// How often a write has failed, a u64 that stands still at its last value.
    ghost faults: { Self → ℕ };

    /// Takes bytes from the front of `bytes`, at least one, and says how many.
    fn write(&mut self, bytes: &[u8]) -> Result<usize, Failed>
        requires { 0 < length bytes.now }
        ensures some { IfOk result (λ n. 1 ≤ n) }
        ensures fits { IfOk result (λ n. n ≤ length bytes.now) }
        ensures appended { IfOk result (λ n. Appends (written self.old) (written self.new) (take n bytes.now)) }
        ensures failed_writes_nothing { OnErr result (written self.new ≡ written self.old) }
        ensures failed_is_counted { OnErr result (Rose (faults self.old) (faults self.new)) }
        ensures told { is_some (written self.new) ≡ is_some (written self.old) }
        ensures count_never_falls { faults self.old ≤ faults self.new };
}

/// A sink that takes every byte and keeps none.
#[derive(Clone, Copy, Debug, Default)]
pub struct NullSink;

impl Sink for NullSink {
    ghost written = { λ _. None };

    ghost faults = { λ _. 0 };

    fn write(&mut self, bytes: &[u8]) -> Result<usize, Failed>
        requires { 0 < length bytes.now }
        ensures takes_every_byte { result ≡ Ok (length bytes.now) }
    {
        Ok(bytes.len())
    }
}
