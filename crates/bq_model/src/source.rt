// Where bytes come from.
ghost use Rattle.std.specs.Prelude.{◌≡◌, ℕ, ◌<◌, ◌≤◌, ◌↔◌, List, [], Option, length, take, is_some, IfOk, OnErr, IfSome};
ghost use Rattle.std.specs.Io.KnownBytes.{Consumes};
ghost use Rattle.bq_model.specs.Device.{Rose};

use crate::error::Failed;

/// A stream of bytes that is read in pieces.
pub trait Source {
    /// The bytes still to come, where the source tells them.
    ghost left: { Self → Option (List ℕ) };

    /// How often a read has failed, a u64 that stands still at its last value.
    ghost faults: { Self → ℕ };

    /// Moves the next bytes to the front of `buf`, and says how many. 0 is the end of the stream.
    fn read(&mut self, buf: &mut [u8]) -> Result<usize, Failed>
        requires { 0 < length buf.old }
        ensures fits { IfOk result (λ n. n ≤ length buf.new) }
        ensures moved { IfOk result (λ n. Consumes (left self.old) (left self.new) (take n buf.new)) }
        ensures ends { IfOk result (λ n. IfSome (left self.old) (λ bytes. (n ≡ 0) ↔ (bytes ≡ []))) }
        ensures failed_reads_nothing { OnErr result (left self.new ≡ left self.old) }
        ensures failed_is_counted { OnErr result (Rose (faults self.old) (faults self.new)) }
        ensures told { is_some (left self.new) ≡ is_some (left self.old) }
        ensures count_never_falls { faults self.old ≤ faults self.new };
}
