// The edge to streams of std. What they hold or get is theirs to say.
ghost use Rattle.std.specs.Prelude.{◌≡◌, ◌<◌, ◌≤◌, length, IfOk, OnOk, OnErr};
ghost use Rattle.std.specs.Io.KnownBytes.{ReadConsumes, WriteAppends};
ghost use Rattle.bq_model.specs.Device.{next_count};

use crate::error::Failed;
use crate::sink::Sink;
use crate::source::Source;
use std::io::{Read, Write};
use std::marker::Model;

/// A source that reads from a reader of std. It counts each error of the reader as a fault, and tells no bytes.
#[derive(Debug, Drop)]
pub struct ReadSource<R> {
    inner: R,
    faults: u64,
}

impl<R> Model for ReadSource<R> {
    ghost use Rattle.bq_model.specs.Adapter.{Counted};

    ghost Value = { Counted R };

    ghost view = { λ s. record { inner = s.inner; faults = s.faults } };
}

impl<R> ReadSource<R> {
    /// A source over this reader, with no fault so far.
    pub fn new(inner: R) -> ReadSource<R>
        ensures { result ≡ record { inner = inner; faults = 0 } }
    {
        ReadSource { inner, faults: 0 }
    }
}

impl<R: Read> Source for ReadSource<R> {
    ghost use Rattle.std.specs.Prelude.{None};

    ghost left = { λ _. None };

    ghost faults = { λ s. s.faults };

    fn read(&mut self, buf: &mut [u8]) -> Result<usize, Failed>
        requires { 0 < length buf.old }
        ensures fits { IfOk result (λ n. n ≤ length buf.new) }
        ensures read { ReadConsumes (R.remaining self.old.inner) (R.remaining self.new.inner) result buf.new }
        ensures ok_is_not_counted { OnOk result (self.new.faults ≡ self.old.faults) }
        ensures failed_is_counted { OnErr result (self.new.faults ≡ next_count self.old.faults) }
        ensures count_never_falls { self.old.faults ≤ self.new.faults }
    {
        match self.inner.read(buf) {
            Ok(n) => Ok(n),
            Err(_) => {
                self.faults = self.faults.saturating_add(1);
                Err(Failed)
            }
        }
    }
}

/// A sink that writes to a writer of std. It counts each error of the writer, and each write that takes nothing, as a
/// fault, and tells no bytes.
#[derive(Debug, Drop)]
pub struct WriteSink<W> {
    inner: W,
    faults: u64,
}

impl<W> Model for WriteSink<W> {
    ghost use Rattle.bq_model.specs.Adapter.{Counted};

    ghost Value = { Counted W };

    ghost view = { λ s. record { inner = s.inner; faults = s.faults } };
}

impl<W> WriteSink<W> {
    /// A sink over this writer, with no fault so far.
    pub fn new(inner: W) -> WriteSink<W>
        ensures { result ≡ record { inner = inner; faults = 0 } }
    {
        WriteSink { inner, faults: 0 }
    }
}

impl<W: Write> Sink for WriteSink<W> {
    ghost use Rattle.std.specs.Prelude.{None};

    ghost written = { λ _. None };

    ghost faults = { λ s. s.faults };

    fn write(&mut self, bytes: &[u8]) -> Result<usize, Failed>
        requires { 0 < length bytes.now }
        ensures some { IfOk result (λ n. 1 ≤ n) }
        ensures fits { IfOk result (λ n. n ≤ length bytes.now) }
        ensures written { WriteAppends (W.contents self.old.inner) (W.contents self.new.inner) result bytes.now }
        ensures ok_is_not_counted { OnOk result (self.new.faults ≡ self.old.faults) }
        ensures failed_is_counted { OnErr result (self.new.faults ≡ next_count self.old.faults) }
        ensures count_never_falls { self.old.faults ≤ self.new.faults }
    {
        match self.inner.write(bytes) {
            Ok(n) if n > 0 => Ok(n),
            _ => {
                self.faults = self.faults.saturating_add(1);
                Err(Failed)
            }
        }
    }
}
