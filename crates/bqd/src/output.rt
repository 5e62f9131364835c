// A text that is due is written.
ghost use Rattle.std.specs.Prelude.{◌≡◌, ◌⊎◌};
ghost use Rattle.std.specs.Io.KnownBytes.{Appends};
ghost use Rattle.bq_model.specs.Device.{Rose};
ghost use Rattle.byte_streams.specs.Output.{WroteFront};

use crate::status::Status;
use bq_model::{Failed, Sink};
use byte_streams::write_all;

/// Writes a text that is due with this status, and gives the status that this comes to.
pub fn tell<E: Sink>(err: &mut E, text: &[u8], due: Status) -> Status
    ensures told { (result ≡ due × Appends (E.written err.old) (E.written err.new) text.now)
        ⊎ (result ≡ Status.WriteFailed × Rose (E.faults err.old) (E.faults err.new) × WroteFront (E.written err.old) (E.written err.new) text.now) }
{
    match write_all(err, text) {
        Ok(()) => due,
        Err(Failed) => Status::WriteFailed,
    }
}
