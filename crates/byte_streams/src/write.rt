// All of a text goes to a sink, over as many writes as the sink wants.
ghost use Rattle.std.specs.Prelude.{◌≡◌, ◌≤◌, is_some, OnOk, OnErr};
ghost use Rattle.std.specs.Io.KnownBytes.{Appends};
ghost use Rattle.bq_model.specs.Device.{Rose};
ghost use Rattle.byte_streams.specs.Output.{WroteFront};

use bq_model::{Failed, Sink};

/// Writes all of the text, or a part from its front where a write fails. Each write is handed all that is still
/// to come, and an empty text makes no write.
pub fn write_all<W: Sink>(sink: &mut W, text: &[u8]) -> Result<(), Failed>
    ensures ok { OnOk result (Appends (W.written sink.old) (W.written sink.new) text.now) }
    ensures failed_wrote_a_front { OnErr result (WroteFront (W.written sink.old) (W.written sink.new) text.now) }
    ensures failed_is_counted { OnErr result (Rose (W.faults sink.old) (W.faults sink.new)) }
    ensures told { is_some (W.written sink.new) ≡ is_some (W.written sink.old) }
    ensures count_never_falls { W.faults sink.old ≤ W.faults sink.new }
{
    let mut sent = 0;
    while sent < text.len() {
        sent += sink.write(&text[sent..])?;
    }
    Ok(())
}
