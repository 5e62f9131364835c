// The commands that read a text of a history or of a schedule, over any source and sinks.
ghost use Rattle.std.specs.Prelude.{◌≡◌, Some};
ghost use Rattle.bqd.specs.declared.command.Command.{Command};
ghost use Rattle.bqd.specs.Causes.{IsExplained};
ghost use Rattle.bqd.specs.Due.{verdict_status};
ghost use Rattle.bqd.specs.Status.{number_of};
ghost use Rattle.byte_streams.specs.Streams.{change};

use crate::input::read_input;
use crate::line::fault_line;
use crate::output::tell;
use crate::status::Status;
use crate::verdict_line::verdict_line;
use bq_model::{Sink, Source, TextRefused};
use byte_streams::InputFault;
use std::alloc::Global;
use trace_text::{Verdict, check_history, play_schedule};

/// Judges the history that the source has.
pub fn check<S: Source, O: Sink, E: Sink>(
    alloc: Global,
    source: &mut S,
    out: &mut O,
    err: &mut E,
) -> Status
    ensures { IsExplained (number_of result) (record {
      command = Some Command.Check;
      source = change S.left S.faults source.old source.new;
      out = change O.written O.faults out.old out.new;
      err = change E.written E.faults err.old err.new;
    }) }
{
    let bytes = match read_input(alloc, source) {
        Ok(bytes) => bytes,
        Err(InputFault::Failed) => return Status::ReadFailed,
        Err(InputFault::Memory) => return Status::OutOfMemory,
    };
    match check_history(alloc, bytes.as_slice()) {
        Ok(verdict) => tell(out, verdict_line(verdict).as_bytes(), status_of(verdict)),
        Err(TextRefused::Text(fault)) => {
            tell(err, fault_line(fault).as_bytes(), Status::Refused)
        }
        Err(TextRefused::Memory) => Status::OutOfMemory,
    }
}

fn status_of(verdict: Verdict) -> Status
    ensures { number_of result ≡ verdict_status verdict }
{
    match verdict {
        Verdict::Legal { .. } => Status::Done,
        Verdict::Illegal { .. } => Status::Illegal,
    }
}

/// Plays the schedule that the source has.
pub fn play<S: Source, O: Sink, E: Sink>(
    alloc: Global,
    source: &mut S,
    out: &mut O,
    err: &mut E,
) -> Status
    ensures { IsExplained (number_of result) (record {
      command = Some Command.Play;
      source = change S.left S.faults source.old source.new;
      out = change O.written O.faults out.old out.new;
      err = change E.written E.faults err.old err.new;
    }) }
{
    let bytes = match read_input(alloc, source) {
        Ok(bytes) => bytes,
        Err(InputFault::Failed) => return Status::ReadFailed,
        Err(InputFault::Memory) => return Status::OutOfMemory,
    };
    match play_schedule(alloc, bytes.as_slice()) {
        Ok(text) => tell(out, text.as_slice(), Status::Done),
        Err(TextRefused::Text(fault)) => {
            tell(err, fault_line(fault).as_bytes(), Status::Refused)
        }
        Err(TextRefused::Memory) => Status::OutOfMemory,
    }
}
