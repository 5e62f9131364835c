// The commands that run no jobs, over any source and sinks.
ghost use Rattle.std.specs.Prelude.{◌≡◌, ◌≤◌, ◌⊎◌, false, IfOk, map};
ghost use Rattle.std.specs.String.{string_bytes};
ghost use Rattle.std.specs.Io.KnownBytes.{Appends};
ghost use Rattle.bq_model.specs.Device.{Rose};
ghost use Rattle.job_text.specs.Canon.{canon};
ghost use Rattle.job_text.specs.Generator.{gen_of};
ghost use Rattle.bqd.specs.Command.{command_in, runs, most_generated};
ghost use Rattle.byte_streams.specs.Output.{WroteFront};
ghost use Rattle.byte_streams.specs.Streams.{change};
ghost use Rattle.bqd.specs.Causes.{IsExplained, call};

use crate::command::{Command, command_of};
use crate::output::tell;
use crate::status::Status;
use crate::texts::{check, play};
use crate::usage::usage;
use bq_model::{OutOfMemory, Sink, Source, Text};
use job_text::{generated, print_jobs};
use std::alloc::Global;

// The text of the job file with so many jobs.
fn generated_text(alloc: Global, jobs: u32) -> Result<Text, OutOfMemory>
    requires { jobs ≤ most_generated }
    ensures { IfOk result (λ text. text ≡ canon (gen_of jobs)) }
{
    let file = generated(alloc, jobs)?;
    print_jobs(alloc, &file)
}

// Writes the job file with so many jobs, and gives the status that this comes to.
fn write_generated<O: Sink>(alloc: Global, jobs: u32, out: &mut O) -> Status
    requires { jobs ≤ most_generated }
    ensures { (result ≡ Status.Done × Appends (O.written out.old) (O.written out.new) (canon (gen_of jobs)))
        ⊎ (result ≡ Status.WriteFailed × Rose (O.faults out.old) (O.faults out.new) × WroteFront (O.written out.old) (O.written out.new) (canon (gen_of jobs)))
        ⊎ (result ≡ Status.OutOfMemory × (O.written out.new ≡ O.written out.old) × (O.faults out.new ≡ O.faults out.old)) }
{
    match generated_text(alloc, jobs) {
        Ok(text) => tell(out, text.as_slice(), Status::Done),
        Err(OutOfMemory) => Status::OutOfMemory,
    }
}

/// Does what words ask for that are no command that runs jobs, and gives the status that it ends with. It waits for
/// nobody.
pub fn still<S: Source, O: Sink, E: Sink>(
    alloc: Global,
    words: &[String],
    source: &mut S,
    out: &mut O,
    err: &mut E,
) -> u8
    requires { runs (command_in (map (λ w. string_bytes w) words.now)) ≡ false }
    ensures { IsExplained result (call words.now (change S.left S.faults source.old source.new)
        (change O.written O.faults out.old out.new) (change E.written E.faults err.old err.new)) }
{
    match command_of(words) {
        Some(Command::Gen { jobs }) => write_generated(alloc, jobs, out).number(),
        Some(Command::Check) => check(alloc, source, out, err).number(),
        Some(Command::Play) => play(alloc, source, out, err).number(),
        _ => tell(err, usage(), Status::Usage).number(),
    }
}
