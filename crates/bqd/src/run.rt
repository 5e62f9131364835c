// The command that runs a job file, over any source and sinks.
ghost use Rattle.std.specs.Prelude.{◌≤◌, map, IfOk};
ghost use Rattle.job_text.specs.Replies.{replies_of};
ghost use Rattle.byte_streams.specs.Streams.{change};
ghost use Rattle.bulk_dispatcher.specs.Ran.{JobsRan};
ghost use Rattle.bqd.specs.Runs.{IsRun, WritesDue, EndsWithCause, run_call};

use crate::file::{FileFault, read_file};
use crate::jobs::run_jobs;
use crate::line::fault_line;
use crate::output::tell;
use crate::status::Status;
use bq_model::{Failed, Lane, Sink, Source};
use bulk_dispatcher::{Done, Gate};
use byte_streams::write_all;
use job_text::JobFile;
use std::alloc::Global;
use std::thread::Threads;

// Runs the jobs of a file and writes their replies, none of them before all jobs were run.
fn answer_file<L: Lane, O: Sink, G: Gate, R: Threads + Sync>(
    rt: &R,
    alloc: Global,
    file: JobFile,
    hands: u32,
    batch: u32,
    out: &mut O,
    gate: &G,
) -> Result<Done<L>, Status>
    requires hands { (1 ≤ hands) × (hands ≤ 16) }
    requires batch { (1 ≤ batch) × (batch ≤ 256) }
    ensures ran { IfOk result (λ done. JobsRan file hands batch (map L.history done.books) done.replies) }
    ensures written { WritesDue (replies_of file) (change O.written O.faults out.old out.new) result }
{
    let Ok((done, text)) = run_jobs::<L, G, R>(rt, alloc, file, hands, batch, gate) else {
        return Err(Status::OutOfMemory);
    };
    match write_all(out, text.as_slice()) {
        Ok(()) => Ok(done),
        Err(Failed) => Err(Status::WriteFailed),
    }
}

/// Runs the job file that the source has, by so many hands.
pub fn run<L: Lane, S: Source, O: Sink, E: Sink, G: Gate, R: Threads + Sync>(
    rt: &R,
    alloc: Global,
    hands: u32,
    batch: u32,
    source: &mut S,
    out: &mut O,
    err: &mut E,
    gate: &G,
) -> Result<Done<L>, Status>
    requires hands { (1 ≤ hands) × (hands ≤ 16) }
    requires batch { (1 ≤ batch) × (batch ≤ 256) }
    ensures run { IfOk result (λ done. IsRun hands batch (run_call hands batch (change S.left S.faults source.old source.new)
        (change O.written O.faults out.old out.new) (change E.written E.faults err.old err.new)) (map L.history done.books) done.replies) }
    ensures explained { EndsWithCause (run_call hands batch (change S.left S.faults source.old source.new)
        (change O.written O.faults out.old out.new) (change E.written E.faults err.old err.new)) result }
{
    match read_file(alloc, source) {
        Ok(file) => answer_file::<L, O, G, R>(rt, alloc, file, hands, batch, out, gate),
        Err(FileFault::Text(fault)) => {
            Err(tell(err, fault_line(fault).as_bytes(), Status::Refused))
        }
        Err(FileFault::Failed) => Err(Status::ReadFailed),
        Err(FileFault::Memory) => Err(Status::OutOfMemory),
    }
}
