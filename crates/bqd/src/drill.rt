// The command that makes a job file from a number and runs it, over any sink.
ghost use Rattle.std.specs.Prelude.{◌≡◌, ◌≤◌, map, IfOk};
ghost use Rattle.job_text.specs.Generator.{gen_of};
ghost use Rattle.bqd.specs.DrillLine.{drill_line};
ghost use Rattle.byte_streams.specs.Streams.{change};
ghost use Rattle.bulk_dispatcher.specs.Ran.{JobsRan};
ghost use Rattle.bqd.specs.Runs.{WritesDue};

use crate::drill_line::{ROOM, drill_line};
use crate::jobs::run_jobs;
use crate::status::Status;
use arrayvec::ArrayString;
use bq_model::{Failed, Lane, OutOfMemory, Sink};
use bulk_dispatcher::{Done, Gate};
use byte_streams::write_all;
use job_text::generated;
use std::alloc::Global;
use std::thread::Threads;

// Runs the file of so many jobs, and gives what that leaves and the line that tells of it.
fn run_generated<L: Lane, G: Gate, R: Threads + Sync>(
    rt: &R,
    alloc: Global,
    jobs: u32,
    hands: u32,
    batch: u32,
    gate: &G,
) -> Result<(Done<L>, ArrayString<ROOM>), OutOfMemory>
    requires jobs { jobs ≤ 500000 }
    requires hands { (1 ≤ hands) × (hands ≤ 16) }
    requires batch { (1 ≤ batch) × (batch ≤ 256) }
    ensures ran { IfOk result (λ made. JobsRan (gen_of jobs) hands batch (map L.history made.0.books) made.0.replies) }
    ensures line { IfOk result (λ made. made.1.bytes ≡ drill_line jobs) }
{
    let file = generated(alloc, jobs)?;
    let (done, text) = run_jobs::<L, G, R>(rt, alloc, file, hands, batch, gate)?;
    let line = drill_line(jobs, done.books.len(), text.as_slice());
    Ok((done, line))
}

/// Runs the file of so many jobs by so many hands, and writes the line that tells of it, once all jobs were run.
pub fn drill<L: Lane, O: Sink, G: Gate, R: Threads + Sync>(
    rt: &R,
    alloc: Global,
    jobs: u32,
    hands: u32,
    batch: u32,
    out: &mut O,
    gate: &G,
) -> Result<Done<L>, Status>
    requires jobs { jobs ≤ 500000 }
    requires hands { (1 ≤ hands) × (hands ≤ 16) }
    requires batch { (1 ≤ batch) × (batch ≤ 256) }
    ensures ran { IfOk result (λ done. JobsRan (gen_of jobs) hands batch (map L.history done.books) done.replies) }
    ensures written { WritesDue (drill_line jobs) (change O.written O.faults out.old out.new) result }
{
    let Ok((done, line)) = run_generated::<L, G, R>(rt, alloc, jobs, hands, batch, gate) else {
        return Err(Status::OutOfMemory);
    };
    match write_all(out, line.as_bytes()) {
        Ok(()) => Ok(done),
        Err(Failed) => Err(Status::WriteFailed),
    }
}
