// The jobs of a file are run, and their replies printed.
ghost use Rattle.std.specs.Prelude.{◌≡◌, ◌≤◌, map, IfOk};
ghost use Rattle.job_text.specs.Replies.{replies_of};
ghost use Rattle.bulk_dispatcher.specs.Ran.{JobsRan};

use crate::replies::printed;
use bq_model::{Lane, OutOfMemory, Text};
use bulk_dispatcher::{Done, Gate, run_hands};
use job_text::JobFile;
use std::alloc::Global;
use std::thread::Threads;

/// Runs the jobs of a file by so many hands, and gives what that leaves and the text of the replies. The file is given
/// up before the text is made.
pub fn run_jobs<L: Lane, G: Gate, R: Threads + Sync>(
    rt: &R,
    alloc: Global,
    file: JobFile,
    hands: u32,
    batch: u32,
    gate: &G,
) -> Result<(Done<L>, Text), OutOfMemory>
    requires hands { (1 ≤ hands) × (hands ≤ 16) }
    requires batch { (1 ≤ batch) × (batch ≤ 256) }
    ensures ran { IfOk result (λ made. JobsRan file hands batch (map L.history made.0.books) made.0.replies) }
    ensures text { IfOk result (λ made. made.1 ≡ replies_of file) }
{
    let done = run_hands::<L, G, R>(rt, alloc, &file, hands, batch, gate)?;
    drop(file);
    let text = printed(alloc, done.replies.as_slice())?;
    Ok((done, text))
}
