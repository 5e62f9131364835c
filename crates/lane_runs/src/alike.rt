// A job file is run by hands on the lane, and the text of the replies is what it must be.
ghost use Rattle.std.specs.Prelude.{◌≤◌};

use bq_lane::BqLane;
use bq_model::{Lane, Text};
use bulk_dispatcher::{NoGate, run_hands};
use job_text::{JobFile, print_reply, read_jobs};
use std::alloc::Global;
use std::process::Abort;
use std::test::Fail;
use std::thread::Threads;

// The text of the replies to the jobs, from so many hands that make so many dequeues as one.
fn replied<L: Lane, R: Threads + Sync>(
    rt: &R,
    alloc: Global,
    file: &JobFile,
    hands: u32,
    batch: u32,
) -> Result<Text, Fail>
    requires hands { (1 ≤ hands) × (hands ≤ 16) }
    requires batch { (1 ≤ batch) × (batch ≤ 256) }
{
    let done = run_hands::<L, NoGate, R>(rt, alloc, file, hands, batch, &NoGate)?;
    let mut text = Text::new(alloc);
    for reply in done.replies.as_slice() {
        print_reply(&mut text, reply.job(), reply.text())?;
    }
    Ok(text)
}

/// The replies to these jobs are these, by so many hands.
pub fn replies_alike<R: Threads + Sync + Abort>(
    rt: &R,
    alloc: Global,
    jobs: &[u8],
    replies: &[u8],
    hands: u32,
    batch: u32,
) -> Result<(), Fail>
    requires hands { (1 ≤ hands) × (hands ≤ 16) }
    requires batch { (1 ≤ batch) × (batch ≤ 256) }
{
    let Ok(file) = read_jobs(alloc, jobs) else {
        return Err(Fail::from("no job file"));
    };
    let text = replied::<BqLane, R>(rt, alloc, &file, hands, batch)?;
    assert!(rt;
        text.as_slice() == replies,
        "{hands} hands, {batch} dequeues"
    );
    Ok(())
}
