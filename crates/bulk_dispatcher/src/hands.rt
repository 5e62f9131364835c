// The run of a file's jobs by hands beside each other.
ghost use Rattle.std.specs.Prelude.{◌≡◌, ◌≤◌, ◌==◌, ◌++◌, ◌∷◌, [], map, IfOk, OnOk, if◌then◌else◌};
ghost use Rattle.std.specs.List.{flat_map, list_any};
ghost use Rattle.std.specs.List.Sorted.{IsPermutation, IsNonDecreasingBy};
ghost use Rattle.job_text.specs.Replies.{reply_line, replies_of};
ghost use Rattle.bulk_dispatcher.specs.Books.{lanes_of};
ghost use Rattle.bulk_dispatcher.specs.Ran.{JobsRan};
ghost use Rattle.bulk_dispatcher.specs.Stops.{has_stopped};

use crate::beside::run_beside;
use crate::done::Done;
use crate::gate::Gate;
use crate::hand::HandRun;
use crate::reply::Reply;
use bq_model::{Items, Lane, OutOfMemory};
use job_lanes::{Desk, LaneSet};
use job_text::JobFile;
use std::alloc::Global;
use std::thread::Threads;

/// How many numbers lanes may have.
const LANES: u32 = 16;

// Whether a file has a unit on a lane.
fn occurs(jobs: &JobFile, lane: u32) -> bool
    ensures { result ≡ list_any (λ unit. unit.lane == lane) jobs.now }
{
    jobs.units().iter().any(|unit| unit.lane == lane)
}

// Appends a number where it is wanted.
fn push_if(numbers: &mut Vec<u32>, number: u32, wanted: bool) -> Result<(), OutOfMemory>
    ensures { OnOk result (numbers.new.items ≡ (if wanted then numbers.old.items ++ number ∷ [] else numbers.old.items)) }
{
    if wanted {
        numbers.push(number)?;
    }
    Ok(())
}

// The numbers of the lanes that a file's units are put on, by rising number.
fn lane_numbers(alloc: Global, jobs: &JobFile) -> Result<Vec<u32>, OutOfMemory>
    ensures { IfOk result (λ numbers. numbers.items ≡ lanes_of jobs.now) }
{
    let mut numbers = Vec::new(alloc);
    for lane in 0..LANES {
        let wanted = occurs(jobs, lane);
        push_if(&mut numbers, lane, wanted)?;
    }
    Ok(numbers)
}

// The desks of the hands, and the replies of all of them.
fn taken_apart<L: Lane>(
    alloc: Global,
    mut runs: Vec<HandRun<L>>,
) -> Result<(Vec<Desk<L>>, Vec<Reply>), OutOfMemory>
    ensures desks { IfOk result (λ parts. parts.0.items ≡ map (λ run. run.desk) runs.items) }
    ensures replies { IfOk result (λ parts. parts.1.items ≡ flat_map (λ run. run.replies.items) runs.items) }
{
    let mut desks = Vec::with_capacity(alloc, runs.len())?;
    let mut replies = Vec::new(alloc);
    while let Some(run) = runs.pop() {
        let HandRun {
            desk,
            replies: mut more,
            work: _,
        } = run;
        more.append(&mut replies)?;
        replies = more;
        desks.push(desk)?;
    }
    desks.reverse();
    Ok((desks, replies))
}

// Whether a hand stopped before its work was done.
fn any_stopped<L: Lane>(runs: &[HandRun<L>]) -> bool
    ensures { result ≡ list_any (λ run. has_stopped run.work) runs.now }
{
    runs.iter().any(|run| run.work.has_stopped())
}

// Puts replies in the order of their jobs.
fn sort_replies(replies: &mut Vec<Reply>)
    ensures moved { IsPermutation replies.old.items replies.new.items }
    ensures order { IsNonDecreasingBy (λ reply. reply.job) replies.new.items }
{
    replies.sort_unstable_by_key(|reply| reply.job());
}

/// Runs the jobs of a file, by so many hands that make so many dequeues as one once they have put their jobs. Each reply
/// names the dequeue that got its job, in the book of the job's lane.
pub fn run_hands<L: Lane, G: Gate, R: Threads + Sync>(
    rt: &R,
    alloc: Global,
    jobs: &JobFile,
    hands: u32,
    batch: u32,
    gate: &G,
) -> Result<Done<L>, OutOfMemory>
    requires hands { (1 ≤ hands) × (hands ≤ 16) }
    requires batch { (1 ≤ batch) × (batch ≤ 256) }
    ensures ran { IfOk result (λ done. JobsRan jobs.now hands batch (map L.history done.books) done.replies) }

    // The lines of the replies, one after another, are the text that the file's jobs are replied with.
    ensures lines { IfOk result (λ done. flat_map (λ reply. reply_line reply.job reply.text) done.replies ≡ replies_of jobs.now) }
{
    let _count = jobs.count();
    let numbers = lane_numbers(alloc, jobs)?;
    let (set, mut desks) = LaneSet::<L>::make(alloc, &numbers, hands)?;
    let Some(own) = desks.pop() else {
        unreachable!()
    };
    let runs = run_beside(
        rt,
        alloc,
        jobs,
        set.lanes(),
        &numbers,
        hands,
        batch,
        desks,
        gate,
    )?;
    let stopped = any_stopped(&runs);
    let (mut desks, mut replies) = taken_apart(alloc, runs)?;
    desks.push(own)?;
    sort_replies(&mut replies);
    let books = set.close(desks);

    // By the books each hand's operations on a lane are too few to spend its allowance.
    if stopped {
        unreachable!()
    }
    Ok(Done {
        replies: Items::from(replies),
        books: Items::from(books),
    })
}
