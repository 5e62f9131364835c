// The judge of a history.
ghost use Rattle.std.specs.Prelude.{◌≡◌, ◌+◌, ◌<◌, ◌≤◌, ◌^◌, ℕ, true, slice_index_or, map, IfOk, OnOk};
ghost use Rattle.bq_model.specs.Queue.{queue_after, answer_at_queue};
ghost use Rattle.bq_model.specs.Replay.{queue_from};
ghost use Rattle.trace_text.specs.Judging.{is_right_now, after_entry, are_right};
ghost use Rattle.trace_text.specs.HistoryText.{operation_count, most_operations};
ghost use Rattle.trace_text.specs.Verdicts.{same_answer, verdict_of};

use crate::claim::{Claim, Entry};
use crate::fifo::Fifo;
use bq_model::OutOfMemory;
use std::alloc::Global;
use std::marker::Model;

/// What is found of a history.
#[derive(Clone, Copy, Debug, PartialEq, Eq)]
pub enum Verdict {
    /// Each answer is what a single thread's queue gives.
    Legal {
        /// How many groups there are.
        groups: u64,
        /// How many operations they have.
        operations: u64,
    },
    /// A group is wrong.
    Illegal {
        /// The number of the first line with such a group.
        line: u32,
    },
}

// The queue that the entries so far leave, and how many groups each caller has made.
#[derive(Drop)]
struct Judge {
    queue: Fifo,
    made: Vec<u64>,
}

impl Model for Judge {
    ghost use Rattle.trace_text.specs.Judging.{Judging};

    ghost Value = { Judging };

    ghost view = { λ j. record { queue = j.queue; made = j.made.items } };
}

impl Judge {
    // Whether the entry is right. It is judged then.
    fn takes(&mut self, entry: &Entry) -> Result<bool, OutOfMemory>
        requires { (c : ℕ) → slice_index_or self.old.made c 0 + 1 < 2 ^ 64 }
        ensures right { IfOk result (λ right. right ≡ is_right_now self.old entry.now) }
        ensures after { IfOk result (λ right. right ≡ true → self.new ≡ after_entry self.old entry.now) }
    {
        if entry.caller >= self.made.len() as u64 {
            return Ok(false);
        }
        let caller = entry.caller as usize;
        if self.made[caller] != entry.batch {
            return Ok(false);
        }
        self.made[caller] = entry.batch + 1;
        are_right(&mut self.queue, entry.claims.as_slice())
    }
}

// Whether each answer is the queue's.
fn are_right(queue: &mut Fifo, claims: &[Claim]) -> Result<bool, OutOfMemory>
    ensures right { IfOk result (λ right. right ≡ are_right queue.old claims.now) }
    ensures queue { IfOk result (λ right. right ≡ true → queue.new ≡ queue_from queue.old (map (λ c. c.op) claims.now)) }
{
    for claim in claims {
        if !is_right(queue, *claim)? {
            return Ok(false);
        }
    }
    Ok(true)
}

fn is_right(queue: &mut Fifo, claim: Claim) -> Result<bool, OutOfMemory>
    ensures right { IfOk result (λ right. right ≡ same_answer claim.answer (answer_at_queue queue.old claim.op)) }
    ensures queue { OnOk result (queue.new ≡ queue_after queue.old claim.op) }
{
    Ok(claim.answer == queue.make(claim.op)?)
}

/// Judges the entries of a history of so many callers. It takes time in proportion to its entries and their claims.
pub(crate) fn judged(alloc: Global, callers: u32, entries: &[Entry]) -> Result<Verdict, OutOfMemory>
    requires { operation_count entries.now ≤ most_operations }
    ensures { IfOk result (λ verdict. verdict ≡ verdict_of (record { callers = callers; entries = entries.now })) }
{
    let mut judge = Judge {
        queue: Fifo::new(alloc),
        made: vec![in alloc; 0; callers as usize]?,
    };
    let mut operations = 0;
    for entry in entries {
        if !judge.takes(entry)? {
            return Ok(Verdict::Illegal { line: entry.line });
        }
        operations += entry.claims.len() as u64;
    }
    Ok(Verdict::Legal {
        groups: entries.len() as u64,
        operations,
    })
}
