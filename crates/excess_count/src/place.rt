// Which value of the queue a dequeue of a batch gets.
ghost use Rattle.std.specs.Prelude.{◌≡◌, ℕ, List, length, Some, slice_get};
ghost use Rattle.bq_model.specs.NoShut.{NoShut};
ghost use Rattle.excess_count.specs.Place.{Tells, TellsShut};

use crate::counts::{count, successes, successes_shut};
use bq_model::{Batch, Op};

/// What a dequeue of a batch gets.
#[derive(Clone, Copy, Debug, PartialEq, Eq, Hash)]
pub enum Which {
    /// The value in this place, counted from 1, among those of the queue and behind them those that the batch
    /// enqueues: the value of the row so many links after the old dummy.
    Stored(u32),
    /// No value.
    Nothing,
}

/// What operation k of the batch gets, counted from 0, on a queue of n values that isn't shut.
pub fn answer_at(batch: &Batch, n: u64, k: u32) -> Which
    requires no_shut { NoShut batch.now.items }
    requires dequeue { slice_get batch.now.items k ≡ Some Op.Deq }
    ensures tells_what_the_replay_answers { (q : List ℕ) → length q ≡ n → Tells result q batch.now.items k }
{
    let mut counts = count(&batch.as_slice()[..k as usize]);
    let before = successes(&counts, n);
    counts.add(Op::Deq);
    let got = successes(&counts, n);
    if before < got {
        Which::Stored(got)
    } else {
        Which::Nothing
    }
}

/// What operation k of the batch gets, counted from 0, on a queue of n values that was shut.
pub fn answer_at_shut(batch: &Batch, n: u64, k: u32) -> Which
    requires no_shut { NoShut batch.now.items }
    requires dequeue { slice_get batch.now.items k ≡ Some Op.Deq }
    ensures tells_what_the_replay_answers { (q : List ℕ) → length q ≡ n → TellsShut result q batch.now.items k }
{
    let place = count(&batch.as_slice()[..k as usize]).deqs + 1;
    if u64::from(place) <= n {
        Which::Stored(place)
    } else {
        Which::Nothing
    }
}
