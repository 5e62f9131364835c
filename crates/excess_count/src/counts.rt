// The counts of a batch, which say all that its successes depend on.
ghost use Rattle.std.specs.Prelude.{◌≡◌, ◌≢◌, ℕ, ◌+◌, ◌^◌, ◌<◌, ◌≤◌, true, List, [], ◌∷◌, ◌++◌, length, drop};
ghost use Rattle.bq_model.specs.declared.op.Op.{Op};
ghost use Rattle.bq_model.specs.NoShut.{NoShut};
ghost use Rattle.bq_model.specs.Queue.{unshut, queue_of};
ghost use Rattle.bq_model.specs.Replay.{answers_from, queue_from};
ghost use Rattle.excess_count.specs.Excess.{IsExcess};
ghost use Rattle.excess_count.specs.Got.{got_count, values_from};
ghost use Rattle.excess_count.specs.Counts.{counts_of, successes_of, successes_shut_of, with_one_more};

use bq_model::{Batch, Op};

/// What is counted of the operations of a batch.
#[derive(Clone, Copy, Debug, PartialEq, Eq, Hash)]
pub struct Counts {
    /// How many enqueues there are.
    pub enqs: u32,
    /// How many dequeues there are.
    pub deqs: u32,
    /// The greatest value of dequeues minus enqueues over the prefixes of the batch, the empty one included.
    pub excess: u32,
}

impl Counts {
    /// The counts of no operation.
    pub fn empty() -> Counts
        ensures counts_of_no_operation { result ≡ counts_of [] }
        ensures all_are_zero { result ≡ record { enqs = 0; deqs = 0; excess = 0 } }
    {
        Counts {
            enqs: 0,
            deqs: 0,
            excess: 0,
        }
    }

    /// The counts of a batch, in one pass.
    pub fn of(batch: &Batch) -> Counts
        requires { NoShut batch.now.items }
        ensures counts_of_the_batch { result ≡ counts_of batch.now.items }
        ensures excess_is_the_greatest { IsExcess batch.now.items result.excess }
        ensures excess_within_dequeues { result.excess ≤ result.deqs }
        ensures every_operation_is_counted { result.enqs + result.deqs ≡ length batch.now.items }
    {
        count(batch.as_slice())
    }

    /// Counts one operation more, behind those so far.
    pub fn add(&mut self, op: Op)
        requires room { self.old.enqs + self.old.deqs < u32.MAX }
        requires no_shut { op ≢ Op.Shut }
        ensures the_three_numbers { self.new ≡ with_one_more self.old op }
        ensures counts_one_more { (ops : List Op) → self.old ≡ counts_of ops → self.new ≡ counts_of (ops ++ op ∷ []) }
        ensures excess_stays_within_dequeues { self.old.excess ≤ self.old.deqs → self.new.excess ≤ self.new.deqs }
        ensures the_operation_is_counted { self.new.enqs + self.new.deqs ≡ self.old.enqs + self.old.deqs + 1 }
    {
        match op {
            Op::Enq(_) => self.enqs += 1,
            Op::Deq => self.deqs += 1,
            Op::Shut => unreachable!(),
        }
        self.excess = self.excess.max(self.deqs.saturating_sub(self.enqs));
    }
}

/// The counts of these operations, in one pass.
pub fn count(ops: &[Op]) -> Counts
    requires not_too_long { length ops.now < 2 ^ 32 }
    requires no_shut { NoShut ops.now }
    ensures counts_of_the_batch { result ≡ counts_of ops.now }
    ensures excess_is_the_greatest { IsExcess ops.now result.excess }
    ensures excess_within_dequeues { result.excess ≤ result.deqs }
    ensures every_operation_is_counted { result.enqs + result.deqs ≡ length ops.now }
{
    let mut counts = Counts::empty();
    for op in ops {
        counts.add(*op);
    }
    counts
}

/// How many dequeues of a batch with these counts get a value, on a queue of n values that isn't shut.
pub fn successes(counts: &Counts, n: u64) -> u32
    requires { counts.now.excess ≤ counts.now.deqs }
    ensures by_counting { result ≡ successes_of counts.now n }
    ensures as_many_as_the_replay_gets { (ops : List Op) (q : List ℕ) → NoShut ops → counts.now ≡ counts_of ops
        → length q ≡ n → got_count (answers_from (unshut q) ops) ≡ result }
    ensures the_last_queue_lacks_as_many { (ops : List Op) (q : List ℕ) → NoShut ops → counts.now ≡ counts_of ops
        → length q ≡ n → queue_from (unshut q) ops ≡ unshut (drop result (values_from q ops)) }
{
    let missing = u64::from(counts.excess).saturating_sub(n) as u32;
    counts.deqs - missing
}

/// How many dequeues of a batch with these counts get a value, on a queue of n values that was shut.
pub fn successes_shut(counts: &Counts, n: u64) -> u32
    ensures by_counting { result ≡ successes_shut_of counts.now n }
    ensures as_many_as_the_replay_gets { (ops : List Op) (q : List ℕ) → counts.now ≡ counts_of ops
        → length q ≡ n → got_count (answers_from (queue_of q true) ops) ≡ result }
    ensures the_last_queue_lacks_as_many { (ops : List Op) (q : List ℕ) → counts.now ≡ counts_of ops
        → length q ≡ n → queue_from (queue_of q true) ops ≡ queue_of (drop result q) true }
{
    u64::from(counts.deqs).min(n) as u32
}
