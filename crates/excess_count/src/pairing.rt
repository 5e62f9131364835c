// The answers of a whole batch from the values that it gets, in one pass.
ghost use Rattle.std.specs.Prelude.{◌≡◌, ℕ, ◌≤◌, ◌<◌, ◌+◌, ◌^◌, min, true, List, ◌∷◌, length, drop, take, slice_get, slice_index, Some};
ghost use Rattle.bq_model.specs.declared.op.Op.{Op};
ghost use Rattle.bq_model.specs.declared.op.Answer.{Answer};
ghost use Rattle.bq_model.specs.NoShut.{NoShut};
ghost use Rattle.bq_model.specs.Queue.{unshut, queue_of};
ghost use Rattle.bq_model.specs.Replay.{answers_from};
ghost use Rattle.excess_count.specs.Counts.{counts_of, successes_of};
ghost use Rattle.excess_count.specs.Excess.{dequeue_count};
ghost use Rattle.excess_count.specs.Got.{values_from};
ghost use Rattle.excess_count.specs.Pairing.{paired, paired_shut};

use bq_model::{Answer, Answers, Batch, Op};

/// How many values are queued before an operation, and how many of those that the batch gets went to earlier ones.
#[derive(Clone, Copy)]
struct Standing {
    queued: u64,
    got: usize,
}

/// Writes the answers of the whole batch on a queue of n values that isn't shut. `values` are those that its dequeues get: the
/// first ones of the queue, and where that is too short, of those that the batch enqueues. What `out` held goes.
pub fn answer_all(batch: &Batch, n: u64, values: &[u64], out: &mut Answers)
    requires no_shut { NoShut batch.now.items }
    requires as_many_values { length values.now ≡ successes_of (counts_of batch.now.items) n }
    requires room { length batch.now.items ≤ out.old.capacity }
    ensures answers { out.new.items ≡ paired batch.now.items n values.now }
    ensures answers_of_the_replay { (q : List ℕ) → length q ≡ n
        → values.now ≡ take (length values.now) (values_from q batch.now.items)
        → out.new.items ≡ answers_from (unshut q) batch.now.items }
    ensures one_answer_each { length out.new.items ≡ length batch.now.items }
    ensures capacity_stays { out.new.capacity ≡ out.old.capacity }
{
    pair(batch.as_slice(), n, values, out);
}

/// Writes the answers of operations before which so many values are queued. `values` are those that their dequeues get, in
/// order. What `out` held goes.
pub fn pair(ops: &[Op], queued: u64, values: &[u64], out: &mut Answers)
    requires { length ops.now ≤ out.old.capacity }
    ensures answers { out.new.items ≡ paired ops.now queued values.now }
    ensures capacity_stays { out.new.capacity ≡ out.old.capacity }
{
    out.clear();
    // More values than there are operations make no difference.
    let mut standing = Standing {
        queued: queued.min(ops.len() as u64),
        got: 0,
    };
    for op in ops {
        let answer = standing.answer(*op, values);
        out.push(answer);
    }
}

/// Writes the answers of operations on a queue that was shut, from which their dequeues get these values, in order, and
/// then none. What `out` held goes.
pub fn pair_shut(ops: &[Op], values: &[u64], out: &mut Answers)
    requires { length ops.now ≤ out.old.capacity }
    ensures answers { out.new.items ≡ paired_shut ops.now values.now }
    ensures answers_of_the_replay { (q : List ℕ) → values.now ≡ take (min (dequeue_count ops.now) (length q)) q
        → out.new.items ≡ answers_from (queue_of q true) ops.now }
    ensures enqueues_are_refused { (k v : ℕ) → slice_get ops.now k ≡ Some (Op.Enq v)
        → slice_get out.new.items k ≡ Some Answer.Refused }
    ensures capacity_stays { out.new.capacity ≡ out.old.capacity }
{
    out.clear();
    let mut left = values;
    for op in ops {
        let answer = match op {
            Op::Enq(_) => Answer::Refused,
            Op::Deq => {
                if let [value, rest @ ..] = left {
                    left = rest;
                    Answer::Got(*value)
                } else {
                    Answer::Empty
                }
            }
            Op::Shut => Answer::Done,
        };
        out.push(answer);
    }
}

impl Standing {
    // The answer of the next operation.
    fn answer(&mut self, op: Op, values: &[u64]) -> Answer
        requires queued { self.old.queued < 2 ^ 63 }
        requires got { self.old.got < 2 ^ 63 }
        ensures answers { (ops : List Op) → paired (op ∷ ops) self.old.queued (drop self.old.got values.now)
            ≡ result ∷ paired ops self.new.queued (drop self.new.got values.now) }
        ensures queued { self.new.queued ≤ self.old.queued + 1 }
        ensures got { self.new.got ≤ self.old.got + 1 }
    {
        match op {
            Op::Enq(_) => {
                self.queued += 1;
                Answer::Done
            }
            Op::Deq => {
                if self.queued == 0 {
                    Answer::Empty
                } else {
                    let value = value_at(values, self.got);
                    self.queued -= 1;
                    self.got += 1;
                    Answer::Got(value)
                }
            }
            Op::Shut => Answer::Done,
        }
    }
}

// The value at this index, 0 where there is none.
fn value_at(values: &[u64], index: usize) -> u64
    ensures { result ≡ slice_index values.now index }
{
    if index < values.len() {
        values[index]
    } else {
        0
    }
}
