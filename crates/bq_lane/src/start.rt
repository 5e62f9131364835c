// What a command begins with: the values that it enqueues are laid out, and nothing is taken or read.
ghost use Rattle.std.specs.Prelude.{◌≡◌, ℕ, ◌++◌, ◌+◌, ◌^◌, ◌<◌, ◌≤◌, List, [], ◌∷◌, length, get_or, vec_len, vec_capacity};
ghost use Rattle.bq_model.specs.declared.op.Op.{Op};
ghost use Rattle.bq_model.specs.Values.{enqueued};
ghost use Rattle.lane_steps.specs.State.{Caller};
ghost use Rattle.lane_course.specs.Scratch.{keeping, SameRoom};

use bq_model::Op;
use lane_course::Scratch;

// Appends the value that the operation enqueues, if any.
fn put_value(puts: &mut Vec<u64>, op: Op)
    requires { vec_len puts.old < vec_capacity puts.old }
    ensures puts { puts.new.items ≡ puts.old.items ++ enqueued (op ∷ []) }
    ensures words { ((j : ℕ) → get_or puts.old.items j 0 < 2 ^ 64) → (j : ℕ) → get_or puts.new.items j 0 < 2 ^ 64 }
    ensures capacity { vec_capacity puts.new ≡ vec_capacity puts.old }
    ensures one_at_most { vec_len puts.new ≤ vec_len puts.old + 1 }
{
    match op {
        Op::Enq(value) => puts.push_reserved(value),
        Op::Deq | Op::Shut => {}
    }
}

// Lays out the values that the operations enqueue, in order, in place of what was there.
fn fill_puts(puts: &mut Vec<u64>, ops: &[Op])
    requires { length ops.now ≤ vec_capacity puts.old }
    ensures puts { puts.new.items ≡ enqueued ops.now }
    ensures words { (j : ℕ) → get_or puts.new.items j 0 < 2 ^ 64 }
    ensures capacity { vec_capacity puts.new ≡ vec_capacity puts.old }
{
    puts.clear();
    for op in ops {
        put_value(puts, *op);
    }
}

/// Lays out what a command of these operations has at hand as it begins.
pub fn lay_out(scratch: &mut Scratch, ops: &[Op])
    requires { length ops.now ≤ vec_capacity scratch.old.puts }
    ensures puts { scratch.new.puts.items ≡ enqueued ops.now }
    ensures words { (j : ℕ) → get_or scratch.new.puts.items j 0 < 2 ^ 64 }
    ensures nothing_taken { (k : Caller) → keeping k scratch.new ≡ record (keeping k scratch.old) { rows = []; values = []; walked = [] } }
    ensures room { SameRoom scratch.old scratch.new }
{
    fill_puts(&mut scratch.puts, ops);
    scratch.rows.clear();
    scratch.values.clear();
    scratch.walked.clear();
}

/// Lays out what a command at hand has that enqueues nothing, as it begins.
pub fn lay_out_nothing(scratch: &mut Scratch)
    ensures puts { scratch.new.puts.items ≡ [] }
    ensures nothing_taken { (k : Caller) → keeping k scratch.new ≡ record (keeping k scratch.old) { rows = []; values = []; walked = [] } }
    ensures room { SameRoom scratch.old scratch.new }
{
    scratch.puts.clear();
    scratch.rows.clear();
    scratch.values.clear();
    scratch.walked.clear();
}
