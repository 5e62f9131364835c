// Operations and answers as C has them.
ghost use Rattle.std.specs.Prelude.{◌≡◌, ◌<◌, ◌≤◌, ◌++◌, ◌↔◌, [], ◌∷◌, true, length, map, All};
ghost use Rattle.bq_model.specs.NoShut.{NoShut};
ghost use Rattle.bq_c.specs.Crossing.{IsKnown, op_of, crossed_answer};

use bq_model::{Answer, Batch, Op};

/// The kind of an operation that appends its value.
const ENQUEUE: u32 = 1;
/// The kind of an operation that takes the first value.
const DEQUEUE: u32 = 2;

/// An operation. The value is read of an enqueue alone.
#[repr(C)]
#[derive(Clone, Copy)]
pub struct BqOp {
    pub kind: u32,
    pub value: u64,
}

/// The kind of an answer to an enqueue.
const MADE: u32 = 0;
/// The kind of an answer with the value that a dequeue took.
const GOT: u32 = 1;
/// The kind of an answer to a dequeue that found no value.
const NOTHING: u32 = 2;
/// The kind of an answer to an enqueue that found the queue shut.
const REFUSED: u32 = 3;

/// An answer. It has a value where a dequeue took one, and else 0.
#[repr(C)]
#[derive(Clone, Copy)]
pub struct BqAnswer {
    pub kind: u32,
    pub value: u64,
}

// Appends the operation. Whether its kind is known.
fn put(batch: &mut Batch, op: BqOp) -> bool
    requires room { length batch.old.items < batch.old.capacity }
    requires no_shut { NoShut batch.old.items }
    ensures known { (result ≡ true) ↔ IsKnown op }
    ensures appended { result ≡ true → batch.new.items ≡ batch.old.items ++ op_of op ∷ [] }
    ensures capacity { batch.new.capacity ≡ batch.old.capacity }
{
    if op.kind == ENQUEUE {
        batch.push(Op::Enq(op.value));
        return true;
    }
    if op.kind == DEQUEUE {
        batch.push(Op::Deq);
        return true;
    }
    false
}

/// Lays out the operations as a batch, in place of what it had. Whether each has a kind that is known.
pub fn lay_out(batch: &mut Batch, ops: &[BqOp]) -> bool
    requires room { length ops.now ≤ batch.old.capacity }
    ensures known { (result ≡ true) ↔ All IsKnown ops.now }
    ensures ops { result ≡ true → batch.new.items ≡ map op_of ops.now }
    ensures capacity { batch.new.capacity ≡ batch.old.capacity }
{
    batch.clear();
    for op in ops {
        if !put(batch, *op) {
            return false;
        }
    }
    true
}

// The answer as C has it.
fn crossed(answer: Answer) -> BqAnswer
    ensures { result ≡ crossed_answer answer }
{
    match answer {
        Answer::Done => BqAnswer {
            kind: MADE,
            value: 0,
        },
        Answer::Got(value) => BqAnswer { kind: GOT, value },
        Answer::Empty => BqAnswer {
            kind: NOTHING,
            value: 0,
        },
        Answer::Refused => BqAnswer {
            kind: REFUSED,
            value: 0,
        },
    }
}

/// Writes the answers, each in its place.
pub fn hand_out(answers: &[Answer], out: &mut [BqAnswer])
    requires { length out.old ≡ length answers.now }
    ensures { out.new ≡ map crossed_answer answers.now }
{
    for k in 0..answers.len() {
        out[k] = crossed(answers[k]);
    }
}
