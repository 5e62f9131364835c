// Which operations of a batch are enqueues.
ghost use Rattle.std.specs.Prelude.{◌≡◌, ◌<◌, ◌≤◌, ◌+◌, ◌*◌, List, length, slice_get, Some, ℕ};
ghost use Rattle.bq_model.specs.declared.op.Op.{Op};
ghost use Rattle.excess_count.specs.Excess.{is_enqueue};
ghost use Rattle.word_rows.specs.Order.{order_word_of, enqueue_bits};

use bq_model::Op;

/// A word has a bit for so many operations.
const WORD_OPS: usize = 64;

/// The word with a bit for each of the operations from `64 * word` on, set where it is an enqueue.
pub fn order_word(ops: &[Op], word: u32) -> u64
    ensures { result ≡ order_word_of ops.now word }
{
    let start = ops.len().min(WORD_OPS * word as usize);
    let end = ops.len().min(start + WORD_OPS);
    bits(&ops[start..end])
}

/// The bits of these operations, the lowest for the first.
fn bits(ops: &[Op]) -> u64
    requires { length ops.now ≤ 64 }
    ensures { result ≡ enqueue_bits ops.now }
{
    let mut bits = 0;
    for (k, op) in ops.iter().enumerate() {
        bits |= u64::from(is_enqueue(*op)) << k;
    }
    bits
}

/// Whether the operation is an enqueue.
fn is_enqueue(op: Op) -> bool
    ensures { result ≡ is_enqueue op }
{
    matches!(op, Op::Enq(_))
}

/// Whether operation `64 * word + k` of a batch is an enqueue, by the order word of this number.
pub fn is_enqueue_in(order: u64, k: u32) -> bool
    requires { k < 64 }
    ensures { (ops : List Op) (word : ℕ) (op : Op) → order ≡ order_word_of ops word
        → slice_get ops (64 * word + k) ≡ Some op → result ≡ is_enqueue op }
{
    order >> k & 1 == 1
}
