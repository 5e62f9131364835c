// Whether batches stay whole.
ghost use Rattle.std.specs.Prelude.{◌≡◌, IfOk};
ghost use Rattle.std.specs.Bool.{Decides};
ghost use Rattle.trace_conditions.specs.Conditions.{IsWhole, batch_of};

use crate::stamped::Stamped;
use bq_model::OutOfMemory;
use std::alloc::Global;
use std::collections::BTreeSet;

// The batch that an operation was evaluated with: its caller's, with the stamp of the evaluation.
fn batch_of(op: &Stamped) -> Option<(u32, u64)>
    ensures { result ≡ batch_of op.now }
{
    op.evaluated.map(|evaluated| (op.caller, evaluated))
}

fn is_same(one: Option<(u32, u64)>, other: Option<(u32, u64)>) -> bool
    ensures { Decides result (one ≡ other) }
{
    one == other
}

/// Whether the operations of one caller with one evaluation stand one after another. It takes n log n steps for n operations.
pub fn is_whole(alloc: Global, ops: &[Stamped]) -> Result<bool, OutOfMemory>
    ensures { IfOk result (λ whole. Decides whole (IsWhole ops.now)) }
{
    let mut begun: BTreeSet<(u32, u64)> = BTreeSet::new(alloc);
    let mut last: Option<(u32, u64)> = None;
    for op in ops {
        let batch = batch_of(op);
        if !is_same(batch, last) {
            match batch {
                Some(batch) => {
                    if begun.contains(&batch) {
                        return Ok(false);
                    }
                    begun.insert(batch)?;
                }
                None => {}
            }
            last = batch;
        }
    }
    Ok(true)
}
