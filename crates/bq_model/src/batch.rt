// The operations of one call. A Shut stands alone, so beside other operations there is none.
ghost use Rattle.std.specs.Prelude.{◌≡◌, ◌^◌, ◌<◌, ◌≤◌, ◌↔◌, [], ◌∷◌, ◌++◌, length, IsTrue, IfOk, IfSome, IsNone, IfNone, Some, slice_get};
ghost use Rattle.bq_model.specs.NoShut.{NoShut};

use crate::bounded::Bounded;
use crate::error::OutOfMemory;
use crate::op::Op;
use std::alloc::Global;
use std::marker::Model;

/// Operations that a caller wants to take effect together, first to last: a Shut alone, or enqueues and dequeues.
#[derive(Debug, Drop)]
pub struct Batch {
    ops: Bounded<Op>,
}

impl Model for Batch {
    ghost use Rattle.bq_model.specs.declared.op.Op.{Op};
    ghost use Rattle.bq_model.specs.Bounded.{BoundedList};
    ghost use Rattle.bq_model.specs.NoShut.{ShutAlone};

    ghost Value = { BoundedList Op };

    ghost view = { λ b. b.ops };

    ghost invariant = { λ b. ShutAlone b.ops.items };
}

impl Batch {
    /// An empty batch. It takes all memory that it ever needs.
    pub fn new(alloc: Global, capacity: u32) -> Result<Batch, OutOfMemory>
        ensures empty { IfOk result (λ batch. batch.items ≡ []) }
        ensures capacity { IfOk result (λ batch. batch.capacity ≡ capacity) }
    {
        Ok(Batch {
            ops: Bounded::new(alloc, capacity)?,
        })
    }

    /// The operations, first to last.
    pub fn as_slice(&self) -> &[Op]
        ensures items { result.now ≡ self.now.items }
        ensures within_capacity { length result.now ≤ self.now.capacity }
        ensures capacity_is_a_u32 { self.now.capacity < 2 ^ 32 }
    {
        self.ops.as_slice()
    }

    /// How many operations there are.
    pub fn len(&self) -> u32
        ensures items { result ≡ length self.now.items }
        ensures within_capacity { result ≤ self.now.capacity }
    {
        self.ops.len()
    }

    /// Whether there is no operation.
    pub fn is_empty(&self) -> bool
        ensures { IsTrue result ↔ (self.now.items ≡ []) }
    {
        self.ops.is_empty()
    }

    /// Appends an operation: a Shut only to the empty batch, and nothing to a Shut.
    pub fn push(&mut self, op: Op)
        requires room { length self.old.items < self.old.capacity }
        requires nothing_after_a_shut { NoShut self.old.items }
        requires nothing_before_a_shut { op ≡ Op.Shut → self.old.items ≡ [] }
        ensures appended { self.new.items ≡ self.old.items ++ op ∷ [] }
        ensures capacity_stays { self.new.capacity ≡ self.old.capacity }
    {
        self.ops.push(op);
    }

    /// Takes out the last operation, if there is one.
    pub fn pop(&mut self) -> Option<Op>
        ensures none_where_empty { IsNone result ↔ (self.old.items ≡ []) }
        ensures last { IfSome result (λ op. self.old.items ≡ self.new.items ++ op ∷ []) }
        ensures none_changes_nothing { IfNone result (self.new.items ≡ self.old.items) }
        ensures capacity_stays { self.new.capacity ≡ self.old.capacity }
    {
        self.ops.pop()
    }

    /// Lets all operations go.
    pub fn clear(&mut self)
        ensures empty { self.new.items ≡ [] }
        ensures capacity_stays { self.new.capacity ≡ self.old.capacity }
    {
        self.ops.clear();
    }

    /// Operation k, counted from 0.
    pub fn get(&self, k: u32) -> Op
        requires { k < length self.now.items }
        ensures { slice_get self.now.items k ≡ Some result }
    {
        self.ops.get(k)
    }
}

#[cfg(test)]
mod tests {
    use super::*;
    use std::test::Fail;

    #[test]
    fn batches_give_back_what_was_pushed_last(rt: HostRuntime) -> Result<(), Fail> {
        let mut batch = Batch::new(rt.alloc(), 2)?;
        assert!(rt; batch.is_empty());
        assert_eq!(rt; batch.pop(), None);
        batch.push(Op::Enq(8));
        batch.push(Op::Deq);
        assert_eq!(rt; batch.len(), 2);
        assert_eq!(rt; (batch.get(0), batch.get(1)), (Op::Enq(8), Op::Deq));
        assert_eq!(rt; batch.pop(), Some(Op::Deq));
        batch.push(Op::Enq(9));
        assert_eq!(rt; batch.as_slice(), [Op::Enq(8), Op::Enq(9)].as_slice());
        batch.clear();
        assert_eq!(rt; batch.len(), 0);
        Ok(())
    }

    #[test]
    fn a_shut_is_a_batch_by_itself(rt: HostRuntime) -> Result<(), Fail> {
        let mut batch = Batch::new(rt.alloc(), 2)?;
        batch.push(Op::Shut);
        assert_eq!(rt; batch.as_slice(), [Op::Shut].as_slice());
        batch.clear();
        batch.push(Op::Deq);
        batch.push(Op::Enq(1));
        assert_eq!(rt; batch.as_slice(), [Op::Deq, Op::Enq(1)].as_slice());
        Ok(())
    }
}
