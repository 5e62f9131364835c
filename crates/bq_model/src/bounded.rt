// A list that takes no memory after it was made: it never outgrows its capacity, and that is reserved.
ghost use Rattle.std.specs.Prelude.{◌≡◌, ◌^◌, ◌<◌, ◌≤◌, ◌↔◌, [], ◌∷◌, ◌++◌, length, IsTrue, IfOk, IfSome, IsNone, IfNone, Some, slice_get};

use crate::error::OutOfMemory;
use crate::op::Answer;
use std::alloc::Global;
use std::marker::Model;

/// A list of at most a given number of items.
#[derive(Debug, Drop)]
pub struct Bounded<T> {
    items: Vec<T>,
    capacity: u32,
}

/// The answers to a batch, in the order of its operations.
pub type Answers = Bounded<Answer>;

impl<T> Model for Bounded<T> {
    ghost use Rattle.std.specs.Prelude.{◌^◌, ◌<◌, ◌≤◌};
    ghost use Rattle.std.specs.Vec.{vec_len, vec_capacity};
    ghost use Rattle.bq_model.specs.Bounded.{BoundedList};

    ghost Value = { BoundedList T };

    ghost view = { λ l. record { items = l.items.items; capacity = l.capacity } };

    ghost invariant = { λ l. (vec_len l.items ≤ l.capacity) × (l.capacity ≤ vec_capacity l.items) × (l.capacity < 2 ^ 32) };
}

impl<T> Bounded<T> {
    /// An empty list. It takes all memory that it ever needs.
    pub fn new(alloc: Global, capacity: u32) -> Result<Self, OutOfMemory>
        ensures empty { IfOk result (λ list. list.items ≡ []) }
        ensures capacity { IfOk result (λ list. list.capacity ≡ capacity) }
    {
        Ok(Bounded {
            items: Vec::with_capacity(alloc, capacity as usize)?,
            capacity,
        })
    }

    /// The items, first to last.
    pub fn as_slice(&self) -> &[T]
        ensures items { result.now ≡ self.now.items }
        ensures within_capacity { length result.now ≤ self.now.capacity }
        ensures capacity_is_a_u32 { self.now.capacity < 2 ^ 32 }
    {
        self.items.as_slice()
    }

    /// How many items there are.
    pub fn len(&self) -> u32
        ensures items { result ≡ length self.now.items }
        ensures within_capacity { result ≤ self.now.capacity }
    {
        self.items.len() as u32
    }

    /// Whether there is no item.
    pub fn is_empty(&self) -> bool
        ensures { IsTrue result ↔ (self.now.items ≡ []) }
    {
        self.items.is_empty()
    }

    /// Appends an item.
    pub fn push(&mut self, item: T)
        requires { length self.old.items < self.old.capacity }
        ensures appended { self.new.items ≡ self.old.items ++ item ∷ [] }
        ensures capacity_stays { self.new.capacity ≡ self.old.capacity }
    {
        self.items.push_reserved(item);
    }

    /// Takes out the last item, if there is one.
    pub fn pop(&mut self) -> Option<T>
        ensures none_where_empty { IsNone result ↔ (self.old.items ≡ []) }
        ensures last { IfSome result (λ item. self.old.items ≡ self.new.items ++ item ∷ []) }
        ensures none_changes_nothing { IfNone result (self.new.items ≡ self.old.items) }
        ensures capacity_stays { self.new.capacity ≡ self.old.capacity }
    {
        self.items.pop()
    }

    /// Lets all items go.
    pub fn clear(&mut self)
    where
        T: Drop,
        ensures empty { self.new.items ≡ [] }
        ensures capacity_stays { self.new.capacity ≡ self.old.capacity }
    {
        self.items.clear();
    }
}

impl<T: Copy> Bounded<T> {
    /// Item k, counted from 0.
    pub fn get(&self, k: u32) -> T
        requires { k < length self.now.items }
        ensures { slice_get self.now.items k ≡ Some result }
    {
        self.items[k as usize]
    }
}

#[cfg(test)]
mod tests {
    use super::*;
    use std::test::Fail;

    #[test]
    fn answers_come_back_in_order(rt: HostRuntime) -> Result<(), Fail> {
        let mut answers = Answers::new(rt.alloc(), 3)?;
        answers.push(Answer::Got(7));
        answers.push(Answer::Done);
        answers.push(Answer::Empty);
        assert_eq!(rt; answers.get(0), Answer::Got(7));
        assert_eq!(rt;
            answers.as_slice(),
            [Answer::Got(7), Answer::Done, Answer::Empty].as_slice()
        );
        assert_eq!(rt; answers.pop(), Some(Answer::Empty));
        assert_eq!(rt; answers.len(), 2);
        Ok(())
    }
}
