// A list that contracts see as a list: of a `Vec`, its items alone, and neither its capacity nor where it lies.
ghost use Rattle.std.specs.Prelude.{◌≡◌, ◌↔◌, [], ◌∷◌, ◌++◌, length, IsTrue, OnOk, OnErr};
ghost use Rattle.std.specs.List.{flat_map};

use crate::error::OutOfMemory;
use crate::op::Op;
use std::alloc::Global;
use std::marker::Model;

/// A list that grows at its end.
#[derive(Debug, Drop)]
pub struct Items<T> {
    items: Vec<T>,
}

/// The bytes of a text.
pub type Text = Items<u8>;

/// Bytes of any meaning.
pub type Bytes = Items<u8>;

/// A list of numbers.
pub type Numbers = Items<u64>;

/// A list of texts.
pub type Texts = Items<Text>;

/// A list of operations, first to last.
pub type Ops = Items<Op>;

impl<T> Model for Items<T> {
    ghost use Rattle.std.specs.Prelude.{List};

    ghost Value = { List T };

    ghost view = { λ l. l.items.items };
}

impl<T> Items<T> {
    /// An empty list. It takes no memory.
    pub fn new(alloc: Global) -> Self
        ensures { result ≡ [] }
    {
        Items {
            items: Vec::new(alloc),
        }
    }

    /// The items, first to last.
    pub fn as_slice(&self) -> &[T]
        ensures { result.now ≡ self.now }
    {
        self.items.as_slice()
    }

    /// How many items there are.
    pub fn len(&self) -> usize
        ensures { result ≡ length self.now }
    {
        self.items.len()
    }

    /// Whether there is no item.
    pub fn is_empty(&self) -> bool
        ensures { IsTrue result ↔ (self.now ≡ []) }
    {
        self.items.is_empty()
    }

    /// Appends an item. Where memory is lacking, the list stays and the item is let go.
    pub fn push(&mut self, item: T) -> Result<(), OutOfMemory>
    where
        T: Drop,
        ensures ok { OnOk result (self.new ≡ self.old ++ item ∷ []) }
        ensures err { OnErr result (self.new ≡ self.old) }
    {
        self.items.push(item)?;
        Ok(())
    }
}

impl<T: Copy> Items<T> {
    /// Appends the parts, one after another. Where memory is lacking, it appends none of them.
    pub fn append_parts(&mut self, parts: &[&[T]]) -> Result<(), OutOfMemory>
        ensures ok { OnOk result (self.new ≡ self.old ++ flat_map (λ part. part.now) parts.now) }
        ensures err { OnErr result (self.new ≡ self.old) }
    {
        append_all(&mut self.items, parts)
    }
}

fn append_all<T: Copy>(items: &mut Vec<T>, parts: &[&[T]]) -> Result<(), OutOfMemory>
    ensures ok { OnOk result (items.new.items ≡ items.old.items ++ flat_map (λ part. part.now) parts.now) }
    ensures err { OnErr result (items.new.items ≡ items.old.items) }
{
    let start = items.len();
    for part in parts {
        if items.extend_from_slice(part).is_err() {
            items.truncate(start);
            return Err(OutOfMemory);
        }
    }
    Ok(())
}

impl<T> From<Vec<T>> for Items<T> {
    ghost from_gives = { λ items list. list ≡ items.items };

    fn from(items: Vec<T>) -> Self {
        Items { items }
    }
}

#[cfg(test)]
mod tests {
    use super::*;
    use std::test::Fail;

    #[test]
    fn lists_keep_their_items_in_order(rt: HostRuntime) -> Result<(), Fail> {
        let mut text = Text::new(rt.alloc());
        text.append_parts(&[b"0".as_slice(), b"".as_slice(), b" 5\n".as_slice()])?;
        text.push(b'!')?;
        assert_eq!(rt; text.as_slice(), b"0 5\n!".as_slice());
        let mut texts = Texts::new(rt.alloc());
        texts.push(text)?;
        assert_eq!(rt; texts.len(), 1);
        let mut numbers = Numbers::new(rt.alloc());
        assert!(rt; numbers.is_empty());
        numbers.push(u64::MAX)?;
        numbers.push(0)?;
        assert_eq!(rt; numbers.as_slice(), [u64::MAX, 0].as_slice());
        let mut ops = Ops::new(rt.alloc());
        ops.push(Op::Deq)?;
        ops.push(Op::Enq(3))?;
        assert_eq!(rt; ops.as_slice(), [Op::Deq, Op::Enq(3)].as_slice());
        Ok(())
    }
}
