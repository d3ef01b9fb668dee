// Lists, as contracts see them.
ghost use Rattle.std.specs.Prelude.{◌≡◌, ◌-◌, ◌<◌, ◌≤◌, List, [], ◌∷◌, ◌++◌, length, take, drop, slice_get, option_copied, option_to_list, IfOk, IsSome, IsTrue, OnErr, OnOk, ◌↔◌};
ghost use Rattle.std.specs.Borrow.{sem};
ghost use Rattle.p4x_bits.specs.Lending.{LendsItems};

use crate::OutOfMemory;
use std::alloc::Global;
use std::marker::Model;

/// A list of rows in order. Contracts see the list of them.
#[derive(Drop)]
pub struct Rows<T> {
    items: Vec<T>,
}

/// Octets in order.
pub type Octets = Rows<u8>;

/// Whole numbers below 2^128 in order.
pub type Numbers = Rows<u128>;

/// The octets of a name.
pub type Text = Rows<u8>;

impl<T> Model for Rows<T> {
    ghost use Rattle.std.specs.Prelude.{List};

    ghost Value = { List T };

    ghost view = { λ rows. rows.items.items };
}

impl<T> Rows<T> {
    /// An empty list. It takes no memory until the first push.
    pub fn new(alloc: Global) -> Self
        ensures { result ≡ [] }
    {
        Rows {
            items: Vec::new(alloc),
        }
    }

    /// An empty list with room for so many items, or want of memory.
    pub fn with_capacity(alloc: Global, capacity: usize) -> Result<Self, OutOfMemory>
        ensures { IfOk result (λ list. list ≡ []) }
    {
        Ok(Rows {
            items: Vec::with_capacity(alloc, capacity)?,
        })
    }

    /// The list of the items of a vector. It takes no memory.
    pub fn from_vec(items: Vec<T>) -> Self
        ensures { result ≡ items.items }
    {
        Rows { items }
    }

    /// The items as a vector. It takes no memory.
    pub fn into_vec(self) -> Vec<T>
        ensures { result.items ≡ self }
    {
        self.items
    }

    /// The items in order.
    pub fn as_slice(&self) -> &[T]
        ensures { result.now ≡ self.now }
    {
        &self.items
    }

    /// The items in order, for writing. The list ends as what is written there.
    pub fn as_mut_slice(&mut self) -> &mut [T]
        ensures* writes_back { sem 𝓛 (LendsItems T.row self.entry result) }
        ensures value { result.now ≡ self.old }
    {
        self.items.as_mut_slice()
    }

    /// The item at a place, or none where the list is no longer than that.
    pub fn get(&self, index: usize) -> Option<&T>
        ensures { option_copied result ≡ slice_get self.now index }
    {
        self.items.get(index)
    }

    /// The first item, or none of an empty list.
    pub fn first(&self) -> Option<&T>
        ensures { option_copied result ≡ slice_get self.now 0 }
    {
        self.items.first()
    }

    /// The last item, or none of an empty list.
    pub fn last(&self) -> Option<&T>
        ensures { option_copied result ≡ slice_get self.now (length self.now - 1) }
    {
        self.items.last()
    }

    /// How many items there are.
    pub fn len(&self) -> usize
        ensures { result ≡ length self.now }
    {
        self.items.len()
    }

    /// Whether there is no item.
    pub fn is_empty(&self) -> bool
        ensures { IsTrue result ↔ (self.now ≡ []) }
    {
        self.items.is_empty()
    }

    /// Takes the last item away and gives it, or none of an empty list.
    pub fn pop(&mut self) -> Option<T>
        ensures items { self.old ≡ self.new ++ option_to_list result }
        ensures some { IsSome result ↔ (0 < length self.old) }
    {
        self.items.pop()
    }

    /// Makes room for so many items more. The list stays as it was, for want of memory too.
    pub fn reserve(&mut self, additional: usize) -> Result<(), OutOfMemory>
        ensures { self.new ≡ self.old }
    {
        self.items.reserve(additional)?;
        Ok(())
    }

    /// Moves the items of another list to the end, and leaves that list empty. For want of memory both stay as they were.
    pub fn append(&mut self, more: &mut Rows<T>) -> Result<(), OutOfMemory>
        ensures ok { OnOk result (self.new ≡ self.old ++ more.old) }
        ensures emptied { OnOk result (more.new ≡ []) }
        ensures err { OnErr result (self.new ≡ self.old) }
        ensures kept { OnErr result (more.new ≡ more.old) }
    {
        self.items.append(&mut more.items)?;
        Ok(())
    }
}

// What lets go of items.
impl<T: Drop> Rows<T> {
    /// Puts one item at the end. For want of memory the list stays as it was, and the item is let go.
    pub fn push(&mut self, item: T) -> Result<(), OutOfMemory>
        ensures ok { OnOk result (self.new ≡ self.old ++ item ∷ []) }
        ensures err { OnErr result (self.new ≡ self.old) }
    {
        self.items.push(item)?;
        Ok(())
    }

    /// Lets go of every item. The room for them stays.
    pub fn clear(&mut self)
        ensures { self.new ≡ [] }
    {
        self.items.clear();
    }

    /// Lets go of every item but the first `len`. A list that is no longer stays as it was.
    pub fn truncate(&mut self, len: usize)
        ensures { self.new ≡ take len self.old }
    {
        self.items.truncate(len);
    }

    /// Puts one item before the item at a place, or at the end where the place is the length of the list. For want of
    /// memory the list stays as it was, and the item is let go.
    pub fn insert(&mut self, index: usize, item: T) -> Result<(), OutOfMemory>
        requires { index ≤ length self.old }
        ensures ok { OnOk result (self.new ≡ take index self.old ++ item ∷ drop index self.old) }
        ensures err { OnErr result (self.new ≡ self.old) }
    {
        self.items.insert(index, item)?;
        Ok(())
    }
}

impl<T: Copy> Rows<T> {
    /// A list of the items of a slice, or want of memory.
    pub fn from_slice(alloc: Global, items: &[T]) -> Result<Self, OutOfMemory>
        ensures { IfOk result (λ list. list ≡ items.now) }
    {
        Ok(Rows {
            items: Vec::from_slice(alloc, items)?,
        })
    }

    /// Puts the items of a slice at the end. For want of memory the list stays as it was.
    pub fn extend_from_slice(&mut self, items: &[T]) -> Result<(), OutOfMemory>
        ensures ok { OnOk result (self.new ≡ self.old ++ items.now) }
        ensures err { OnErr result (self.new ≡ self.old) }
    {
        self.items.extend_from_slice(items)?;
        Ok(())
    }
}
