// Stacks of what is built.
ghost use Rattle.std.specs.Prelude.{◌≡◌, List, [], ◌∷◌, reverse, OnErr, OnOk, MatchOption};
ghost use Rattle.predictive_parser.specs.Values.{newest, older, extended, extended_option};

use p4x_bits::{OutOfMemory, Rows};
use std::alloc::Global;
use std::marker::Model;

/// Values of one sort that are built, and not part of another yet. Contracts see the list of them, the newest first.
#[derive(Drop)]
pub struct ValueStack<T> {
    items: Vec<T>,
}

impl<T> Model for ValueStack<T> {
    ghost Value = { List T };

    ghost view = { λ stack. reverse stack.items.items };
}

impl<T> ValueStack<T> {
    /// No values. It takes no memory until the first push.
    pub fn new(alloc: Global) -> Self
        ensures { result ≡ [] }
    {
        ValueStack {
            items: Vec::new(alloc),
        }
    }

    /// Takes the newest value off, if there is one.
    pub fn pop(&mut self) -> Option<T>
        ensures { MatchOption result ((self.old ≡ []) × (self.new ≡ [])) (λ item. self.old ≡ item ∷ self.new) }
    {
        self.items.pop()
    }

    /// The newest value, if there is one.
    pub fn newest(&self) -> Option<&T>
        ensures { MatchOption result (self.now ≡ []) (λ item. (other : T) → newest other self.now ≡ item.now) }
    {
        self.items.last()
    }
}

// What lets go of items.
impl<T: Drop> ValueStack<T> {
    /// Puts a value in front of the others. For want of memory all stays as it was, and the value is let go.
    pub fn push(&mut self, item: T) -> Result<(), OutOfMemory>
        ensures ok { OnOk result (self.new ≡ item ∷ self.old) }
        ensures err { OnErr result (self.new ≡ self.old) }
    {
        self.items.push(item)?;
        Ok(())
    }

    /// Takes all values off. The memory stays for those to come.
    pub fn clear(&mut self)
        ensures { self.new ≡ [] }
    {
        self.items.clear();
    }

    /// Takes the newest value off; where there is none, gives the other one.
    pub fn pop_or(&mut self, other: T) -> T
        ensures newest { result ≡ newest other self.old }
        ensures older { self.new ≡ older self.old }
    {
        match self.items.pop() {
            Some(item) => item,
            None => other,
        }
    }
}

impl<T> ValueStack<Rows<T>> {
    /// The items of the newest list, and none where there is no list.
    pub fn newest_list(&self) -> &[T]
        ensures { result.now ≡ newest [] self.now }
    {
        match self.items.last() {
            Some(list) => list.as_slice(),
            None => &[],
        }
    }
}

impl<T: Drop> ValueStack<Rows<T>> {
    /// Takes the newest list off; where there is none, gives an empty one.
    pub fn pop_list(&mut self, alloc: Global) -> Rows<T>
        ensures newest { result ≡ newest [] self.old }
        ensures older { self.new ≡ older self.old }
    {
        self.pop_or(Rows::new(alloc))
    }

    /// Puts one more item behind the newest list; where there is none, begins one with it. For want of memory the newest
    /// list is let go, and the item.
    pub fn extend(&mut self, alloc: Global, item: T) -> Result<(), OutOfMemory>
        ensures ok { OnOk result (self.new ≡ extended (item ∷ []) self.old) }
        ensures err { OnErr result (self.new ≡ older self.old) }
    {
        let mut list = self.pop_list(alloc);
        list.push(item)?;
        self.push(list)
    }
}

impl<T: Drop> ValueStack<Option<Rows<T>>> {
    /// Puts one more item behind the newest list; where there is none, begins one with it.
    pub fn extend_option(&mut self, alloc: Global, item: T) -> Result<(), OutOfMemory>
        ensures { OnOk result (self.new ≡ extended_option item self.old) }
    {
        let mut list = match self.pop_or(None) {
            Some(list) => list,
            None => Rows::new(alloc),
        };
        list.push(item)?;
        self.push(Some(list))
    }
}
