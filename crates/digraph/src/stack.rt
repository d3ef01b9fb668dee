// What was put last is taken first.
ghost use Rattle.std.specs.Prelude.{◌≡◌, ◌<◌, ◌≤◌, [], ◌∷◌, drop, length, MatchOption, OnOk};

use p4x_bits::OutOfMemory;
use std::alloc::Global;
use std::marker::Model;

/// Items of which the last one put is the first one taken. Contracts see the list of them, the next one first.
#[derive(Drop)]
pub struct Stack<T: Copy> {
    items: Vec<T>,
}

impl<T: Copy> Model for Stack<T> {
    ghost use Rattle.std.specs.Prelude.{List, reverse};

    ghost Value = { List T };

    ghost view = { λ s. reverse s.items.items };
}

impl<T: Copy> Stack<T> {
    /// Nothing. It takes no memory.
    pub fn new(alloc: Global) -> Self
        ensures { result ≡ [] }
    {
        Stack {
            items: Vec::new(alloc),
        }
    }

    /// How many items there are.
    pub fn len(&self) -> usize
        ensures { result ≡ length self.now }
    {
        self.items.len()
    }

    /// The item in front, if there is one.
    pub fn front(&self) -> Option<T>
        ensures { MatchOption result (self.now ≡ []) (λ x. self.now ≡ x ∷ drop 1 self.now) }
    {
        self.items.last().copied()
    }

    /// Puts one item in front.
    pub fn push(&mut self, item: T) -> Result<(), OutOfMemory>
        ensures { OnOk result (self.new ≡ item ∷ self.old) }
    {
        self.items.push(item)?;
        Ok(())
    }

    /// Takes the item in front, if there is one.
    pub fn pop(&mut self) -> Option<T>
        ensures { MatchOption result ((self.old ≡ []) × (self.new ≡ [])) (λ x. self.old ≡ x ∷ self.new) }
    {
        self.items.pop()
    }

    /// Takes the item in front, if there are more than so many.
    pub fn pop_beyond(&mut self, len: usize) -> Option<T>
        ensures { MatchOption result ((length self.old ≤ len) × (self.new ≡ self.old)) (λ x. (len < length self.old) × (self.old ≡ x ∷ self.new)) }
    {
        if self.items.len() <= len {
            return None;
        }
        self.items.pop()
    }
}
