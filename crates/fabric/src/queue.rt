// The items that wait, in order.
ghost use Rattle.std.specs.Prelude.{◌≡◌, true, ◌%◌, ◌^◌, List, [], ◌∷◌, ◌++◌, length, MatchOption, OnOk};

use p4x_bits::OutOfMemory;
use std::alloc::Global;
use std::collections::VecDeque;
use std::marker::Model;

/// Items that wait, the first that was put there first. Contracts see the list of them.
#[derive(Drop)]
pub struct Queue<J: Drop> {
    waiting: VecDeque<J>,
}

impl<J: Drop> Model for Queue<J> {
    ghost use Rattle.std.specs.Prelude.{List};

    ghost Value = { List J };

    ghost view = { λ queue. queue.waiting.items };
}

impl<J: Drop> Queue<J> {
    /// A queue in which nothing waits. It takes no memory.
    pub fn new(alloc: Global) -> Self
        ensures { result ≡ [] }
    {
        Queue {
            waiting: VecDeque::new(alloc),
        }
    }

    /// Puts an item behind all that wait. The one error is want of memory.
    pub fn push(&mut self, item: J) -> Result<(), OutOfMemory>
        ensures { OnOk result (self.new ≡ self.old ++ item ∷ []) }
    {
        self.waiting.push_back(item)?;
        Ok(())
    }

    /// Takes the first item away and gives it, or none where nothing waits.
    pub fn pop(&mut self) -> Option<J>
        ensures { MatchOption result ((self.old ≡ []) × (self.new ≡ [])) (λ item. self.old ≡ item ∷ self.new) }
    {
        self.waiting.pop_front()
    }

    /// Whether nothing waits.
    pub fn is_empty(&self) -> bool
        ensures { result ≡ true → self.now ≡ [] }
    {
        self.waiting.is_empty()
    }

    /// How many wait, modulo 2^64.
    pub fn count(&self) -> u64
        ensures { result ≡ length self.now % 2 ^ 64 }
    {
        self.waiting.len() as u64
    }
}
