// The symbols that a parser has still to find.
ghost use Rattle.std.specs.Prelude.{◌≡◌, List, [], ◌∷◌, ◌++◌, reverse, OnOk, MatchOption};
ghost use Rattle.predictive_parser.specs.declared.symbol.Symbol.{Symbol};

use crate::Symbol;
use p4x_bits::OutOfMemory;
use std::alloc::Global;
use std::marker::Model;

/// The symbols that a parser has still to find. Contracts see them as a list, the next one first.
#[derive(Drop)]
pub struct Stack<C: Copy, A: Copy, W: Copy> {
    items: Vec<Symbol<C, A, W>>,
}

impl<C: Copy, A: Copy, W: Copy> Model for Stack<C, A, W> {
    ghost Value = { List (Symbol C A W) };

    ghost view = { λ stack. reverse stack.items.items };
}

impl<C: Copy, A: Copy, W: Copy> Stack<C, A, W> {
    /// No symbols. It takes no memory until the first push.
    pub fn new(alloc: Global) -> Self
        ensures { result ≡ [] }
    {
        Stack {
            items: Vec::new(alloc),
        }
    }

    /// Puts a symbol in front of the others.
    pub fn push(&mut self, symbol: Symbol<C, A, W>) -> Result<(), OutOfMemory>
        ensures { OnOk result (self.new ≡ symbol ∷ self.old) }
    {
        self.items.push(symbol)?;
        Ok(())
    }

    /// Takes the next symbol off, if there is one.
    pub fn pop(&mut self) -> Option<Symbol<C, A, W>>
        ensures { MatchOption result ((self.old ≡ []) × (self.new ≡ [])) (λ symbol. self.old ≡ symbol ∷ self.new) }
    {
        self.items.pop()
    }

    /// Puts symbols in front of the others, the first of them foremost.
    pub fn push_all(&mut self, symbols: &[Symbol<C, A, W>]) -> Result<(), OutOfMemory>
        ensures { OnOk result (self.new ≡ symbols.now ++ self.old) }
    {
        for symbol in symbols.iter().rev() {
            self.push(*symbol)?;
        }
        Ok(())
    }
}
