// Stacks by themselves.
ghost use Rattle.std.specs.Prelude.{◌≡◌, ℕ, List, length, min, false};
ghost use Rattle.p414_sem.specs.State.{Header};
ghost use Rattle.p414_sem.specs.Effects.{pushed, popped};
ghost use Rattle.p414_layout.specs.declared.shape.Shape.{Shape};
ghost use Rattle.p414_state.specs.Headers.{HoldsStack};
ghost use Rattle.p414_state.specs.internal.Cells.{first_emptied, raised, lowered};

use crate::header::{PackedHeader, empty_first};
use std::marker::Model;

/// The elements of an instance by themselves. Contracts see the list of them.
#[derive(Drop)]
pub struct PackedStack {
    elements: Vec<PackedHeader>,
}

impl Model for PackedStack {
    ghost use Rattle.std.specs.Prelude.{List};
    ghost use Rattle.p414_state.specs.Headers.{Packed};

    ghost Value = { List Packed };

    ghost view = { λ s. s.elements.items };
}

/// As many as these, or how many elements there are.
fn at_most(count: u32, elements: &[PackedHeader]) -> usize
    ensures { result ≡ min count (length elements.now) }
{
    (count as usize).min(elements.len())
}

/// Moves elements up by so many: the last ones are gone, and the first ones are valid with all bits 0.
fn raise(elements: &mut Vec<PackedHeader>, count: u32)
    ensures { elements.new.items ≡ raised (min count (length elements.old.items)) elements.old.items }
{
    let moved = at_most(count, elements);
    elements.rotate_right(moved);
    empty_first(elements, moved, true);
}

/// Moves elements down by so many: the first ones are gone, and the last ones are invalid with all bits 0.
fn lower(elements: &mut Vec<PackedHeader>, count: u32)
    ensures { elements.new.items ≡ lowered (min count (length elements.old.items)) elements.old.items }
{
    let moved = at_most(count, elements);
    empty_first(elements, moved, false);
    elements.rotate_left(moved);
}

impl PackedStack {
    /// These elements.
    pub fn of(elements: Vec<PackedHeader>) -> PackedStack
        ensures { result ≡ elements.items }
    {
        PackedStack { elements }
    }

    /// The elements by themselves.
    pub fn into_elements(self) -> Vec<PackedHeader>
        ensures { result.items ≡ self }
    {
        self.elements
    }

    /// Moves the elements up by so many: the last ones are gone, and the first ones, at most all, are valid with all fields 0.
    /// It takes no memory.
    pub fn push(&mut self, count: u32)
        ensures { (shape : Shape) (headers : List Header) → shape.metadata ≡ false → HoldsStack shape headers self.old → HoldsStack shape (pushed count headers) self.new }
    {
        raise(&mut self.elements, count);
    }

    /// Moves the elements down by so many: the first ones are gone, and the last ones, at most all, are invalid. It takes no
    /// memory.
    pub fn pop(&mut self, count: u32)
        ensures { (shape : Shape) (headers : List Header) → shape.metadata ≡ false → HoldsStack shape headers self.old → HoldsStack shape (popped count headers) self.new }
    {
        lower(&mut self.elements, count);
    }
}
