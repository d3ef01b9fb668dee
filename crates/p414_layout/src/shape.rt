// What an instance is made of.
ghost use Rattle.std.specs.Prelude.{◌≡◌, IfOk};
ghost use Rattle.p414_layout.specs.Shapes.{element_count, last_place};

use crate::fields::FieldPlaces;
use p4x_bits::OutOfMemory;
use std::alloc::Global;

/// What a header, a header stack or metadata is made of (P4_14 1.0.5, "Header and Metadata Instances").
#[derive(Drop)]
pub struct Shape {
    /// Whether it is metadata, which is always valid.
    pub metadata: bool,
    /// The number of elements of a stack.
    pub stack: Option<u32>,
    /// Where the fields of each element lie.
    pub widths: FieldPlaces,
}

impl Shape {
    /// The same again. The one error is want of memory.
    pub fn copy(&self, alloc: Global) -> Result<Shape, OutOfMemory>
        ensures { IfOk result (λ shape. shape ≡ self.now) }
    {
        Ok(Shape {
            metadata: self.metadata,
            stack: self.stack,
            widths: self.widths.copy(alloc)?,
        })
    }

    /// How many elements there are: those of a stack, or one.
    pub fn elements(&self) -> u32
        ensures { result ≡ element_count self.now }
    {
        match self.stack {
            Some(size) => size,
            None => 1,
        }
    }

    /// The greatest place: the one behind a stack's last element, and 0 where there is no stack.
    pub fn last_place(&self) -> u32
        ensures { result ≡ last_place self.now }
    {
        match self.stack {
            Some(size) => size,
            None => 0,
        }
    }
}
