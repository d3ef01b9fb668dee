// Where statements read and write.
use v1_core::{Element, Which};

/// So many bits of a slot, from a place on, counted from the least significant bit, 0.
#[derive(Clone, Copy, PartialEq, Eq, Drop)]
pub struct Slice {
    /// The place.
    pub low: u8,
    /// How many bits.
    pub width: u8,
}

/// A slot, or a slice of it.
#[derive(Clone, Copy, PartialEq, Eq, Drop)]
pub struct Target {
    /// The slot.
    pub slot: u32,
    /// The slice, where only that is written.
    pub slice: Option<Slice>,
}

/// A slot, or that of a field of the element that the place of a stack tells.
#[derive(Clone, Copy, Drop)]
pub enum SlotPlace {
    /// The slot.
    Fixed(u32),
    /// The field.
    Told(Element),
}

/// The parts of a header, of a stack or of a struct: so many slots, headers and stacks, each from a number on.
#[derive(Clone, Copy, PartialEq, Eq, Drop)]
pub struct Range {
    /// The first slot.
    pub slot: u32,
    /// How many slots.
    pub slots: u32,
    /// The first header.
    pub header: u32,
    /// How many headers.
    pub headers: u32,
    /// The first stack.
    pub stack: u32,
    /// How many stacks.
    pub stacks: u32,
}

/// The parts of an element that the place of a stack tells: as many as those of the element 0, and by so many further with
/// each next one.
#[derive(Clone, Copy, Drop)]
pub struct ToldRange {
    /// Which element.
    pub which: Which,
    /// The stack.
    pub stack: u32,
    /// The parts of the element 0.
    pub first: Range,
}

/// The parts of a value, or those of the element that the place of a stack tells.
#[derive(Clone, Copy, Drop)]
pub enum RangePlace {
    /// The parts.
    Fixed(Range),
    /// The element.
    Told(ToldRange),
}
