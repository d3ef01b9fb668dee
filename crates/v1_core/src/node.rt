// The nodes of ready expressions.
use p416_syntax::{BinaryOperator, UnaryOperator};

/// What stands in a slot.
#[derive(Clone, Copy, PartialEq, Eq, Drop)]
pub enum Content {
    /// Bits, as many as the slot has.
    Bits,
    /// A truth value.
    Truth,
    /// An error.
    Error,
}

/// Which element a stack's place tells.
#[derive(Clone, Copy, PartialEq, Eq, Drop)]
pub enum Which {
    /// The one at the place.
    Next,
    /// The one before it.
    Last,
}

/// An element of a stack that is told by the stack's place. The same part of each element, a field or the header itself, has
/// a number: `first` for the element 0, and `apart` more for each next one.
#[derive(Clone, Copy, Drop)]
pub struct Element {
    /// Which one.
    pub which: Which,
    /// The stack.
    pub stack: u32,
    /// The number of the part of the element 0.
    pub first: u32,
    /// How far the numbers of neighbours are apart.
    pub apart: u32,
}

/// A node of a ready expression. Its operands are named by the places of earlier nodes.
#[derive(Clone, Copy, Drop)]
pub enum Node {
    /// Bits: how many, and their number.
    Number(u8, u128),
    /// A truth value.
    Truth(bool),
    /// An error, by its number in the order of `error`.
    Error(u128),
    /// A slot, with what stands in it.
    Slot(Content, u32),
    /// A field of an element of a stack.
    ElementSlot(Element),
    /// Whether a header is valid.
    Valid(u32),
    /// Whether an element of a stack is valid.
    ElementValid(Element),
    /// So many bits in front of those that aren't parsed.
    Ahead(u8),
    /// A slice: of what, from which place on, and how many bits.
    Slice(usize, u8, u8),
    /// A cast to so many bits.
    ToBits(u8, usize),
    /// A cast to a truth value.
    ToTruth(usize),
    /// An operator and its operand.
    Unary(UnaryOperator, usize),
    /// `&&` with its left and its right operand.
    And(usize, usize),
    /// `||` with its left and its right operand.
    Or(usize, usize),
    /// Another operator with its left and its right operand.
    Binary(BinaryOperator, usize, usize),
    /// The condition, the value where it holds, and the one where it doesn't.
    Choice(usize, usize, usize),
}
