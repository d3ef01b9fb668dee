// What a condition is made of.
use p414_slots::FieldSlot;
use p414_syntax::{BinaryOperator, UnaryOperator};

/// A step of a condition, on a stack of numbers: an operand puts its number on it, and an operator takes its operands off it,
/// the left one first, and puts its result on it (P4_14 1.0.5, "Packet Processing and Control Flow"). A truth value stands there
/// as 1 or 0.
#[derive(Clone, Copy, Drop)]
pub enum ConditionRow {
    /// A number that is written.
    Number(u128),
    /// A field; 0 where its header is invalid.
    Field(FieldSlot),
    /// Whether a header, an element of a stack or metadata is valid.
    Valid {
        /// The instance.
        instance: u32,
        /// The element, which is 0 where there is no stack.
        element: u32,
    },
    /// A truth value that is written.
    Truth(bool),
    /// An operator on a number of so many bits, at most 128.
    Unary(UnaryOperator, u8),
    /// An operator on two numbers of so many bits, at most 128.
    Binary(BinaryOperator, u8),
    /// A comparison of two numbers.
    Compare(BinaryOperator),
    /// An operator on a truth value.
    Turn(UnaryOperator),
    /// An operator on two truth values.
    Join(BinaryOperator),
}
