// Tokens without their places.
use crate::Mark;
use p4x_bits::Text;

/// A number as it is written, with its width in bits where it has one (P4_14 1.0.5, "Value Specifications").
#[derive(Clone, Copy, PartialEq, Eq, Drop)]
pub struct Literal {
    /// The width, 1 to 128 bits, where one stands in front.
    pub width: Option<u8>,
    /// The value. With a width it is below 2^width.
    pub value: u128,
}

/// A token: a name or word, a number or a mark.
pub enum Lexeme {
    /// A name. No word is reserved everywhere.
    Name(Text),
    /// A number.
    Number(Literal),
    /// A mark.
    Mark(Mark),
}

impl Drop for Lexeme {
    fn drop(self) {
        match self {
            Lexeme::Name(_a) => {}
            Lexeme::Number(_a) => {}
            Lexeme::Mark(_a) => {}
        }
    }
}
