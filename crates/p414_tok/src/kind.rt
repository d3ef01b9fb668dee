// The token classes.
use p414_syntax::{Literal, Mark};
use token_division::Token;

/// The token class of a P4_14 token. The octets of its span tell a name from another.
#[derive(Clone, Copy, PartialEq, Eq)]
pub enum TokenKind14 {
    /// A letter or `_`, and letters, digits and `_` behind it. No word is reserved.
    Name,
    /// A number. With a width, from 1 to 128 bits, the value is that of the number modulo 2^width.
    Number(Literal),
    /// A mark.
    Mark(Mark),
}

/// A token of a P4_14 text: its token class, its octets in the text and its place.
pub type Token14 = Token<TokenKind14>;
