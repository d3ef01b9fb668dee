// The token classes.
use p416_syntax::{Annotation16, Include16, Literal16, Mark16};
use token_division::Token;

/// The token class of a P4_16 token. The octets of its span tell a name from another, and a string from another.
#[derive(Clone, Copy, PartialEq, Eq)]
pub enum TokenKind16 {
    /// A letter or `_`, and letters, digits and `_` behind it. A reserved word is one too.
    Name,
    /// A number. A width, from 1 to 128 bits, doesn't cut its value.
    Number(Literal16),
    /// A mark. Two `>` whose spans touch are a shift where an operator may stand.
    Mark(Mark16),
    /// A string: an identifier in double quotes, which belong to its span.
    Quoted,
    /// The name of an annotation, with its `@`.
    At(Annotation16),
    /// An include line, without the blanks around it.
    Include(Include16),
}

/// A token of a P4_16 text: its token class, its octets in the text and its place.
pub type Token16 = Token<TokenKind16>;
