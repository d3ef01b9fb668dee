//! How a program's text is divided into tokens, as both languages need it: the division over what a
//! language says a text may begin with, places, octets, numbers, marks and comments.
#![tactic(auto)]

mod division;
mod literals;
pub mod octets;
mod pieces;

pub use division::{Lex, Lexicon, Piece, Token, What, divide, place_behind_text};
pub use literals::{Base, Literal, decimal_value, number};
pub use pieces::{Mark, comment_size, mark_at};
