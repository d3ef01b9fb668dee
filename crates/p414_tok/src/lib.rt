//! The tokens of a P4_14 text, with their places, or the rule and the place where the text stops being
//! one.
#![tactic(auto)]

mod front;
mod kind;
mod lexicon;
mod lines;
mod numbers;

pub use kind::{Token14, TokenKind14};
pub use lexicon::tokens;
pub use token_division::Lex;
