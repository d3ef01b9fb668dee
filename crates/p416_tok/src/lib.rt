//! The tokens of a P4_16 text, with their places, or the rule and the place where the text stops being
//! one.
#![tactic(auto)]

mod front;
mod kind;
mod lexicon;
mod lines;
mod marks;
mod numbers;
mod words;

pub use kind::{Token16, TokenKind16};
pub use lexicon::tokens16;
pub use token_division::Lex;
