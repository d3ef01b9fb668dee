//! The reading of a text by its tokens and a grammar: what it reads as, or the rule that it breaks and the place. It joins
//! the division of a text into tokens with a predictive parser, for any language.
#![tactic(auto)]

mod error;
mod parsing;

pub use error::ReadError;
pub use parsing::parse_text;
