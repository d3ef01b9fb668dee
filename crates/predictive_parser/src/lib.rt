//! A predictive parser, which reads a list of tokens from the left by a stack of symbols that it has
//! still to find, and never goes back: for each grammar whose rows begin with a token.
#![tactic(auto)]

mod alternatives;
mod builder;
mod choosing;
mod operators;
mod parser;
mod row;
mod stack;
mod symbol;
mod values;

pub use alternatives::{Alternative, choose_first};
pub use builder::{Builder, Lookahead};
pub use operators::{behind_operator, may_follow};
pub use parser::{ParseError, parse};
pub use row::{Row, WordRows};
pub use stack::Stack;
pub use symbol::{Otherwise, Symbol};
pub use values::ValueStack;
