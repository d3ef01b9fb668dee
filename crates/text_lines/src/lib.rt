//! The lines of a text file, their words, and the numbers that words are.
#![tactic(auto)]

mod lines;
mod numbers;
mod word;

pub use lines::{at_line, next_line};
pub use numbers::{Base, are_digits, decimal_up_to, digit_value, number_up_to, radix};
pub use word::{is_comment, next_word, words};
