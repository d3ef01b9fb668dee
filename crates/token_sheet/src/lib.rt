//! A text that is written a word at a time. It is seen as the list of the words that it is divided into, and the blanks between
//! two of them are chosen when it is written, for any language that says how its tokens are told apart.
#![tactic(auto)]

mod blanks;
mod page;
mod sheet;
mod spelling;

pub use blanks::Gap;
pub use sheet::Sheet;
pub use spelling::Spelling;
