//! P4_16 texts that are written a token at a time.
#![tactic(auto)]

mod language;
mod sheet;
mod view;

pub use language::P416;
pub use sheet::{Put16, Sheet16, Token16, put_token, put_tokens};
pub use token_sheet::Gap;
pub use view::TextView;
