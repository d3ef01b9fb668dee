//! With which octets each token of P4_16 is written, and which tokens may touch.
#![tactic(auto)]

ghost use Rattle.p416_tok.specs.Front.{front};
ghost use Rattle.token_sheet.specs.Spelling.{IsSpelling};
ghost use Rattle.p416_spelling.specs.Spelled.{spells16, parts16, begins_line16};

mod digits;
mod touching;

pub use digits::number_text;
pub use touching::{begins_line, meets, parts};

/// A text that begins with a token in one of its spellings, and with what parts from it, begins with that token.
#[tactic(auto, using(crate::proofs::Again::is_spelling16))]
pub fn tokens_are_found_again()
    ensures { IsSpelling front spells16 parts16 begins_line16 }
{}
