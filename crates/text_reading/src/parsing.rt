// The parsing of the tokens of a text.
ghost use Rattle.std.specs.Prelude.{◌≡◌, OnOk};
ghost use Rattle.predictive_parser.specs.Grammar.{parse};
ghost use Rattle.text_reading.specs.Reading.{fault_at};
ghost use Rattle.text_reading.specs.internal.Machine.{IsParsed};

use crate::ReadError;
use p4x_fault::{Fault, Rule};
use predictive_parser::{Builder, ParseError, parse};
use std::alloc::Global;
use token_division::{Token, place_behind_text};

/// Reads the tokens that the builder holds, all of them, as the word, where they are those of the text. What the builder has
/// built grows to what the grammar builds of them, and the tokens stay.
///
/// Where the grammar refuses a token the error is S1, with the place of that token; or with the place behind the text, where
/// the tokens end too early. The only other error is want of memory. Of the builder after an error nothing is said.
pub fn parse_text<B: Builder, K: Copy>(
    alloc: Global,
    builder: &mut B,
    word: B::Word,
    text: &[u8],
    tokens: &[Token<K>],
) -> Result<(), ReadError>
    ensures is { IsParsed text.now tokens.now (parse B.grammar word (B.held builder.old) (B.tokens builder.old)) result
        (λ done built. B.held builder.new ≡ built) }
    ensures tokens { OnOk result (B.tokens builder.new ≡ B.tokens builder.old) }
{
    match parse(alloc, builder, word) {
        Ok(()) => Ok(()),
        Err(ParseError::Memory) => Err(ReadError::Memory),
        Err(ParseError::Refused { at }) => Err(ReadError::Refused(fault_at(text, tokens, at))),
    }
}

/// S1 at the token with this number, or behind the text where there is none.
fn fault_at<K: Copy>(text: &[u8], tokens: &[Token<K>], at: usize) -> Fault
    ensures { result ≡ fault_at text.now tokens.now at }
{
    let place = match tokens.get(at) {
        Some(token) => token.place,
        None => place_behind_text(text),
    };
    Fault {
        rule: Rule::S(1),
        place: Some(place),
    }
}
