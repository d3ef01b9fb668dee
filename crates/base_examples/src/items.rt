// What the small grammar reads, and where it refuses a token, as letters tell it.
use crate::item_reader::{Event, Lexeme, read};
use crate::lines::number_of;
use p4x_bits::OutOfMemory;
use predictive_parser::ParseError;
use std::alloc::Global;

/// The token of a letter; a letter that is no mark is a name.
fn token_of(letter: u8) -> Lexeme {
    match letter {
        b'+' => Lexeme::Plus,
        b'*' => Lexeme::Times,
        b'(' => Lexeme::Open,
        b')' => Lexeme::Close,
        b',' => Lexeme::Comma,
        _ => Lexeme::Name(u32::from(letter)),
    }
}

/// Puts the tokens of letters behind others. A number in front of a letter tells how often its token stands there.
fn put_tokens(tokens: &mut Vec<Lexeme>, letters: &[u8]) -> Result<(), OutOfMemory> {
    let mut times = 0u32;
    for letter in letters {
        if matches!(*letter, b'0'..=b'9') {
            times = times
                .saturating_mul(10)
                .saturating_add(u32::from(letter.saturating_sub(b'0')));
        } else {
            for _ in 0..times.max(1) {
                tokens.push(token_of(*letter))?;
            }
            times = 0;
        }
    }
    Ok(())
}

/// Whether a letter tells what was built: a name or an operator by its own, no item by `0`, an item in front of a list by `:`, and a
/// list that is an item by `]`.
fn is_event(event: Event, letter: u8) -> bool {
    match event {
        Event::Name(name) => name == u32::from(letter),
        Event::Both(token) => token == token_of(letter),
        Event::Nil => letter == b'0',
        Event::Cons => letter == b':',
        Event::List => letter == b']',
    }
}

fn are_events(events: &[Event], letters: &[u8]) -> bool {
    for (place, event) in events.iter().enumerate() {
        if place >= letters.len() || !is_event(*event, letters[place]) {
            return false;
        }
    }
    events.len() == letters.len()
}

/// Whether the tokens build what the letters tell; so many events behind `#`; or are refused at the place behind `!`.
fn reads(alloc: Global, tokens: &[Lexeme], wanted: &[u8]) -> bool {
    match (&read(alloc, tokens), wanted) {
        (Ok(events), [b'#', digits @ ..]) => events.len() as u64 == number_of(digits),
        (Ok(events), letters) => are_events(events.as_slice(), letters),
        (Err(ParseError::Refused { at }), [b'!', digits @ ..]) => *at as u64 == number_of(digits),
        _ => false,
    }
}

/// Whether the tokens of these letters do so.
pub fn are_read(alloc: Global, letters: &[u8], wanted: &[u8]) -> bool {
    let mut tokens = Vec::new(alloc);
    put_tokens(&mut tokens, letters).is_ok() && reads(alloc, &tokens, wanted)
}
