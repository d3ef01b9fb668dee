// The tokens of a text.
use crate::lines::{cut, number_of};
use p4x_fault::Place;
use p414_syntax::Literal;
use p414_tok::{Token14, TokenKind14, tokens};
use std::alloc::Global;

/// The place that a line, `:` and a column tell.
fn place_of(word: &[u8]) -> Place {
    let (line, column) = cut(word, b':');
    Place {
        line: (number_of(line) % 1000000) as u64,
        column: (number_of(column) % 1000000) as u64,
    }
}

/// Whether there are so many tokens, the last of which has the place behind `@`.
fn are_ended(found: &[Token14], wanted: &[u8]) -> bool {
    let (count, place) = cut(wanted, b'@');
    match found {
        [.., last] => found.len() as u128 == number_of(count) && last.place == place_of(place),
        [] => false,
    }
}

/// The same of the tokens of a text.
pub fn ends_so(alloc: Global, text: &[u8], wanted: &[u8]) -> bool {
    match &tokens(alloc, text) {
        Ok(found) => are_ended(found.as_slice(), wanted),
        Err(_) => false,
    }
}

/// Whether a token of a text has these octets.
fn has_octets(text: &[u8], token: &Token14, octets: &[u8]) -> bool {
    match text.get(token.from..token.to) {
        Some(found) => found == octets,
        None => false,
    }
}

/// Whether these are the tokens, each by its octets, with a comma behind each but the last.
fn are_spelled(text: &[u8], found: &[Token14], wanted: &[u8]) -> bool {
    let mut left = wanted;
    for token in found {
        let (octets, more) = cut(left, b',');
        if !has_octets(text, token, octets) {
            return false;
        }
        left = more;
    }
    left.is_empty()
}

fn is_mark(token: &Token14, octets: &[u8]) -> bool {
    match token.kind {
        TokenKind14::Mark(mark) => mark.text() == octets,
        _ => false,
    }
}

/// Whether these are the tokens, each a mark, with a comma behind each but the last.
fn are_marks(found: &[Token14], wanted: &[u8]) -> bool {
    let mut left = wanted;
    for token in found {
        let (octets, more) = cut(left, b',');
        if !is_mark(token, octets) {
            return false;
        }
        left = more;
    }
    left.is_empty()
}

/// Whether the one token is a number of this width, `-` where it has none, and behind a comma of this value.
fn is_number(found: &[Token14], wanted: &[u8]) -> bool {
    let (width, value) = cut(wanted, b',');
    let width = if width == b"-".as_slice() {
        None
    } else {
        Some((number_of(width) % 256) as u8)
    };
    let literal = Literal {
        width,
        value: number_of(value),
    };
    match found {
        [token] => token.kind == TokenKind14::Number(literal),
        _ => false,
    }
}

/// Whether tokens of a text are these: by their octets, as marks (`M`), or one number (`N`).
fn are_tokens(asked: u8, text: &[u8], found: &[Token14], wanted: &[u8]) -> bool {
    match asked {
        b'M' => are_marks(found, wanted),
        b'N' => is_number(found, wanted),
        _ => are_spelled(text, found, wanted),
    }
}

/// The same of all the tokens of a text.
pub fn has_tokens(alloc: Global, asked: u8, text: &[u8], wanted: &[u8]) -> bool {
    match &tokens(alloc, text) {
        Ok(found) => are_tokens(asked, text, found.as_slice(), wanted),
        Err(_) => false,
    }
}
