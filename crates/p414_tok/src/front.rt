// What a text begins with.
ghost use Rattle.std.specs.Prelude.{◌≡◌, ◌<◌, ◌≤◌, length, slice_index, IfOk, IsTrue};
ghost use Rattle.token_division.specs.Octets as octets;
ghost use Rattle.p414_tok.specs.declared.front.Head.TheVariants.{Digit, Letter, NumberSign};
ghost use Rattle.p414_tok.specs.Front as front;

use crate::TokenKind14;
use crate::lines::{marker_size, pragma_size};
use crate::numbers::number;
use p4x_fault::Rule;
use p414_syntax::Mark;
use token_division::octets::{is_blank, is_decimal, is_letter, word_size};
use token_division::{Piece, What, comment_size, mark_at};

/// The marks, the longest first.
const MARKS: [Mark; 26] = [
    Mark::LessEqual,
    Mark::GreaterEqual,
    Mark::Equal,
    Mark::NotEqual,
    Mark::ShiftLeft,
    Mark::ShiftRight,
    Mark::BraceOpen,
    Mark::BraceClose,
    Mark::ParenOpen,
    Mark::ParenClose,
    Mark::BracketOpen,
    Mark::BracketClose,
    Mark::Semicolon,
    Mark::Colon,
    Mark::Comma,
    Mark::Dot,
    Mark::Assign,
    Mark::Less,
    Mark::Greater,
    Mark::Plus,
    Mark::Minus,
    Mark::Star,
    Mark::Ampersand,
    Mark::Bar,
    Mark::Caret,
    Mark::Tilde,
];

/// What may begin with an octet.
#[derive(Clone, Copy)]
pub enum Head {
    Blank,
    Letter,
    Digit,
    Slash,
    AtSign,
    NumberSign,
    Other,
}

/// The piece that a P4_14 text begins with, or the rule that it breaks there.
pub fn front(is_first: bool, text: &[u8]) -> Result<Piece<TokenKind14>, Rule>
    requires { 0 < length text.now }
    ensures is { result ≡ front.front is_first text.now }
    ensures within { IfOk result (λ piece. (0 < piece.size) × (piece.size ≤ length text.now)) }
{
    match head_of(text[0]) {
        Head::Blank => Ok(Piece {
            what: What::Blank,
            size: 1,
        }),
        Head::Letter => Ok(Piece {
            what: What::Token(TokenKind14::Name),
            size: word_size(text),
        }),
        Head::Digit => number(text),
        Head::Slash => skipped(comment_size(text)?),
        Head::AtSign => skipped(pragma_size(text)?),
        Head::NumberSign => {
            if is_first {
                skipped(marker_size(text)?)
            } else {
                Err(Rule::L(1))
            }
        }
        Head::Other => mark(text),
    }
}

/// What may begin with the octet.
fn head_of(octet: u8) -> Head
    ensures is { result ≡ front.head_of octet }
    ensures digit { result ≡ Digit → IsTrue (octets.is_decimal octet) }
    ensures letter { result ≡ Letter → IsTrue (octets.is_letter octet) }
    ensures number_sign { result ≡ NumberSign → octet ≡ 35 }
{
    if is_blank(octet) {
        Head::Blank
    } else if is_letter(octet) {
        Head::Letter
    } else if is_decimal(octet) {
        Head::Digit
    } else if octet == b'/' {
        Head::Slash
    } else if octet == b'@' {
        Head::AtSign
    } else if octet == b'#' {
        Head::NumberSign
    } else {
        Head::Other
    }
}

/// A piece of so many octets that stands for nothing.
fn skipped(size: usize) -> Result<Piece<TokenKind14>, Rule>
    ensures { result ≡ front.skipped (Ok size) }
{
    let what = What::Skipped;
    Ok(Piece { what, size })
}

/// The longest mark that the text begins with. An octet that begins none breaks L1.
fn mark(text: &[u8]) -> Result<Piece<TokenKind14>, Rule>
    ensures is { result ≡ front.mark text.now }
    ensures within { IfOk result (λ piece. (0 < piece.size) × (piece.size ≤ length text.now)) }
{
    let mark = mark_at(&MARKS, text).ok_or(Rule::L(1))?;
    let what = What::Token(TokenKind14::Mark(mark));
    let size = mark.text().len();
    Ok(Piece { what, size })
}
