// What a text begins with.
ghost use Rattle.std.specs.Prelude.{◌≡◌, ◌<◌, ◌≤◌, length, IfOk, IsTrue};
ghost use Rattle.token_division.specs.Octets as octets;
ghost use Rattle.p416_tok.specs.declared.front.Head.TheVariants.{Digit, Letter};
ghost use Rattle.p416_tok.specs.Front as front;

use crate::TokenKind16;
use crate::lines::include_line;
use crate::marks::mark_of;
use crate::numbers::number;
use crate::words::{annotation_name, quoted};
use p4x_fault::Rule;
use token_division::octets::{is_blank, is_decimal, is_letter, word_size};
use token_division::{Piece, What, comment_size};

/// What may begin with an octet.
#[derive(Clone, Copy)]
pub enum Head {
    Blank,
    Letter,
    Digit,
    Slash,
    Quote,
    AtSign,
    NumberSign,
    Other,
}

/// The piece that a P4_16 text begins with, or the rule that it breaks there.
pub fn front(is_first: bool, text: &[u8]) -> Result<Piece<TokenKind16>, Rule>
    requires { 0 < length text.now }
    ensures is { result ≡ front.front is_first text.now }
    ensures within { IfOk result (λ piece. (0 < piece.size) × (piece.size ≤ length text.now)) }
{
    match head_of(text[0]) {
        Head::Blank => Ok(Piece {
            what: What::Blank,
            size: 1,
        }),
        Head::Letter => Ok(Piece {
            what: What::Token(TokenKind16::Name),
            size: word_size(text),
        }),
        Head::Digit => number(text),
        Head::Slash => skipped(comment_size(text)?),
        Head::Quote => quoted(text),
        Head::AtSign => annotation_name(text),
        Head::NumberSign => {
            if is_first {
                include_line(text)
            } else {
                Err(Rule::L(1))
            }
        }
        Head::Other => mark(text),
    }
}

/// What may begin with the octet.
fn head_of(octet: u8) -> Head
    ensures is { result ≡ front.head_of octet }
    ensures digit { result ≡ Digit → IsTrue (octets.is_decimal octet) }
    ensures letter { result ≡ Letter → IsTrue (octets.is_letter octet) }
{
    if is_blank(octet) {
        Head::Blank
    } else if is_letter(octet) {
        Head::Letter
    } else if is_decimal(octet) {
        Head::Digit
    } else if octet == b'/' {
        Head::Slash
    } else if octet == b'"' {
        Head::Quote
    } else if octet == b'@' {
        Head::AtSign
    } else if octet == b'#' {
        Head::NumberSign
    } else {
        Head::Other
    }
}

/// A piece of so many octets that stands for nothing.
fn skipped(size: usize) -> Result<Piece<TokenKind16>, Rule>
    ensures { result ≡ front.skipped (Ok size) }
{
    let what = What::Skipped;
    Ok(Piece { what, size })
}

/// The longest mark that the text begins with. An octet that begins none breaks L1.
fn mark(text: &[u8]) -> Result<Piece<TokenKind16>, Rule>
    ensures is { result ≡ front.mark text.now }
    ensures within { IfOk result (λ piece. (0 < piece.size) × (piece.size ≤ length text.now)) }
{
    let mark = mark_of(text).ok_or(Rule::L(1))?;
    let what = What::Token(TokenKind16::Mark(mark));
    let size = mark.text().len();
    Ok(Piece { what, size })
}
