// Numbers.
ghost use Rattle.std.specs.Prelude.{◌≡◌, ℕ, ◌<◌, ◌≤◌, ◌+◌, ◌%◌, ◌^◌, length, slice_index, IfOk, IsTrue, true};
ghost use Rattle.token_division.specs.Octets as octets;
ghost use Rattle.token_division.specs.Literals.{FitsIn128};
ghost use Rattle.p414_tok.specs.Front as front;

use crate::TokenKind14;
use p4x_fault::Rule;
use p414_syntax::Literal;
use token_division::octets::{decimal_size, is_decimal};
use token_division::{Piece, What};

/// The number that the text begins with, with its width if it has one. A width outside 1 to 128 breaks
/// L3, and so does a written value over 2^128 - 1.
pub fn number(text: &[u8]) -> Result<Piece<TokenKind14>, Rule>
    requires { IsTrue (octets.is_decimal (slice_index text.now 0)) }
    ensures is { result ≡ front.number text.now }
    ensures within { IfOk result (λ piece. (0 < piece.size) × (piece.size ≤ length text.now)) }
{
    let size = decimal_size(text);
    if is_quoted(size, text) {
        let (width, _) = text.split_at(size);
        let (_, value) = text.split_at(size + 1);
        wide_number(token_division::decimal_value(width), size + 1, value)
    } else {
        plain_number(text)
    }
}

/// Whether a `'` stands behind so many octets, and a digit behind it.
fn is_quoted(size: usize, text: &[u8]) -> bool
    requires { size ≤ length text.now }
    ensures is { result ≡ front.is_quoted size text.now }
    ensures within { result ≡ true → size + 1 < length text.now }
{
    if size + 1 < text.len() {
        text[size] == b'\'' && is_decimal(text[size + 1])
    } else {
        false
    }
}

/// A number without a width.
fn plain_number(text: &[u8]) -> Result<Piece<TokenKind14>, Rule>
    requires { IsTrue (octets.is_decimal (slice_index text.now 0)) }
    ensures is { result ≡ front.plain_number text.now }
    ensures within { IfOk result (λ piece. (0 < piece.size) × (piece.size ≤ length text.now)) }
{
    let number = token_division::number(text);
    let value = number.value.ok_or(Rule::L(3))?;
    let what = What::Token(TokenKind14::Number(Literal { width: None, value }));
    let size = number.size;
    Ok(Piece { what, size })
}

/// A number whose width was read as `width`, or was over 2^128 - 1, with so many octets before its value.
fn wide_number(width: Option<u128>, before: usize, text: &[u8]) -> Result<Piece<TokenKind14>, Rule>
    requires digit { IsTrue (octets.is_decimal (slice_index text.now 0)) }
    requires room { before + length text.now < 2 ^ 64 }
    ensures is { (written : ℕ) → FitsIn128 written width → result ≡ front.wide_number written before text.now }
    ensures within { IfOk result (λ piece. (0 < piece.size) × (piece.size ≤ before + length text.now)) }
{
    let number = token_division::number(text);
    let width = width.ok_or(Rule::L(3))?;
    if width < 1 || width > 128 {
        return Err(Rule::L(3));
    }
    let value = number.value.ok_or(Rule::L(3))?;
    let width = width as u8;
    let value = cut(value, width);
    let what = What::Token(TokenKind14::Number(Literal {
        width: Some(width),
        value,
    }));
    let size = before + number.size;
    Ok(Piece { what, size })
}

/// The value modulo 2^width.
fn cut(value: u128, width: u8) -> u128
    requires { width ≤ 128 }
    ensures { result ≡ value % 2 ^ width }
{
    if width < 128 {
        value % (1 << width)
    } else {
        value
    }
}
