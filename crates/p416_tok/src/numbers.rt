// Numbers.
ghost use Rattle.std.specs.Prelude.{◌≡◌, ℕ, ◌<◌, ◌≤◌, ◌+◌, ◌^◌, length, slice_index, IfOk, IsTrue, true};
ghost use Rattle.token_division.specs.Octets as octets;
ghost use Rattle.token_division.specs.Literals.{FitsIn128};
ghost use Rattle.p416_tok.specs.Front as front;

use crate::TokenKind16;
use p4x_fault::Rule;
use p416_syntax::Literal16;
use token_division::octets::{decimal_size, is_decimal};
use token_division::{Piece, What};

/// The number that the text begins with, with its width if it has one. A width outside 1 to 128 breaks
/// L3, and so does a value over 2^128 - 1. The form of signed numbers breaks L1.
pub fn number(text: &[u8]) -> Result<Piece<TokenKind16>, Rule>
    requires { IsTrue (octets.is_decimal (slice_index text.now 0)) }
    ensures is { result ≡ front.number text.now }
    ensures within { IfOk result (λ piece. (0 < piece.size) × (piece.size ≤ length text.now)) }
{
    let size = decimal_size(text);
    if is_joined(b'w', size, text) {
        let (width, _) = text.split_at(size);
        let (_, value) = text.split_at(size + 1);
        wide_number(token_division::decimal_value(width), size + 1, value)
    } else {
        bare_number(size, text)
    }
}

/// Whether this letter stands behind so many octets, and a digit behind it.
fn is_joined(letter: u8, size: usize, text: &[u8]) -> bool
    requires { size ≤ length text.now }
    ensures is { result ≡ front.is_joined letter size text.now }
    ensures within { result ≡ true → size + 1 < length text.now }
{
    if size + 1 < text.len() {
        text[size] == letter && is_decimal(text[size + 1])
    } else {
        false
    }
}

/// A number without a width. Behind so many octets an `s` that joins it to a digit breaks L1.
fn bare_number(size: usize, text: &[u8]) -> Result<Piece<TokenKind16>, Rule>
    requires digit { IsTrue (octets.is_decimal (slice_index text.now 0)) }
    requires room { size ≤ length text.now }
    ensures is { result ≡ front.bare_number size text.now }
    ensures within { IfOk result (λ piece. (0 < piece.size) × (piece.size ≤ length text.now)) }
{
    if is_joined(b's', size, text) {
        Err(Rule::L(1))
    } else {
        plain_number(text)
    }
}

/// A number by its digits alone.
fn plain_number(text: &[u8]) -> Result<Piece<TokenKind16>, Rule>
    requires { IsTrue (octets.is_decimal (slice_index text.now 0)) }
    ensures is { result ≡ front.plain_number text.now }
    ensures within { IfOk result (λ piece. (0 < piece.size) × (piece.size ≤ length text.now)) }
{
    let number = token_division::number(text);
    let value = number.value.ok_or(Rule::L(3))?;
    let what = What::Token(TokenKind16::Number(Literal16 { width: None, value }));
    let size = number.size;
    Ok(Piece { what, size })
}

/// A number whose width was read as `width`, or was over 2^128 - 1, with so many octets before its value.
fn wide_number(width: Option<u128>, before: usize, text: &[u8]) -> Result<Piece<TokenKind16>, Rule>
    requires digit { IsTrue (octets.is_decimal (slice_index text.now 0)) }
    requires room { before + length text.now < 2 ^ 64 }
    ensures is { (written : ℕ) → FitsIn128 written width → result ≡ front.wide_number written before text.now }
    ensures within { IfOk result (λ piece. (0 < piece.size) × (piece.size ≤ before + length text.now)) }
{
    let number = token_division::number(text);
    let width = width.ok_or(Rule::L(3))?;
    if width < 1 || width > 128 {
        return Err(Rule::L(3));
    }
    let value = number.value.ok_or(Rule::L(3))?;
    let width = width as u8;
    let what = What::Token(TokenKind16::Number(Literal16 {
        width: Some(width),
        value,
    }));
    let size = before + number.size;
    Ok(Piece { what, size })
}
