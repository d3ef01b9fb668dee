// Strings, and the names of annotations.
ghost use Rattle.std.specs.Prelude.{◌≡◌, ◌<◌, ◌≤◌, length, true, IfOk, IfSome};
ghost use Rattle.p416_syntax.specs.Lines.{annotation_text16};
ghost use Rattle.p416_tok.specs.Front as front;

use crate::TokenKind16;
use p4x_fault::Rule;
use p416_syntax::Annotation16;
use token_division::octets::{is_letter, is_word, octet_at, word_size};
use token_division::{Piece, What};

/// The string that the text begins with: an identifier in double quotes. A `"` that begins none breaks L1.
pub fn quoted(text: &[u8]) -> Result<Piece<TokenKind16>, Rule>
    requires { 0 < length text.now }
    ensures is { result ≡ front.quoted text.now }
    ensures within { IfOk result (λ piece. (0 < piece.size) × (piece.size ≤ length text.now)) }
{
    let (_, inside) = text.split_at(1);
    let size = word_size(inside);
    if is_closed(size, inside) {
        let what = What::Token(TokenKind16::Quoted);
        let size = size + 2;
        Ok(Piece { what, size })
    } else {
        Err(Rule::L(1))
    }
}

/// Whether a `"` stands behind so many octets, and the first of them is a letter.
fn is_closed(size: usize, inside: &[u8]) -> bool
    ensures is { result ≡ front.is_closed size inside.now }
    ensures within { result ≡ true → size < length inside.now }
{
    if size < inside.len() {
        inside[size] == b'"' && is_letter(inside[0])
    } else {
        false
    }
}

/// The name of an annotation that the text begins with. An `@` that begins none breaks L1.
pub fn annotation_name(text: &[u8]) -> Result<Piece<TokenKind16>, Rule>
    ensures is { result ≡ front.annotation_name text.now }
    ensures within { IfOk result (λ piece. (0 < piece.size) × (piece.size ≤ length text.now)) }
{
    let found = annotation_of(text).ok_or(Rule::L(1))?;
    let what = What::Token(TokenKind16::At(found));
    let size = found.text().len();
    Ok(Piece { what, size })
}

/// Which annotation's name the text begins with.
fn annotation_of(text: &[u8]) -> Option<Annotation16>
    ensures is { result ≡ front.annotation_of text.now }
    ensures within { IfSome result (λ found. length (annotation_text16 found) ≤ length text.now) }
{
    if is_annotation(Annotation16::Name, text) {
        Some(Annotation16::Name)
    } else if is_annotation(Annotation16::FieldList, text) {
        Some(Annotation16::FieldList)
    } else {
        None
    }
}

/// Whether the text begins with the name of this annotation, and no octet of a word stands behind it.
fn is_annotation(due: Annotation16, text: &[u8]) -> bool
    ensures is { result ≡ front.is_annotation due text.now }
    ensures within { result ≡ true → length (annotation_text16 due) ≤ length text.now }
{
    let name = due.text();
    if text.starts_with(name) {
        !is_word(octet_at(text, name.len()))
    } else {
        false
    }
}
