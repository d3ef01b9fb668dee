// Include lines.
ghost use Rattle.std.specs.Prelude.{◌≡◌, ◌<◌, ◌≤◌, length, true, IfOk, IfSome};
ghost use Rattle.std.specs.List.{list_all};
ghost use Rattle.token_division.specs.Octets as octets;
ghost use Rattle.p416_syntax.specs.Lines.{include_text16};
ghost use Rattle.p416_tok.specs.Front as front;

use crate::TokenKind16;
use p4x_fault::Rule;
use p416_syntax::Include16;
use token_division::octets::{is_blank, line_size};
use token_division::{Piece, What};

/// The include line that the text begins with, without the blanks behind it. A line that is none breaks L4.
pub fn include_line(text: &[u8]) -> Result<Piece<TokenKind16>, Rule>
    ensures is { result ≡ front.include_line text.now }
    ensures within { IfOk result (λ piece. (0 < piece.size) × (piece.size ≤ length text.now)) }
{
    let (line, _) = text.split_at(line_size(text));
    let found = include_of(line).ok_or(Rule::L(4))?;
    let what = What::Token(TokenKind16::Include(found));
    let size = found.text().len();
    Ok(Piece { what, size })
}

/// Which include line this line is, with blanks behind it or none.
fn include_of(line: &[u8]) -> Option<Include16>
    ensures is { result ≡ front.include_of line.now }
    ensures within { IfSome result (λ found. length (include_text16 found) ≤ length line.now) }
{
    if is_include(Include16::Core, line) {
        Some(Include16::Core)
    } else if is_include(Include16::V1Model, line) {
        Some(Include16::V1Model)
    } else {
        None
    }
}

/// Whether the line is this include line and blanks.
fn is_include(due: Include16, line: &[u8]) -> bool
    ensures is { result ≡ front.is_include due line.now }
    ensures within { result ≡ true → length (include_text16 due) ≤ length line.now }
{
    let written = due.text();
    if line.starts_with(written) {
        let (_, blanks) = line.split_at(written.len());
        are_blanks(blanks)
    } else {
        false
    }
}

fn are_blanks(line: &[u8]) -> bool
    ensures { result ≡ list_all octets.is_blank line.now }
{
    line.iter().all(|octet| is_blank(*octet))
}
