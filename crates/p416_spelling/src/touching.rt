// What may stand right behind a token.
ghost use Rattle.std.specs.Prelude.{◌≡◌, ◌++◌, ◌∷◌, []};
ghost use Rattle.std.specs.List.{list_any};
ghost use Rattle.token_division.specs.Pieces.{begins};
ghost use Rattle.p416_syntax.specs.Marks.{mark_text16};
ghost use Rattle.p416_spelling.specs.Spelled.{parts16, meets16, is_greater16, begins_line16};

use p416_syntax::Mark16;
use p416_tok::TokenKind16;
use token_division::octets::is_word;

/// The marks, the longest first.
const MARKS: [Mark16; 34] = [
    Mark16::SaturatingPlus,
    Mark16::SaturatingMinus,
    Mark16::Mask,
    Mark16::DotDot,
    Mark16::LessEqual,
    Mark16::GreaterEqual,
    Mark16::Equal,
    Mark16::NotEqual,
    Mark16::ShiftLeft,
    Mark16::PlusPlus,
    Mark16::AndAnd,
    Mark16::OrOr,
    Mark16::BraceOpen,
    Mark16::BraceClose,
    Mark16::ParenOpen,
    Mark16::ParenClose,
    Mark16::BracketOpen,
    Mark16::BracketClose,
    Mark16::Semicolon,
    Mark16::Colon,
    Mark16::Comma,
    Mark16::Dot,
    Mark16::Assign,
    Mark16::Less,
    Mark16::Greater,
    Mark16::Plus,
    Mark16::Minus,
    Mark16::Star,
    Mark16::Ampersand,
    Mark16::Bar,
    Mark16::Caret,
    Mark16::Tilde,
    Mark16::Bang,
    Mark16::Question,
];

/// Whether an octet that stands right behind a token of this class, which has these octets, is no part of it.
pub fn parts(kind: TokenKind16, octets: &[u8], next: u8) -> bool
    ensures { result ≡ parts16 kind octets.now next }
{
    match kind {
        TokenKind16::Name => !is_word(next),
        TokenKind16::Number(_) => !is_word(next),
        TokenKind16::Mark(_) => !goes_on_in_any(&MARKS, octets, next),
        TokenKind16::Quoted => true,
        TokenKind16::At(_) => !is_word(next),
        TokenKind16::Include(_) => next == b'\n',
    }
}

/// Whether it is told where a token of the second class touches one of the first: two `>` that touch are told from two that
/// don't.
pub fn meets(first: TokenKind16, second: TokenKind16) -> bool
    ensures { result ≡ meets16 first second }
{
    match first {
        TokenKind16::Mark(Mark16::Greater) => is_greater(second),
        _ => false,
    }
}

/// Whether a token of this class is the first on its line, but for blanks.
pub fn begins_line(kind: TokenKind16) -> bool
    ensures { result ≡ begins_line16 kind }
{
    matches!(kind, TokenKind16::Include(_))
}

fn is_greater(kind: TokenKind16) -> bool
    ensures { result ≡ is_greater16 kind }
{
    matches!(kind, TokenKind16::Mark(Mark16::Greater))
}

/// Whether one of the marks begins with these octets and this one.
fn goes_on_in_any(marks: &[Mark16], octets: &[u8], next: u8) -> bool
    ensures { result ≡ list_any (λ other. begins (mark_text16 other) (octets.now ++ next ∷ [])) marks.now }
{
    for mark in marks {
        if goes_on_in(mark.text(), octets, next) {
            return true;
        }
    }
    false
}

/// Whether the text of a mark begins with these octets and this one.
#[tactic(auto, using(crate::proofs::Marks::goes_on_so, crate::proofs::Marks::goes_on_not, crate::proofs::Marks::goes_on_short))]
fn goes_on_in(mark: &[u8], octets: &[u8], next: u8) -> bool
    ensures { result ≡ begins mark.now (octets.now ++ next ∷ []) }
{
    if octets.len() < mark.len() {
        mark.starts_with(octets) && mark[octets.len()] == next
    } else {
        false
    }
}
