// Marks.
ghost use Rattle.std.specs.Prelude.{◌≡◌, ◌≤◌, length, IfSome};
ghost use Rattle.std.specs.List.{filter};
ghost use Rattle.token_division.specs.Pieces as pieces;
ghost use Rattle.p416_syntax.specs.Marks.{mark_text16, all_marks16};
ghost use Rattle.p416_tok.specs.Beginnings.{mark_begins_with};

use p416_syntax::Mark16;
use token_division::mark_at;
use token_division::octets::octet_at;

/// The longest mark that the text begins with, if it begins with one.
pub fn mark_of(text: &[u8]) -> Option<Mark16>
    ensures is { result ≡ pieces.mark_at mark_text16 all_marks16 text.now }
    ensures within { IfSome result (λ mark. length (mark_text16 mark) ≤ length text.now) }
{
    mark_at(marks_with(octet_at(text, 0)), text)
}

/// The marks that begin with this octet, the longest first.
fn marks_with(first: u8) -> &'static [Mark16]
    ensures { result.now ≡ filter (mark_begins_with first) all_marks16 }
{
    match first {
        b'|' => &[
            Mark16::SaturatingPlus,
            Mark16::SaturatingMinus,
            Mark16::OrOr,
            Mark16::Bar,
        ],
        b'&' => &[Mark16::Mask, Mark16::AndAnd, Mark16::Ampersand],
        b'.' => &[Mark16::DotDot, Mark16::Dot],
        b'<' => &[Mark16::LessEqual, Mark16::ShiftLeft, Mark16::Less],
        b'>' => &[Mark16::GreaterEqual, Mark16::Greater],
        b'=' => &[Mark16::Equal, Mark16::Assign],
        b'!' => &[Mark16::NotEqual, Mark16::Bang],
        b'+' => &[Mark16::PlusPlus, Mark16::Plus],
        b'{' => &[Mark16::BraceOpen],
        b'}' => &[Mark16::BraceClose],
        b'(' => &[Mark16::ParenOpen],
        b')' => &[Mark16::ParenClose],
        b'[' => &[Mark16::BracketOpen],
        b']' => &[Mark16::BracketClose],
        b';' => &[Mark16::Semicolon],
        b':' => &[Mark16::Colon],
        b',' => &[Mark16::Comma],
        b'-' => &[Mark16::Minus],
        b'*' => &[Mark16::Star],
        b'^' => &[Mark16::Caret],
        b'~' => &[Mark16::Tilde],
        b'?' => &[Mark16::Question],
        _ => &[],
    }
}
