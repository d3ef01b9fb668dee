// Lines.
ghost use Rattle.std.specs.Prelude.{◌≡◌, ◌<◌, ◌≤◌, ◌∷◌, [], length, IfNone, IfSome};
ghost use Rattle.std.specs.List.{position_or_len};
ghost use Rattle.std.specs.Str.Lines.{lines, strip_carriage_return};
ghost use Rattle.text_lines.specs.Places as places;
ghost use Rattle.text_lines.specs.internal.Lines.{is_line_feed};

use p4x_fault::{Fault, Place, Rule};

/// How many octets of the text stand before its first line feed.
fn line_size(text: &[u8]) -> usize
    ensures is { result ≡ position_or_len is_line_feed text.now }
    ensures within { result ≤ length text.now }
{
    text.iter().take_while(|octet| **octet != b'\n').count()
}

/// A line without the carriage return in front of the line feed that ends it.
fn without_return(line: &[u8]) -> &[u8]
    ensures { result.now ≡ strip_carriage_return line.now }
{
    match line {
        [front @ .., b'\r'] => front,
        _ => line,
    }
}

/// The first line of a text, and the text behind it; None where the text is empty, so has no line.
///
/// A line feed ends a line, and a carriage return in front of it is dropped. The end of the text ends its
/// last line, to which a carriage return there belongs. No memory is taken, and the time is linear in the
/// length of the line.
pub fn next_line(text: &[u8]) -> Option<(&[u8], &[u8])>
    ensures next { IfSome result (λ parts. lines text.now ≡ parts.0.now ∷ lines parts.1.now) }
    ensures shorter { IfSome result (λ parts. length parts.1.now < length text.now) }
    ensures none { IfNone result (lines text.now ≡ []) }
{
    if text.is_empty() {
        return None;
    }
    let (line, rest) = text.split_at(line_size(text));
    if rest.is_empty() {
        return Some((line, rest));
    }
    Some((without_return(line), rest.split_at(1).1))
}

/// The fault of a line, by its number from 1, that breaks a rule: its place is the line's column 1.
pub fn at_line(rule: Rule, line: u64) -> Fault
    ensures { result ≡ places.at_line rule line }
{
    let place = Some(Place { line, column: 1 });
    Fault { rule, place }
}
