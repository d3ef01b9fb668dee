// Lines that stand for nothing.
ghost use Rattle.std.specs.Prelude.{◌≡◌, ◌<◌, ◌≤◌, length, slice_index, IfOk};
ghost use Rattle.std.specs.List.{prefix_len, list_all};
ghost use Rattle.token_division.specs.Octets as octets;
ghost use Rattle.p414_tok.specs.Lines as lines;

use p4x_fault::Rule;
use token_division::octets::{
    blank_size, decimal_size, is_blank, is_decimal, is_word, line_size, octet_at,
};

/// The length of the line marker that the text begins with, without the line feed behind it. A name that
/// isn't closed on its line breaks L2, any other line that isn't a line marker L4.
pub fn marker_size(text: &[u8]) -> Result<usize, Rule>
    requires { slice_index text.now 0 ≡ 35 }
    ensures is { result ≡ lines.marker_size text.now }
    ensures within { IfOk result (λ size. (0 < size) × (size ≤ length text.now)) }
{
    let (line, _) = text.split_at(line_size(text));
    check_marker(line)?;
    Ok(line.len())
}

/// The length of `@pragma` and the rest of its line. Any other `@` breaks L1.
pub fn pragma_size(text: &[u8]) -> Result<usize, Rule>
    ensures is { result ≡ lines.pragma_size text.now }
    ensures within { IfOk result (λ size. (0 < size) × (size ≤ length text.now)) }
{
    if text.starts_with(b"@pragma") && !is_word(octet_at(text, 7)) {
        Ok(line_size(text))
    } else {
        Err(Rule::L(1))
    }
}

/// Checks a line that begins with `#`.
fn check_marker(line: &[u8]) -> Result<(), Rule>
    requires { 0 < length line.now }
    ensures { result ≡ lines.check_marker line.now }
{
    let (_, number) = line.split_at(marker_word_size(line));
    check_number(behind_blanks(number))
}

/// The length of the word that a line marker begins with.
fn marker_word_size(line: &[u8]) -> usize
    requires { 0 < length line.now }
    ensures is { result ≡ lines.marker_word_size line.now }
    ensures within { result ≤ length line.now }
{
    if line.starts_with(b"#line") { 5 } else { 1 }
}

/// Checks what stands behind the word and blanks: the first number.
fn check_number(line: &[u8]) -> Result<(), Rule>
    ensures { result ≡ lines.check_number line.now }
{
    if is_decimal(octet_at(line, 0)) {
        check_name(behind_blanks(behind_decimals(line)))
    } else {
        Err(Rule::L(4))
    }
}

/// Checks what stands behind the first number: a name in quotes or further numbers.
fn check_name(line: &[u8]) -> Result<(), Rule>
    ensures { result ≡ lines.check_name line.now }
{
    if octet_at(line, 0) != b'"' {
        return check_numbers(line);
    }
    let (_, name) = line.split_at(1);
    let size = name_size(name);
    if size < name.len() {
        let (_, rest) = name.split_at(size + 1);
        check_numbers(rest)
    } else {
        Err(Rule::L(2))
    }
}

/// Checks the end of a line marker: further numbers.
fn check_numbers(line: &[u8]) -> Result<(), Rule>
    ensures { result ≡ lines.check_numbers line.now }
{
    if are_blanks_or_decimals(line) {
        Ok(())
    } else {
        Err(Rule::L(4))
    }
}

fn are_blanks_or_decimals(line: &[u8]) -> bool
    ensures { result ≡ list_all lines.is_blank_or_decimal line.now }
{
    line.iter()
        .all(|octet| is_blank(*octet) || is_decimal(*octet))
}

/// How many octets stand before the next quote.
fn name_size(line: &[u8]) -> usize
    ensures { result ≡ prefix_len lines.is_not_quote line.now }
{
    line.iter().take_while(|octet| **octet != b'"').count()
}

/// What stands behind the blanks at the front of the line.
fn behind_blanks(line: &[u8]) -> &[u8]
    ensures { result.now ≡ lines.behind_run octets.is_blank line.now }
{
    line.split_at(blank_size(line)).1
}

/// What stands behind the decimal digits at the front of the line.
fn behind_decimals(line: &[u8]) -> &[u8]
    ensures { result.now ≡ lines.behind_run octets.is_decimal line.now }
{
    line.split_at(decimal_size(line)).1
}
