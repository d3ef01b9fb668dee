// Classes of octets, and runs of them.
ghost use Rattle.std.specs.Prelude.{◌≡◌, ◌≤◌, length, slice_index};
ghost use Rattle.std.specs.List.{prefix_len};
ghost use Rattle.token_division.specs.Octets as octets;

/// Whether the octet is a space, a tab, a line feed, a vertical tab, a form feed or a carriage return.
pub fn is_blank(octet: u8) -> bool
    ensures { result ≡ octets.is_blank octet }
{
    matches!(octet, b' ' | 9..=13)
}

/// Whether the octet is a line feed.
pub fn is_line_feed(octet: u8) -> bool
    ensures { result ≡ octets.is_line_feed octet }
{
    octet == b'\n'
}

/// Whether the octet is a letter or `_`.
pub fn is_letter(octet: u8) -> bool
    ensures { result ≡ octets.is_letter octet }
{
    octet == b'_' || octet.is_ascii_alphabetic()
}

/// Whether the octet is a decimal digit.
pub fn is_decimal(octet: u8) -> bool
    ensures { result ≡ octets.is_decimal octet }
{
    matches!(octet, b'0'..=b'9')
}

/// Whether the octet is a letter, `_` or a decimal digit.
pub fn is_word(octet: u8) -> bool
    ensures { result ≡ octets.is_word octet }
{
    is_letter(octet) || is_decimal(octet)
}

/// The octet of the text at `at`, and 0 past its end.
pub fn octet_at(text: &[u8], at: usize) -> u8
    ensures { result ≡ slice_index text.now at }
{
    text.get(at).copied().unwrap_or(0)
}

/// How many octets at the front of the text belong to a word.
pub fn word_size(text: &[u8]) -> usize
    ensures is { result ≡ prefix_len octets.is_word text.now }
    ensures within { result ≤ length text.now }
{
    text.iter().take_while(|octet| is_word(**octet)).count()
}

/// How many octets at the front of the text are blanks.
pub fn blank_size(text: &[u8]) -> usize
    ensures is { result ≡ prefix_len octets.is_blank text.now }
    ensures within { result ≤ length text.now }
{
    text.iter().take_while(|octet| is_blank(**octet)).count()
}

/// How many octets at the front of the text are decimal digits.
pub fn decimal_size(text: &[u8]) -> usize
    ensures is { result ≡ prefix_len octets.is_decimal text.now }
    ensures within { result ≤ length text.now }
{
    text.iter().take_while(|octet| is_decimal(**octet)).count()
}

/// How many octets at the front of the text stand before the end of its first line.
pub fn line_size(text: &[u8]) -> usize
    ensures is { result ≡ prefix_len octets.is_on_line text.now }
    ensures within { result ≤ length text.now }
{
    text.iter()
        .take_while(|octet| !is_line_feed(**octet))
        .count()
}
