// Words.
ghost use Rattle.std.specs.Prelude.{◌≡◌, ◌<◌, ◌≤◌, ◌∷◌, [], length, map, IfNone, IfOk, IfSome};
ghost use Rattle.std.specs.List.{prefix_len};
ghost use Rattle.text_lines.specs.Words.{is_blank, is_some_word, words_of, is_comment};
ghost use Rattle.text_lines.specs.internal.Words.{is_in_word};

use std::alloc::{AllocError, Global};

fn is_blank(octet: u8) -> bool
    ensures { result ≡ is_blank octet }
{
    octet == b' ' || octet == b'\t'
}

/// Whether a word has an octet.
fn is_some_word(word: &[u8]) -> bool
    ensures { result ≡ is_some_word word.now }
{
    !word.is_empty()
}

/// How many octets at the front of a line are blanks.
fn blank_size(line: &[u8]) -> usize
    ensures is { result ≡ prefix_len is_blank line.now }
    ensures within { result ≤ length line.now }
{
    line.iter().take_while(|octet| is_blank(**octet)).count()
}

/// How many octets at the front of a line belong to a word.
fn word_size(line: &[u8]) -> usize
    ensures is { result ≡ prefix_len is_in_word line.now }
    ensures within { result ≤ length line.now }
{
    line.iter().take_while(|octet| !is_blank(**octet)).count()
}

/// The first word of a line, and the line behind it; None where the line has no word.
///
/// Words are separated by spaces and tabs, and each has an octet at least. No memory is taken, and the time
/// is linear in the length of the word and of the blanks before it.
pub fn next_word(line: &[u8]) -> Option<(&[u8], &[u8])>
    ensures next { IfSome result (λ parts. words_of line.now ≡ parts.0.now ∷ words_of parts.1.now) }
    ensures shorter { IfSome result (λ parts. length parts.1.now < length line.now) }
    ensures none { IfNone result (words_of line.now ≡ []) }
{
    let (_, rest) = line.split_at(blank_size(line));
    if rest.is_empty() {
        return None;
    }
    Some(rest.split_at(word_size(rest)))
}

/// The words of a line, in order. The error is want of memory.
pub fn words<'t>(alloc: Global, line: &'t [u8]) -> Result<Vec<&'t [u8]>, AllocError>
    ensures { IfOk result (λ words. map (λ word. word.now) words.items ≡ words_of line.now) }
{
    line.split(|octet| is_blank(*octet))
        .filter(|word| is_some_word(word))
        .collect(alloc)
}

/// Whether a line is a comment, by its first word: it is one where the word begins with `#`.
pub fn is_comment(first: &[u8]) -> bool
    ensures { result ≡ is_comment first.now }
{
    first.starts_with(b"#")
}
