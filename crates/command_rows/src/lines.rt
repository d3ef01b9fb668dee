// The lines of the input.
use crate::fault::Fault;
use std::alloc::Global;

/// Whether a line is an order: it begins with a small letter or with `=`.
pub fn is_order(line: &str) -> bool {
    match line.as_bytes() {
        [first, ..] => first.is_ascii_lowercase() || *first == b'=',
        [] => false,
    }
}

/// Whether a line says nothing: it is empty or begins with `#`.
pub fn is_silent(line: &str) -> bool {
    line.is_empty() || line.starts_with('#')
}

/// How many lines stand in front of the next order.
fn length_of(lines: &[&str]) -> usize {
    let end = lines.iter().position(|line| is_order(line));
    end.unwrap_or(lines.len())
}

/// So many lines, or all where there are fewer, and those behind them.
fn cut<'l, 'a>(lines: &'l [&'a str], count: usize) -> (&'l [&'a str], &'l [&'a str]) {
    lines.split_at(count.min(lines.len()))
}

/// The block that begins with a line.
pub fn block_at<'l, 'a>(lines: &'l [&'a str], from: usize) -> &'l [&'a str] {
    let left = cut(lines, from).1;
    cut(left, length_of(left)).0
}

/// No line of a block says anything.
pub fn expect_silent(block: &[&str]) -> Result<(), Fault> {
    for line in block {
        if !is_silent(line) {
            return Err(Fault::new("this line belongs to nothing"));
        }
    }
    Ok(())
}

/// The words of a text, between blanks; `''` is a word without letters.
pub fn words_of<'a>(alloc: Global, text: &'a str) -> Result<Vec<&'a str>, Fault> {
    let mut words = Vec::new(alloc);
    if text.is_empty() {
        return Ok(words);
    }
    for word in text.split(' ') {
        words.push(if word == "''" { "" } else { word })?;
    }
    Ok(words)
}

/// A word and what stands behind the blank that follows it.
pub fn first_word(text: &str) -> (&str, &str) {
    match text.split_once(' ') {
        Some(parts) => parts,
        None => (text, ""),
    }
}

/// The number that a word writes in decimal digits.
pub fn number_of(word: &str) -> Result<usize, Fault> {
    match word.parse() {
        Ok(number) => Ok(number),
        Err(_) => Err(Fault::new("a number is expected")),
    }
}
