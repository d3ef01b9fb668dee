// Tables of texts.
use crate::fault::Fault;
use crate::files::{add_line, replaced};
use crate::lines::{block_at, first_word, number_of};
use std::alloc::Global;
use std::fs;
use std::rt::Files;

/// A table: the words that are run over each of its texts; the file that its rows change, if any; and where the blocks begin that have the
/// lines before and behind a text.
#[derive(Clone, Copy, Drop)]
pub struct Table<'a> {
    pub told: &'a str,
    pub base: &'a str,
    pub before: Option<usize>,
    pub behind: Option<usize>,
}

impl<'a> Table<'a> {
    /// A table of these words.
    pub fn new(told: &'a str) -> Self {
        Table {
            told,
            base: "",
            before: None,
            behind: None,
        }
    }
}

/// The name of a row of a table, and its text.
pub fn parted(told: &str) -> Result<(&str, &str), Fault> {
    if let Some(parts) = told.split_once(": ") {
        return Ok(parts);
    }
    match told.strip_suffix(':') {
        Some(name) => Ok((name, "")),
        None => Err(Fault::new("the row has no name with a colon")),
    }
}

/// Whether a line of a table is one of the lines before or behind its texts.
pub fn is_of_text(line: &str) -> bool {
    line.starts_with('|') || line.starts_with('*')
}

/// Puts the lines of a text that a block has, if there is one, behind a file.
fn add_lines(file: &mut String, lines: &[&str], from: Option<usize>) -> Result<(), Fault> {
    let Some(from) = from else {
        return Ok(());
    };
    for line in block_at(lines, from) {
        if is_of_text(line) {
            add_line(file, line)?;
        }
    }
    Ok(())
}

/// Puts a line of a text behind a file, in which a backquote is `^`.
fn add_letters(file: &mut String, line: &str) -> Result<(), Fault> {
    for letter in line.chars() {
        file.push(if letter == '`' { '^' } else { letter })?;
    }
    Ok(())
}

/// The number and the line of `*N TEXT`.
fn copies_in(line: &str) -> Result<(usize, &str), Fault> {
    match line.as_bytes() {
        [b'*', digit, ..] if digit.is_ascii_digit() => {
            let (count, text) = first_word(line.trim_start_matches('*'));
            Ok((number_of(count)?, text))
        }
        _ => Ok((1, line)),
    }
}

/// Puts a text whose lines are cut by `^` behind a file. It ends without a line feed.
fn add_cell(file: &mut String, cell: &str) -> Result<(), Fault> {
    let mut begun = false;
    for line in cell.split('^') {
        let (count, text) = copies_in(line)?;
        for _ in 0..count {
            if begun {
                file.push('\n')?;
            }
            begun = true;
            add_letters(file, text)?;
        }
    }
    Ok(())
}

/// The text with the changes of a row: the lines that go and those that come in their places, in turn.
fn changed(alloc: Global, text: String, cell: &str) -> Result<String, Fault> {
    let mut file = text;
    let mut old = None;
    for line in cell.split('^') {
        match old {
            None => old = Some(line),
            Some(goes) => {
                let mut new = String::new(alloc);
                if !line.is_empty() {
                    add_letters(&mut new, line)?;
                    new.push('\n')?;
                }
                file = replaced(alloc, &file, goes, &new)?;
                old = None;
            }
        }
    }
    if old.is_some() {
        return Err(Fault::new("no line comes in the place of the last that goes"));
    }
    Ok(file)
}

/// The text of a row of a table, which stands in these lines.
pub fn text_of_row<R: Files + AllocGlobal>(
    rt: &R,
    lines: &[&str],
    table: Table<'_>,
    cell: &str,
) -> Result<String, Fault> {
    if !table.base.is_empty() {
        return changed(rt.alloc(), fs::read_to_string(rt, table.base)?, cell);
    }
    let mut file = String::new(rt.alloc());
    add_lines(&mut file, lines, table.before)?;
    add_cell(&mut file, cell)?;
    add_lines(&mut file, lines, table.behind)?;
    Ok(file)
}
