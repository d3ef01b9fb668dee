// The files that rows make.
use crate::fault::Fault;
use crate::lines::{block_at, expect_silent, first_word, is_silent, number_of, words_of};
use crate::octets::add_octets;
use crate::packets::add_capture;
use std::alloc::Global;
use std::fs;
use std::fs::{OpenFile, OpenOptions};
use std::rt::Files;

/// Puts a copy of a line behind a text, in which `%` is its number and `#` the next number.
fn add_copy(file: &mut String, text: &str, number: usize) -> Result<(), Fault> {
    for letter in text.chars() {
        match letter {
            '%' => write!(file, "{number}")?,
            '#' => write!(file, "{}", number.saturating_add(1))?,
            _ => file.push(letter)?,
        }
    }
    file.push('\n')?;
    Ok(())
}

/// Puts a line of a text behind it: `|` and the line, or `*N` and a line that stands N times.
pub fn add_line(file: &mut String, line: &str) -> Result<(), Fault> {
    if let Some(text) = line.strip_prefix('|') {
        file.push_str(text)?;
        file.push('\n')?;
        return Ok(());
    }
    let Some(told) = line.strip_prefix('*') else {
        return Err(Fault::new("this is no line of a text"));
    };
    let (count, text) = first_word(told);
    for number in 0..number_of(count)? {
        add_copy(file, text, number)?;
    }
    Ok(())
}

/// The text of a block.
fn text_of(alloc: Global, block: &[&str]) -> Result<String, Fault> {
    let mut file = String::new(alloc);
    for line in block {
        if !is_silent(line) {
            add_line(&mut file, line)?;
        }
    }
    Ok(file)
}

/// The lines behind `+` that a block begins with.
fn new_lines(alloc: Global, block: &[&str]) -> Result<String, Fault> {
    let mut file = String::new(alloc);
    for line in block {
        let Some(new) = line.strip_prefix('+') else {
            break;
        };
        if !new.is_empty() {
            file.push_str(new)?;
            file.push('\n')?;
        }
    }
    Ok(file)
}

/// The text in which the one line that is `old`, but for blanks at its ends, is replaced by `new`.
pub fn replaced(alloc: Global, text: &str, old: &str, new: &str) -> Result<String, Fault> {
    let mut file = String::new(alloc);
    let mut found = 0usize;
    for line in text.split_inclusive('\n') {
        if line.trim() == old.trim() {
            found = found.saturating_add(1);
            file.push_str(new)?;
        } else {
            file.push_str(line)?;
        }
    }
    if found != 1 {
        return Err(Fault::new("not one line of the file is that which goes"));
    }
    Ok(file)
}

/// A text with the changes of a block.
fn changed(alloc: Global, text: String, block: &[&str]) -> Result<String, Fault> {
    let mut file = text;
    for (at, line) in block.iter().enumerate() {
        if let Some(old) = line.strip_prefix('-') {
            let new = new_lines(alloc, block_at(block, at.saturating_add(1)))?;
            file = replaced(alloc, &file, old, &new)?;
        } else if !is_silent(line) && !line.starts_with('+') {
            return Err(Fault::new("this is no change of a line"));
        }
    }
    Ok(file)
}

/// A file that is made of the lines of a block, with or without the last line feed, or of another file by its changes.
fn text_content<R: Files + AllocGlobal>(
    rt: &R,
    how: &str,
    base: &str,
    block: &[&str],
) -> Result<String, Fault> {
    let alloc = rt.alloc();
    if how == "from" {
        return changed(alloc, fs::read_to_string(rt, base)?, block);
    }
    let mut text = text_of(alloc, block)?;
    if how == "bare" {
        let _feed = text.pop();
    }
    Ok(text)
}

/// A file with blanks behind it up to a size: the words are its name and the size.
fn filled<R: Files + AllocGlobal>(rt: &R, words: &str) -> Result<Vec<u8>, Fault> {
    let (base, size) = first_word(words);
    let size = number_of(size)?;
    let mut file = fs::read(rt, base)?;
    if size < file.len() {
        return Err(Fault::new("the file has more octets"));
    }
    file.resize(size, b' ')?;
    Ok(file)
}

/// A file that is made of the words behind its name.
fn octet_content<R: Files + AllocGlobal>(rt: &R, how: &str, words: &str) -> Result<Vec<u8>, Fault> {
    if how == "filled" {
        return filled(rt, words);
    }
    let mut file = Vec::new(rt.alloc());
    let words = words_of(rt.alloc(), words)?;
    match how {
        "octets" => {
            for word in &words {
                add_octets(&mut file, word)?;
            }
        }
        "packets" => add_capture(&mut file, &words)?,
        _ => return Err(Fault::new("there is no such order")),
    }
    Ok(file)
}

/// A file of so many octets that are 0, of which none is written.
fn make_hole<R: Files>(rt: &R, name: &str, size: usize) -> Result<(), Fault> {
    let mut how = OpenOptions::new();
    how.write(true).create(true).truncate(true);
    let file = how.open(rt, name)?;
    file.set_len(size as u64)?;
    Ok(())
}

/// Makes a file: the words behind the order are its name and what it is made of.
pub fn make_file<R: Files + AllocGlobal>(
    rt: &R,
    how: &str,
    told: &str,
    block: &[&str],
) -> Result<(), Fault> {
    let (name, rest) = first_word(told);
    if matches!(how, "file" | "bare" | "from") {
        fs::write(rt, name, text_content(rt, how, rest, block)?)?;
        return Ok(());
    }
    expect_silent(block)?;
    if how == "hole" {
        return make_hole(rt, name, number_of(rest)?);
    }
    fs::write(rt, name, octet_content(rt, how, rest)?)?;
    Ok(())
}
