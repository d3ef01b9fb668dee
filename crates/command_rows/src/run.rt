// One run of the commands, and what is shown of it.
use crate::fault::Fault;
use crate::octets::show_hex;
use crate::packets::show_capture;
use p4x_cmd::p4x;
use p4x_io::{HostDesk, MemorySink};
use std::rt::Files;
use std::{fs, str};

/// The outputs that words may name.
pub const OUTPUTS: [&str; 3] = ["--text", "--sent", "--report"];

/// The most octets that a run prints.
const MOST_PRINTED: usize = 65536;

/// The word behind an option: the options stand behind the command and its three names, each with its value behind it.
pub fn value_of<'a>(words: &[&'a str], option: &str) -> Option<&'a str> {
    for (place, word) in words.iter().enumerate() {
        if place >= 4 && place % 2 == 0 && *word == option {
            return words.get(place.saturating_add(1)).copied();
        }
    }
    None
}

/// The status and the printed line: a line feed inside is `^`, and the last one is left out.
fn show_end(out: &mut String, status: u8, printed: &[u8]) -> Result<(), Fault> {
    write!(out, "{status}")?;
    let Ok(line) = str::from_utf8(printed) else {
        return Err(Fault::new("what was printed is no text"));
    };
    if !line.is_empty() {
        out.push(' ')?;
    }
    for letter in line.strip_suffix('\n').unwrap_or(line).chars() {
        out.push(if letter == '\n' { '^' } else { letter })?;
    }
    out.push('\n')?;
    Ok(())
}

/// Runs the commands with these words over the files, and shows how it ended.
pub fn show_run<R: Files + AllocGlobal>(
    rt: &R,
    out: &mut String,
    words: &[&str],
) -> Result<(), Fault> {
    let alloc = rt.alloc();
    let mut owned = Vec::new(alloc);
    for word in words {
        owned.push(String::from_str(alloc, word)?)?;
    }
    let mut sink = MemorySink::new(alloc, MOST_PRINTED)?;
    let status = p4x(alloc, &owned, &mut HostDesk::new(rt), &mut sink);
    show_end(out, status, sink.text())
}

/// Shows a text, each line behind `|`; `bare` stands behind one that doesn't end with a line feed.
fn show_text(out: &mut String, text: &str) -> Result<(), Fault> {
    for line in text.split_inclusive('\n') {
        out.push('|')?;
        out.push_str(line)?;
    }
    if !text.is_empty() && !text.ends_with('\n') {
        out.push_str("\nbare\n")?;
    }
    Ok(())
}

/// Shows an output that is a text, or its octets where it is none.
fn show_lines(out: &mut String, octets: &[u8]) -> Result<(), Fault> {
    if let Ok(text) = str::from_utf8(octets) {
        return show_text(out, text);
    }
    out.push_str("octets ")?;
    show_hex(out, octets)?;
    out.push('\n')?;
    Ok(())
}

/// Shows an output where it is there: its name, and what it holds. One that holds what the known file does is shown by the name of that.
pub fn show_output<R: Files + AllocGlobal>(
    rt: &R,
    out: &mut String,
    known: &str,
    option: &str,
    name: &str,
) -> Result<(), Fault> {
    if !fs::exists(rt, name)? {
        return Ok(());
    }
    let octets = fs::read(rt, name)?;
    out.push_str(option.strip_prefix("--").unwrap_or(option))?;
    if !known.is_empty() && fs::read(rt, known)? == octets {
        out.push_str(" as ")?;
        out.push_str(known)?;
        out.push('\n')?;
        return Ok(());
    }
    out.push('\n')?;
    if option == "--sent" {
        show_capture(out, &octets)
    } else {
        show_lines(out, &octets)
    }
}
