// Runs rows over the files of the folder that it stands in: each row makes files, runs commands of `p4x` by their words, and shows what
// came of them. The rows are the lines of the standard input, and what they show is printed.
//
// A line that begins with a small letter or with `=` is an order; the lines behind it up to the next order are its block. An empty line and
// one that begins with `#` say nothing. Words stand between single blanks, and `''` is a word without letters.
//
//     == NAME                begins a row, named for what it shows. What the row before made by its runs goes.
//     file F                 F has the lines of the block: `|TEXT` is the line TEXT, and `*N TEXT` is N such lines, in which `%` is the
//                            number of the line, from 0, and `#` that number and 1.
//     bare F                 the same without the last line feed.
//     octets F HEX ..        F has these octets, in small hexadecimal digits; `HEX*N` has them N times.
//     packets F HEX ..       F is a capture of link type 1 with these packets, each at time 0; `HEX*N` is a packet N times, `''` an
//                            empty one, and `+HEX` are octets that stand there as they are.
//     from F B               F is the file B with changes: a line `-OLD` names the one line that is OLD, but for blanks at its ends, and
//                            the lines `+NEW` behind it come in its place. `+` alone, or nothing, takes it away.
//     filled F B N           F is the file B with blanks behind it up to N octets.
//     hole F N               F has N octets, all 0; the system needs no room for them.
//     run WORD ..            runs the words, and shows a line `STATUS LINE`. Behind it stand, for each of --text, --sent and --report that
//                            the words have and whose file is there, a line with the option's name and the lines of the file.
//     known F                in this row an output that holds what the file F does is shown by `as F` behind its option's name alone.
//     each WORD ..           begins a table, which runs these words once for each of its texts, as the file `row`.
//     before, behind         the block has lines, as of `file`, that stand in `row` before and behind the text.
//     - NAME: TEXT           in the block of these three: a row of the table, which shows `- NAME: STATUS LINE`. The name ends at the first
//                            colon with a blank behind it, or at the end of the line. In the text `^` is a line feed and a backquote is
//                            `^`, and a line `*N TEXT` of it is the line TEXT N times. `row` has no other line feed behind the text.
//     from B                 in the place of before and behind: `row` is the file B, and the rows of the table are
//     - NAME: OLD^NEW^ ..    changes: the one line that is OLD becomes NEW, and so on; an empty NEW takes it away.
//
// A printed line feed is shown as `^`, but for the last. A text is shown with `|` in front of each line, and `bare` behind it where it
// doesn't end with a line feed. A capture is shown with a line `packet HEX` for each packet at time 0; `octets HEX` is a file header other
// than that of link type 1 in microseconds, and `octets HEX HEX` a record of another time, or what is left at the end.
//
// A file stays until it is made again, but for outputs that weren't there before their row. A line that is none of these ends the
// program with a line that names it, and status 1.
#![tactic(auto)]

mod fault;
mod files;
mod lines;
mod octets;
mod packets;
mod rows;
mod run;
mod table;

use fault::Fault;
use lines::{block_at, expect_silent, is_order};
use rows::Rows;
use std::io;
use std::process::ExitCode;
use std::rt::Files;

/// The place of a line, counted from 1, and what is wrong with it.
type Stop = (usize, Fault);

/// Follows the orders of these lines. A fault comes with the number of its line.
fn run_lines<R: Files + Print + AllocGlobal>(rt: &R, lines: &[&str]) -> Result<(), Stop> {
    if let Err(fault) = expect_silent(block_at(lines, 0)) {
        return Err((1, fault));
    }
    let mut rows = Rows::new(rt, lines);
    for (at, line) in lines.iter().enumerate() {
        if is_order(line) {
            if let Err(fault) = rows.follow(at) {
                return Err((at.saturating_add(1), fault));
            }
        }
    }
    match rows.end() {
        Ok(()) => Ok(()),
        Err(fault) => Err((lines.len(), fault)),
    }
}

/// Reads the rows and follows them.
fn run_rows<R: Files + Print + Input + AllocGlobal>(rt: &R) -> Result<(), Stop> {
    let alloc = rt.alloc();
    let Ok(text) = io::read_to_string(alloc, rt.reader()) else {
        return Err((0, Fault::new("the rows can't be read")));
    };
    let mut lines = Vec::new(alloc);
    for line in text.split('\n') {
        if lines.push(line).is_err() {
            return Err((0, Fault::new("there was no memory left")));
        }
    }
    run_lines(rt, &lines)
}

fn main(rt: HostRuntime) -> ExitCode {
    match run_rows(&rt) {
        Ok(()) => ExitCode::SUCCESS,
        Err((line, fault)) => {
            let _told = rt.println(format_args!("error at line {line}: {}", fault.words));
            ExitCode::FAILURE
        }
    }
}
