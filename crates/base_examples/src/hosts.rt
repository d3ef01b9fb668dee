// The edge to the system, of which clauses say only when its count of faults rises.
use crate::halting::Halting;
use p4x_io::{Desk, Failed, HostDesk, HostSink, append_all, has_octet, read_file, say};
use std::alloc::Global;
use std::fs;
use std::fs::Files;

/// Makes a file of the system and appends a text to it.
fn made<R: Files>(desk: &mut HostDesk<'_, R>, name: &str, text: &[u8]) -> Result<(), Failed> {
    desk.make(name)?;
    append_all(desk, name, text)
}

/// Whether a file of the system holds these octets and no more.
fn holds<R: Files>(alloc: Global, desk: &mut HostDesk<'_, R>, name: &str, want: &[u8]) -> bool {
    match &read_file(alloc, desk, name, 1_000_000) {
        Ok(text) => text.as_slice() == want,
        Err(_) => false,
    }
}

/// Whether the desk fails where no file is.
pub fn fails_where_no_file_is<R: Files>(rt: &R) -> bool {
    let mut desk = HostDesk::new(rt);
    has_octet(&mut desk, "f", 0) == Err(Failed)
        && append_all(&mut desk, "f", b"abc") == Err(Failed)
        && made(&mut desk, "none/f", b"abc") == Err(Failed)
}

/// Makes each file with this text, or with its own name where that is empty.
fn are_made<R: Files>(desk: &mut HostDesk<'_, R>, names: &[&str], text: &[u8]) -> bool {
    for name in names {
        let content = if text.is_empty() {
            name.as_bytes()
        } else {
            text
        };
        if made(desk, name, content).is_err() {
            return false;
        }
    }
    true
}

fn are_grown<R: Files>(desk: &mut HostDesk<'_, R>, names: &[&str], text: &[u8]) -> bool {
    for name in names {
        if append_all(desk, name, text).is_err() {
            return false;
        }
    }
    true
}

fn all_hold<R: Files>(
    alloc: Global,
    desk: &mut HostDesk<'_, R>,
    names: &[&str],
    want: &[u8],
) -> bool {
    for name in names {
        if !holds(alloc, desk, name, want) {
            return false;
        }
    }
    true
}

/// Whether files hold half of a text and then the whole: four, and one of a long name.
fn are_kept<R: Files>(alloc: Global, desk: &mut HostDesk<'_, R>, long: &str, twice: &[u8]) -> bool {
    let names = ["f", "g", "h", "i"];
    let (text, _) = twice.split_at(twice.len() / 2);
    are_made(desk, &names, text)
        && made(desk, long, text).is_ok()
        && are_grown(desk, &names, text)
        && append_all(desk, long, text).is_ok()
        && all_hold(alloc, desk, &names, twice)
        && holds(alloc, desk, long, twice)
        && made(desk, "f", b"new").is_ok()
        && holds(alloc, desk, "f", b"new")
}

/// The same under a name that is too long to be kept.
fn are_kept_beside_a_long_name<R: Files>(alloc: Global, rt: &R, twice: &[u8]) -> bool {
    match &mut "./".repeat(alloc, 130) {
        Ok(long) => {
            long.push_str("k").is_ok()
                && are_kept(alloc, &mut HostDesk::new(rt), long.as_str(), twice)
        }
        Err(_) => false,
    }
}

/// Whether the desk keeps files of the system, more than stand open at once.
pub fn keeps_files<R: Files>(alloc: Global, rt: &R) -> bool {
    let mut twice = Vec::new(alloc);
    twice.resize(140_000, 7u8).is_ok() && are_kept_beside_a_long_name(alloc, rt, &twice)
}

/// Whether each file has an octet at a place.
fn have_octet<R: Files>(desk: &mut HostDesk<'_, R>, names: &[&str], place: u64) -> bool {
    for name in names {
        if has_octet(desk, name, place.min(100)) != Ok(true) {
            return false;
        }
    }
    true
}

fn are_removed<R: Files>(rt: &R, names: &[&str]) -> bool {
    for name in names {
        if fs::remove_file(rt, name).is_err() {
            return false;
        }
    }
    true
}

/// Whether the files that were used last stand open, which outlive their names: `aa` is read again behind `cc`, so `dd` takes the
/// place of `bb`.
pub fn keeps_the_files_used_last<R: Files>(rt: &R) -> bool {
    let mut desk = HostDesk::new(rt);
    let names = ["aa", "bb", "cc", "dd"];
    are_made(&mut desk, &names, b"xy")
        && have_octet(&mut desk, &["aa", "bb", "cc", "aa", "dd"], 0)
        && are_removed(rt, &names)
        && have_octet(&mut desk, &["aa", "cc", "dd"], 1)
        && has_octet(&mut desk, "bb", 1) == Err(Failed)
}

/// The octet of a file of the system at a place.
fn octet_at<R: Files>(desk: &mut HostDesk<'_, R>, name: &str, place: u64) -> Option<u8> {
    let mut octet = [0u8; 1];
    match desk.read(name, place.min(100), &mut octet) {
        Ok(1) => Some(octet[0]),
        _ => None,
    }
}

/// Whether the octet of a file at a place is that of its own name.
fn tells_its_name<R: Files>(desk: &mut HostDesk<'_, R>, name: &str, place: usize) -> bool {
    octet_at(desk, name, place as u64) == name.as_bytes().get(place).copied()
}

/// Whether files that hold their own names are read in turn.
pub fn reads_in_turn<R: Files>(rt: &R) -> bool {
    let mut desk = HostDesk::new(rt);
    let names = ["abc", "def", "ghi", "jkl", "mno"];
    if !are_made(&mut desk, &names, b"") {
        return false;
    }
    for place in 0..4 {
        for name in names {
            if !tells_its_name(&mut desk, name, place) {
                return false;
            }
        }
    }
    true
}

/// Whether a file is made and read at rising and falling places.
fn goes_well<R: Files>(rt: &R) -> bool {
    let mut desk = HostDesk::new(rt);
    made(&mut desk, "again", b"again").is_ok()
        && tells_its_name(&mut desk, "again", 1)
        && tells_its_name(&mut desk, "again", 0)
        && tells_its_name(&mut desk, "again", 9)
}

/// Whether calls that are interrupted 999 times each are made again.
pub fn makes_calls_again<R: Files + Drop>(rt: R) -> bool {
    goes_well(&Halting::new(rt, 999))
}

/// Whether calls that are interrupted 1,000 times are given up.
pub fn gives_up<R: Files + Drop>(rt: R) -> bool {
    let halting = Halting::new(rt, 1000);
    let mut desk = HostDesk::new(&halting);
    made(&mut desk, "never", b"text") == Err(Failed)
        && has_octet(&mut desk, "never", 0) == Err(Failed)
}

fn is_said<R: Print>(rt: &R, line: &[u8], status: u8) -> bool {
    say(&mut HostSink::new(rt), line, 3) == status
}

/// Whether lines are printed: at once, at the last try, and not at all where that fails too.
pub fn prints<R: Print + Drop>(rt: &R) -> bool {
    is_said(rt, b"printed by the host sink\n", 3)
        && is_said(&Halting::new(rt, 999), b"printed at the last try\n", 3)
        && is_said(&Halting::new(rt, 1000), b"never printed\n", 1)
}
