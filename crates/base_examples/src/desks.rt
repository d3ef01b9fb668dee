// Desks and sinks in memory.
use p4x_io::{
    Desk, Failed, MemoryDesk, MemorySink, ReadFault, Sink, append_all, has_octet, print_all,
    read_file, say,
};
use std::alloc::Global;

#[derive(Clone, Copy)]
enum Step {
    Read(u64),
    Make,
    Append(&'static [u8]),
}

/// One call on the file `f` of a desk in memory.
fn take_step(desk: &mut MemoryDesk, step: Step, into: &mut [u8; 8]) -> Result<usize, Failed> {
    match step {
        Step::Read(place) if place <= 100 => desk.read("f", place, into),
        Step::Make => match desk.make("f") {
            Ok(()) => Ok(0),
            Err(fault) => Err(fault),
        },
        Step::Append(piece) if !piece.is_empty() && desk.file("f").is_some() => {
            desk.append("f", piece)
        }
        _ => Err(Failed),
    }
}

/// Steps, what each answers, and the file behind it.
static STEPS: [(Step, Result<usize, Failed>, Option<&[u8]>); 13] = [
    (Step::Read(0), Err(Failed), None),
    (Step::Make, Ok(0), Some(b"")),
    (Step::Append(b"abc"), Ok(3), Some(b"abc")),
    (Step::Read(1), Err(Failed), Some(b"abc")),
    (Step::Append(b"de"), Err(Failed), Some(b"abc")),
    (Step::Append(b"de"), Ok(1), Some(b"abcd")),
    (Step::Append(b"e"), Err(Failed), Some(b"abcd")),
    (Step::Read(1), Ok(3), Some(b"abcd")),
    (Step::Read(4), Ok(0), Some(b"abcd")),
    (Step::Read(9), Ok(0), Some(b"abcd")),
    (Step::Make, Ok(0), Some(b"")),
    (Step::Append(b"vwxyz"), Ok(4), Some(b"vwxy")),
    (Step::Read(2), Ok(2), Some(b"vwxy")),
];

fn steps() -> &'static [(Step, Result<usize, Failed>, Option<&'static [u8]>)] {
    &STEPS
}

/// The place of the first step that a desk answers otherwise, which has room for four octets in `f`, and fails at its second read and
/// its second write there.
fn failing_step(desk: &mut MemoryDesk, into: &mut [u8; 8]) -> Option<usize> {
    for (place, (step, answer, file)) in steps().iter().enumerate() {
        if take_step(desk, *step, into) != *answer || desk.file("f") != *file {
            return Some(place);
        }
    }
    None
}

/// Whether a desk in memory fails where it was asked to, and nowhere else.
pub fn fails_where_it_was_asked(alloc: Global) -> bool {
    let mut desk = MemoryDesk::new(alloc);
    let mut into = [0; 8];
    // there is no room before any is given
    take_step(&mut desk, Step::Make, &mut into) == Err(Failed)
        && desk.room("f", 4).is_ok()
        && desk.fail_read("f", 2).is_ok()
        && desk.fail_append("f", 2).is_ok()
        && failing_step(&mut desk, &mut into).is_none()
        && into[0] == b'x'
        && into[1] == b'y'
        && desk.put("f", b"longer").is_ok()
        && desk.file("f") == Some(b"longer".as_slice())
        && desk.file("g").is_none()
}

/// One write, as any sink takes it.
fn write<K: Sink>(out: &mut K, piece: &[u8]) -> Result<usize, Failed> {
    if piece.is_empty() {
        return Err(Failed);
    }
    out.write(piece)
}

fn is_full_behind_five(sink: &mut MemorySink) -> bool {
    sink.fail_write(2).is_ok()
        && write(sink, b"abc") == Ok(3)
        && write(sink, b"d") == Err(Failed)
        && write(sink, b"defg") == Ok(2)
        && write(sink, b"f") == Err(Failed)
        && sink.text() == b"abcde".as_slice()
}

/// Whether a line that fails gives status 1.
fn says(sink: &mut MemorySink) -> bool {
    say(sink, b"accepted\n", 0) == 0
        && say(sink, b"usage\n", 2) == 1
        && sink.text() == b"accepted\nusa".as_slice()
        && print_all(sink, b"") == Ok(())
}

/// Whether a sink in memory fails where it was asked to.
pub fn sinks_fail(alloc: Global) -> bool {
    match (
        &mut MemorySink::new(alloc, 5),
        &mut MemorySink::new(alloc, 12),
    ) {
        (Ok(sink), Ok(other)) => is_full_behind_five(sink) && says(other),
        _ => false,
    }
}

/// Appends a text to a file of a desk in memory that is there.
fn append_there(desk: &mut MemoryDesk, name: &str, text: &[u8]) -> Result<(), Failed> {
    if desk.file(name).is_none() {
        return Err(Failed);
    }
    append_all(desk, name, text)
}

/// How many octets the file `f` has, under a limit.
fn size_of(alloc: Global, desk: &mut MemoryDesk, limit: usize) -> Result<usize, ReadFault> {
    match &read_file(alloc, desk, "f", limit.min(100_000)) {
        Ok(text) => Ok(text.len()),
        Err(fault) => Err(*fault),
    }
}

fn size_there(desk: &MemoryDesk, name: &str) -> usize {
    desk.file(name).map_or(0, |octets| octets.len())
}

/// Whether a text of 70,000 octets goes in pieces; where the room of a file ends in the second piece, the first and a part of it stand
/// there.
fn go_in_pieces(alloc: Global, desk: &mut MemoryDesk, text: &[u8]) -> bool {
    size_of(alloc, desk, 70_000) == Err(ReadFault::Failed)
        && desk.put("f", text).is_ok()
        && size_of(alloc, desk, 70_000) == Ok(70_000)
        && size_of(alloc, desk, 69_999) == Err(ReadFault::Limit)
        && has_octet(desk, "f", 69_999) == Ok(true)
        && has_octet(desk, "f", 70_000) == Ok(false)
        && has_octet(desk, "g", 0) == Err(Failed)
        && desk.put("g", b"").is_ok()
        && desk.room("g", 65_540).is_ok()
        && append_there(desk, "g", text) == Err(Failed)
        && size_there(desk, "g") == 65_540
        && desk.put("h", b"a").is_ok()
        && desk.room("h", 70_001).is_ok()
        && append_there(desk, "h", text) == Ok(())
        && size_there(desk, "h") == 70_001
}

/// The same of a text of its own.
pub fn whole_files_go_in_pieces(alloc: Global) -> bool {
    let mut text = Vec::new(alloc);
    text.resize(70_000, 7u8).is_ok() && go_in_pieces(alloc, &mut MemoryDesk::new(alloc), &text)
}
