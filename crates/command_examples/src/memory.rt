// Want of memory, wherever it comes: `rt try --test --fail-alloc N` makes the Nth allocation fail.
use crate::setting::{CARRY, REPORT, SENT, TEXT, desk, words_of};
use p4x_cmd::p4x;
use p4x_io::{MemoryDesk, MemorySink};
use std::process::Abort;
use std::test::Fail;

/// An output of a run that wanted memory isn't made, or holds a front of its content.
fn has_front(desk: &MemoryDesk, name: &str, content: &[u8]) -> bool {
    match desk.file(name) {
        Some(octets) => content.starts_with(octets),
        None => true,
    }
}

/// The line of a run that ended with status 0 or 7.
fn line_of(status: u8) -> &'static [u8] {
    match status {
        0 => b"carried 1 1 0\n",
        7 => b"no memory\n",
        _ => b"neither",
    }
}

/// A run ends with status 0 or 7. Where it is the setting that wants memory, the test ends with that error.
#[test]
fn want_of_memory_is_said(rt: HostRuntime) -> Result<(), Fail> {
    let alloc = rt.alloc();
    let mut desk = desk(alloc)?;
    let mut sink = MemorySink::new(alloc, 100)?;
    let words = words_of(alloc, CARRY)?;
    let status = p4x(alloc, &words, &mut desk, &mut sink);
    assert!(&rt; sink.text() == line_of(status), "status {status}");
    assert!(&rt; has_front(&desk, "t", TEXT), "the text");
    assert!(&rt; has_front(&desk, "s", SENT), "the sent file");
    assert!(&rt; has_front(&desk, "r", REPORT), "the report");
    Ok(())
}
