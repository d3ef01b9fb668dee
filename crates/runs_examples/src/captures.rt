// Runs of captures in memory over the runner that sends each packet twice.
use crate::twice::Twice;
use file_work::Stop;
use p4x_bits::OutOfMemory;
use p4x_fault::{Fault, Rule};
use p4x_io::{Desk, MemoryDesk};
use run_stream::{Counts, RunNames, run_capture};
use std::alloc::Global;

/// The header of a capture of link type 1.
const HEADER: &[u8] =
    b"\xd4\xc3\xb2\xa1\x02\x00\x04\x00\x00\x00\x00\x00\x00\x00\x00\x00\xff\xff\x00\x00\x01\x00\x00\x00";

/// The header that a sent file of that link type has.
const SENT_HEADER: &[u8] =
    b"\xd4\xc3\xb2\xa1\x02\x00\x04\x00\x00\x00\x00\x00\x00\x00\x00\x00\x00\x00\x04\x00\x01\x00\x00\x00";

/// A record of three octets, of second 1 and microsecond 2.
const RECORD: &[u8] = b"\x01\x00\x00\x00\x02\x00\x00\x00\x03\x00\x00\x00\x03\x00\x00\x00abc";

/// These parts, one behind another.
fn joined(alloc: Global, parts: &[&[u8]]) -> Result<Vec<u8>, OutOfMemory> {
    let mut octets = Vec::new(alloc);
    for part in parts {
        octets.extend_from_slice(*part)?;
    }
    Ok(octets)
}

/// Puts the capture of these parts on a desk, and room for the sent file and the report.
fn is_put(alloc: Global, desk: &mut MemoryDesk, capture: &[&[u8]]) -> bool {
    match joined(alloc, capture) {
        Ok(octets) => {
            desk.put("c", &octets).is_ok()
                && desk.room("s", 4096).is_ok()
                && desk.room("r", 4096).is_ok()
        }
        Err(_) => false,
    }
}

/// Makes the sent file and the report, and runs the capture.
fn run<D: Desk>(alloc: Global, desk: &mut D) -> Result<Counts, Stop> {
    desk.make("s")?;
    desk.make("r")?;
    let mut runner = Twice::new(alloc, 3);
    let names = RunNames {
        capture: "c",
        sent: "s",
        report: "r",
    };
    run_capture(alloc, desk, &names, &mut runner, &[])
}

/// Whether the file of a name holds these parts.
fn holds(alloc: Global, desk: &MemoryDesk, name: &str, parts: &[&[u8]]) -> bool {
    match (desk.file(name), joined(alloc, parts)) {
        (Some(octets), Ok(due)) => octets == due.as_slice(),
        _ => false,
    }
}

/// Whether the run of a capture ends so, and leaves these parts of the sent file and this report.
fn ends(
    alloc: Global,
    desk: &mut MemoryDesk,
    capture: &[&[u8]],
    due: Result<Counts, Stop>,
    sent: &[&[u8]],
    report: &[u8],
) -> bool {
    is_put(alloc, desk, capture)
        && run(alloc, desk) == due
        && holds(alloc, desk, "s", sent)
        && holds(alloc, desk, "r", &[report])
}

/// Whether a packet leaves twice and one item is cut.
fn sends_twice(alloc: Global, desk: &mut MemoryDesk) -> bool {
    let counts = Counts {
        arrivals: 1,
        sent: 2,
        cut: 1,
    };
    ends(
        alloc,
        desk,
        &[HEADER, RECORD],
        Ok(counts),
        &[SENT_HEADER, RECORD, RECORD],
        b"sent 3 3\nsent 3 3\nin 1\nout 2\ncut 1\nwork 2\n",
    )
}

/// Whether what stands before a broken record is run.
fn runs_what_is_whole(alloc: Global, desk: &mut MemoryDesk) -> bool {
    let fault = Fault {
        rule: Rule::K(4),
        place: None,
    };
    ends(
        alloc,
        desk,
        &[HEADER, RECORD, b"half"],
        Err(Stop::Refused(fault)),
        &[SENT_HEADER, RECORD, RECORD],
        b"sent 3 3\nsent 3 3\n",
    )
}

/// Whether a capture without packets gives the end part.
fn gives_the_end(alloc: Global, desk: &mut MemoryDesk) -> bool {
    let counts = Counts {
        arrivals: 0,
        sent: 0,
        cut: 0,
    };
    ends(
        alloc,
        desk,
        &[HEADER],
        Ok(counts),
        &[SENT_HEADER],
        b"in 0\nout 0\ncut 0\nwork 0\n",
    )
}

/// Whether a fault while the report is appended leaves a front.
fn leaves_a_front(alloc: Global, desk: &mut MemoryDesk) -> bool {
    desk.fail_append("r", 2).is_ok()
        && ends(
            alloc,
            desk,
            &[HEADER, RECORD],
            Err(Stop::Fault),
            &[SENT_HEADER, RECORD, RECORD],
            b"sent 3 3\nsent 3 3\n",
        )
}

#[test]
fn captures_run_from_files_in_memory(rt: HostRuntime) {
    let alloc = rt.alloc();
    let mut desk = MemoryDesk::new(alloc);
    assert!(rt; sends_twice(alloc, &mut desk));
    assert!(rt; runs_what_is_whole(alloc, &mut desk));
    assert!(rt; gives_the_end(alloc, &mut desk));
    let mut failing = MemoryDesk::new(alloc);
    assert!(rt; leaves_a_front(alloc, &mut failing));
}
