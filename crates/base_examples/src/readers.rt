// Captures that are read in pieces, step by step.
use crate::captures::{broken, is_the_record, joined, refused};
use crate::lines::{cut, number_of};
use p4x_bits::{Octets, OutOfMemory};
use p4x_fault::Fault;
use pcap_io::{CaptureFault, CaptureReader, Record, RecordReader};
use std::alloc::Global;

/// No refusal, or that by the rule whose number stands there.
fn ended(rule: &[u8]) -> Result<(), CaptureFault> {
    match rule {
        [digit] => Err(refused(digit.saturating_sub(b'0'))),
        _ => Ok(()),
    }
}

fn known(rule: &[u8]) -> Option<Fault> {
    match rule {
        [digit] => Some(broken(digit.saturating_sub(b'0'))),
        _ => None,
    }
}

fn link_of(cell: &[u8]) -> Option<u32> {
    match cell {
        [digit] => Some(u32::from(digit.saturating_sub(b'0'))),
        _ => None,
    }
}

fn nano_of(cell: &[u8]) -> Option<bool> {
    match cell {
        [b'+'] => Some(true),
        [b'-'] => Some(false),
        _ => None,
    }
}

/// Whether a reader answers so to a step: `<` feeds it pieces, which are refused by the rule behind `!`; `=` asks for the next record,
/// which is that of the frame where `f` stands, and else there is none; `e` says that the file ends, and is refused by the rule that
/// stands there; `k` asks for the link type, and `n` whether fractions are nanoseconds.
fn takes(alloc: Global, reader: &mut CaptureReader, step: &[u8]) -> bool {
    match step {
        [b'<', fed @ ..] => {
            let (pieces, rule) = cut(fed, b'!');
            match &joined(alloc, pieces) {
                Ok(octets) => reader.feed(octets) == ended(rule),
                Err(_) => false,
            }
        }
        [b'=', b'f'] => is_the_record(&reader.next()),
        [b'='] => reader.next().is_none(),
        [b'e', rule @ ..] => reader.end() == ended(rule),
        [b'k', link @ ..] => reader.link() == link_of(link),
        [b'n', nano @ ..] => reader.nano() == nano_of(nano),
        _ => false,
    }
}

/// Whether a reader answers so to all steps.
pub fn takes_all(alloc: Global, steps: &[u8]) -> bool {
    let mut reader = CaptureReader::new(alloc);
    let mut left = steps;
    for _ in 0..steps.len() {
        let (step, more) = cut(left, b' ');
        if !step.is_empty() && !takes(alloc, &mut reader, step) {
            return false;
        }
        left = more;
    }
    true
}

/// The next record of a reader that makes each as it is asked for, in the memory of one that is done with.
fn next_made(alloc: Global, reader: &mut RecordReader) -> Result<Option<Record>, OutOfMemory> {
    reader.next(Octets::from_slice(alloc, b"octets of another packet")?)
}

/// The same of a reader that makes each record as it is asked for it; `f` asks it for the rule that is known to be broken.
fn makes(alloc: Global, reader: &mut RecordReader, step: &[u8]) -> bool {
    match step {
        [b'<', pieces @ ..] => match &joined(alloc, pieces) {
            Ok(octets) => reader.feed(octets).is_ok(),
            Err(_) => false,
        },
        [b'=', b'f'] => matches!(&next_made(alloc, reader), Ok(found) if is_the_record(found)),
        [b'='] => matches!(next_made(alloc, reader), Ok(None)),
        [b'f', rule @ ..] => reader.fault() == known(rule),
        [b'e', rule @ ..] => reader.end() == ended(rule),
        [b'k', link @ ..] => reader.link() == link_of(link),
        [b'n', nano @ ..] => reader.nano() == nano_of(nano),
        _ => false,
    }
}

/// Whether such a reader answers so to all steps.
pub fn makes_all(alloc: Global, steps: &[u8]) -> bool {
    let mut reader = RecordReader::new(alloc);
    let mut left = steps;
    for _ in 0..steps.len() {
        let (step, more) = cut(left, b' ');
        if !step.is_empty() && !makes(alloc, &mut reader, step) {
            return false;
        }
        left = more;
    }
    true
}

fn size_of(found: &Option<Record>) -> u64 {
    match found {
        Some(one) => one.octets.len() as u64,
        None => 0,
    }
}

/// Feeds each octet by itself and takes the records as they come: how many were the frame's, and how many octets all had.
fn taken(reader: &mut CaptureReader, octets: &[u8]) -> Result<(u64, u64), CaptureFault> {
    let mut frames = 0u64;
    let mut size = 0u64;
    for octet in octets {
        reader.feed(&[*octet])?;
        let found = reader.next();
        frames = frames.saturating_add(u64::from(is_the_record(&found)));
        size = size.saturating_add(size_of(&found));
    }
    Ok((frames, size))
}

/// Whether pieces that are fed octet by octet are a whole capture of so many frames and so many octets of records, of link type 1, and in
/// nanoseconds where `+` stands.
pub fn are_taken(alloc: Global, pieces: &[u8], frames: &[u8], size: &[u8], nano: &[u8]) -> bool {
    let mut reader = CaptureReader::new(alloc);
    match &joined(alloc, pieces) {
        Ok(octets) => {
            taken(&mut reader, octets) == Ok((number_of(frames), number_of(size)))
                && reader.end() == Ok(())
                && reader.link() == Some(1)
                && reader.nano() == nano_of(nano)
        }
        Err(_) => false,
    }
}
