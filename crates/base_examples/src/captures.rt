// Captures that are put together of pieces, and what comes of them as a whole.
use crate::lines::{cut, number_of};
use fabric::Arrival;
use p4x_bits::OutOfMemory;
use p4x_fault::{Fault, Rule};
use pcap_io::{
    Capture, CaptureFault, LONGEST_RECORD, Record, file_header, read_capture, read_ports,
    record_header,
};
use std::alloc::Global;

/// A frame of 14 octets.
const FRAME: &[u8] = b"\x01\x02\x03\x04\x05\x06\x07\x08\x09\x0a\x0b\x0c\x0d\x0e";

/// A piece of a capture by its letter.
fn piece_of(letter: u8) -> &'static [u8] {
    match letter {
        // the file header of a little-endian capture of link type 1: in microseconds, in nanoseconds, and of version 2.3; and of a
        // big-endian one
        b'l' =>
            b"\xd4\xc3\xb2\xa1\x02\x00\x04\x00\x00\x00\x00\x00\x00\x00\x00\x00\xff\xff\x00\x00\x01\x00\x00\x00",
        b'n' =>
            b"\x4d\x3c\xb2\xa1\x02\x00\x04\x00\x00\x00\x00\x00\x00\x00\x00\x00\xff\xff\x00\x00\x01\x00\x00\x00",
        b'o' =>
            b"\xd4\xc3\xb2\xa1\x02\x00\x03\x00\x00\x00\x00\x00\x00\x00\x00\x00\xff\xff\x00\x00\x01\x00\x00\x00",
        b'b' =>
            b"\xa1\xb2\xc3\xd4\x00\x02\x00\x04\x00\x00\x00\x00\x00\x00\x00\x00\x00\x00\xff\xff\x00\x00\x00\x01",
        // a little-endian one as it is written: its greatest length is 262,144
        b'g' =>
            b"\xd4\xc3\xb2\xa1\x02\x00\x04\x00\x00\x00\x00\x00\x00\x00\x00\x00\x00\x00\x04\x00\x01\x00\x00\x00",
        // the record header of the frame at 1 second and 2 microseconds, in both orders; as it was captured of a packet of 1,500
        // octets; without its last octet; and with a captured length of 65,536
        b'r' => b"\x01\x00\x00\x00\x02\x00\x00\x00\x0e\x00\x00\x00\x0e\x00\x00\x00",
        b'R' => b"\x00\x00\x00\x01\x00\x00\x00\x02\x00\x00\x00\x0e\x00\x00\x00\x0e",
        b'c' => b"\x01\x00\x00\x00\x02\x00\x00\x00\x0e\x00\x00\x00\xdc\x05\x00\x00",
        b'h' => b"\x01\x00\x00\x00\x02\x00\x00\x00\x0e\x00\x00\x00\x0e\x00\x00",
        b'L' => b"\x01\x00\x00\x00\x02\x00\x00\x00\x00\x00\x01\x00\x00\x00\x01\x00",
        // the frame, without its last octet, its first three octets, and the others
        b'f' => FRAME,
        b's' => b"\x01\x02\x03\x04\x05\x06\x07\x08\x09\x0a\x0b\x0c\x0d",
        b'3' => b"\x01\x02\x03",
        b'4' => b"\x04\x05\x06\x07\x08\x09\x0a\x0b\x0c\x0d\x0e",
        // 23 octets, one more, and 24
        b'x' => b"no capture at all, 23 o",
        b'.' => b".",
        b'y' => b"no capture, 24 octets !!",
        b'm' => b"more",
        b'z' => b"\0\0\0\0\0\0\0",
        _ => b"",
    }
}

/// Puts a record header that tells this captured length behind other octets, and as many zeros.
fn put_zeros(octets: &mut Vec<u8>, length: u32) -> Result<(), OutOfMemory> {
    octets.extend_from_slice(&record_header(1, 2, length))?;
    for _ in 0..length {
        octets.push(0)?;
    }
    Ok(())
}

/// Puts a piece behind other octets: the headers as they are written, records of zeros, or one of those above.
fn put_piece(octets: &mut Vec<u8>, letter: u8) -> Result<(), OutOfMemory> {
    match letter {
        b'w' => Ok(octets.extend_from_slice(&file_header(1, false))?),
        b'v' => Ok(octets.extend_from_slice(&file_header(1, true))?),
        b'u' => Ok(octets.extend_from_slice(&record_header(1, 2, 14))?),
        b'Z' => put_zeros(octets, LONGEST_RECORD),
        b'Y' => put_zeros(octets, 65_536),
        _ => Ok(octets.extend_from_slice(piece_of(letter))?),
    }
}

/// The octets of pieces, one behind the other.
pub fn joined(alloc: Global, letters: &[u8]) -> Result<Vec<u8>, OutOfMemory> {
    let mut octets = Vec::new(alloc);
    for letter in letters {
        put_piece(&mut octets, *letter)?;
    }
    Ok(octets)
}

/// Whether two lists of pieces have the same octets.
pub fn are_same(alloc: Global, pieces: &[u8], others: &[u8]) -> bool {
    match (&joined(alloc, pieces), &joined(alloc, others)) {
        (Ok(octets), Ok(other)) => octets.as_slice() == other.as_slice(),
        _ => false,
    }
}

/// The refusal by this rule.
pub fn refused(rule: u8) -> CaptureFault {
    CaptureFault::Refused(broken(rule))
}

/// A rule of captures that is broken.
pub fn broken(rule: u8) -> Fault {
    Fault {
        rule: Rule::K(rule),
        place: None,
    }
}

pub fn is_the_record(found: &Option<Record>) -> bool {
    match found {
        Some(one) => one.octets.as_slice() == FRAME && one.seconds == 1 && one.fraction == 2,
        None => false,
    }
}

fn is_the_frame(arrival: &Arrival, port: u64) -> bool {
    arrival.octets.as_slice() == FRAME
        && u64::from(arrival.port) == port
        && arrival.seconds == 1
        && arrival.fraction == 2
}

/// Whether frames came in on the ports of a cell, one on each.
fn are_frames(arrivals: &[Arrival], ports: &[u8]) -> bool {
    let mut left = ports;
    for arrival in arrivals {
        let (port, more) = cut(left, b',');
        if port.is_empty() || !is_the_frame(arrival, number_of(port)) {
            return false;
        }
        left = more;
    }
    left.is_empty()
}

/// Whether a capture has link type 1, is in nanoseconds where `N` stands, and has frames on the ports behind that letter.
fn is_capture(capture: &Capture, wanted: &[u8]) -> bool {
    match wanted {
        [unit, ports @ ..] => {
            capture.link == 1
                && capture.nano == (*unit == b'N')
                && are_frames(capture.arrivals.as_slice(), ports)
        }
        [] => false,
    }
}

/// Whether octets are such a capture on these ports, or are refused by the rule whose number stands there.
fn comes_to(alloc: Global, octets: &[u8], ports: &[u8], wanted: &[u8]) -> bool {
    match &read_ports(alloc, ports) {
        Ok(ports) => match (&read_capture(alloc, octets, ports), wanted) {
            (Ok(capture), _) => is_capture(capture, wanted),
            (Err(fault), [digit]) => *fault == refused(digit.saturating_sub(b'0')),
            _ => false,
        },
        Err(_) => false,
    }
}

/// The same of pieces; on the ports 5 and 510 where `p` stands.
pub fn come_to(alloc: Global, pieces: &[u8], ports: &[u8], wanted: &[u8]) -> bool {
    let ports: &[u8] = if ports == b"p".as_slice() {
        b"5\n510\n"
    } else {
        b""
    };
    match &joined(alloc, pieces) {
        Ok(octets) => comes_to(alloc, octets, ports, wanted),
        Err(_) => false,
    }
}
