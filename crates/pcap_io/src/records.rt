// The records of a capture.
ghost use Rattle.std.specs.Prelude.{◌≡◌, ℕ, ◌+◌, ◌<◌, ◌≤◌, true, false, length, take, drop, All, IfOk, OnErr, IfSome, IfNone};
ghost use Rattle.pcap_io.specs.Captures.{longest_record, captured_length, is_too_long, is_whole, record_of, records_in, behind, ending, IsRecord};

use crate::head::Head;
use crate::order::Order;
use p4x_bits::{Octets, OutOfMemory};
use std::alloc::Global;
use std::collections::VecDeque;

/// How many octets a record header has.
pub(crate) const RECORD_HEADER: usize = 16;

/// The greatest captured length of a record. (This project's own.)
pub const LONGEST_RECORD: u32 = 65_535;

/// A recorded packet.
#[derive(Drop)]
pub struct Record {
    /// What was captured of it, at most `LONGEST_RECORD` octets.
    pub octets: Octets,
    /// The seconds of its time, since the beginning of 1970 (pcap-savefile(5), "Packet Header").
    pub seconds: u32,
    /// The fraction of its time: microseconds or nanoseconds.
    pub fraction: u32,
}

/// Whether the octets begin with a record header whose captured length is over the greatest.
#[tactic(auto, unfolding(crate::specs::Captures::is_too_long))]
pub(crate) fn is_too_long(order: Order, octets: &[u8]) -> bool
    ensures { result ≡ is_too_long order octets.now }
{
    octets.len() >= RECORD_HEADER && order.word(octets, 8) > LONGEST_RECORD
}

/// The captured octets of the record that the octets begin with, or None where that isn't whole.
#[tactic(auto, unfolding(crate::specs::Captures::is_whole))]
pub(crate) fn first_captured(order: Order, octets: &[u8]) -> Option<&[u8]>
    ensures whole { IfSome result (λ captured. is_whole order octets.now ≡ true) }
    ensures captured { IfSome result (λ captured.
        captured.now ≡ take (captured_length order octets.now) (drop 16 octets.now)) }
    ensures size { IfSome result (λ captured. length captured.now ≡ captured_length order octets.now) }
    ensures small { IfSome result (λ captured. length captured.now ≤ longest_record) }
    ensures within { IfSome result (λ captured. 16 + length captured.now ≤ length octets.now) }
    ensures none { IfNone result (is_whole order octets.now ≡ false) }
{
    if octets.len() < RECORD_HEADER {
        return None;
    }
    let length = order.word(octets, 8);
    let (_, behind) = octets.split_at(RECORD_HEADER);
    if length > LONGEST_RECORD || length as usize > behind.len() {
        return None;
    }
    let (captured, _) = behind.split_at(length as usize);
    Some(captured)
}

/// The record with these times and captured octets.
fn make_record(
    alloc: Global,
    seconds: u32,
    fraction: u32,
    captured: &[u8],
) -> Result<Record, OutOfMemory>
    requires { length captured.now ≤ longest_record }
    ensures value { IfOk result (λ r. r ≡ record { octets = captured.now; seconds = seconds; fraction = fraction }) }
    ensures fits { IfOk result IsRecord }
{
    Ok(Record {
        octets: Octets::from_slice(alloc, captured)?,
        seconds,
        fraction,
    })
}

/// Puts the records that the octets begin with behind those that are there, and gives the place at which
/// no whole record begins any more. For want of memory some of them may have been put there.
pub(crate) fn take_records(
    alloc: Global,
    head: Head,
    octets: &[u8],
    records: &mut VecDeque<Record>,
) -> Result<usize, OutOfMemory>
    ensures read { IfOk result (λ place.
        behind records.old.items (records_in head octets.now 0)
        ≡ behind records.new.items (ending head (drop place octets.now))) }
    ensures within { IfOk result (λ place. place ≤ length octets.now) }
    ensures fits { All IsRecord records.old.items → All IsRecord records.new.items }
    ensures err { OnErr result (take (length records.old.items) records.new.items ≡ records.old.items) }
{
    let order = head.order;
    let mut place = 0;
    let mut rest = octets;
    'records: while let Some(captured) = first_captured(order, rest) {
        let seconds = order.word(rest, 0);
        let fraction = order.word(rest, 4);
        records.push_back(make_record(alloc, seconds, fraction, captured)?)?;
        place += RECORD_HEADER + captured.len();
        (_, rest) = octets.split_at(place);
    }
    Ok(place)
}
