// How far the octets of a capture are read.
ghost use Rattle.std.specs.Prelude.{◌≡◌, ◌≤◌, List, length, drop, Some, None, All, IfOk, OnErr, IfErr};
ghost use Rattle.pcap_io.specs.declared.records.Record.{Record};
ghost use Rattle.pcap_io.specs.Captures.{reading_of, records_in, ending, behind, refusal_by, IsRecord};
ghost use Rattle.pcap_io.specs.Reader.{read_on};
ghost use Rattle.pcap_io.specs.internal.Held.{held};

use crate::head::{FILE_HEADER, Head, read_head, refused};
use crate::records::{Record, is_too_long, take_records};
use p4x_bits::OutOfMemory;
use p4x_fault::Fault;
use std::alloc::Global;
use std::collections::VecDeque;

/// What octets are read as, beside the whole records in them.
#[derive(Clone, Copy)]
pub struct Progress {
    /// What the file header says, once it is read and taken.
    pub head: Option<Head>,
    /// How many octets of them are read: those behind belong to a file header or a record that isn't
    /// whole.
    pub used: usize,
    /// K2, K3 or K5.
    pub fault: Option<Fault>,
}

/// Reads the octets behind a file header, and puts their records behind those that are there. For want of
/// memory it puts none there.
fn read_records(
    alloc: Global,
    head: Head,
    octets: &[u8],
    records: &mut VecDeque<Record>,
) -> Result<Progress, OutOfMemory>
    ensures read { IfOk result (λ p.
        behind records.old.items (records_in head octets.now 0) ≡ held p records.new.items octets.now) }
    ensures within { IfOk result (λ p. p.used ≤ length octets.now) }
    ensures fits { All IsRecord records.old.items → All IsRecord records.new.items }
    ensures err { OnErr result (records.new.items ≡ records.old.items) }
{
    let count = records.len();
    match take_records(alloc, head, octets, records) {
        Ok(place) => Ok(progress_at(head, octets, place)),
        Err(error) => {
            records.truncate(count);
            Err(error)
        }
    }
}

/// How far octets are read that begin with no whole record at a place.
pub(crate) fn progress_at(head: Head, octets: &[u8], place: usize) -> Progress
    requires { place ≤ length octets.now }
    ensures read { (records : List Record)
        → behind records (ending head (drop place octets.now)) ≡ held result records octets.now }
    ensures within { result.used ≤ length octets.now }
{
    let (_, rest) = octets.split_at(place);
    if is_too_long(head.order, rest) {
        Progress {
            head: Some(head),
            used: octets.len(),
            fault: Some(refused(5)),
        }
    } else {
        Progress {
            head: Some(head),
            used: place,
            fault: None,
        }
    }
}

/// Reads the octets of a file, or those behind its file header where that is read, and puts their records
/// behind those that are there. For want of memory it puts none there.
pub(crate) fn read_on(
    alloc: Global,
    head: Option<Head>,
    octets: &[u8],
    records: &mut VecDeque<Record>,
) -> Result<Progress, OutOfMemory>
    ensures read { IfOk result (λ p.
        behind records.old.items (read_on head octets.now) ≡ held p records.new.items octets.now) }
    ensures within { IfOk result (λ p. p.used ≤ length octets.now) }
    ensures fits { All IsRecord records.old.items → All IsRecord records.new.items }
    ensures err { OnErr result (records.new.items ≡ records.old.items) }
{
    match head {
        Some(head) => read_records(alloc, head, octets, records),
        None => read_file(alloc, octets, records),
    }
}

/// Reads the octets of a file from its first one on.
fn read_file(
    alloc: Global,
    octets: &[u8],
    records: &mut VecDeque<Record>,
) -> Result<Progress, OutOfMemory>
    ensures read { IfOk result (λ p.
        behind records.old.items (reading_of octets.now) ≡ held p records.new.items octets.now) }
    ensures within { IfOk result (λ p. p.used ≤ length octets.now) }
    ensures fits { All IsRecord records.old.items → All IsRecord records.new.items }
    ensures err { OnErr result (records.new.items ≡ records.old.items) }
{
    if octets.len() < FILE_HEADER {
        return Ok(Progress {
            head: None,
            used: 0,
            fault: None,
        });
    }
    match read_head(octets) {
        Ok(head) => {
            let (_, behind) = octets.split_at(FILE_HEADER);
            let progress = read_records(alloc, head, behind, records)?;
            Ok(Progress {
                used: FILE_HEADER + progress.used,
                ..progress
            })
        }
        Err(fault) => Ok(Progress {
            head: None,
            used: octets.len(),
            fault: Some(fault),
        }),
    }
}

/// The file header of a whole capture, or the rule that the file breaks, from what its octets are read as
/// and the octets that are left of it.
pub(crate) fn close(head: Option<Head>, fault: Option<Fault>, left: &[u8]) -> Result<Head, Fault>
    ensures ok { IfOk result (λ h. (refusal_by fault head left.now ≡ None) × (head ≡ Some h)) }
    ensures err { IfErr result (λ f. refusal_by fault head left.now ≡ Some f) }
{
    if let Some(fault) = fault {
        return Err(fault);
    }
    let Some(head) = head else {
        return Err(refused(1));
    };
    if left.is_empty() {
        Ok(head)
    } else {
        Err(refused(4))
    }
}
