// A capture whose records are made one by one, as they are asked for.
ghost use Rattle.std.specs.Prelude.{◌≡◌, ◌∷◌, [], ◌≤◌, length, drop, true, false, Some, None, IfOk, IfSome, IfNone, OnOk, MatchOption};
ghost use Rattle.pcap_io.specs.Captures.{longest_record, reading_of, is_whole, record_of, captured_length, refusal_in, link_of, nano_of, behind, IsRecord};
ghost use Rattle.pcap_io.specs.Reader.{answer, fed, read_on, rest_of};
ghost use Rattle.pcap_io.specs.internal.Held.{held, AwaitsHeader};

use crate::faults::CaptureFault;
use crate::head::{FILE_HEADER, Head, read_head};
use crate::progress::{Progress, close, progress_at};
use crate::reader::drop_front;
use crate::records::{RECORD_HEADER, Record, first_captured};
use p4x_bits::{Octets, OutOfMemory};
use p4x_fault::Fault;
use std::alloc::Global;
use std::marker::Model;

/// A reader that is fed a capture in pieces, and makes each record when it is asked for it.
///
/// What it gives depends on the octets that were fed, and not on how they were cut into pieces. It holds the octets
/// that weren't read yet, and no record. Contracts see the header that was read, those octets, and the fault.
#[derive(Drop)]
pub struct RecordReader {
    head: Option<Head>,
    octets: Vec<u8>,
    // How many of the octets are read.
    place: usize,
    fault: Option<Fault>,
}

impl Model for RecordReader {
    ghost use Rattle.std.specs.Prelude.{[], ◌≤◌, length, drop};
    ghost use Rattle.pcap_io.specs.Captures.{Reading};
    ghost use Rattle.pcap_io.specs.internal.Held.{AwaitsHeader};

    ghost Value = { Reading };

    ghost view = { λ r. record { head = r.head; records = []; left = drop r.place r.octets.items; fault = r.fault } };

    ghost invariant = { λ r. (r.place ≤ length r.octets.items) × AwaitsHeader r.head r.fault (drop r.place r.octets.items) };
}

impl RecordReader {
    /// A reader that was fed nothing. It takes no memory.
    pub fn new(alloc: Global) -> RecordReader
        ensures { result ≡ record { head = None; records = []; left = []; fault = None } }
    {
        RecordReader {
            head: None,
            octets: Vec::new(alloc),
            place: 0,
            fault: None,
        }
    }

    /// Takes a piece of the capture, of any size, and reads the file header once it is whole. Once the capture broke
    /// one of the rules K2, K3 and K5 no further piece is taken.
    ///
    /// # Errors
    /// It fails for want of memory alone, and then the reader is not used again.
    pub fn feed(&mut self, piece: &[u8]) -> Result<(), OutOfMemory>
        ensures reads { OnOk result (rest_of self.new ≡ fed self.old piece.now) }
        ensures head { OnOk result (self.new.head ≡ (fed self.old piece.now).head) }
    {
        if self.fault.is_some() {
            return Ok(());
        }
        drop_front(&mut self.octets, self.place);
        self.place = 0;
        self.octets.extend_from_slice(piece)?;
        let progress = open(self.head, &self.octets);
        self.head = progress.head;
        self.place = progress.used;
        self.fault = progress.fault;
        Ok(())
    }

    /// The next whole record, or None exactly where no further one was fed: then the reader has what is left, and the
    /// fault where the octets that are left break rule K5. The octets of the record take the memory of a spare list, as
    /// that of a record that is done with.
    ///
    /// # Errors
    /// It fails for want of memory alone, and then the reader is not used again.
    pub fn next(&mut self, spare: Octets) -> Result<Option<Record>, OutOfMemory>
        ensures reads { IfOk result (λ found. MatchOption found (rest_of self.old ≡ self.new) (λ one. rest_of self.old ≡ behind (one ∷ []) (rest_of self.new))) }
        ensures head { OnOk result (self.new.head ≡ self.old.head) }
        ensures bare { OnOk result (self.new.records ≡ []) }
        ensures fits { IfOk result (λ found. IfSome found IsRecord) }
    {
        if self.fault.is_some() {
            return Ok(None);
        }
        let Some(head) = self.head else {
            return Ok(None);
        };
        let (_, rest) = self.octets.split_at(self.place);
        let found = first_record(spare, head, rest)?;
        match found {
            Some(one) => {
                self.place += RECORD_HEADER + one.octets.len();
                Ok(Some(one))
            }
            None => {
                let progress = progress_at(head, &self.octets, self.place);
                self.place = progress.used;
                self.fault = progress.fault;
                Ok(None)
            }
        }
    }

    /// The end of the capture: Ok where the octets that were fed are a whole one and each record was taken.
    ///
    /// It is K1 where fewer than 24 octets were fed, K4 where a record isn't whole or wasn't taken, and the rule that `fault`
    /// tells, if it does. It is never `Memory`.
    pub fn end(&self) -> Result<(), CaptureFault>
        ensures { result ≡ answer (refusal_in self.now) }
    {
        let (_, left) = self.octets.split_at(self.place);
        match close(self.head, self.fault, left) {
            Ok(_) => Ok(()),
            Err(fault) => Err(CaptureFault::Refused(fault)),
        }
    }

    /// The rule that the octets break as far as `feed` and `next` have read them, if they break one of K2, K3 and K5. Once
    /// `next` gave None, that is as far as they were fed.
    pub fn fault(&self) -> Option<Fault>
        ensures { result ≡ self.now.fault }
    {
        self.fault
    }

    /// The link type of the file header, or None exactly where that isn't read or was refused.
    pub fn link(&self) -> Option<u32>
        ensures { result ≡ link_of self.now }
    {
        Some(self.head?.link)
    }

    /// Whether fractions are nanoseconds, or None exactly where `link` is.
    pub fn nano(&self) -> Option<bool>
        ensures { result ≡ nano_of self.now }
    {
        Some(self.head?.nano)
    }
}

/// Reads the file header of octets, if that isn't read and they have it: how far they are read then.
#[tactic(auto, using(crate::proofs::Growing::records_head))]
fn open(head: Option<Head>, octets: &[u8]) -> Progress
    ensures reads { rest_of (held result [] octets.now) ≡ read_on head octets.now }
    ensures head { result.head ≡ (read_on head octets.now).head }
    ensures within { result.used ≤ length octets.now }
    ensures awaits { AwaitsHeader result.head result.fault (drop result.used octets.now) }
{
    match head {
        Some(head) => Progress {
            head: Some(head),
            used: 0,
            fault: None,
        },
        None => open_file(octets),
    }
}

/// The same of the octets of a file from its first one on.
fn open_file(octets: &[u8]) -> Progress
    ensures reads { rest_of (held result [] octets.now) ≡ reading_of octets.now }
    ensures head { result.head ≡ (reading_of octets.now).head }
    ensures within { result.used ≤ length octets.now }
    ensures awaits { AwaitsHeader result.head result.fault (drop result.used octets.now) }
{
    if octets.len() < FILE_HEADER {
        return Progress {
            head: None,
            used: 0,
            fault: None,
        };
    }
    match read_head(octets) {
        Ok(head) => Progress {
            head: Some(head),
            used: FILE_HEADER,
            fault: None,
        },
        Err(fault) => Progress {
            head: None,
            used: octets.len(),
            fault: Some(fault),
        },
    }
}

/// The record that the octets begin with, in the memory of a spare list, or None where that isn't whole.
fn first_record(spare: Octets, head: Head, octets: &[u8]) -> Result<Option<Record>, OutOfMemory>
    ensures whole { IfOk result (λ found. IfSome found (λ one. is_whole head.order octets.now ≡ true)) }
    ensures value { IfOk result (λ found. IfSome found (λ one. one ≡ record_of head.order octets.now)) }
    ensures size { IfOk result (λ found. IfSome found (λ one. length one.octets ≡ captured_length head.order octets.now)) }
    ensures fits { IfOk result (λ found. IfSome found IsRecord) }
    ensures none { IfOk result (λ found. IfNone found (is_whole head.order octets.now ≡ false)) }
{
    let Some(captured) = first_captured(head.order, octets) else {
        return Ok(None);
    };
    let seconds = head.order.word(octets, 0);
    let fraction = head.order.word(octets, 4);
    let one = refill(spare, seconds, fraction, captured)?;
    Ok(Some(one))
}

/// The record with these times and captured octets, in the memory of a spare list.
fn refill(
    spare: Octets,
    seconds: u32,
    fraction: u32,
    captured: &[u8],
) -> Result<Record, OutOfMemory>
    requires { length captured.now ≤ longest_record }
    ensures value { IfOk result (λ r. r ≡ record { octets = captured.now; seconds = seconds; fraction = fraction }) }
    ensures fits { IfOk result IsRecord }
{
    let mut octets = spare;
    octets.clear();
    octets.extend_from_slice(captured)?;
    Ok(Record {
        octets,
        seconds,
        fraction,
    })
}
