// A capture that is read in pieces.
ghost use Rattle.std.specs.Prelude.{◌≡◌, ℕ, ◌+◌, ◌<◌, ◌≤◌, ◌++◌, List, [], length, drop, option_to_list, slice_get, Some, None, Ok, Err, MatchOption, IfSome, All};
ghost use Rattle.p4x_fault.specs.declared.Fault.{Fault};
ghost use Rattle.pcap_io.specs.declared.faults.CaptureFault.TheVariants.{Refused};
ghost use Rattle.pcap_io.specs.Captures.{longest_record, reading_of, refusal, refusal_in, link_of, nano_of, IsRecord};
ghost use Rattle.pcap_io.specs.Reader.{HasRead, answer, Answers, ByMemory, fed, taken_from};

use crate::faults::CaptureFault;
use crate::head::Head;
use crate::progress::{close, read_on};
use crate::records::Record;
use p4x_fault::Fault;
use std::alloc::Global;
use std::collections::VecDeque;
use std::marker::Model;

/// A reader that is fed a capture in pieces, and gives its records in order.
///
/// What it gives depends on the octets that were fed, and not on how they were cut into pieces. It holds
/// the records that weren't taken yet, and the octets of the file header or of one record that isn't
/// whole.
pub struct CaptureReader {
    alloc: Global,
    head: Option<Head>,
    records: VecDeque<Record>,
    left: Vec<u8>,
    fault: Option<Fault>,
}

impl Drop for CaptureReader {
    fn drop(self) {
        let CaptureReader {
            alloc: _alloc,
            head: _head,
            records: _records,
            left: _left,
            fault: _fault,
        } = self;
    }
}

impl Model for CaptureReader {
    ghost use Rattle.std.specs.Prelude.{All};
    ghost use Rattle.pcap_io.specs.Captures.{Reading, IsRecord};

    ghost Value = { Reading };

    ghost view = { λ r. record { head = r.head; records = r.records.items; left = r.left.items; fault = r.fault } };

    ghost invariant = { λ r. All IsRecord r.records.items };
}

impl CaptureReader {
    /// A reader that was fed nothing. It takes no memory.
    #[tactic(auto, using(crate::proofs::Feeding::has_read_none))]
    pub fn new(alloc: Global) -> CaptureReader
        ensures { HasRead [] 0 result }
    {
        CaptureReader {
            alloc,
            head: None,
            records: VecDeque::new(alloc),
            left: Vec::new(alloc),
            fault: None,
        }
    }

    /// Reads on through a piece of the capture, of any size.
    ///
    /// It is refused exactly where the first rule that all octets so far break is K2, K3 or K5. The whole
    /// records before the refused one can still be taken, and every later call answers the same refusal.
    /// For want of memory the reader stays as it was.
    ///
    /// Beside the records that weren't taken the reader then holds fewer octets than the longest record
    /// has with its header, and they belong to the file header or to one record (clause `little`).
    #[tactic(auto, using(crate::proofs::Feeding::fault_more, crate::proofs::Feeding::left_read))]
    pub fn feed(&mut self, piece: &[u8]) -> Result<(), CaptureFault>
        ensures reads { (octets : List ℕ) (taken : ℕ) → HasRead octets taken self.old
            → ByMemory result (HasRead octets taken self.new) (HasRead (octets ++ piece.now) taken self.new) }
        ensures refuses { (octets : List ℕ) (taken : ℕ) → HasRead octets taken self.old
            → Answers (reading_of (octets ++ piece.now)).fault result }
        ensures again { (fault : Fault) → self.old.fault ≡ Some fault → result ≡ Err (Refused fault) }
        ensures same { ByMemory result (self.new ≡ self.old) (self.new ≡ fed self.old piece.now) }
        ensures held { Answers (fed self.old piece.now).fault result }
        ensures little { (octets : List ℕ) (taken : ℕ) → HasRead octets taken self.new
            → length self.new.left < 16 + longest_record }
    {
        self.read_piece(piece)
    }

    /// The same, by what the reader holds.
    fn read_piece(&mut self, piece: &[u8]) -> Result<(), CaptureFault>
        ensures read { ByMemory result (self.new ≡ self.old) (self.new ≡ fed self.old piece.now) }
        ensures refuses { Answers (fed self.old piece.now).fault result }
        ensures again { (fault : Fault) → self.old.fault ≡ Some fault → result ≡ Err (Refused fault) }
    {
        if let Some(fault) = self.fault {
            return Err(CaptureFault::Refused(fault));
        }
        let before = self.left.len();
        if self.left.extend_from_slice(piece).is_err() {
            return Err(CaptureFault::Memory);
        }
        match read_on(self.alloc, self.head, &self.left, &mut self.records) {
            Ok(progress) => {
                self.head = progress.head;
                self.fault = progress.fault;
                drop_front(&mut self.left, progress.used);
                answer(progress.fault)
            }
            Err(_) => {
                self.left.truncate(before);
                Err(CaptureFault::Memory)
            }
        }
    }

    /// The next whole record that wasn't taken, or None exactly where no further one was fed. It takes no
    /// memory.
    #[tactic(auto, using(crate::proofs::Feeding::next_taken, crate::proofs::Feeding::none_taken))]
    pub fn next(&mut self) -> Option<Record>
        ensures reads { (octets : List ℕ) (taken : ℕ) → HasRead octets taken self.old
            → MatchOption result (HasRead octets taken self.new) (λ r. HasRead octets (taken + 1) self.new) }
        ensures gives { (octets : List ℕ) (taken : ℕ) → HasRead octets taken self.old
            → result ≡ slice_get (reading_of octets).records taken }
        ensures first { result ≡ slice_get self.old.records 0 }
        ensures rest { self.new ≡ taken_from 1 self.old }
        ensures fits { IfSome result IsRecord }
    {
        self.records.pop_front()
    }

    /// The end of the capture: Ok where the octets that were fed are a whole one.
    ///
    /// It is K1 where fewer than 24 octets were fed, K4 where a record isn't whole, and the refusal that
    /// `feed` answered, if it did. It is never `Memory`.
    #[tactic(auto, using(crate::proofs::Feeding::refusal_read))]
    pub fn end(&self) -> Result<(), CaptureFault>
        ensures refuses { (octets : List ℕ) (taken : ℕ) → HasRead octets taken self.now
            → result ≡ answer (refusal octets) }
        ensures held { result ≡ answer (refusal_in self.now) }
    {
        match close(self.head, self.fault, &self.left) {
            Ok(_) => Ok(()),
            Err(fault) => Err(CaptureFault::Refused(fault)),
        }
    }

    /// The link type of the file header, or None exactly where fewer than 24 octets were fed or K2 or K3
    /// holds of them.
    #[tactic(auto, using(crate::proofs::Feeding::link_read))]
    pub fn link(&self) -> Option<u32>
        ensures tells { (octets : List ℕ) (taken : ℕ) → HasRead octets taken self.now
            → result ≡ link_of (reading_of octets) }
        ensures held { result ≡ link_of self.now }
    {
        Some(self.head?.link)
    }

    /// Whether fractions are nanoseconds, or None exactly where `link` is.
    #[tactic(auto, using(crate::proofs::Feeding::nano_read))]
    pub fn nano(&self) -> Option<bool>
        ensures tells { (octets : List ℕ) (taken : ℕ) → HasRead octets taken self.now
            → result ≡ nano_of (reading_of octets) }
        ensures held { result ≡ nano_of self.now }
    {
        Some(self.head?.nano)
    }
}

/// Takes octets off the front. What is left is less than a record where this is called, so it is what is copied.
#[tactic(auto, using(crate::proofs::Feeding::moved_down))]
pub(crate) fn drop_front(octets: &mut Vec<u8>, size: usize)
    requires { size ≤ length octets.old.items }
    ensures { octets.new.items ≡ drop size octets.old.items }
{
    let left = octets.len() - size;
    octets.copy_within(size.., 0);
    octets.truncate(left);
}

/// What a call answers where there is a fault, and where there is none.
fn answer(fault: Option<Fault>) -> Result<(), CaptureFault>
    ensures { result ≡ answer fault }
{
    match fault {
        Some(fault) => Err(CaptureFault::Refused(fault)),
        None => Ok(()),
    }
}
