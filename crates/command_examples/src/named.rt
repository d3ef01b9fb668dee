// A desk that counts the faults of each name by itself.
ghost use Rattle.std.specs.Prelude.{◌≡◌, ◌≤◌, ℕ, List, Some};
ghost use Rattle.p4x_io.specs.Desk.{next};
ghost use Rattle.p4x_io.specs.Memory.{memory_file};
ghost use Rattle.command_examples.specs.internal.Counted.{count_of};

use p4x_io::{Desk, Failed, MemoryDesk};

/// How often the calls on each of the common names failed, and those on all others.
#[derive(Clone, Copy, Debug, PartialEq, Eq, Drop)]
pub struct Counts {
    /// The program `p`.
    pub program: u64,
    /// The entries `e`.
    pub entries: u64,
    /// The capture `c`.
    pub capture: u64,
    /// The text `t`.
    pub text: u64,
    /// The sent file `s`.
    pub sent: u64,
    /// The report `r`.
    pub report: u64,
    /// Any other name.
    pub others: u64,
}

/// No call failed yet.
pub const NO_FAULTS: Counts = Counts {
    program: 0,
    entries: 0,
    capture: 0,
    text: 0,
    sent: 0,
    report: 0,
    others: 0,
};

/// The counts with one more at a name.
#[tactic(auto, using(crate::proofs::Counting::count_grows))]
fn raised(counts: Counts, name: &str) -> Counts
    ensures own { count_of result name.now ≡ next (count_of counts name.now) }
    ensures others { (other : List ℕ) → count_of counts other ≤ count_of result other }
{
    let mut now = counts;
    match name {
        "p" => now.program = counts.program.saturating_add(1),
        "e" => now.entries = counts.entries.saturating_add(1),
        "c" => now.capture = counts.capture.saturating_add(1),
        "t" => now.text = counts.text.saturating_add(1),
        "s" => now.sent = counts.sent.saturating_add(1),
        "r" => now.report = counts.report.saturating_add(1),
        _ => now.others = counts.others.saturating_add(1),
    }
    now
}

/// A desk in memory whose faults are counted name by name.
#[derive(Drop)]
pub struct NamedDesk {
    /// Its files.
    pub desk: MemoryDesk,
    /// The reads that failed.
    pub reads: Counts,
    /// The makes and appends that failed.
    pub writes: Counts,
}

impl Desk for NamedDesk {
    ghost view = { λ d. record { told = λ name. Some (memory_file d.desk name); reads = λ name. count_of d.reads name; writes = λ name. count_of d.writes name } };

    fn read(&mut self, name: &str, place: u64, into: &mut [u8]) -> Result<usize, Failed> {
        match self.desk.read(name, place, into) {
            Ok(count) => Ok(count),
            Err(Failed) => {
                self.reads = raised(self.reads, name);
                Err(Failed)
            }
        }
    }

    fn make(&mut self, name: &str) -> Result<(), Failed> {
        match self.desk.make(name) {
            Ok(()) => Ok(()),
            Err(Failed) => {
                self.writes = raised(self.writes, name);
                Err(Failed)
            }
        }
    }

    fn append(&mut self, name: &str, piece: &[u8]) -> Result<usize, Failed> {
        match self.desk.append(name, piece) {
            Ok(count) => Ok(count),
            Err(Failed) => {
                self.writes = raised(self.writes, name);
                Err(Failed)
            }
        }
    }
}
