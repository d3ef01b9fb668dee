// Why a command ends without status 0.
ghost use Rattle.std.specs.Prelude.{◌≡◌};
ghost use Rattle.p4x_fault.specs.Fault.{refusal_line};
ghost use Rattle.p4x_io.specs.Files.{Says};
ghost use Rattle.file_work.specs.Phases.{line_view};
ghost use Rattle.file_work.specs.Stops.{limit_line, stop_code, stop_line, code_of, line_of};
ghost use Rattle.file_work.specs.declared.stop.Stop.TheVariants.{Fault, Memory};

use p4x_bits::OutOfMemory;
use p4x_fault::{Fault, Place, Rule, print};
use p4x_io::{Failed, Sink, say};

/// A file with a limit of its own that is over it.
#[derive(Clone, Copy, PartialEq, Eq, Drop)]
pub enum Limited {
    /// The program.
    Program,
    /// The entries file.
    Entries,
    /// The ports file.
    Ports,
    /// The capture.
    Capture,
    /// The P4_16 text.
    Text,
}

/// Why a command ends without status 0.
#[derive(Clone, Copy, PartialEq, Eq, Drop)]
pub enum Stop {
    /// An own count of the call rose: status 1.
    Fault,
    /// The words are no form of a command: status 2.
    Usage,
    /// The program breaks no rule and isn't of the form that `carry` takes, which is told as C25: status 3.
    Program,
    /// The program breaks an L, S or C rule: status 3.
    Judged(Fault),
    /// The entries break an E rule, or aren't such as are taken: status 4.
    Unfit(Fault),
    /// The ports break a P rule, or the capture a K rule: status 5.
    Refused(Fault),
    /// A file has more octets than its limit: status 6.
    Limit(Limited),
    /// There was no memory left: status 7.
    Memory,
    /// The P4_16 text breaks an L, S or T rule: status 8.
    Text(Fault),
}

impl From<OutOfMemory> for Stop {
    ghost from_gives = { λ _ e. e ≡ Memory };

    fn from(_error: OutOfMemory) -> Self {
        Stop::Memory
    }
}

impl From<Failed> for Stop {
    ghost from_gives = { λ _ e. e ≡ Fault };

    fn from(_error: Failed) -> Self {
        Stop::Fault
    }
}

/// Prints the line that the work of a command ended with, or that of what stopped it, and gives the status that comes of it: 0 or that of the
/// stop, and 1 where the printing fails.
pub fn say_end<K: Sink>(out: &mut K, end: Result<Vec<u8>, Stop>) -> u8
    ensures { Says (line_of (line_view end)) (code_of (line_view end)) result (K.view out.old) (K.view out.new) }
{
    match end {
        Ok(line) => say(out, &line, 0),
        Err(stop) => say_stop(out, stop),
    }
}

/// Prints the line of a stop, and gives the status that comes of it.
fn say_stop<K: Sink>(out: &mut K, stop: Stop) -> u8
    ensures { Says (stop_line stop) (stop_code stop) result (K.view out.old) (K.view out.new) }
{
    match stop {
        Stop::Fault => say(out, b"fault\n", 1),
        Stop::Usage => say(out, b"usage\n", 2),
        Stop::Program => say_refusal(out, Rule::C(25), None, 3),
        Stop::Judged(fault) => say_refusal(out, fault.rule, fault.place, 3),
        Stop::Unfit(fault) => say_refusal(out, fault.rule, fault.place, 4),
        Stop::Refused(fault) => say_refusal(out, fault.rule, fault.place, 5),
        Stop::Limit(file) => say_limit(out, file),
        Stop::Memory => say(out, b"no memory\n", 7),
        Stop::Text(fault) => say_refusal(out, fault.rule, fault.place, 8),
    }
}

/// Prints the line of a file that is over its limit.
fn say_limit<K: Sink>(out: &mut K, file: Limited) -> u8
    ensures { Says (limit_line file) 6 result (K.view out.old) (K.view out.new) }
{
    match file {
        Limited::Program => say(out, b"limit program\n", 6),
        Limited::Entries => say(out, b"limit entries\n", 6),
        Limited::Ports => say(out, b"limit ports\n", 6),
        Limited::Capture => say(out, b"limit capture\n", 6),
        Limited::Text => say(out, b"limit text\n", 6),
    }
}

/// Prints the line of a refusal, and gives the status that comes of it.
fn say_refusal<K: Sink>(out: &mut K, rule: Rule, place: Option<Place>, status: u8) -> u8
    ensures { Says (refusal_line (record { rule = rule; place = place })) status result (K.view out.old) (K.view out.new) }
{
    let mut line = [0; 64];
    let length = print(&Fault { rule, place }, &mut line);
    say(out, &line[..length], status)
}
