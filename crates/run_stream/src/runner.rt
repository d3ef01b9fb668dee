// Runners of packets.
ghost use Rattle.std.specs.Prelude.{◌≡◌, ℕ, ◌+◌, ◌%◌, ◌^◌, ◌++◌, List, OnOk};
ghost use Rattle.fabric.specs.declared.packets.Arrival.{Arrival as Came};
ghost use Rattle.fabric.specs.Numbers.{IsArrival};
ghost use Rattle.run_stream.specs.Runs.{Outcome, AreFew};

use fabric::{Arrival, Fate};
use p4x_bits::{Octets, OutOfMemory};
use std::alloc::Global;

/// A runner of packets: a program with what stands in its tables and a bound on passes, and the counters,
/// registers and meters as the packets so far left them.
pub trait Runner {
    // The program, what stands in its tables, and the bound on passes. They stay.
    ghost Setting: { Type 0 };

    ghost setting: { Self → Setting };

    // What its packets change and find changed: its counters, registers and meters, and what else counts on from one to the next.
    ghost Store: { Type 0 };

    // What comes of an arrival that finds this store.
    ghost outcome: { Setting → Store → Came → Outcome Store };

    // The store as the arrivals so far left it.
    ghost store: { Self → Store };

    // How many statements and transitions began so far, modulo 2^64.
    ghost done: { Self → ℕ };

    /// A packet comes in: it makes its passes, and what is queued by them makes its own. What comes of it is put in the place
    /// of what came of another one, whatever that was, and in its room. The octets of the arrival may be taken, and others may
    /// stand there then, which are of no account but for the memory that they have.
    ///
    /// # Errors
    /// It fails for want of memory alone, and then the runner is not used again.
    fn one(&mut self, arrival: &mut Arrival, fate: &mut Fate) -> Result<(), OutOfMemory>
        requires { IsArrival arrival.old }
        ensures setting { OnOk result (setting self.new ≡ setting self.old) }
        ensures store { OnOk result (store self.new ≡ (outcome (setting self.old) (store self.old) arrival.old).store) }
        ensures work { OnOk result (done self.new ≡ (done self.old + (outcome (setting self.old) (store self.old) arrival.old).work) % 2 ^ 64) }
        ensures sent { OnOk result (fate.new.sent ≡ (outcome (setting self.old) (store self.old) arrival.old).sent) }
        ensures cut { OnOk result (fate.new.cut ≡ (outcome (setting self.old) (store self.old) arrival.old).cut % 2 ^ 64) }
        ensures seconds { OnOk result (arrival.new.seconds ≡ arrival.old.seconds) }
        ensures fraction { OnOk result (arrival.new.fraction ≡ arrival.old.fraction) };

    // The lines that end the report, by the store and the work.
    ghost end_lines: { Setting → Store → ℕ → List ℕ };

    /// Puts the lines last that end the report of the packets so far, behind how many came in and left. They tell of
    /// the runner's counters and registers, and of its work where it tells that.
    ///
    /// # Errors
    /// It fails for want of memory alone.
    fn put_end_lines(&self, alloc: Global, into: &mut Octets) -> Result<(), OutOfMemory>
        ensures { OnOk result (into.new ≡ into.old ++ end_lines (setting self.now) (store self.now) (done self.now)) };

    // A pass sends at most one packet.
    ghost few: { (s : Setting) → AreFew (outcome s) };
}
