// Packets as they come in and leave, and what comes of them.
ghost use Rattle.std.specs.Prelude.{◌≡◌, []};

use p4x_bits::{Octets, Rows};
use state_store::Store;
use std::alloc::Global;

/// A packet as it comes in.
#[derive(Drop)]
pub struct Arrival {
    /// What was captured of it.
    pub octets: Octets,
    /// The port that it comes in on, 0 to `state_store::GREATEST_PORT`.
    pub port: u16,
    /// The seconds of its record.
    pub seconds: u32,
    /// The microseconds or nanoseconds of its record.
    pub fraction: u32,
}

/// A packet that was sent.
#[derive(Drop)]
pub struct Sent {
    /// The number of the arrival that it came from, from 0.
    pub arrival: u64,
    /// The port that it leaves on, 0 to `state_store::GREATEST_PORT`.
    pub port: u16,
    /// The octets that leave.
    pub octets: Octets,
}

/// A packet that one arrival gives.
#[derive(Drop)]
pub struct Out {
    /// The port that it leaves on, 0 to `state_store::GREATEST_PORT`.
    pub port: u16,
    /// The octets that leave.
    pub octets: Octets,
}

/// What comes of one arrival.
#[derive(Drop)]
pub struct Fate {
    /// What was sent, in order.
    pub sent: Rows<Out>,
    /// How many items were left in its queue when the bound on passes was reached.
    pub cut: u64,
}

impl Fate {
    /// The fate of a packet of which nothing comes. It takes no memory.
    pub fn new(alloc: Global) -> Fate
        ensures sent { result.sent ≡ [] }
        ensures cut { result.cut ≡ 0 }
    {
        Fate {
            sent: Rows::new(alloc),
            cut: 0,
        }
    }

    /// Lets go of what was sent, and gives octets of it, if any, which are of no account but for the memory that they have. It
    /// takes no memory.
    pub fn reclaim(&mut self) -> Option<Octets>
        ensures { self.new.sent ≡ [] }
    {
        let last = self.sent.pop();
        self.sent.clear();
        Some(last?.octets)
    }
}

/// What comes of a list of arrivals.
pub struct RunResult {
    /// What was sent, in order.
    pub sent: Rows<Sent>,
    /// The counters, registers and meters as they are left.
    pub store: Store,
    /// How many items the bound on passes cut, modulo 2^64.
    pub cut: u64,
    /// How many statements and transitions of a P4_16 program began, modulo 2^64; 0 for a P4_14 program.
    pub work: u64,
}

impl Drop for RunResult {
    fn drop(self) {
        let RunResult {
            sent: _sent,
            store: _store,
            cut: _cut,
            work: _work,
        } = self;
    }
}
