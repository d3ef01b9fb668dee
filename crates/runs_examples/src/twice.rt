//! A runner that sends each packet twice.
ghost use Rattle.std.specs.Prelude.{◌≡◌, ◌∷◌, [], ℕ, IfOk};
ghost use Rattle.state_store.specs.State.{Contents};
ghost use Rattle.run_stream.specs.Reports.{work_line};
ghost use Rattle.runs_examples.specs.Twice.{leaving, twice, no_store, are_few};

use fabric::{Arrival, Fate, Out};
use p4x_bits::{Octets, OutOfMemory, Rows};
use run_stream::{Runner, put_work_line};
use std::alloc::Global;

/// A runner whose program sends each packet on one port and queues it again, under a bound of two passes: so
/// each packet that comes in leaves twice, and one item is cut.
#[derive(Drop)]
pub struct Twice {
    alloc: Global,
    /// The port that packets leave on.
    pub port: u16,
    /// How many passes were made so far, modulo 2^64.
    pub passes: u64,
}

impl Twice {
    /// The runner before its first packet. It takes no memory.
    pub fn new(alloc: Global, port: u16) -> Twice
        ensures port { result.port ≡ port }
        ensures passes { result.passes ≡ 0 }
    {
        Twice {
            alloc,
            port,
            passes: 0,
        }
    }
}

// What leaves of a packet with these octets.
fn outs(alloc: Global, port: u16, octets: &[u8]) -> Result<Rows<Out>, OutOfMemory>
    ensures { IfOk result (λ outs. outs ≡ leaving port octets.now ∷ leaving port octets.now ∷ []) }
{
    let mut outs = Rows::new(alloc);
    let first = Octets::from_slice(alloc, octets)?;
    outs.push(Out {
        port,
        octets: first,
    })?;
    let second = Octets::from_slice(alloc, octets)?;
    outs.push(Out {
        port,
        octets: second,
    })?;
    Ok(outs)
}

impl Runner for Twice {
    ghost Setting = { ℕ };

    ghost setting = { λ runner. runner.port };

    ghost Store = { Contents };

    ghost outcome = { twice };

    ghost store = { λ runner. no_store };

    ghost done = { λ runner. runner.passes };

    fn one(&mut self, arrival: &mut Arrival, fate: &mut Fate) -> Result<(), OutOfMemory> {
        self.passes = self.passes.wrapping_add(2);
        fate.sent = outs(self.alloc, self.port, arrival.octets.as_slice())?;
        fate.cut = 1;
        Ok(())
    }

    ghost end_lines = { λ port store work. work_line work };

    fn put_end_lines(&self, alloc: Global, into: &mut Octets) -> Result<(), OutOfMemory> {
        put_work_line(alloc, into, self.passes)
    }

    ghost few = { are_few };
}
