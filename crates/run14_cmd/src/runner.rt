// A program of P4_14 as a runner of packets.
ghost use Rattle.std.specs.Prelude.{◌≡◌, ◌<◌, ◌^◌, length};
ghost use Rattle.state_store.specs.State.{Contents};
ghost use Rattle.state_store.specs.Ports.{AreSessions};
ghost use Rattle.fabric.specs.Numbers.{IsBound};
ghost use Rattle.p414_pipe_run.specs.Prepared.{setting_of};
ghost use Rattle.run14_cmd.specs.internal.Runner.{Running14 as Sets, outcome14, lines14, are_few};

use cell_lines::put_cell_lines;
use fabric::{Arrival, Fate, serve_into};
use match_core::Signature;
use p4x_bits::{Octets, OutOfMemory};
use p414_pipe_run::{Passes14, packed_runs_as_the_program};
use run_stream::Runner;
use state_store::Session;
use std::alloc::Global;

/// The passes of a program with its clone sessions, under a bound on passes.
#[derive(Drop)]
pub struct Runner14<'r, 'e> {
    alloc: Global,
    passes: Passes14<'r, 'e>,
    signature: &'r Signature,
    sessions: &'r [Session],
    bound: u32,
    ghost bounded: { IsBound bound },
    ghost are_sessions: { AreSessions sessions.now },
    ghost few: { length signature.now.objects < 2 ^ 32 },
}

impl<'r, 'e> Runner14<'r, 'e> {
    /// The runner before its first packet. It takes no memory.
    pub(crate) fn new(
        alloc: Global,
        passes: Passes14<'r, 'e>,
        signature: &'r Signature,
        sessions: &'r [Session],
        bound: u32,
    ) -> Runner14<'r, 'e>
        requires bound { IsBound bound }
        requires sessions { AreSessions sessions.now }
        requires few { length signature.now.objects < 2 ^ 32 }
        ensures passes { result.passes ≡ passes.entry }
        ensures signature { result.signature.now ≡ signature.now }
        ensures sessions { result.sessions.now ≡ sessions.now }
        ensures bound { result.bound ≡ bound }
    {
        Runner14 {
            alloc,
            passes,
            signature,
            sessions,
            bound,
        }
    }
}

impl<'r, 'e> Runner for Runner14<'r, 'e> {
    ghost Setting = { Sets };

    ghost setting = { λ r. record { program = setting_of r.passes.prepared; signature = r.signature.now; sessions = r.sessions.now; bound = r.bound } };

    ghost Store = { Contents };

    ghost outcome = { outcome14 };

    ghost store = { λ r. r.passes.between.store };

    ghost done = { λ r. 0 };

    fn one(&mut self, arrival: &mut Arrival, fate: &mut Fate) -> Result<(), OutOfMemory> {
        packed_runs_as_the_program();
        serve_into(
            self.alloc,
            &mut self.passes,
            self.sessions,
            arrival,
            self.bound,
            fate,
        )?;
        Ok(())
    }

    ghost end_lines = { lines14 };

    fn put_end_lines(&self, alloc: Global, into: &mut Octets) -> Result<(), OutOfMemory> {
        put_cell_lines(alloc, into, self.signature, self.passes.store())
    }

    ghost few = { are_few };
}
