// A program of P4_16 as a runner of packets.
ghost use Rattle.std.specs.Prelude.{◌≡◌, ◌<◌, ◌^◌, length};
ghost use Rattle.state_store.specs.Ports.{AreSessions};
ghost use Rattle.fabric.specs.Numbers.{IsBound};
ghost use Rattle.v1_core.specs.Passes.{Between};
ghost use Rattle.v1_passes.specs.Runs.{between_of};
ghost use Rattle.run16_cmd.specs.internal.Runner.{Running16 as Sets, outcome16, lines16, are_few};

use cell_lines::put_cell_lines;
use fabric::{Arrival, Fate};
use match_core::Signature;
use p4x_bits::{Octets, OutOfMemory};
use run_stream::{Runner, put_work_line};
use std::alloc::Global;
use v1_control_run::PreparedBlocks;
use v1_passes::Runner16;

/// A program that runs on one packet after another, with its signature.
#[derive(Drop)]
pub struct ProgramRunner<'r> {
    pub(crate) runner: Runner16<'r, PreparedBlocks<'r>>,
    pub(crate) signature: &'r Signature,
    ghost bounded: { IsBound runner.bound },
    ghost are_sessions: { AreSessions runner.sessions.now },
    ghost few: { length signature.now.objects < 2 ^ 32 },
}

impl<'r> ProgramRunner<'r> {
    /// The runner before its first packet. It takes no memory.
    pub(crate) fn new(
        runner: Runner16<'r, PreparedBlocks<'r>>,
        signature: &'r Signature,
    ) -> ProgramRunner<'r>
        requires bound { IsBound runner.bound }
        requires sessions { AreSessions runner.sessions.now }
        requires few { length signature.now.objects < 2 ^ 32 }
        ensures program { result.runner.passes.blocks.setting ≡ runner.entry.passes.blocks.setting }
        ensures sessions { result.runner.sessions.now ≡ runner.entry.sessions.now }
        ensures bound { result.runner.bound ≡ runner.entry.bound }
        ensures between { between_of result.runner.passes.blocks.store result.runner.passes.work result.runner.passes.events ≡ between_of runner.entry.passes.blocks.store runner.entry.passes.work runner.entry.passes.events }
        ensures signature { result.signature.now ≡ signature.now }
    {
        ProgramRunner { runner, signature }
    }
}

impl<'r> Runner for ProgramRunner<'r> {
    ghost Setting = { Sets };

    ghost setting = { λ r. record { program = r.runner.passes.blocks.setting; signature = r.signature.now; sessions = r.runner.sessions.now; bound = r.runner.bound } };

    ghost Store = { Between };

    ghost outcome = { outcome16 };

    ghost store = { λ r. between_of r.runner.passes.blocks.store r.runner.passes.work r.runner.passes.events };

    ghost done = { λ r. 0 };

    fn one(&mut self, arrival: &mut Arrival, fate: &mut Fate) -> Result<(), OutOfMemory> {
        self.runner.one_into(arrival, fate)?;
        Ok(())
    }

    ghost end_lines = { lines16 };

    fn put_end_lines(&self, alloc: Global, into: &mut Octets) -> Result<(), OutOfMemory> {
        put_cell_lines(alloc, into, self.signature, self.runner.store())?;
        put_work_line(alloc, into, self.runner.work())?;
        Ok(())
    }

    ghost few = { are_few };
}
