// The blocks of a prepared program are run.
ghost use Rattle.std.specs.Prelude.{◌≡◌, IfOk};
ghost use Rattle.v1_control_run.specs.Prepared.{IsPrepared, objects_of, setting_of};

use crate::packet::{parse_packet, run_control};
use crate::prepared::Prepared;
use crate::runners::Runners;
use crate::spare::spare_machine;
use p4x_bits::{Octets, OutOfMemory};
use state_store::Store;
use std::alloc::Global;
use std::marker::Model;
use v1_core::{Block, Frame};
use v1_packets::Packets;
use v1_parse_run::ParserMachine;
use v1_passes::{Blocks, ParseEnd};

/// What runs the parser and the five controls of a prepared program on one packet after another (P4_16 1.2, "Packet parsing",
/// "Control blocks"; `v1model.p4`): `parse` is `parse16` and `control` is `control16` of the definitions. Its room stays from
/// packet to packet; memory is taken where it grows, for notes of applications of tables, and for octets that are emitted.
/// Contracts see the program with its entries, and the counters, registers and meters.
pub struct PreparedBlocks<'r> {
    program: Prepared<'r>,
    counted: Store,
    runners: Runners<'r>,
    spare: ParserMachine<'r>,
    // Not after want of memory in a block.
    usable: bool,
}

impl Drop for PreparedBlocks<'_> {
    fn drop(self) {
        let PreparedBlocks {
            program: _program,
            counted: _counted,
            runners: _runners,
            spare: _spare,
            usable: _usable,
        } = self;
    }
}

impl<'r> Model for PreparedBlocks<'r> {
    ghost use Rattle.v1_control_run.specs.Running.{Running, coded_running};

    ghost Value = { Running };

    ghost coded = { coded_running };

    ghost use Rattle.v1_control_run.specs.Prepared.{setting_of};
    ghost use Rattle.v1_control_run.specs.internal.Runs.{IsReady};

    ghost view = { λ b. record { setting = setting_of b.program; store = b.counted } };

    ghost invariant = { λ b. IsReady b.program b.runners b.counted b.usable b.spare };
}

impl<'r> PreparedBlocks<'r> {
    /// What runs the blocks of a prepared program, with these counters, registers and meters. The one error is want of memory.
    #[tactic(auto, using(crate::proofs::Runs::ready_first))]
    pub fn new(alloc: Global, program: Prepared<'r>, store: Store) -> Result<Self, OutOfMemory>
        requires program { IsPrepared program }
        requires store { store.shapes ≡ objects_of (setting_of program) }
        ensures { IfOk result (λ blocks. blocks ≡ record { setting = setting_of program.entry; store = store }) }
    {
        let spare = spare_machine(alloc, program.layout)?;
        Ok(PreparedBlocks {
            program,
            counted: store,
            runners: Runners::new(alloc, program),
            spare,
            usable: true,
        })
    }
}

impl<'r> Blocks<'r> for PreparedBlocks<'r> {
    ghost setting = { λ b. b.setting };

    ghost store = { λ b. b.store };

    fn packets(&self) -> &'r Packets<'r> {
        self.program.packets
    }

    fn store(&self) -> &Store {
        &self.counted
    }

    fn into_store(self) -> Store {
        let PreparedBlocks {
            program: _program,
            counted,
            runners: _runners,
            spare: _spare,
            usable: _usable,
        } = self;
        counted
    }

    #[tactic(auto, using(crate::proofs::Runs::can_begin, crate::proofs::Runs::ready_without, crate::proofs::Runs::ready_again))]
    fn parse(
        &mut self,
        frame: &mut Frame<'r>,
        octets: &[u8],
        work: &mut u64,
    ) -> Result<ParseEnd, OutOfMemory> {
        if !self.usable {
            return Err(OutOfMemory);
        }
        self.usable = false;
        let end = parse_packet(
            self.program,
            &mut self.spare,
            frame,
            &mut self.counted,
            octets,
            work,
        )?;
        self.usable = true;
        Ok(end)
    }

    #[inline(always)]
    #[tactic(auto, using(crate::proofs::Runs::can_begin, crate::proofs::Runs::ready_without, crate::proofs::Runs::ready_again))]
    fn control(
        &mut self,
        block: Block,
        frame: &mut Frame<'r>,
        unparsed: &[u8],
        emitted: &mut Octets,
        work: &mut u64,
    ) -> Result<(), OutOfMemory> {
        if !self.usable {
            return Err(OutOfMemory);
        }
        self.usable = false;
        run_control(
            self.program,
            &mut self.runners,
            &mut self.spare,
            block,
            frame,
            &mut self.counted,
            unparsed,
            emitted,
            work,
        )?;
        self.usable = true;
        Ok(())
    }
}
