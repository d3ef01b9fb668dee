// A packet is parsed, and a control runs on it.
ghost use Rattle.std.specs.Prelude.{◌≡◌, ◌≤◌, [], length, drop, IfOk, OnOk};
ghost use Rattle.v1_core.specs.declared.block.Block.{Block as Control};
ghost use Rattle.v1_core.specs.Parsing.{parse16};
ghost use Rattle.v1_core.specs.Blocks.{control16};
ghost use Rattle.v1_core.specs.PackedFrames.{IsFrameOf};
ghost use Rattle.v1_passes.specs.Moments.{moment_at};
ghost use Rattle.v1_control_run.specs.Prepared.{IsPrepared, setting_of};
ghost use Rattle.v1_control_run.specs.internal.Runs.{AreRunners, CanBegin, filled_of};

use crate::prepared::Prepared;
use crate::runners::{Runners, is_empty};
use crate::spare::{are_octets, begin, end, end_silently};
use p4x_bits::{Octets, OutOfMemory};
use state_store::Store;
use v1_core::{Block, Frame};
use v1_parse_run::{ParserMachine, parse_ready};
use v1_passes::ParseEnd;

/// Parses a packet: what `parse16` of the definitions says. The one error is want of memory.
pub fn parse_packet(
    program: Prepared<'_>,
    machine: &mut ParserMachine<'_>,
    frame: &mut Frame<'_>,
    store: &mut Store,
    octets: &[u8],
    work: &mut u64,
) -> Result<ParseEnd, OutOfMemory>
    requires program { IsPrepared program }
    requires frame { IsFrameOf program.packets.now frame.old }
    requires spare { CanBegin program store.old machine.old }
    ensures spare { OnOk result (CanBegin program.entry store.new machine.new) }
    ensures frame { OnOk result (IsFrameOf program.entry.packets.now frame.new) }
    ensures within { IfOk result (λ end. end.at ≤ length octets.now) }
    ensures parses { IfOk result (λ end. parse16 (setting_of program.entry) (moment_at program.entry.packets.now frame.old store.old octets.now [] work.old) ≡ record { error = end.error; moment = moment_at program.entry.packets.now frame.new store.new (drop end.at octets.now) [] work.new }) }
{
    begin(&mut machine.run, &[], *work)?;
    machine.parsed = 0;
    let error = parse_ready(
        program.states,
        program.parser,
        octets,
        frame,
        store,
        machine,
    )?;
    end_silently(&machine.run)?;
    *work = machine.run.work;
    Ok(ParseEnd {
        error,
        at: machine.parsed,
    })
}

/// Runs a control on a packet: what `control16` of the definitions says. The one error is want of memory.
#[inline(always)]
#[tactic(auto, using(crate::proofs::Runs::block_applies))]
pub fn run_control(
    program: Prepared<'_>,
    runners: &mut Runners<'_>,
    spare: &mut ParserMachine<'_>,
    block: Block,
    frame: &mut Frame<'_>,
    store: &mut Store,
    unparsed: &[u8],
    emitted: &mut Octets,
    work: &mut u64,
) -> Result<(), OutOfMemory>
    requires runners { AreRunners program runners.old }
    requires frame { IsFrameOf program.packets.now frame.old }
    requires spare { CanBegin program store.old spare.old }
    ensures runners { (b : Control) → filled_of runners.new b ≡ filled_of runners.old b }
    ensures spare { OnOk result (CanBegin program.entry store.new spare.new) }
    ensures frame { OnOk result (IsFrameOf program.entry.packets.now frame.new) }
    ensures runs { OnOk result (control16 (setting_of program.entry) block (moment_at program.entry.packets.now frame.old store.old unparsed.now emitted.old work.old) ≡ moment_at program.entry.packets.now frame.new store.new unparsed.now emitted.new work.new) }
{
    let _packets = program.packets;
    if is_empty(runners.block(block)) {
        are_octets(emitted.as_slice());
        spare.run.waiting.is_whole();
        return Ok(());
    }
    run_some(
        program, runners, spare, block, frame, store, unparsed, emitted, work,
    )
}

/// The same of a control that may have statements.
#[inline(never)]
#[tactic(auto, using(crate::proofs::Runs::block_applies, crate::proofs::Runs::over_control, crate::proofs::Runs::are_still, crate::proofs::Runs::rests_behind, crate::proofs::Runs::control_frame, crate::proofs::Runs::control_runs))]
fn run_some(
    program: Prepared<'_>,
    runners: &mut Runners<'_>,
    spare: &mut ParserMachine<'_>,
    block: Block,
    frame: &mut Frame<'_>,
    store: &mut Store,
    unparsed: &[u8],
    emitted: &mut Octets,
    work: &mut u64,
) -> Result<(), OutOfMemory>
    requires runners { AreRunners program runners.old }
    requires frame { IsFrameOf program.packets.now frame.old }
    requires spare { CanBegin program store.old spare.old }
    ensures runners { (b : Control) → filled_of runners.new b ≡ filled_of runners.old b }
    ensures spare { OnOk result (CanBegin program.entry store.new spare.new) }
    ensures frame { OnOk result (IsFrameOf program.entry.packets.now frame.new) }
    ensures runs { OnOk result (control16 (setting_of program.entry) block (moment_at program.entry.packets.now frame.old store.old unparsed.now emitted.old work.old) ≡ moment_at program.entry.packets.now frame.new store.new unparsed.now emitted.new work.new) }
{
    let _packets = program.packets;
    begin(&mut spare.run, emitted.as_slice(), *work)?;
    runners.run(block, frame, store, unparsed, &mut spare.run)?;
    end(&spare.run, emitted)?;
    *work = spare.run.work;
    Ok(())
}
