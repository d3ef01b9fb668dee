// The run of a program.
ghost use Rattle.std.specs.Prelude.{◌≡◌, ◌%◌, ◌^◌, List, ◌∷◌, [], ◌++◌, All, IfOk, OnOk};
ghost use Rattle.state_store.specs.Ports.{AreSessions, IsPort};
ghost use Rattle.match_core.specs.Fits.{Fits};
ghost use Rattle.match_core.specs.Signatures.{IsSignature};
ghost use Rattle.match_core.specs.Stores.{first_store};
ghost use Rattle.fabric.specs.Numbers.{HasPort, IsBound};
ghost use Rattle.fabric.specs.declared.packets.Arrival.{Arrival as Came};
ghost use Rattle.v1_core.specs.Surroundings.{Setting};
ghost use Rattle.v1_core.specs.Signatures.{signature16};
ghost use Rattle.v1_core.specs.Runs.{Run16, Work16};
ghost use Rattle.v1_passes.specs.Runs.{between_of};
ghost use Rattle.v1model_runner.specs.Runs.{ComesNext, IsBehind};

use crate::ready::ReadyProgram16;
use fabric::{Arrival, Fate, RunResult};
use match_core::{Signature, first_store};
use p4x_bits::OutOfMemory;
use std::alloc::Global;
use v1_control_run::PreparedBlocks;
use v1_passes::{Runner16, one_packet_more, run_blocks};

/// What runs the blocks of a program, where all counters and registers are 0 and the meters have the colours of the entries. The one
/// error is want of memory.
#[tactic(auto, using(crate::proofs::Running::fits_so, crate::proofs::Running::first_shapes, crate::proofs::Running::setting_so, crate::proofs::Running::begun_so))]
fn first_blocks<'s>(
    alloc: Global,
    ready: &'s ReadyProgram16<'_>,
    signature: &Signature,
) -> Result<PreparedBlocks<'s>, OutOfMemory>
    requires signature { signature.now ≡ signature16 ready.now.syntax }
    requires formed { IsSignature signature.now }
    requires fits { Fits ready.now.entries signature.now }
    ensures setting { IfOk result (λ blocks. blocks.setting ≡ ready.now) }
    ensures store { IfOk result (λ blocks. blocks.store ≡ first_store (signature16 ready.now.syntax) ready.now.entries) }
{
    let store = first_store(alloc, signature, ready.entries())?;
    let blocks = ready.blocks(alloc, store)?;
    Ok(blocks)
}

/// What a program does with packets that come in one after another, where each packet and all that comes of it make at most `bound`
/// passes: what it sends, the counters, registers and meters that it leaves, how many items were cut, and how many statements and
/// transitions began, the last two modulo 2^64 (`v1model.p4`, `V1Switch`; the fabric and the count are this project's own). All
/// counters and registers are 0 at first, and the meters have the colours of the entries. A bound is 1 to 65,536 passes, and packets
/// come in on ports 0 to 510.
///
/// # Errors
/// It fails for want of memory alone.
#[tactic(auto, using(crate::proofs::Running::first_of, crate::proofs::Running::sessions_of, crate::proofs::Running::sessions_fit, crate::proofs::Running::sent_so, crate::proofs::Running::store_so, crate::proofs::Running::cut_so, crate::proofs::Running::work_so))]
pub fn run_ready16(
    alloc: Global,
    ready: &ReadyProgram16<'_>,
    signature: &Signature,
    bound: u32,
    arrivals: &[Arrival],
) -> Result<RunResult, OutOfMemory>
    requires signature { signature.now ≡ signature16 ready.now.syntax }
    requires formed { IsSignature signature.now }
    requires fits { Fits ready.now.entries signature.now }
    requires bound { IsBound bound }
    requires from { All HasPort arrivals.now }
    ensures sent { IfOk result (λ run. run.sent ≡ (Run16 ready.now bound arrivals.now).sent) }
    ensures store { IfOk result (λ run. run.store ≡ (Run16 ready.now bound arrivals.now).state.store) }
    ensures cut { IfOk result (λ run. run.cut ≡ (Run16 ready.now bound arrivals.now).cut % 2 ^ 64) }
    ensures work { IfOk result (λ run. run.work ≡ Work16 ready.now bound arrivals.now) }
{
    let blocks = first_blocks(alloc, ready, signature)?;
    let sessions = ready.entries().sessions.as_slice();
    let run = run_blocks(alloc, blocks, sessions, bound, arrivals)?;
    Ok(run)
}

/// A program that runs on one packet after another, where a packet and all that comes of it make at most `bound` passes, 1 to 65,536,
/// before its first packet. The one error is want of memory.
#[tactic(auto, using(crate::proofs::Running::begins))]
pub fn runner16<'s>(
    alloc: Global,
    ready: &'s ReadyProgram16<'_>,
    signature: &Signature,
    bound: u32,
) -> Result<Runner16<'s, PreparedBlocks<'s>>, OutOfMemory>
    requires signature { signature.now ≡ signature16 ready.now.syntax }
    requires formed { IsSignature signature.now }
    requires fits { Fits ready.now.entries signature.now }
    ensures begins { IfOk result (λ runner. IsBehind ready.now bound [] runner.passes.blocks.setting runner.sessions.now (between_of runner.passes.blocks.store runner.passes.work runner.passes.events)) }
    ensures bound { IfOk result (λ runner. runner.bound ≡ bound) }
{
    let blocks = first_blocks(alloc, ready, signature)?;
    let sessions = ready.entries().sessions.as_slice();
    one_packet_more();
    Ok(Runner16::new(alloc, blocks, sessions, bound))
}

/// A packet more, on a port from 0 to 510: what `Runner16::one` does, over the packets so far. Behind it the runner stands where the run over the packets so
/// far and this one ends, and what was sent and how many items were cut is what that run has more. The one error is want of memory,
/// after which the runner isn't used again.
#[tactic(auto, using(crate::proofs::Running::comes_next, crate::proofs::Running::behind_next))]
pub fn one_more<'r>(
    runner: &mut Runner16<'r, PreparedBlocks<'r>>,
    arrival: &Arrival,
) -> Result<Fate, OutOfMemory>
    requires sessions { AreSessions runner.old.sessions.now }
    requires bound { IsBound runner.old.bound }
    requires port { IsPort arrival.now.port }
    ensures bound { OnOk result (runner.new.bound ≡ runner.old.bound) }
    ensures next { IfOk result (λ fate. (c : Setting) (arrivals : List Came) → IsBehind c runner.old.bound arrivals runner.old.passes.blocks.setting runner.old.sessions.now (between_of runner.old.passes.blocks.store runner.old.passes.work runner.old.passes.events) → ComesNext c runner.old.bound arrivals arrival.now fate.sent fate.cut (between_of runner.new.passes.blocks.store runner.new.passes.work runner.new.passes.events)) }
    ensures behind { OnOk result ((c : Setting) (arrivals : List Came) → IsBehind c runner.old.bound arrivals runner.old.passes.blocks.setting runner.old.sessions.now (between_of runner.old.passes.blocks.store runner.old.passes.work runner.old.passes.events) → IsBehind c runner.old.bound (arrivals ++ arrival.now ∷ []) runner.new.passes.blocks.setting runner.new.sessions.now (between_of runner.new.passes.blocks.store runner.new.passes.work runner.new.passes.events)) }
{
    one_packet_more();
    let fate = runner.one(arrival)?;
    Ok(fate)
}
