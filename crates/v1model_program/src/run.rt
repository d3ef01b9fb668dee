// The run of a program.
ghost use Rattle.std.specs.Prelude.{◌≡◌, All, IfOk};
ghost use Rattle.fabric.specs.Numbers.{HasPort, IsBound};
ghost use Rattle.match_core.specs.Fits.{Fits};
ghost use Rattle.match_core.specs.Signatures.{IsSignature};
ghost use Rattle.v1_core.specs.Signatures.{signature16};
ghost use Rattle.v1_core.specs.Programs.{layout16};
ghost use Rattle.v1model_program.specs.Ran.{IsRun16};

use crate::program::{frame_layout16, ready_program16};
use fabric::{Arrival, RunResult};
use match_core::{Entries, Signature};
use p4x_bits::OutOfMemory;
use p416_program::Program16;
use p416_signature::signature16;
use std::alloc::Global;
use v1_core::FrameLayout;
use v1model_runner::run_ready16;

/// The run of a program with this signature, whose frames have this layout.
#[tactic(auto, using(crate::proofs::Running::ready_signed, crate::proofs::Running::ready_fits))]
fn run_over<'r>(
    alloc: Global,
    program: &'r Program16,
    layout: &'r FrameLayout,
    signature: &Signature,
    entries: &'r Entries,
    bound: u32,
    arrivals: &[Arrival],
) -> Result<RunResult, OutOfMemory>
    requires layout { layout.now ≡ layout16 program.now }
    requires signature { signature.now ≡ signature16 program.now }
    requires formed { IsSignature signature.now }
    requires fits { Fits entries.now signature.now }
    requires bound { IsBound bound }
    requires from { All HasPort arrivals.now }
    ensures { IfOk result (IsRun16 (record { syntax = program.now; entries = entries.now }) bound arrivals.now) }
{
    let ready = ready_program16(alloc, program, layout, signature, entries)?;
    let ran = run_ready16(alloc, &ready, signature, bound, arrivals)?;
    Ok(ran)
}

/// What a program does with packets that come in one after another, with these entries, where each packet and all that comes of it
/// make at most `bound` passes: what it sends, the counters, registers and meters that it leaves, how many items were cut, and how
/// many statements and transitions began, the last two modulo 2^64 (`v1model.p4`, `V1Switch`; the fabric and the count are this
/// project's own). The run begins with all cells 0 and the meter colours of the entries. A bound is 1 to 65,536 passes, and packets
/// come in on ports 0 to 510.
///
/// # Errors
/// It fails for want of memory alone, which a program of 2^32 tables or more counts as.
#[tactic(auto, using(crate::proofs::Running::signed_so, crate::proofs::Running::made_fits))]
pub fn run16(
    alloc: Global,
    program: &Program16,
    entries: &Entries,
    bound: u32,
    arrivals: &[Arrival],
) -> Result<RunResult, OutOfMemory>
    requires entries { Fits entries.now (signature16 program.now) }
    requires bound { IsBound bound }
    requires from { All HasPort arrivals.now }
    ensures { IfOk result (IsRun16 (record { syntax = program.now; entries = entries.now }) bound arrivals.now) }
{
    let signature = signature16(alloc, program.syntax())?;
    if !signature.is_well_formed(alloc)? {
        return Err(OutOfMemory);
    }
    let layout = frame_layout16(alloc, program)?;
    run_over(
        alloc, program, &layout, &signature, entries, bound, arrivals,
    )
}
