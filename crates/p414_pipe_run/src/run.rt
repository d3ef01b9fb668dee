// The run of a program on a list of packets.
ghost use Rattle.std.specs.Prelude.{All, IfOk};
ghost use Rattle.fabric.specs.Numbers.{HasPort, IsBound};
ghost use Rattle.match_core.specs.Fits.{Fits};
ghost use Rattle.p414_ready_tables.specs.Loaded.{setting};
ghost use Rattle.p414_sem.specs.Expanded.{Expanded, IsExpanded};
ghost use Rattle.p414_sem.specs.Runs.{Run14};
ghost use Rattle.p414_sem.specs.Signatures.{signature14};
ghost use Rattle.p414_pipe_run.specs.Ran.{IsRun14};

use crate::laws::packed_runs_as_the_program;
use crate::passes::Passes14;
use crate::ready::ready_program14;
use fabric::{Arrival, RunResult, serve_all};
use match_core::{Entries, first_store};
use p4x_bits::OutOfMemory;
use p414_body_check::Program14;
use p414_program_signature::signature14;
use p414_syntax::Rule14;
use std::alloc::Global;

/// What a program does with packets that come in one after another, under this rule and with these entries, where each packet and all
/// that comes of it make at most `bound` passes: what it sends, the counters, registers and meters that it leaves, and how many items
/// were cut, modulo 2^64 (P4_14 1.0.5, "Packet Processing and Control Flow"; the fabric and the rules are this project's own). The run
/// begins with all cells 0 and the meter colours of the entries.
///
/// # Errors
/// It fails for want of memory alone, which a program of 2^32 tables or more counts as.
pub fn run14(
    alloc: Global,
    program: &Program14,
    rule: Rule14,
    entries: &Entries,
    bound: u32,
    arrivals: &[Arrival],
) -> Result<RunResult, OutOfMemory>
    requires entries { Fits entries.now (signature14 program.now.decls) }
    requires bound { IsBound bound }
    requires from { All HasPort arrivals.now }
    ensures { IfOk result (λ ran. (x : Expanded) → IsExpanded program.now.decls x → IsRun14 (Run14 (setting (record { decls = program.now.decls; rule = rule; entries = entries.now }) x) bound arrivals.now) ran) }
{
    let signature = signature14(alloc, program)?;
    if !signature.is_well_formed(alloc)? {
        return Err(OutOfMemory);
    }
    let store = first_store(alloc, &signature, entries)?;
    let ready = ready_program14(alloc, program, rule, &signature, entries, &store)?;
    packed_runs_as_the_program();
    let mut passes = Passes14::new(alloc, &ready, store);
    let total = serve_all(
        alloc,
        &mut passes,
        entries.sessions.as_slice(),
        arrivals,
        bound,
    )?;
    Ok(RunResult {
        sent: total.sent,
        store: passes.into_store(),
        cut: total.cut,
        work: 0,
    })
}
