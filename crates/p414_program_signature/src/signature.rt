// The signature of a program.
ghost use Rattle.std.specs.Prelude.{◌≡◌, IfOk};
ghost use Rattle.p414_sem.specs.Signatures.{signature14};

use match_core::Signature;
use p4x_bits::OutOfMemory;
use p414_body_check::Program14;
use p414_names::names_of;
use p414_signature::signature_of;
use std::alloc::Global;

/// The signature of a program: its tables with their keys and actions, and its counters, meters and registers, both by
/// the octet order of their names (P4_14 1.0.5, "Table Declarations", "Counters", "Meters", "Registers", "Actions"; the
/// order, the width of a parameter and the size of a table that gives none are this project's own). In time O(n log n) in
/// the program; the one error is want of memory.
pub fn signature14(alloc: Global, program: &Program14) -> Result<Signature, OutOfMemory>
    ensures { IfOk result (λ signature. signature ≡ signature14 program.now.decls) }
{
    let found = names_of(alloc, program.syntax().decls.as_slice())?;
    match found {
        Some(names) => signature_of(alloc, &names),
        // No name is declared twice, so the names are there.
        None => Err(OutOfMemory),
    }
}
