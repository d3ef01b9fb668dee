// Programs of P4_14, the states of their packets, and their entries.
ghost use Rattle.std.specs.Prelude.{◌≡◌, IfOk, IfSome};
ghost use Rattle.match_core.specs.Fits.{Fits};
ghost use Rattle.p414_sem.specs.Signatures.{signature14};
ghost use Rattle.p414_layout.specs.Shapes.{layout_of};

use entries_file::read_entries;
use match_core::Entries;
use p4x_bits::{Octets, OutOfMemory};
use p414_body_check::{Program14, check14};
use p414_parse_run::parse14;
use p414_program_signature::signature14;
use p414_reader::read14;
use p414_state::State14;
use std::alloc::Global;

/// The program of a text.
pub fn program_of(alloc: Global, text: &[u8]) -> Option<Program14> {
    match read14(alloc, text) {
        Ok(syntax) => check14(alloc, syntax).ok(),
        Err(_) => None,
    }
}

/// The state of a packet that came in on port 7, and is of this kind.
pub fn state_of(
    alloc: Global,
    program: &Program14,
    octets: &[u8],
    kind: u32,
) -> Result<State14, OutOfMemory>
    ensures { IfOk result (λ state. state.layout ≡ layout_of program.now.decls) }
{
    let item = Octets::from_slice(alloc, octets)?;
    State14::new(alloc, program, &item, 7, kind)
}

/// The same of a packet that came in, parsed.
pub fn parsed_of(alloc: Global, program: &Program14, octets: &[u8]) -> Result<State14, OutOfMemory>
    ensures { IfOk result (λ state. state.layout ≡ layout_of program.now.decls) }
{
    let mut state = state_of(alloc, program, octets, 0)?;
    let _end = parse14(alloc, program, &mut state)?;
    Ok(state)
}

/// The entries of a text.
pub fn entries_of(alloc: Global, program: &Program14, text: &[u8]) -> Option<Entries>
    ensures { IfSome result (λ entries. Fits entries (signature14 program.now.decls)) }
{
    match signature14(alloc, program) {
        Ok(signature) => match read_entries(alloc, text, &signature) {
            Ok(entries) => Some(entries),
            Err(_) => None,
        },
        Err(_) => None,
    }
}
