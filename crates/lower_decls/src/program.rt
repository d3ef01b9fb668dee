// The types of a whole program.
ghost use Rattle.std.specs.Prelude.{◌≡◌, IfOk};
ghost use Rattle.p414_sem.specs.Expanded.{Expanded, IsExpanded};
ghost use Rattle.lower_decls.specs.Lowered.{AreLowered};

use crate::lowered::{LoweredTypes, lowered};
use p4x_bits::OutOfMemory;
use p414_body_check::Program14;
use p414_field_lists::field_lists14;
use p414_names::names_of;
use std::alloc::Global;

/// What a translated text declares at its top, and what the rest of it is written with: types and objects, new names, the
/// copies of actions, and the marks of the lists that calls preserve. In time linear in the program and in its expanded lists
/// but for looking names up. The one error is want of memory, which more fields of a type, more lines of tables and more
/// declarations than have numbers of 32 bits count as.
#[tactic(auto, using(crate::proofs::Accepted::names_once))]
pub fn lower_types(alloc: Global, program: &Program14) -> Result<LoweredTypes, OutOfMemory>
    ensures { IfOk result (λ found. (x : Expanded) → IsExpanded program.now.decls x → AreLowered program.now.decls x found) }
{
    let decls = program.syntax().decls.as_slice();
    let lists = field_lists14(alloc, program)?;
    match names_of(alloc, decls)? {
        Some(names) => lowered(alloc, &names, &lists),
        None => unreachable!(),
    }
}
