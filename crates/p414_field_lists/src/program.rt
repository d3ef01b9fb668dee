// The field lists of a program.
ghost use Rattle.std.specs.Prelude.{◌≡◌, IfOk};
ghost use Rattle.p414_sem.specs.Calculations.{list_bits};
ghost use Rattle.p414_sem.specs.Expanded.{Expanded, IsExpanded, items_in_list};
ghost use Rattle.p414_field_lists.specs.Meaning.{AreReady, MeansLists};

use crate::lists::FieldLists;
use p4x_bits::{Bits, OutOfMemory};
use p414_body_check::Program14;
use p414_names::names_of;
use p414_state::State14;
use std::alloc::Global;

/// The field lists of a program, ready for packets. The one error is want of memory.
#[tactic(auto, using(crate::proofs::Accepted::names_once))]
pub fn field_lists14(alloc: Global, program: &Program14) -> Result<FieldLists, OutOfMemory>
    ensures ready { IfOk result (AreReady program.now.decls) }
    ensures means { IfOk result (MeansLists program.now.decls) }
{
    let decls = program.syntax().decls.as_slice();
    match names_of(alloc, decls)? {
        Some(names) => FieldLists::of(alloc, &names),
        None => unreachable!(),
    }
}

/// The bits of the field list of a program with this number, from 0 in the order of declaration, as a packet's state has them
/// (P4_14 1.0.5, "Field Lists"); none of a list that isn't there. It makes the program's lists ready anew: for many packets
/// `field_lists14` makes them once. The one error is want of memory.
pub fn field_list_bits(
    alloc: Global,
    program: &Program14,
    list: u32,
    state: &State14,
) -> Result<Bits, OutOfMemory>
    ensures { IfOk result (λ bits. (x : Expanded) → IsExpanded program.now.decls x → bits ≡ list_bits program.now.decls state.now.state (items_in_list x list)) }
{
    let lists = field_lists14(alloc, program)?;
    lists.bits_of(alloc, list, state)
}
