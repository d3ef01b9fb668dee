// The calculated fields of a program.
ghost use Rattle.std.specs.Prelude.{◌≡◌, IfOk, OnOk};
ghost use Rattle.p414_sem.specs.Expanded.{Expanded, IsExpanded};
ghost use Rattle.p414_sem.specs.Meanings.{Update14, Verify14};
ghost use Rattle.p414_layout.specs.Shapes.{layout_of};
ghost use Rattle.p414_state.specs.Packets.{with_state};
ghost use Rattle.p414_calculated_fields.specs.Meaning.{MeansFields};
ghost use Rattle.p414_calculated_fields.specs.Rows.{field_rows};

use crate::fields::CalculatedFields;
use p4x_bits::OutOfMemory;
use p414_act_run::calculations14;
use p414_body_check::Program14;
use p414_names::names_of;
use p414_state::State14;
use std::alloc::Global;

/// The calculated fields of a program, ready to be verified and updated. The one error is want of memory.
#[tactic(auto, using(p414_parse_run::proofs::Accepted::names_once, crate::proofs::Meaning::made_mean))]
pub fn calculated_fields14(
    alloc: Global,
    program: &Program14,
) -> Result<CalculatedFields, OutOfMemory>
    ensures are { IfOk result (λ fields. fields ≡ field_rows program.now.decls) }
    ensures means { IfOk result (MeansFields program.now.decls) }
{
    let decls = program.syntax().decls.as_slice();
    match names_of(alloc, decls)? {
        Some(names) => CalculatedFields::of(alloc, &names),
        None => unreachable!(),
    }
}

/// Whether verification of a packet raises `p4_pe_checksum` (P4_14 1.0.5, "Checksums and Hash-value Generators"). The one error is
/// want of memory.
#[tactic(auto, using(crate::proofs::Meaning::verified))]
pub fn verify14(alloc: Global, program: &Program14, state: &State14) -> Result<bool, OutOfMemory>
    ensures { IfOk result (λ fails. (x : Expanded) → IsExpanded program.now.decls x → fails ≡ Verify14 program.now.decls x state.now.state) }
{
    let fields = calculated_fields14(alloc, program)?;
    let calculations = calculations14(alloc, program)?;
    let fails = fields.fail(alloc, &calculations, state)?;
    Ok(fails)
}

/// Updates the calculated fields of a packet (P4_14 1.0.5, "Checksums and Hash-value Generators"). The one error is want of memory,
/// and the state isn't used again after it.
pub fn update14(alloc: Global, program: &Program14, state: &mut State14) -> Result<(), OutOfMemory>
    requires { state.old.layout ≡ layout_of program.now.decls }
    ensures { OnOk result ((x : Expanded) → IsExpanded program.now.decls x → state.new ≡ with_state state.old (Update14 program.now.decls x state.old.state)) }
{
    let fields = calculated_fields14(alloc, program)?;
    let calculations = calculations14(alloc, program)?;
    fields.update(alloc, &calculations, state)?;
    Ok(())
}
