// Each rule of bodies by itself: whether it is broken.
ghost use Rattle.std.specs.Prelude.{◌≡◌, ◌||◌, map, IfOk};
ghost use Rattle.p414_syntax.specs.Arguments.{actions, invocations_of, placed_arguments};
ghost use Rattle.p414_syntax.specs.Breaks.{IsBroken, BreaksNone, declaration_rules};
ghost use Rattle.p414_syntax.specs.Calls.{has_wrong_call};
ghost use Rattle.p414_syntax.specs.Exact.{IsExact};
ghost use Rattle.p414_syntax.specs.Expressions.{has_mistyped_expression};
ghost use Rattle.p414_syntax.specs.declared.rule.ProgramRule.TheVariants.{C11, C12, C13, C14, C15, C16, C17, C18, C19, C20, C21, C22, C23, C24, C25, C26, C27, C28};
ghost use Rattle.p414_call_check.specs.Shown.{shown_placed};

use p4x_bits::OutOfMemory;
use p414_action_check::has_bad_action;
use p414_call_check::{
    PlacedArgument, has_bad_target, has_misused_parameter, has_wrong_call, writes_group,
};
use p414_calls::ActionCalls;
use p414_control_check::{has_bad_control, nests_too_deep};
use p414_expanded_check::expands_to_wrong_call;
use p414_flat_check::{
    declares_unsupported, has_bad_cells, has_bad_default, has_bad_key, has_calculated_condition,
    has_deep_expression, has_minus_sign, has_mistyped_expression, has_two_lpm_keys,
    uses_unsupported,
};
use p414_names::Names14;
use p414_pipeline_check::{has_misplaced_request, has_shared_table};
use p414_preserved_check::{has_bad_payload, has_bad_preserved_list, preserves_initialized};
use std::alloc::Global;

/// Whether C11 is broken: keys.
#[tactic(auto, using(crate::proofs::Exactly::c11))]
pub fn breaks_c11(names: &Names14<'_>) -> bool
    ensures { IsExact result (IsBroken names.now C11) }
{
    has_bad_key(names)
}

/// Whether C12 is broken: a second lpm key.
#[tactic(auto, using(crate::proofs::Exactly::c12))]
pub fn breaks_c12(names: &Names14<'_>) -> bool
    ensures { IsExact result (IsBroken names.now C12) }
{
    has_two_lpm_keys(names)
}

/// Whether C13 is broken as the program is written.
fn is_written_wrongly(
    alloc: Global,
    names: &Names14<'_>,
    calls: &[ActionCalls<'_>],
) -> Result<bool, OutOfMemory>
    requires { calls.now ≡ map invocations_of (actions names.now) }
    ensures { IfOk result (λ wrong. wrong ≡ (has_wrong_call names.now || has_mistyped_expression names.now)) }
{
    let mistyped = has_mistyped_expression(alloc, names)?;
    Ok(has_wrong_call(names, calls) || mistyped)
}

/// Whether C13 is broken: arguments of calls, truth values and numbers.
pub fn breaks_c13(
    alloc: Global,
    names: &Names14<'_>,
    calls: &[ActionCalls<'_>],
) -> Result<bool, OutOfMemory>
    requires calls { calls.now ≡ map invocations_of (actions names.now) }
    requires declared { BreaksNone names.now declaration_rules }
    ensures { IfOk result (λ broken. IsExact broken (IsBroken names.now C13)) }
{
    if is_written_wrongly(alloc, names, calls)? {
        return Ok(true);
    }
    if has_bad_action(alloc, names)? {
        return Ok(false);
    }
    expands_to_wrong_call(alloc, names)
}

/// Whether C14 is broken: what is extracted and what is written.
#[tactic(auto, using(crate::proofs::Exactly::c14))]
pub fn breaks_c14(names: &Names14<'_>, placed: &[PlacedArgument<'_>]) -> bool
    requires placed { map shown_placed placed.now ≡ placed_arguments names.now }
    ensures { IsExact result (IsBroken names.now C14) }
{
    has_bad_target(names, placed)
}

/// Whether C15 is broken: actions that call themselves, or are too long.
pub fn breaks_c15(alloc: Global, names: &Names14<'_>) -> Result<bool, OutOfMemory>
    requires declared { BreaksNone names.now declaration_rules }
    requires calls { IsBroken names.now C13 → ⊥ }
    ensures { IfOk result (λ broken. IsExact broken (IsBroken names.now C15)) }
{
    has_bad_action(alloc, names)
}

/// Whether C16 is broken: controls that call themselves, or are too long.
pub fn breaks_c16(alloc: Global, names: &Names14<'_>) -> Result<bool, OutOfMemory>
    requires declared { BreaksNone names.now declaration_rules }
    ensures { IfOk result (λ broken. IsExact broken (IsBroken names.now C16)) }
{
    has_bad_control(alloc, names)
}

/// Whether C17 is broken: a table of both pipelines.
#[tactic(auto, using(crate::proofs::Exactly::c17))]
pub fn breaks_c17(alloc: Global, names: &Names14<'_>) -> Result<bool, OutOfMemory>
    ensures { IfOk result (λ broken. IsExact broken (IsBroken names.now C17)) }
{
    has_shared_table(alloc, names)
}

/// Whether C18 is broken: what is preserved.
pub fn breaks_c18(alloc: Global, names: &Names14<'_>) -> Result<bool, OutOfMemory>
    requires declared { BreaksNone names.now declaration_rules }
    ensures { IfOk result (λ broken. IsExact broken (IsBroken names.now C18)) }
{
    has_bad_preserved_list(alloc, names)
}

/// Whether C19 is broken: preserved fields with initial values.
pub fn breaks_c19(alloc: Global, names: &Names14<'_>) -> Result<bool, OutOfMemory>
    requires declared { BreaksNone names.now declaration_rules }
    ensures { IfOk result (λ broken. IsExact broken (IsBroken names.now C19)) }
{
    preserves_initialized(alloc, names)
}

/// Whether C20 is broken: where `payload` stands.
pub fn breaks_c20(alloc: Global, names: &Names14<'_>) -> Result<bool, OutOfMemory>
    requires declared { BreaksNone names.now declaration_rules }
    ensures { IfOk result (λ broken. IsExact broken (IsBroken names.now C20)) }
{
    has_bad_payload(alloc, names)
}

/// Whether C21 is broken: conditions of calculated fields.
#[tactic(auto, using(crate::proofs::Exactly::c21))]
pub fn breaks_c21(alloc: Global, names: &Names14<'_>) -> Result<bool, OutOfMemory>
    ensures { IfOk result (λ broken. IsExact broken (IsBroken names.now C21)) }
{
    has_calculated_condition(alloc, names)
}

/// Whether C22 is broken: requests in the other pipeline.
pub fn breaks_c22(alloc: Global, names: &Names14<'_>) -> Result<bool, OutOfMemory>
    requires actions { IsBroken names.now C15 → ⊥ }
    ensures { IfOk result (λ broken. IsExact broken (IsBroken names.now C22)) }
{
    has_misplaced_request(alloc, names)
}

/// Whether C23 is broken: cells.
#[tactic(auto, using(crate::proofs::Exactly::c23))]
pub fn breaks_c23(alloc: Global, names: &Names14<'_>) -> Result<bool, OutOfMemory>
    ensures { IfOk result (λ broken. IsExact broken (IsBroken names.now C23)) }
{
    has_bad_cells(alloc, names)
}

/// Whether C24 is broken: default actions.
#[tactic(auto, using(crate::proofs::Exactly::c24))]
pub fn breaks_c24(names: &Names14<'_>) -> bool
    ensures { IsExact result (IsBroken names.now C24) }
{
    has_bad_default(names)
}

/// Whether C25 is broken: what is left out.
#[tactic(auto, using(crate::proofs::Exactly::c25))]
pub fn breaks_c25(
    alloc: Global,
    names: &Names14<'_>,
    placed: &[PlacedArgument<'_>],
) -> Result<bool, OutOfMemory>
    requires placed { map shown_placed placed.now ≡ placed_arguments names.now }
    ensures { IfOk result (λ broken. IsExact broken (IsBroken names.now C25)) }
{
    let used = uses_unsupported(alloc, names)?;
    Ok(declares_unsupported(names) || (used || writes_group(names, placed)))
}

/// Whether C26 is broken: a minus sign in a condition.
#[tactic(auto, using(crate::proofs::Exactly::c26))]
pub fn breaks_c26(alloc: Global, names: &Names14<'_>) -> Result<bool, OutOfMemory>
    ensures { IfOk result (λ broken. IsExact broken (IsBroken names.now C26)) }
{
    has_minus_sign(alloc, names)
}

/// Whether C27 is broken: parameters.
#[tactic(auto, using(crate::proofs::Exactly::c27))]
pub fn breaks_c27(names: &Names14<'_>, placed: &[PlacedArgument<'_>]) -> bool
    requires placed { map shown_placed placed.now ≡ placed_arguments names.now }
    ensures { IsExact result (IsBroken names.now C27) }
{
    has_misused_parameter(placed)
}

/// Whether C28 is broken: how deep blocks and expressions nest.
pub fn breaks_c28(alloc: Global, names: &Names14<'_>) -> Result<bool, OutOfMemory>
    requires declared { BreaksNone names.now declaration_rules }
    requires controls { IsBroken names.now C16 → ⊥ }
    ensures { IfOk result (λ broken. IsExact broken (IsBroken names.now C28)) }
{
    if has_deep_expression(alloc, names)? {
        return Ok(true);
    }
    nests_too_deep(alloc, names)
}
