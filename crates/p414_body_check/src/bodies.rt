// The rules of bodies, some at a time.
ghost use Rattle.std.specs.Prelude.{◌≡◌, map};
ghost use Rattle.p414_call_check.specs.Shown.{shown_placed};
ghost use Rattle.p414_syntax.specs.Arguments.{actions, invocations_of, placed_arguments};
ghost use Rattle.p414_syntax.specs.Breaks.{IsBroken, BreaksNone, declaration_rules};
ghost use Rattle.p414_syntax.specs.declared.rule.ProgramRule.TheVariants.{C13, C15, C16};
ghost use Rattle.p414_body_check.specs.internal.Steps.{Keeps, rules_from_c11, rules_from_c14, rules_from_c17, rules_from_c20, rules_from_c23, rules_from_c26};

use crate::each::{
    breaks_c11, breaks_c12, breaks_c13, breaks_c14, breaks_c15, breaks_c16, breaks_c17, breaks_c18,
    breaks_c19, breaks_c20, breaks_c21, breaks_c22, breaks_c23, breaks_c24, breaks_c25, breaks_c26,
    breaks_c27, breaks_c28,
};
use crate::fault::{Check14, refusal};
use p414_call_check::PlacedArgument;
use p414_calls::ActionCalls;
use p414_names::Names14;
use p414_syntax::ProgramRule;
use std::alloc::Global;

/// Judges a program by C11, C12 and C13.
pub fn judge_from_c11(
    alloc: Global,
    names: &Names14<'_>,
    calls: &[ActionCalls<'_>],
) -> Result<(), Check14>
    requires calls { calls.now ≡ map invocations_of (actions names.now) }
    requires declared { BreaksNone names.now declaration_rules }
    ensures { Keeps names.now rules_from_c11 result }
{
    if breaks_c11(names) {
        return Err(refusal(ProgramRule::C11));
    }
    if breaks_c12(names) {
        return Err(refusal(ProgramRule::C12));
    }
    if breaks_c13(alloc, names, calls)? {
        return Err(refusal(ProgramRule::C13));
    }
    Ok(())
}

/// Judges a program by C14, C15 and C16.
pub fn judge_from_c14(
    alloc: Global,
    names: &Names14<'_>,
    placed: &[PlacedArgument<'_>],
) -> Result<(), Check14>
    requires placed { map shown_placed placed.now ≡ placed_arguments names.now }
    requires declared { BreaksNone names.now declaration_rules }
    requires calls { IsBroken names.now C13 → ⊥ }
    ensures { Keeps names.now rules_from_c14 result }
{
    if breaks_c14(names, placed) {
        return Err(refusal(ProgramRule::C14));
    }
    if breaks_c15(alloc, names)? {
        return Err(refusal(ProgramRule::C15));
    }
    if breaks_c16(alloc, names)? {
        return Err(refusal(ProgramRule::C16));
    }
    Ok(())
}

/// Judges a program by C17, C18 and C19.
pub fn judge_from_c17(alloc: Global, names: &Names14<'_>) -> Result<(), Check14>
    requires declared { BreaksNone names.now declaration_rules }
    ensures { Keeps names.now rules_from_c17 result }
{
    if breaks_c17(alloc, names)? {
        return Err(refusal(ProgramRule::C17));
    }
    if breaks_c18(alloc, names)? {
        return Err(refusal(ProgramRule::C18));
    }
    if breaks_c19(alloc, names)? {
        return Err(refusal(ProgramRule::C19));
    }
    Ok(())
}

/// Judges a program by C20, C21 and C22.
pub fn judge_from_c20(alloc: Global, names: &Names14<'_>) -> Result<(), Check14>
    requires declared { BreaksNone names.now declaration_rules }
    requires actions { IsBroken names.now C15 → ⊥ }
    ensures { Keeps names.now rules_from_c20 result }
{
    if breaks_c20(alloc, names)? {
        return Err(refusal(ProgramRule::C20));
    }
    if breaks_c21(alloc, names)? {
        return Err(refusal(ProgramRule::C21));
    }
    if breaks_c22(alloc, names)? {
        return Err(refusal(ProgramRule::C22));
    }
    Ok(())
}

/// Judges a program by C23, C24 and C25.
pub fn judge_from_c23(
    alloc: Global,
    names: &Names14<'_>,
    placed: &[PlacedArgument<'_>],
) -> Result<(), Check14>
    requires placed { map shown_placed placed.now ≡ placed_arguments names.now }
    ensures { Keeps names.now rules_from_c23 result }
{
    if breaks_c23(alloc, names)? {
        return Err(refusal(ProgramRule::C23));
    }
    if breaks_c24(names) {
        return Err(refusal(ProgramRule::C24));
    }
    if breaks_c25(alloc, names, placed)? {
        return Err(refusal(ProgramRule::C25));
    }
    Ok(())
}

/// Judges a program by C26, C27 and C28.
pub fn judge_from_c26(
    alloc: Global,
    names: &Names14<'_>,
    placed: &[PlacedArgument<'_>],
) -> Result<(), Check14>
    requires placed { map shown_placed placed.now ≡ placed_arguments names.now }
    requires declared { BreaksNone names.now declaration_rules }
    requires controls { IsBroken names.now C16 → ⊥ }
    ensures { Keeps names.now rules_from_c26 result }
{
    if breaks_c26(alloc, names)? {
        return Err(refusal(ProgramRule::C26));
    }
    if breaks_c27(names, placed) {
        return Err(refusal(ProgramRule::C27));
    }
    if breaks_c28(alloc, names)? {
        return Err(refusal(ProgramRule::C28));
    }
    Ok(())
}
