// The rules, some at a time.
ghost use Rattle.std.specs.Prelude.{◌≡◌};
ghost use Rattle.p416_syntax.specs.declared.program.Syntax16.{Syntax16};
ghost use Rattle.p416_syntax.specs.Breaks.{program_uses};
ghost use Rattle.p416_expression_uses.specs.First.{use_rules};
ghost use Rattle.p416_expression_uses.specs.Found.{nothing_found, after_all};
ghost use Rattle.p416_types.specs.internal.Seen.{counts_wrongly, IsFirstOf, AreNamed};
ghost use Rattle.p416_types.specs.internal.Steps.{Keeps, rules_from_t1, rules_from_t4, rules_from_t7, rules_from_t10, uses_from_t4, uses_from_t7, uses_from_t10};

use crate::each::{breaks_t8, breaks_t9, breaks_t11, breaks_t12, is_found};
use crate::fault::{Check16, refusal};
use p416_expression_uses::Findings;
use p416_main_check::MainPlaces;
use p416_names::Top;
use p416_state_check::has_bad_states;
use p416_syntax::{ProgramRule, Syntax16};
use p416_type_totals::TypeTotals;
use std::alloc::Global;

/// Judges a program by T1, T2 and T3, where the part of T1 about all declarations together is kept.
pub(crate) fn judge_from_t1(found: &Findings<'_>) -> Result<(), Check16>
    ensures { (s : Syntax16) → AreNamed s → IsFirstOf use_rules s found.now → Keeps s rules_from_t1 result }
{
    if is_found(found, ProgramRule::T1) {
        return Err(refusal(ProgramRule::T1));
    }
    if is_found(found, ProgramRule::T2) {
        return Err(refusal(ProgramRule::T2));
    }
    if is_found(found, ProgramRule::T3) {
        return Err(refusal(ProgramRule::T3));
    }
    Ok(())
}

/// Judges a program by T4, T5 and T6, where no lower rule is broken.
pub(crate) fn judge_from_t4(found: &Findings<'_>) -> Result<(), Check16>
    ensures { (s : Syntax16) → IsFirstOf uses_from_t4 s found.now → Keeps s rules_from_t4 result }
{
    if is_found(found, ProgramRule::T4) {
        return Err(refusal(ProgramRule::T4));
    }
    if is_found(found, ProgramRule::T5) {
        return Err(refusal(ProgramRule::T5));
    }
    if is_found(found, ProgramRule::T6) {
        return Err(refusal(ProgramRule::T6));
    }
    Ok(())
}

/// Judges a program by T7, T8 and T9, where no lower rule is broken.
pub(crate) fn judge_from_t7<'t>(
    alloc: Global,
    syntax: &Syntax16,
    top: &'t Top<'_>,
    places: &'t MainPlaces<'_>,
    found: &Findings<'_>,
    outside: bool,
) -> Result<(), Check16>
    requires top { syntax.now.decls ≡ top.now }
    requires places { syntax.now.main ≡ places.now }
    requires found { IsFirstOf uses_from_t7 syntax.now found.now }
    requires outside { outside ≡ counts_wrongly (program_uses syntax.now) }
    ensures { Keeps syntax.now rules_from_t7 result }
{
    if has_bad_states(alloc, syntax)? {
        return Err(refusal(ProgramRule::T7));
    }
    if breaks_t8(alloc, syntax, top, places, found)? {
        return Err(refusal(ProgramRule::T8));
    }
    if breaks_t9(alloc, syntax, found, outside)? {
        return Err(refusal(ProgramRule::T9));
    }
    Ok(())
}

/// Judges a program by T10, T11 and T12, where no lower rule is broken.
pub(crate) fn judge_from_t10(
    alloc: Global,
    syntax: &Syntax16,
    top: &Top<'_>,
    totals: &TypeTotals<'_, '_>,
    found: &Findings<'_>,
) -> Result<(), Check16>
    requires top { syntax.now.decls ≡ top.now }
    requires totals { syntax.now.decls ≡ totals.now }
    requires left { IsFirstOf uses_from_t10 syntax.now found.now }
    requires found { found.now ≡ after_all nothing_found (program_uses syntax.now) }
    ensures { Keeps syntax.now rules_from_t10 result }
{
    if is_found(found, ProgramRule::T10) {
        return Err(refusal(ProgramRule::T10));
    }
    if breaks_t11(alloc, syntax, top)? {
        return Err(refusal(ProgramRule::T11));
    }
    if breaks_t12(alloc, syntax, top, totals, found)? {
        return Err(refusal(ProgramRule::T12));
    }
    Ok(())
}
