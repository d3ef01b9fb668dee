// Rules by themselves: whether each is broken.
ghost use Rattle.std.specs.Prelude.{◌≡◌, ◌||◌, IfOk};
ghost use Rattle.p416_syntax.specs.declared.rule.ProgramRule.TheVariants.{T8, T9, T11, T12};
ghost use Rattle.p416_syntax.specs.Breaks.{IsBroken, program_uses};
ghost use Rattle.p416_syntax.specs.Exact.{IsExact};
ghost use Rattle.p416_syntax.specs.Totals.{has_large_headers, has_large_variables, has_bad_cells};
ghost use Rattle.p416_syntax.specs.Declarations.{layouts_of};
ghost use Rattle.p416_expression_uses.specs.Found.{nothing_found, after_all};
ghost use Rattle.p416_types.specs.internal.Seen.{counts_wrongly, is_found, IsFirstOf, is_misnamed_at_top};
ghost use Rattle.p416_types.specs.internal.Steps.{uses_from_t7, uses_from_t9};

use p4x_bits::OutOfMemory;
use p416_action_check::some_call_cycle;
use p416_cell_check::has_bad_cells;
use p416_depth_check::some_too_deep;
use p416_expression_uses::Findings;
use p416_main_check::{MainPlaces, is_main, main_kinds};
use p416_names::Top;
use p416_plane_check::has_shared_names;
use p416_size_check::{has_large_headers, has_large_variables};
use p416_syntax::{ProgramRule, Syntax16};
use p416_top_check::{declares_twice, names_no_block};
use p416_type_totals::TypeTotals;
use std::alloc::Global;

/// Whether the part of T1 is broken that is about the names at the top and in `main`.
pub(crate) fn is_misnamed_at_top(
    alloc: Global,
    top: &Top<'_>,
    syntax: &Syntax16,
) -> Result<bool, OutOfMemory>
    requires { syntax.now.decls ≡ top.now }
    ensures { IfOk result (λ misnamed. misnamed ≡ is_misnamed_at_top syntax.now) }
{
    let decls = syntax.decls.as_slice();
    if declares_twice(alloc, decls)? {
        return Ok(true);
    }
    let main = syntax.main.as_slice();
    let stray = names_no_block(top, main);
    Ok(stray)
}

/// Whether a rule is the one that was found.
pub(crate) fn is_found(found: &Findings<'_>, rule: ProgramRule) -> bool
    ensures { result ≡ is_found found.now.rule rule }
{
    match found.rule() {
        Some(first) => first.number() == rule.number(),
        None => false,
    }
}

/// Whether T8 is broken, where no lower rule is.
pub(crate) fn breaks_t8<'t>(
    alloc: Global,
    syntax: &Syntax16,
    top: &'t Top<'_>,
    places: &'t MainPlaces<'_>,
    found: &Findings<'_>,
) -> Result<bool, OutOfMemory>
    requires top { syntax.now.decls ≡ top.now }
    requires places { syntax.now.main ≡ places.now }
    requires found { IsFirstOf uses_from_t7 syntax.now found.now }
    ensures { IfOk result (λ broken. IsExact broken (IsBroken syntax.now T8)) }
{
    if is_found(found, ProgramRule::T8) {
        return Ok(true);
    }
    let cycle = some_call_cycle(alloc, top, places)?;
    Ok(cycle)
}

/// Whether T9 is broken, where no lower rule is, given whether a direct counter is counted outside its table.
pub(crate) fn breaks_t9(
    alloc: Global,
    syntax: &Syntax16,
    found: &Findings<'_>,
    outside: bool,
) -> Result<bool, OutOfMemory>
    requires found { IsFirstOf uses_from_t9 syntax.now found.now }
    requires outside { outside ≡ counts_wrongly (program_uses syntax.now) }
    ensures { IfOk result (λ broken. IsExact broken (IsBroken syntax.now T9)) }
{
    if is_found(found, ProgramRule::T9) {
        return Ok(true);
    }
    if outside {
        return Ok(true);
    }
    let decls = syntax.decls.as_slice();
    let shared = has_shared_names(alloc, decls)?;
    Ok(shared)
}

/// Whether T11 is broken.
pub(crate) fn breaks_t11(
    alloc: Global,
    syntax: &Syntax16,
    top: &Top<'_>,
) -> Result<bool, OutOfMemory>
    requires { syntax.now.decls ≡ top.now }
    ensures { IfOk result (λ broken. IsExact broken (IsBroken syntax.now T11)) }
{
    let main = syntax.main.as_slice();
    let right = is_main(alloc, top, main)?;
    Ok(!right)
}

/// Whether the headers and metadata of a program are too large.
fn has_large_headers_of(totals: &TypeTotals<'_, '_>, top: &Top<'_>, syntax: &Syntax16) -> bool
    requires top { syntax.now.decls ≡ top.now }
    requires totals { syntax.now.decls ≡ totals.now }
    ensures { result ≡ has_large_headers syntax.now }
{
    let main = syntax.main.as_slice();
    let kinds = main_kinds(top, main);
    has_large_headers(totals, kinds.headers, kinds.metadata)
}

/// Whether what the variables and action parameters of a program hold is too large.
fn has_large_variables_of(
    totals: &TypeTotals<'_, '_>,
    syntax: &Syntax16,
    found: &Findings<'_>,
) -> bool
    requires totals { syntax.now.decls ≡ totals.now }
    requires found { found.now ≡ after_all nothing_found (program_uses syntax.now) }
    ensures { result ≡ has_large_variables (layouts_of syntax.now.decls) (program_uses syntax.now) }
{
    let held = found.held();
    has_large_variables(totals, held)
}

/// Whether objects of a program have too many cells, or one of them none.
fn has_bad_cells_of(alloc: Global, syntax: &Syntax16) -> Result<bool, OutOfMemory>
    ensures { IfOk result (λ bad. bad ≡ has_bad_cells syntax.now.decls) }
{
    has_bad_cells(alloc, syntax.decls.as_slice())
}

/// Whether the part of T12 is broken that is about all declarations together.
#[tactic(auto, using(crate::proofs::Exactly::total_first, crate::proofs::Exactly::total_second, crate::proofs::Exactly::total_third))]
fn has_large_totals(
    alloc: Global,
    syntax: &Syntax16,
    top: &Top<'_>,
    totals: &TypeTotals<'_, '_>,
    found: &Findings<'_>,
) -> Result<bool, OutOfMemory>
    requires top { syntax.now.decls ≡ top.now }
    requires totals { syntax.now.decls ≡ totals.now }
    requires found { found.now ≡ after_all nothing_found (program_uses syntax.now) }
    ensures { IfOk result (λ large. large ≡ (has_large_headers syntax.now || has_large_variables (layouts_of syntax.now.decls) (program_uses syntax.now) || has_bad_cells syntax.now.decls)) }
{
    if has_large_headers_of(totals, top, syntax) {
        return Ok(true);
    }
    if has_large_variables_of(totals, syntax, found) {
        return Ok(true);
    }
    let bad = has_bad_cells_of(alloc, syntax)?;
    Ok(bad)
}

/// Whether T12 is broken.
pub(crate) fn breaks_t12(
    alloc: Global,
    syntax: &Syntax16,
    top: &Top<'_>,
    totals: &TypeTotals<'_, '_>,
    found: &Findings<'_>,
) -> Result<bool, OutOfMemory>
    requires top { syntax.now.decls ≡ top.now }
    requires totals { syntax.now.decls ≡ totals.now }
    requires found { found.now ≡ after_all nothing_found (program_uses syntax.now) }
    ensures { IfOk result (λ broken. IsExact broken (IsBroken syntax.now T12)) }
{
    if some_too_deep(alloc, syntax)? {
        return Ok(true);
    }
    let large = has_large_totals(alloc, syntax, top, totals, found)?;
    Ok(large)
}
