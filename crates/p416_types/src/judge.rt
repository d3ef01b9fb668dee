// All rules, one after another.
ghost use Rattle.std.specs.Prelude.{◌≡◌, ◌++◌, false};
ghost use Rattle.p416_syntax.specs.Breaks.{program_rules, program_uses};
ghost use Rattle.p416_expression_uses.specs.Found.{nothing_found, after_all};
ghost use Rattle.p416_types.specs.internal.Seen.{counts_wrongly, IsFirstOf, AreNamed, is_misnamed_at_top};
ghost use Rattle.p416_types.specs.internal.Steps.{Keeps, rules_from_t4, rules_from_t7, rules_from_t10, uses_from_t4, uses_from_t7};

use crate::each::is_misnamed_at_top;
use crate::fault::{Check16, refusal};
use crate::seen::see_all;
use crate::steps::{judge_from_t1, judge_from_t4, judge_from_t7, judge_from_t10};
use p416_expression_uses::Findings;
use p416_main_check::MainPlaces;
use p416_names::Top;
use p416_syntax::{ProgramRule, Syntax16};
use p416_type_totals::TypeTotals;
use std::alloc::Global;

/// Judges a program by T7 and the rules behind it, where no lower rule is broken.
fn judge_behind_t6<'t>(
    alloc: Global,
    syntax: &Syntax16,
    top: &'t Top<'_>,
    places: &'t MainPlaces<'_>,
    totals: &TypeTotals<'_, '_>,
    found: &Findings<'_>,
    outside: bool,
) -> Result<(), Check16>
    requires left { IsFirstOf uses_from_t7 syntax.now found.now }
    requires top { syntax.now.decls ≡ top.now }
    requires places { syntax.now.main ≡ places.now }
    requires totals { syntax.now.decls ≡ totals.now }
    requires found { found.now ≡ after_all nothing_found (program_uses syntax.now) }
    requires outside { outside ≡ counts_wrongly (program_uses syntax.now) }
    ensures { Keeps syntax.now (rules_from_t7 ++ rules_from_t10) result }
{
    judge_from_t7(alloc, syntax, top, places, found, outside)?;
    judge_from_t10(alloc, syntax, top, totals, found)
}

/// Judges a program by T4 and the rules behind it, where no lower rule is broken.
fn judge_behind_t3<'t>(
    alloc: Global,
    syntax: &Syntax16,
    top: &'t Top<'_>,
    places: &'t MainPlaces<'_>,
    totals: &TypeTotals<'_, '_>,
    found: &Findings<'_>,
    outside: bool,
) -> Result<(), Check16>
    requires left { IsFirstOf uses_from_t4 syntax.now found.now }
    requires top { syntax.now.decls ≡ top.now }
    requires places { syntax.now.main ≡ places.now }
    requires totals { syntax.now.decls ≡ totals.now }
    requires found { found.now ≡ after_all nothing_found (program_uses syntax.now) }
    requires outside { outside ≡ counts_wrongly (program_uses syntax.now) }
    ensures { Keeps syntax.now (rules_from_t4 ++ (rules_from_t7 ++ rules_from_t10)) result }
{
    match judge_from_t4(found) {
        Ok(()) => judge_behind_t6(alloc, syntax, top, places, totals, found, outside),
        Err(fault) => Err(fault),
    }
}

/// Judges a program by what is found in its declarations, where the part of T1 about all of them together is kept.
fn judge_found<'t>(
    alloc: Global,
    syntax: &Syntax16,
    top: &'t Top<'_>,
    places: &'t MainPlaces<'_>,
    totals: &TypeTotals<'_, '_>,
    found: &Findings<'_>,
    outside: bool,
) -> Result<(), Check16>
    requires named { AreNamed syntax.now }
    requires top { syntax.now.decls ≡ top.now }
    requires places { syntax.now.main ≡ places.now }
    requires totals { syntax.now.decls ≡ totals.now }
    requires found { found.now ≡ after_all nothing_found (program_uses syntax.now) }
    requires outside { outside ≡ counts_wrongly (program_uses syntax.now) }
    ensures { Keeps syntax.now program_rules result }
{
    match judge_from_t1(found) {
        Ok(()) => judge_behind_t3(alloc, syntax, top, places, totals, found, outside),
        Err(fault) => Err(fault),
    }
}

/// Judges the declarations of a program, where the part of T1 about all of them together is kept.
#[tactic(auto, using(crate::proofs::Leaving::seen_found, crate::proofs::Leaving::seen_outside))]
fn judge_declarations<'a>(
    alloc: Global,
    syntax: &'a Syntax16,
    top: &Top<'a>,
    totals: &TypeTotals<'_, '_>,
) -> Result<(), Check16>
    requires named { AreNamed syntax.now }
    requires top { syntax.now.decls ≡ top.now }
    requires totals { syntax.now.decls ≡ totals.now }
    ensures { Keeps syntax.now program_rules result }
{
    let main = syntax.main.as_slice();
    let places = MainPlaces::of(alloc, main)?;
    let mut found = Findings::new(alloc);
    let decls = syntax.decls.as_slice();
    let outside = see_all(alloc, &*top, &places, decls, &mut found)?;
    judge_found(alloc, syntax, &*top, &places, totals, &found, outside)
}

/// Judges a program, where no name is misnamed at the top.
fn judge_named<'a>(alloc: Global, syntax: &'a Syntax16, top: &Top<'a>) -> Result<(), Check16>
    requires named { is_misnamed_at_top syntax.now ≡ false }
    requires top { syntax.now.decls ≡ top.now }
    ensures { Keeps syntax.now program_rules result }
{
    match TypeTotals::of(alloc, top)? {
        Some(totals) => judge_declarations(alloc, syntax, top, &totals),
        None => Err(refusal(ProgramRule::T1)),
    }
}

/// Judges a program by all rules.
pub(crate) fn judge(alloc: Global, syntax: &Syntax16) -> Result<(), Check16>
    ensures { Keeps syntax.now program_rules result }
{
    let top = Top::of(alloc, syntax.decls.as_slice())?;
    if is_misnamed_at_top(alloc, &top, syntax)? {
        return Err(refusal(ProgramRule::T1));
    }
    judge_named(alloc, syntax, &top)
}
