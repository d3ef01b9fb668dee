// Names that ask for another sort than a value, and names that stand twice in a scope (P4_16 1.2, "Name resolution").
ghost use Rattle.std.specs.Prelude.{◌≡◌, List, map, IfOk, OnOk};
ghost use Rattle.p416_syntax.specs.Scopes.{Known};
ghost use Rattle.p416_syntax.specs.Unknown.{is_wanted};
ghost use Rattle.p416_syntax.specs.Uses.{a_name, names_of_scope};
ghost use Rattle.p416_names.specs.Seen.{seen_sort};
ghost use Rattle.p416_scopes.specs.Seen.{seen_scope};
ghost use Rattle.p416_expression_check.specs.Judged.{first_broken};
ghost use Rattle.p416_expression_uses.specs.Found.{after};
ghost use Rattle.p416_uses.specs.Parts.{seen_wanted};

use p4x_bits::OutOfMemory;
use p416_expression_uses::Findings;
use p416_name_set::is_repeated;
use p416_names::{ObjectKind, Sort};
use p416_scopes::Scope;
use p416_syntax::ProgramRule;
use std::alloc::Global;

/// The sort of declaration that the place of a name asks for.
#[derive(Clone, Copy, Drop)]
pub enum Wanted {
    /// An action.
    Action,
    /// A table.
    Table,
    /// A state of a parser.
    State,
    /// A direct counter.
    DirectCounter,
}

/// Whether a sort of declaration is the one that is asked for.
fn is_wanted(wanted: Wanted, sort: Sort<'_>) -> bool
    ensures { (top : List Known) → result ≡ is_wanted (seen_wanted wanted) (seen_sort top sort.entry) }
{
    match wanted {
        Wanted::Action => matches!(sort, Sort::Action(_)),
        Wanted::Table => matches!(sort, Sort::Table(_)),
        Wanted::State => matches!(sort, Sort::State),
        Wanted::DirectCounter => matches!(sort, Sort::Object(ObjectKind::DirectCounter)),
    }
}

/// The rule that a name breaks.
fn broken_name(scope: &Scope<'_, '_>, wanted: Wanted, name: &[u8]) -> Option<ProgramRule>
    ensures { result ≡ first_broken (a_name (seen_scope scope.now) (seen_wanted wanted) name.now) }
{
    if is_wanted(wanted, scope.sort_of(name)) {
        None
    } else {
        Some(ProgramRule::T1)
    }
}

/// Judges a name.
pub(crate) fn see_name(scope: &Scope<'_, '_>, wanted: Wanted, name: &[u8], found: &mut Findings<'_>)
    ensures { found.new ≡ after found.old (a_name (seen_scope scope.now) (seen_wanted wanted) name.now) }
{
    found.see_rule(broken_name(scope, wanted, name));
}

/// The rule that the names of a scope break together.
fn broken_names(alloc: Global, names: &[&[u8]]) -> Result<Option<ProgramRule>, OutOfMemory>
    ensures { IfOk result (λ rule. rule ≡ first_broken (names_of_scope (map (λ name. name.now) names.now))) }
{
    if is_repeated(alloc, names)? {
        Ok(Some(ProgramRule::T1))
    } else {
        Ok(None)
    }
}

/// Judges the names of a scope together.
pub(crate) fn see_names(
    alloc: Global,
    names: &[&[u8]],
    found: &mut Findings<'_>,
) -> Result<(), OutOfMemory>
    ensures { OnOk result (found.new ≡ after found.old (names_of_scope (map (λ name. name.now) names.now))) }
{
    let rule = broken_names(alloc, names)?;
    found.see_rule(rule);
    Ok(())
}
