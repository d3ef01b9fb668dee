// Tables (P4_16 1.2, "Tables"; `v1model.p4`).
ghost use Rattle.std.specs.Prelude.{◌≡◌, ◌+◌, [], if◌then◌else◌, List, Some, None, MatchOption, map, flat_map, length, option_copied, option_to_list, IfOk, OnOk};
ghost use Rattle.std.specs.Option.{option_map_or};
ghost use Rattle.p416_syntax.specs.Scopes.{Known};
ghost use Rattle.p416_syntax.specs.Expressions.{argument_count};
ghost use Rattle.p416_syntax.specs.Uses.{a_count, a_name, a_number, a_table_of, some_direct_counter};
ghost use Rattle.p416_syntax.specs.declared.rule.ProgramRule.TheVariants.{T9};
ghost use Rattle.p416_syntax.specs.Tables.{is_bad_table};
ghost use Rattle.p416_syntax.specs.Declarations as rules;
ghost use Rattle.p416_names.specs.Seen.{seen_sort};
ghost use Rattle.p416_scopes.specs.Seen.{seen_scope};
ghost use Rattle.p416_expression_check.specs.Judged.{first_broken};
ghost use Rattle.p416_listed_check.specs.Listings.{AreGiven};
ghost use Rattle.p416_expression_uses.specs.Found.{after, after_all};
ghost use Rattle.p416_uses.specs.Parts.{key_uses_in, rest_uses};

use crate::names::{Wanted, see_name};
use crate::notes::see_notes;
use crate::statements::see_at;
use p4x_bits::{OutOfMemory, Text};
use p416_calls::Place;
use p416_expression_uses::{Arguments, Findings, Places, see_expression, see_number};
use p416_listed_check::is_bad_table;
use p416_name_set::NameSet;
use p416_names::Sort;
use p416_scopes::{Part, Scope};
use p416_syntax::{ActionName, Exp, ExpHead, ExpView, Literal16, ProgramRule, Table16, TableKey};
use std::alloc::Global;

/// The kind of match for which a truth value may be a key.
const EXACT: &[u8] = b"exact";

/// Judges a key in a scope of keys.
#[tactic(auto, using(p416_expression_uses::proofs::Finding::after_then))]
fn see_key<'a>(
    alloc: Global,
    scope: &Scope<'_, 'a>,
    key: &'a TableKey,
    found: &mut Findings<'a>,
) -> Result<(), OutOfMemory>
    ensures { OnOk result (found.new ≡ after_all found.old (key_uses_in (seen_scope scope.now) key.now)) }
{
    let place = Place::TableKey(key.kind.as_slice() == EXACT);
    see_at(alloc, scope, place, &key.exp.view(), found)?;
    see_notes(key.notes.as_slice(), found);
    Ok(())
}

/// Judges these keys in a scope of keys.
#[tactic(auto, using(p416_expression_uses::proofs::Finding::after_turn))]
fn see_keys_within<'a>(
    alloc: Global,
    scope: &Scope<'_, 'a>,
    keys: &'a [TableKey],
    found: &mut Findings<'a>,
) -> Result<(), OutOfMemory>
    ensures { OnOk result (found.new ≡ after_all found.old (flat_map (key_uses_in (seen_scope scope.now)) keys.now)) }
{
    for key in keys {
        see_key(alloc, scope, key, found)?;
    }
    Ok(())
}

/// Judges these keys.
fn see_keys<'a>(
    alloc: Global,
    scope: &mut Scope<'_, 'a>,
    keys: &'a [TableKey],
    found: &mut Findings<'a>,
) -> Result<(), OutOfMemory>
    ensures found { OnOk result (found.new ≡ after_all found.old (flat_map (rules.key_uses (seen_scope scope.old)) keys.now)) }
    ensures scope { OnOk result (seen_scope scope.new ≡ seen_scope scope.old) }
    ensures top { scope.new.top ≡ scope.old.top }
{
    let part = scope.part;
    scope.part = Part::InKey;
    see_keys_within(alloc, scope, keys, found)?;
    scope.part = part;
    Ok(())
}

/// Judges the name of an action that a table names.
fn see_action_name(scope: &Scope<'_, '_>, action: &ActionName, found: &mut Findings<'_>)
    ensures { found.new ≡ after_all found.old (rules.action_name_uses (seen_scope scope.now) action.now) }
{
    match action {
        ActionName::Declared(name) => see_name(scope, Wanted::Action, name.as_slice(), found),
        ActionName::NoAction => {}
    }
}

/// Judges the names of the actions that a table lists.
#[tactic(auto, using(p416_expression_uses::proofs::Finding::after_turn))]
fn see_action_names(scope: &Scope<'_, '_>, actions: &[ActionName], found: &mut Findings<'_>)
    ensures { found.new ≡ after_all found.old (flat_map (rules.action_name_uses (seen_scope scope.now)) actions.now) }
{
    for action in actions {
        see_action_name(scope, action, found);
    }
}

/// Judges the number behind `size`, where one is.
fn see_size(size: Option<Literal16>, found: &mut Findings<'_>)
    ensures { found.new ≡ after_all found.old (map a_number (option_to_list size)) }
{
    match size {
        Some(size) => see_number(size, found),
        None => {}
    }
}

/// Judges the name of a direct counter, where there is one.
fn see_counters(scope: &Scope<'_, '_>, name: Option<&Text>, found: &mut Findings<'_>)
    ensures { found.new ≡ after_all found.old (map (a_name (seen_scope scope.now) some_direct_counter) (option_to_list (option_copied name.entry))) }
{
    match name {
        Some(name) => see_name(scope, Wanted::DirectCounter, name.as_slice(), found),
        None => {}
    }
}

/// What the name of an action that a table names means.
fn action_sort<'a>(scope: &Scope<'_, 'a>, action: &ActionName) -> Sort<'a>
    ensures { rules.sort_parameters (seen_sort (rules.top_names scope.now.top.now) result) ≡ rules.parameters_of (seen_scope scope.now) action.now }
{
    match action {
        ActionName::Declared(name) => scope.sort_of(name.as_slice()),
        ActionName::NoAction => Sort::Undeclared,
    }
}

/// How many parameters an action has; none, where this is no action.
fn count_parameters(sort: Sort<'_>) -> usize
    ensures { (top : List Known) → result ≡ length (rules.sort_parameters (seen_sort top sort.entry)) }
{
    match sort {
        Sort::Action(action) => action.parameters.len(),
        _ => 0,
    }
}

/// The rule that so many arguments break where so many are wanted.
fn broken_count(wanted: usize, given: usize) -> Option<ProgramRule>
    ensures { result ≡ first_broken (a_count wanted given) }
{
    if wanted == given {
        None
    } else {
        Some(ProgramRule::T6)
    }
}

/// The arguments in front of the last one; none, where there are no arguments.
fn before_last<'a>(list: &ExpView<'a>) -> Option<ExpView<'a>>
    ensures { MatchOption result (argument_count list.now ≡ 0) (λ before. argument_count list.now ≡ argument_count before + 1) }
{
    match list.head() {
        ExpHead::Argument(before, _) => Some(before),
        _ => None,
    }
}

/// How many arguments a list has.
fn count_arguments(list: &ExpView<'_>) -> Result<usize, OutOfMemory>
    ensures { IfOk result (λ count. count ≡ argument_count list.now) }
{
    let mut count: usize = 0;
    let mut left = list.again();
    while let Some(before) = before_last(&left) {
        count = count.checked_add(1).ok_or(OutOfMemory)?;
        left = before;
    }
    Ok(count)
}

/// Judges how many arguments a table gives its default action, whose name means this.
fn see_count(
    sort: Sort<'_>,
    given: &ExpView<'_>,
    found: &mut Findings<'_>,
) -> Result<(), OutOfMemory>
    ensures { OnOk result ((top : List Known) → found.new ≡ after found.old (a_count (length (rules.sort_parameters (seen_sort top sort.entry))) (argument_count given.now))) }
{
    let count = count_arguments(given)?;
    found.see_rule(broken_count(count_parameters(sort), count));
    Ok(())
}

/// Judges the arguments that a table gives its default action, whose name means this.
#[tactic(auto, using(crate::proofs::TableUses::given_told))]
fn see_given<'a>(
    alloc: Global,
    scope: &Scope<'_, 'a>,
    sort: Sort<'a>,
    given: &ExpView<'a>,
    found: &mut Findings<'a>,
) -> Result<(), OutOfMemory>
    ensures { OnOk result (found.new ≡ after_all found.old (rules.given_uses (seen_scope scope.now) (rules.sort_parameters (seen_sort (rules.top_names scope.now.top.now) sort.entry)) given.now)) }
{
    see_count(sort, given, found)?;
    let places = Places::Many(Arguments::Literals(sort));
    see_expression(alloc, scope, places, given, found)?;
    Ok(())
}

/// Judges the arguments of a default action, where there are some.
#[tactic(auto, using(crate::proofs::TableUses::arguments_told))]
fn see_arguments<'a>(
    alloc: Global,
    scope: &Scope<'_, 'a>,
    action: &ActionName,
    given: Option<&'a Exp>,
    found: &mut Findings<'a>,
) -> Result<(), OutOfMemory>
    ensures { OnOk result (found.new ≡ after_all found.old (option_map_or (rules.given_uses (seen_scope scope.now) (rules.parameters_of (seen_scope scope.now) action.now)) (option_copied given.entry) [])) }
{
    match given {
        Some(given) => see_given(
            alloc,
            scope,
            action_sort(scope, action),
            &given.view(),
            found,
        ),
        None => Ok(()),
    }
}

/// Judges the default action of a table with its arguments.
#[tactic(auto, using(p416_expression_uses::proofs::Finding::after_then))]
fn see_default<'a>(
    alloc: Global,
    scope: &Scope<'_, 'a>,
    action: &ActionName,
    given: Option<&'a Exp>,
    found: &mut Findings<'a>,
) -> Result<(), OutOfMemory>
    ensures { OnOk result (found.new ≡ after_all found.old (rules.default_uses (seen_scope scope.now) action.now (option_copied given.entry))) }
{
    see_action_name(scope, action, found);
    see_arguments(alloc, scope, action, given, found)?;
    Ok(())
}

/// The same, where there is a default action.
fn see_defaults<'a>(
    alloc: Global,
    scope: &Scope<'_, 'a>,
    action: Option<&ActionName>,
    given: Option<&'a Exp>,
    found: &mut Findings<'a>,
) -> Result<(), OutOfMemory>
    ensures { OnOk result (found.new ≡ after_all found.old (rules.defaults_of (seen_scope scope.now) (option_copied action.entry) (option_copied given.entry))) }
{
    match action {
        Some(action) => see_default(alloc, scope, action, given, found),
        None => Ok(()),
    }
}

/// Judges what a table has besides its keys.
#[tactic(auto, using(crate::proofs::TableUses::rest_told))]
fn see_properties<'a>(
    alloc: Global,
    scope: &Scope<'_, 'a>,
    table: &'a Table16,
    found: &mut Findings<'a>,
) -> Result<(), OutOfMemory>
    ensures { OnOk result (found.new ≡ after_all found.old (rest_uses (seen_scope scope.now) table.now)) }
{
    see_action_names(scope, table.actions(), found);
    see_size(table.size(), found);
    see_counters(scope, table.counters(), found);
    see_defaults(
        alloc,
        scope,
        table.default_action(),
        table.default_arguments(),
        found,
    )?;
    Ok(())
}

/// The rule that a table breaks by its keys and actions together.
fn broken_table<'a>(
    alloc: Global,
    given: &mut NameSet<'a>,
    scope: &Scope<'_, 'a>,
    table: &'a Table16,
) -> Result<Option<ProgramRule>, OutOfMemory>
    requires { AreGiven (seen_scope scope.now) given.old }
    ensures given { OnOk result (AreGiven (seen_scope scope.now) given.new) }
    ensures rule { IfOk result (λ rule. rule ≡ (if is_bad_table (seen_scope scope.now) table.now then Some T9 else None)) }
{
    if is_bad_table(alloc, given, scope, table)? {
        Ok(Some(ProgramRule::T9))
    } else {
        Ok(None)
    }
}

/// Judges the keys and actions of a table together.
#[tactic(auto, using(p416_expression_uses::proofs::Lowest::table_rule))]
fn see_whole<'a>(
    alloc: Global,
    given: &mut NameSet<'a>,
    scope: &Scope<'_, 'a>,
    table: &'a Table16,
    found: &mut Findings<'_>,
) -> Result<(), OutOfMemory>
    requires { AreGiven (seen_scope scope.now) given.old }
    ensures given { OnOk result (AreGiven (seen_scope scope.now) given.new) }
    ensures found { OnOk result (found.new ≡ after found.old (a_table_of (seen_scope scope.now) table.now)) }
{
    let rule = broken_table(alloc, given, scope, table)?;
    found.see_listed(rule);
    Ok(())
}

/// Judges a table, given names of actions each of whose parameters an entry can give; those of its actions are put there.
#[tactic(auto, using(crate::proofs::TableUses::table_told))]
pub(crate) fn see_table<'a>(
    alloc: Global,
    given: &mut NameSet<'a>,
    scope: &mut Scope<'_, 'a>,
    table: &'a Table16,
    found: &mut Findings<'a>,
) -> Result<(), OutOfMemory>
    requires { AreGiven (seen_scope scope.old) given.old }
    ensures given { OnOk result (AreGiven (seen_scope scope.old) given.new) }
    ensures found { OnOk result (found.new ≡ after_all found.old (rules.table_uses (seen_scope scope.old) table.now)) }
    ensures scope { OnOk result (seen_scope scope.new ≡ seen_scope scope.old) }
    ensures top { scope.new.top ≡ scope.old.top }
{
    see_notes(table.notes.as_slice(), found);
    see_whole(alloc, given, scope, table, found)?;
    see_keys(alloc, scope, table.keys(), found)?;
    see_properties(alloc, scope, table, found)?;
    Ok(())
}
