// Controls and their actions (P4_16 1.2, "Control blocks", "Actions").
ghost use Rattle.std.specs.Prelude.{◌≡◌, ◌++◌, ◌∷◌, if◌then◌else◌, Some, None, map, flat_map, filter_map, option_copied, option_to_list, IfOk, OnOk};
ghost use Rattle.p416_syntax.specs.Scopes.{in_apply, called_of};
ghost use Rattle.p416_syntax.specs.Uses.{names_of_scope, some_parameters, some_counters, of_block_parameter};
ghost use Rattle.p416_syntax.specs.declared.rule.ProgramRule.TheVariants.{T9};
ghost use Rattle.p416_syntax.specs.Names.{repeats};
ghost use Rattle.p416_syntax.specs.Tables as rule_tables;
ghost use Rattle.p416_syntax.specs.Declarations as rules;
ghost use Rattle.p416_scopes.specs.Seen.{seen_part, seen_scope};
ghost use Rattle.p416_listed_check.specs.Listings.{AreGiven};
ghost use Rattle.p416_expression_uses.specs.Found.{after, after_all};
ghost use Rattle.p416_visits.specs.Left.{height, shortened};
ghost use Rattle.p416_uses.specs.Parts.{local_name, head_uses, counters_by};

use crate::bodies::{see_body, see_var};
use crate::names::see_names;
use crate::notes::see_notes;
use crate::objects::see_object;
use crate::tables::see_table;
use crate::types::{push_parameters, see_parameters};
use p4x_bits::{OutOfMemory, Text};
use p416_expression_uses::{Findings, TypePlace};
use p416_name_set::{NameSet, is_repeated};
use p416_names::{Top, instance_name};
use p416_scopes::{Part, Scope};
use p416_syntax::{Action16, Control16, Local, Param, ProgramRule};
use p416_table_check::is_behind;
use p416_visits::shorten;
use std::alloc::Global;

/// Judges the names of the parameters of an action together.
fn see_parameter_names(
    alloc: Global,
    parameters: &[Param],
    found: &mut Findings<'_>,
) -> Result<(), OutOfMemory>
    ensures { OnOk result (found.new ≡ after found.old (names_of_scope (map rules.parameter_name parameters.now))) }
{
    let mut names = Vec::new(alloc);
    push_parameters(&mut names, parameters)?;
    see_names(alloc, &names, found)?;
    Ok(())
}

/// The rule that the order of the parameters of an action breaks.
fn broken_order(parameters: &[Param]) -> Option<ProgramRule>
    ensures { result ≡ (if rule_tables.is_behind parameters.now then Some T9 else None) }
{
    if is_behind(parameters) {
        Some(ProgramRule::T9)
    } else {
        None
    }
}

/// Judges the order of the parameters of an action.
#[tactic(auto, using(p416_expression_uses::proofs::Lowest::parameters_rule))]
fn see_order(parameters: &[Param], found: &mut Findings<'_>)
    ensures { found.new ≡ after found.old (some_parameters parameters.now) }
{
    found.see_listed(broken_order(parameters));
}

/// Judges the annotations of an action, and the names, the order and the types of its parameters.
#[tactic(auto, using(crate::proofs::ControlUses::head_told))]
fn see_action_head<'a>(
    alloc: Global,
    scope: &Scope<'_, 'a>,
    action: &'a Action16,
    found: &mut Findings<'a>,
) -> Result<(), OutOfMemory>
    ensures { OnOk result (found.new ≡ after_all found.old (head_uses (seen_scope scope.now) action.now)) }
{
    see_notes(action.notes.as_slice(), found);
    see_parameter_names(alloc, action.parameters.as_slice(), found)?;
    see_order(action.parameters.as_slice(), found);
    see_parameters(
        scope,
        TypePlace::ActionParameter,
        action.parameters.as_slice(),
        found,
    )?;
    Ok(())
}

/// Leaves an action: the scope has so many names again, and stands in `apply`.
fn leave_action(scope: &mut Scope<'_, '_>, len: usize) -> Result<(), OutOfMemory>
    ensures scope { OnOk result (seen_scope scope.new ≡ record (shortened (height scope.old.top.now len) (seen_scope scope.old)) { part = in_apply }) }
    ensures top { scope.new.top ≡ scope.old.top }
{
    shorten(scope, len)?;
    scope.part = Part::InApply;
    Ok(())
}

/// Judges the statements of an action in the scope of the action, and leaves that again.
#[tactic(auto, using(crate::proofs::ControlUses::action_left, crate::proofs::ControlUses::action_body_told))]
fn see_action_body<'a>(
    alloc: Global,
    scope: &mut Scope<'_, 'a>,
    action: &'a Action16,
    found: &mut Findings<'a>,
) -> Result<(), OutOfMemory>
    requires { seen_part scope.old.part ≡ in_apply }
    ensures found { OnOk result (found.new ≡ after_all found.old (rules.body_uses (rules.action_scope (seen_scope scope.old) action.now) 1 action.now.body)) }
    ensures scope { OnOk result (seen_scope scope.new ≡ seen_scope scope.old) }
    ensures top { scope.new.top ≡ scope.old.top }
{
    let len = scope.len();
    scope.enter_action(alloc, action)?;
    see_body(alloc, scope, &action.body.statements(), found)?;
    leave_action(scope, len)?;
    Ok(())
}

/// Judges an action in the scope of its control, which stands in `apply`. The one error is want of memory, where the scope may
/// have other names.
#[tactic(auto, using(crate::proofs::ControlUses::action_told))]
pub fn see_action<'a>(
    alloc: Global,
    scope: &mut Scope<'_, 'a>,
    action: &'a Action16,
    found: &mut Findings<'a>,
) -> Result<(), OutOfMemory>
    requires { seen_part scope.old.part ≡ in_apply }
    ensures found { OnOk result (found.new ≡ after_all found.old (rules.action_uses (seen_scope scope.old) action.now)) }
    ensures scope { OnOk result (seen_scope scope.new ≡ seen_scope scope.old) }
    ensures top { scope.new.top ≡ scope.old.top }
{
    see_action_head(alloc, scope, action, found)?;
    see_action_body(alloc, scope, action, found)?;
    Ok(())
}

/// Judges what a control declares, in its scope, given names of actions each of whose parameters an entry of a table can give.
#[tactic(auto, using(crate::proofs::ControlUses::given_still))]
fn see_local<'a>(
    alloc: Global,
    given: &mut NameSet<'a>,
    scope: &mut Scope<'_, 'a>,
    declared: &'a Local,
    found: &mut Findings<'a>,
) -> Result<(), OutOfMemory>
    requires part { seen_part scope.old.part ≡ in_apply }
    requires given { AreGiven (seen_scope scope.old) given.old }
    ensures given { OnOk result (AreGiven (seen_scope scope.old) given.new) }
    ensures found { OnOk result (found.new ≡ after_all found.old (rules.local_uses (seen_scope scope.old) declared.now)) }
    ensures scope { OnOk result (seen_scope scope.new ≡ seen_scope scope.old) }
    ensures top { scope.new.top ≡ scope.old.top }
{
    match declared {
        Local::Instance(notes, instance) => {
            see_object(alloc, scope, notes.as_slice(), instance, found)
        }
        Local::Var(var) => see_var(alloc, scope, var, found),
        Local::Action(action) => see_action(alloc, scope, action, found),
        Local::Table(table) => see_table(alloc, given, scope, table, found),
    }
}

/// Judges all that a control declares, in its scope.
#[tactic(auto, using(crate::proofs::ControlUses::local_turn, crate::proofs::ControlUses::part_stays))]
fn see_locals<'a>(
    alloc: Global,
    scope: &mut Scope<'_, 'a>,
    locals: &'a [Local],
    found: &mut Findings<'a>,
) -> Result<(), OutOfMemory>
    requires { seen_part scope.old.part ≡ in_apply }
    ensures found { OnOk result (found.new ≡ after_all found.old (flat_map (rules.local_uses (seen_scope scope.old)) locals.now)) }
    ensures scope { OnOk result (seen_scope scope.new ≡ seen_scope scope.old) }
    ensures top { scope.new.top ≡ scope.old.top }
{
    let mut given = NameSet::new(alloc);
    for declared in locals {
        see_local(alloc, &mut given, scope, declared, found)?;
    }
    Ok(())
}

/// The name of what a control declares.
fn local_name(declared: &Local) -> &Text
    ensures { result.now ≡ local_name declared.now }
{
    match declared {
        Local::Instance(_, instance) => instance_name(instance),
        Local::Var(var) => &var.name,
        Local::Action(action) => &action.name,
        Local::Table(table) => &table.name,
    }
}

/// Puts the names of these behind others.
fn push_locals<'a>(names: &mut Vec<&'a [u8]>, locals: &'a [Local]) -> Result<(), OutOfMemory>
    ensures { OnOk result (map (λ name. name.now) names.new.items ≡ map (λ name. name.now) names.old.items ++ map local_name locals.now) }
{
    for declared in locals {
        names.push(local_name(declared).as_slice())?;
    }
    Ok(())
}

/// The names that a control declares, in order.
fn control_names<'a>(alloc: Global, control: &'a Control16) -> Result<Vec<&'a [u8]>, OutOfMemory>
    ensures { IfOk result (λ names. map (λ name. name.now) names.items ≡ map rules.parameter_name control.now.parameters ++ map local_name control.now.locals) }
{
    let mut names = Vec::new(alloc);
    push_parameters(&mut names, control.parameters.as_slice())?;
    push_locals(&mut names, control.locals.as_slice())?;
    Ok(names)
}

/// The name of the direct counter of what a control declares, where it is a table that has one.
fn counters_by(declared: &Local) -> Option<&Text>
    ensures { option_copied result ≡ counters_by declared.now }
{
    match declared {
        Local::Table(table) => table.counters(),
        _ => None,
    }
}

/// Puts a name behind others, where there is one.
fn push_name<'a>(names: &mut Vec<&'a [u8]>, name: Option<&'a Text>) -> Result<(), OutOfMemory>
    ensures { OnOk result (map (λ name. name.now) names.new.items ≡ map (λ name. name.now) names.old.items ++ option_to_list (option_copied name.entry)) }
{
    if let Some(name) = name {
        names.push(name.as_slice())?;
    }
    Ok(())
}

/// The names of the direct counters of the tables among these, in order.
#[tactic(auto, using(crate::proofs::ControlUses::counters_turn))]
fn counter_names<'a>(alloc: Global, locals: &'a [Local]) -> Result<Vec<&'a [u8]>, OutOfMemory>
    ensures { IfOk result (λ names. map (λ name. name.now) names.items ≡ filter_map rules.counters_in (filter_map rules.table_in locals.now)) }
{
    let mut names = Vec::new(alloc);
    for declared in locals {
        push_name(&mut names, counters_by(declared))?;
    }
    Ok(names)
}

/// The rule that the names of the direct counters of tables break together.
fn broken_counters(alloc: Global, names: &[&[u8]]) -> Result<Option<ProgramRule>, OutOfMemory>
    ensures { IfOk result (λ rule. rule ≡ (if repeats (map (λ name. name.now) names.now) then Some T9 else None)) }
{
    if is_repeated(alloc, names)? {
        Ok(Some(ProgramRule::T9))
    } else {
        Ok(None)
    }
}

/// Judges the names of the direct counters of a control's tables together.
#[tactic(auto, using(p416_expression_uses::proofs::Lowest::counters_rule))]
fn see_counters(
    alloc: Global,
    control: &Control16,
    found: &mut Findings<'_>,
) -> Result<(), OutOfMemory>
    ensures { OnOk result (found.new ≡ after found.old (some_counters (filter_map rules.counters_in (rules.tables_in control.now)))) }
{
    let names = counter_names(alloc, control.locals.as_slice())?;
    let rule = broken_counters(alloc, &names)?;
    found.see_listed(rule);
    Ok(())
}

/// Judges the names that a control declares and the types of its parameters.
#[tactic(auto, using(crate::proofs::ControlUses::control_named))]
fn see_head<'t, 'a>(
    alloc: Global,
    top: &'t Top<'a>,
    positions: &'t [usize],
    control: &'a Control16,
    found: &mut Findings<'a>,
) -> Result<(), OutOfMemory>
    ensures { OnOk result (found.new ≡ after_all found.old (names_of_scope (map called_of (rules.control_names (rules.top_names top.now) control.now)) ∷ some_counters (filter_map rules.counters_in (rules.tables_in control.now)) ∷ flat_map (rules.parameter_uses (rules.top_scope top.now positions.now) of_block_parameter) control.now.parameters)) }
{
    let names = control_names(alloc, control)?;
    see_names(alloc, &names, found)?;
    see_counters(alloc, control, found)?;
    let outside = Scope::new(alloc, top, positions, Part::Elsewhere);
    see_parameters(
        &outside,
        TypePlace::BlockParameter,
        control.parameters.as_slice(),
        found,
    )?;
    Ok(())
}

/// Judges a control that stands at these places of `main`.
#[tactic(auto, using(crate::proofs::ControlUses::control_told))]
pub(crate) fn see_control<'t, 'a>(
    alloc: Global,
    top: &'t Top<'a>,
    positions: &'t [usize],
    control: &'a Control16,
    found: &mut Findings<'a>,
) -> Result<(), OutOfMemory>
    ensures { OnOk result (found.new ≡ after_all found.old (rules.control_uses (rules.top_scope top.now positions.now) control.now)) }
{
    see_head(alloc, top, positions, control, found)?;
    let mut scope = Scope::of_control(alloc, top, positions, control)?;
    see_locals(alloc, &mut scope, control.locals.as_slice(), found)?;
    see_body(alloc, &mut scope, &control.body.statements(), found)?;
    Ok(())
}
