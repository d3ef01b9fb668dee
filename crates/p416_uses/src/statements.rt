// Statements, each in its scope (P4_16 1.2, "Statements").
ghost use Rattle.std.specs.Prelude.{◌≡◌, ◌∷◌, ◌++◌, [], IfOk, OnOk};
ghost use Rattle.p416_syntax.specs.Statements.{assigned_place, declared_in, label_uses, labels_of, own_uses, statement_uses};
ghost use Rattle.p416_syntax.specs.Scopes.{kind_of_type};
ghost use Rattle.p416_syntax.specs.Calls as place;
ghost use Rattle.p416_syntax.specs.Expressions.{kind_of};
ghost use Rattle.p416_syntax.specs.Uses.{a_name, a_switch, some_table, names_of_scope, of_variable, type_uses, uses};
ghost use Rattle.p416_names.specs.SeenKinds.{seen_kind};
ghost use Rattle.p416_calls.specs.Seen.{seen_place};
ghost use Rattle.p416_scopes.specs.Seen.{seen_scope};
ghost use Rattle.p416_listed_check.specs.Listings.{ListsScope};
ghost use Rattle.p416_expression_uses.specs.Found.{after, after_all};
ghost use Rattle.p416_uses.specs.Parts.{switch_rule};

use crate::names::{Wanted, see_name};
use crate::variables::see_scope;
use p4x_bits::{OutOfMemory, Text};
use p416_calls::Place;
use p416_expression_check::applies_nothing;
use p416_expression_uses::{Findings, Places, TypePlace, see_expression, see_type};
use p416_listed_check::{Listings, has_outside_label};
use p416_names::Kind;
use p416_scopes::Scope;
use p416_syntax::{CaseLabel, ExpView, ProgramRule, StmtHead, StmtView, Type16};
use p416_visits::Visits;
use std::alloc::Global;

/// Judges an expression at a place.
pub(crate) fn see_at<'a>(
    alloc: Global,
    scope: &Scope<'_, 'a>,
    place: Place<'a>,
    expression: &ExpView<'a>,
    found: &mut Findings<'a>,
) -> Result<(), OutOfMemory>
    ensures { OnOk result (found.new ≡ after_all found.old (uses (seen_scope scope.now) (seen_place place.entry) expression.now)) }
{
    see_expression(alloc, scope, Places::One(place), expression, found)?;
    Ok(())
}

/// The place of what is assigned to a target of this kind.
fn assigned_place(kind: Kind<'_>) -> Place<'_>
    ensures { seen_place result ≡ assigned_place (seen_kind kind.entry) }
{
    if kind.is_chosen() || kind.is_packet() {
        Place::Value(kind)
    } else {
        Place::Unasked
    }
}

/// Judges the target of an assignment and what is assigned to it.
#[tactic(auto, using(crate::proofs::Turns::assigned_seen))]
fn see_assignment<'a>(
    alloc: Global,
    scope: &Scope<'_, 'a>,
    target: &ExpView<'a>,
    value: &ExpView<'a>,
    found: &mut Findings<'a>,
) -> Result<(), OutOfMemory>
    ensures { OnOk result (found.new ≡ after_all found.old (uses (seen_scope scope.now) place.target target.now ++ uses (seen_scope scope.now) (assigned_place (kind_of (seen_scope scope.now) target.now)) value.now)) }
{
    let kind = see_expression(alloc, scope, Places::One(Place::Target), target, found)?;
    see_at(alloc, scope, assigned_place(kind), value, found)?;
    Ok(())
}

/// Judges the type of a variable and its initial value.
#[tactic(auto, using(crate::proofs::Turns::initial_seen))]
pub(crate) fn see_initial<'a>(
    alloc: Global,
    scope: &Scope<'_, 'a>,
    of: &Type16,
    value: &ExpView<'a>,
    found: &mut Findings<'a>,
) -> Result<(), OutOfMemory>
    ensures { OnOk result (found.new ≡ after_all found.old (type_uses (seen_scope scope.now) of_variable of.now ++ uses (seen_scope scope.now) (place.value (kind_of_type (seen_scope scope.now).names of.now)) value.now)) }
{
    see_type(scope, TypePlace::Variable, of, found)?;
    let place = Place::Value(scope.kind_of_type(of));
    see_at(alloc, scope, place, value, found)?;
    Ok(())
}

/// The first rule that a `switch` breaks, which applies its table, by where it stands and by its labels.
fn broken_switch<'a>(
    listed: &mut Listings<'a>,
    scope: &Scope<'_, 'a>,
    table: &'a Text,
    cases: &StmtView<'_>,
) -> Result<Option<ProgramRule>, OutOfMemory>
    requires { ListsScope (seen_scope scope.now) listed.old }
    ensures listed { OnOk result (ListsScope (seen_scope scope.now) listed.new) }
    ensures rule { IfOk result (λ rule. rule ≡ switch_rule (seen_scope scope.now) table.now (labels_of cases.now)) }
{
    if applies_nothing(scope.part) {
        return Ok(Some(ProgramRule::T8));
    }
    if has_outside_label(listed, scope, table, cases)? {
        Ok(Some(ProgramRule::T9))
    } else {
        Ok(None)
    }
}

/// Judges a `switch` by where it stands and by its labels.
#[tactic(auto, using(p416_expression_uses::proofs::Lowest::switch_rule))]
fn see_application<'a>(
    listed: &mut Listings<'a>,
    scope: &Scope<'_, 'a>,
    table: &'a Text,
    cases: &StmtView<'_>,
    found: &mut Findings<'_>,
) -> Result<(), OutOfMemory>
    requires { ListsScope (seen_scope scope.now) listed.old }
    ensures listed { OnOk result (ListsScope (seen_scope scope.now) listed.new) }
    ensures found { OnOk result (found.new ≡ after found.old (a_switch (seen_scope scope.now) table.now (labels_of cases.now))) }
{
    let rule = broken_switch(listed, scope, table, cases)?;
    found.see_listed(rule);
    Ok(())
}

/// Judges a `switch` over a table, but for the cases.
fn see_switch<'a>(
    listed: &mut Listings<'a>,
    scope: &Scope<'_, 'a>,
    table: &'a Text,
    cases: &StmtView<'_>,
    found: &mut Findings<'_>,
) -> Result<(), OutOfMemory>
    requires { ListsScope (seen_scope scope.now) listed.old }
    ensures listed { OnOk result (ListsScope (seen_scope scope.now) listed.new) }
    ensures found { OnOk result (found.new ≡ after_all found.old (a_name (seen_scope scope.now) some_table table.now ∷ a_switch (seen_scope scope.now) table.now (labels_of cases.now) ∷ [])) }
{
    see_name(scope, Wanted::Table, table.as_slice(), found);
    see_application(listed, scope, table, cases, found)?;
    Ok(())
}

/// Judges the label of a case.
fn see_label(scope: &Scope<'_, '_>, label: &CaseLabel, found: &mut Findings<'_>)
    ensures { found.new ≡ after_all found.old (label_uses (seen_scope scope.now) label.now) }
{
    match label {
        CaseLabel::Default => {}
        CaseLabel::Action(name) => see_name(scope, Wanted::Action, name.as_slice(), found),
    }
}

/// Judges the label of a case and the names that its statements declare.
#[tactic(auto, using(crate::proofs::Turns::then_one))]
fn see_case(
    alloc: Global,
    scope: &Scope<'_, '_>,
    label: &CaseLabel,
    body: &StmtView<'_>,
    found: &mut Findings<'_>,
) -> Result<(), OutOfMemory>
    ensures { OnOk result (found.new ≡ after_all found.old (label_uses (seen_scope scope.now) label.now ++ names_of_scope (declared_in body.now) ∷ [])) }
{
    see_label(scope, label, found);
    see_scope(alloc, body, found)?;
    Ok(())
}

/// Judges a statement, but for the statements within it, given the tables in scope that were gone through.
#[tactic(auto, using(crate::proofs::KeptTables::listed_still))]
fn see_statement<'a>(
    alloc: Global,
    listed: &mut Listings<'a>,
    scope: &Scope<'_, 'a>,
    statement: &StmtView<'a>,
    found: &mut Findings<'a>,
) -> Result<(), OutOfMemory>
    requires { ListsScope (seen_scope scope.now) listed.old }
    ensures listed { OnOk result (ListsScope (seen_scope scope.now) listed.new) }
    ensures found { OnOk result (found.new ≡ after_all found.old (own_uses (seen_scope scope.now) statement.now)) }
{
    match statement.head() {
        StmtHead::Block(body) => see_scope(alloc, &body, found),
        StmtHead::Var(of, _) => see_type(scope, TypePlace::Variable, of, found),
        StmtHead::VarIs(of, _, value) => see_initial(alloc, scope, of, &value, found),
        StmtHead::Assign(target, value) => see_assignment(alloc, scope, &target, &value, found),
        StmtHead::Expression(call) => see_at(alloc, scope, Place::Statement, &call, found),
        StmtHead::If(condition, _) => {
            see_at(alloc, scope, Place::Value(Kind::Boolean), &condition, found)
        }
        StmtHead::IfElse(condition, _, _) => {
            see_at(alloc, scope, Place::Value(Kind::Boolean), &condition, found)
        }
        StmtHead::Switch(table, cases) => see_switch(listed, scope, table, &cases, found),
        StmtHead::Case(_, label, body) => see_case(alloc, scope, label, &body, found),
        _ => Ok(()),
    }
}

/// Judges all statements within a list of statements, each in its scope. A table that several of them choose by is gone through
/// once.
#[tactic(auto, using(crate::proofs::Turns::statement_turn, crate::proofs::Turns::statements_over))]
pub(crate) fn see_statements<'a>(
    alloc: Global,
    scope: &mut Scope<'_, 'a>,
    body: &StmtView<'a>,
    found: &mut Findings<'a>,
) -> Result<(), OutOfMemory>
    ensures found { OnOk result (found.new ≡ after_all found.old (statement_uses (seen_scope scope.old) body.now)) }
    ensures scope { OnOk result (seen_scope scope.new ≡ seen_scope scope.old) }
    ensures top { scope.new.top ≡ scope.old.top }
{
    let mut listed = Listings::new(alloc);
    let mut left = Visits::new(alloc, scope, body)?;
    while let Some(statement) = left.next(scope)? {
        see_statement(alloc, &mut listed, scope, &statement, found)?;
    }
    Ok(())
}
