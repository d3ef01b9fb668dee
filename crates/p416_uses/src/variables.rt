// The variables of a list of statements (P4_16 1.2, "Variable declarations").
ghost use Rattle.std.specs.Prelude.{◌≡◌, ◌<◌, ◌+◌, ◌++◌, map, flat_map, IfOk, OnOk, sum_by};
ghost use Rattle.p416_syntax.specs.Heads.{of_head};
ghost use Rattle.p416_syntax.specs.Statements.{behind, declared_in};
ghost use Rattle.p416_syntax.specs.Uses.{names_of_scope};
ghost use Rattle.p416_scopes.specs.Seen.{seen_scope};
ghost use Rattle.p416_expression_uses.specs.Found.{after};
ghost use Rattle.p416_uses.specs.Variables.{declared_name, seen_variable, variables_in, with_all, listed};

use crate::names::see_names;
use p4x_bits::{OutOfMemory, Text};
use p416_expression_uses::Findings;
use p416_scopes::Scope;
use p416_syntax::{StmtHead, StmtView, Type16};
use p416_visits::declare_variable;
use std::alloc::Global;
use work_stack::Stack;

/// A variable.
#[derive(Clone, Copy, Drop)]
pub struct Variable<'a> {
    of: &'a Type16,
    name: &'a Text,
}

/// Takes a statement: what it declares, or the two parts of a list of statements, which are still to be taken.
fn take_statement<'a>(
    left: &mut Stack<StmtView<'a>>,
    found: &mut Vec<Variable<'a>>,
    head: StmtHead<'a>,
) -> Result<(), OutOfMemory>
    ensures found { OnOk result (map seen_variable found.new.items ++ flat_map variables_in left.new ≡ map seen_variable found.old.items ++ (variables_in (of_head head.entry) ++ flat_map variables_in left.old)) }
    ensures fewer { OnOk result (sum_by listed left.new < listed (of_head head.entry) + sum_by listed left.old) }
{
    match head {
        StmtHead::Then(before, last) => left.push_two(before, last),
        StmtHead::Var(of, name) => {
            found.push(Variable { of, name })?;
            Ok(())
        }
        StmtHead::VarIs(of, name, _) => {
            found.push(Variable { of, name })?;
            Ok(())
        }
        _ => Ok(()),
    }
}

/// The variables that a list of statements declares, in order, but for those within its statements.
fn variables_of<'a>(alloc: Global, body: &StmtView<'a>) -> Result<Vec<Variable<'a>>, OutOfMemory>
    ensures { IfOk result (λ found. map seen_variable found.items ≡ variables_in body.now) }
{
    let mut found = Vec::new(alloc);
    let mut left = Stack::new(alloc);
    left.push(body.again())?;
    while let Some(next) = left.pop() {
        take_statement(&mut left, &mut found, next.head())?;
    }
    Ok(found)
}

/// The names of these variables.
fn names_of<'a>(alloc: Global, variables: &[Variable<'a>]) -> Result<Vec<&'a [u8]>, OutOfMemory>
    ensures { IfOk result (λ names. map (λ name. name.now) names.items ≡ map declared_name (map seen_variable variables.now)) }
{
    let mut names = Vec::new(alloc);
    for variable in variables {
        names.push(variable.name.as_slice())?;
    }
    Ok(names)
}

/// Judges the names together that a list of statements declares.
#[tactic(auto, using(crate::proofs::BodyUses::names_told))]
pub(crate) fn see_scope(
    alloc: Global,
    body: &StmtView<'_>,
    found: &mut Findings<'_>,
) -> Result<(), OutOfMemory>
    ensures { OnOk result (found.new ≡ after found.old (names_of_scope (declared_in body.now))) }
{
    let variables = variables_of(alloc, body)?;
    let names = names_of(alloc, &variables)?;
    see_names(alloc, &names, found)?;
    Ok(())
}

/// Declares these variables.
fn declare_all<'a>(scope: &mut Scope<'_, 'a>, variables: &[Variable<'a>]) -> Result<(), OutOfMemory>
    ensures scope { OnOk result (seen_scope scope.new ≡ with_all (seen_scope scope.old) (map seen_variable variables.now)) }
    ensures top { scope.new.top ≡ scope.old.top }
{
    for variable in variables {
        declare_variable(scope, variable.of, variable.name)?;
    }
    Ok(())
}

/// Declares the variables of a list of statements, so that the scope is the one behind it.
#[tactic(auto, using(crate::proofs::BodyUses::behind_told))]
pub(crate) fn declare_body<'a>(
    alloc: Global,
    scope: &mut Scope<'_, 'a>,
    body: &StmtView<'a>,
) -> Result<(), OutOfMemory>
    ensures scope { OnOk result (seen_scope scope.new ≡ behind body.now (seen_scope scope.old)) }
    ensures top { scope.new.top ≡ scope.old.top }
{
    let variables = variables_of(alloc, body)?;
    declare_all(scope, &variables)?;
    Ok(())
}
