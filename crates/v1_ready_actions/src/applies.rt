// Whether a table is applied in an expression (P4_16 1.2, "Match-action unit invocation").
ghost use Rattle.std.specs.Prelude.{◌≡◌, ◌&&◌, ◌++◌, map, IfOk, OnOk};
ghost use Rattle.p416_syntax.specs.Heads.{of_exp_head};
ghost use Rattle.p416_syntax.specs.Declarations.{top_names};
ghost use Rattle.p416_names.specs.SeenKinds.{seen_kind};
ghost use Rattle.p416_scopes.specs.Seen.{seen_scope};
ghost use Rattle.p416_typing.specs.Rows.{row_of};
ghost use Rattle.p416_typing.specs.Seen.{seen_row};
ghost use Rattle.v1_ready_statements.specs.Tested.{is_application, applies};
ghost use Rattle.v1_ready_statements.specs.Given.{any_applies};
ghost use Rattle.v1_ready_tests.specs.internal.Passes.{applied_call};
ghost use Rattle.v1_ready_actions.specs.internal.Looked.{front_looked, rest_looked, parts_looked, any_looked};

use p4x_bits::OutOfMemory;
use p416_names::Kind;
use p416_scopes::Scope;
use p416_syntax::{ExpHead, ExpView};
use p416_typing::{Row, Typed, typed_expression};
use std::alloc::Global;
use work_stack::Stack;

/// Takes whether the next expression is looked at; it isn't where nothing is left.
fn take_looked(looked: &mut Stack<bool>) -> bool
    ensures here { result ≡ front_looked looked.old }
    ensures rest { looked.new ≡ rest_looked looked.old }
{
    match looked.pop() {
        Some(here) => here,
        None => false,
    }
}

/// Puts in front which parts of an expression are looked at, where it is.
fn push_looked(looked: &mut Stack<bool>, here: bool, head: ExpHead<'_>) -> Result<(), OutOfMemory>
    ensures { OnOk result (looked.new ≡ parts_looked here (of_exp_head head.entry) ++ looked.old) }
{
    match head {
        ExpHead::Member(_, _) => looked.push(here),
        ExpHead::Index(_, _) => looked.push(here),
        ExpHead::Slice(_, _, _) => looked.push(here),
        ExpHead::Call(_, _) => looked.push_two(here, false),
        ExpHead::Lookahead(_, _, _) => looked.push_two(false, false),
        ExpHead::Cast(_, _) => looked.push(here),
        ExpHead::Unary(_, _) => looked.push(here),
        ExpHead::Binary(_, _, _) => looked.push_two(here, here),
        ExpHead::Choice(_, _, _) => looked.push_three(here, here, here),
        ExpHead::Argument(_, _) => looked.push_two(false, false),
        ExpHead::Listed(_) => looked.push(false),
        _ => Ok(()),
    }
}

/// Whether an expression of a kind is the application of a table.
fn is_application(head: ExpHead<'_>, kind: Kind<'_>) -> bool
    ensures { result ≡ applied_call (of_exp_head head.entry) (seen_kind kind.entry) }
{
    match head {
        ExpHead::Call(_, _) => matches!(kind, Kind::Applied),
        _ => false,
    }
}

/// Whether the next expression is looked at and is the application of a table, given what is known of it; which of its parts are
/// looked at is put in front.
#[tactic(auto, using(crate::proofs::Looking::application_is))]
fn next_applies<'a>(
    scope: &Scope<'_, 'a>,
    looked: &mut Stack<bool>,
    view: &ExpView<'a>,
    row: Row<'a>,
) -> Result<bool, OutOfMemory>
    requires { seen_row (top_names scope.now.top.now) row ≡ row_of (seen_scope scope.now) view.now }
    ensures found { IfOk result (λ found. found ≡ (front_looked looked.old && is_application (seen_scope scope.now) view.now)) }
    ensures looked { OnOk result (looked.new ≡ parts_looked (front_looked looked.old) view.now ++ rest_looked looked.old) }
{
    let here = take_looked(looked);
    let applied = is_application(view.head(), row.kind);
    push_looked(looked, here, view.head())?;
    Ok(here && applied)
}

/// Whether one of these expressions that is looked at is the application of a table, given what is known of them.
fn any_looked<'a>(
    scope: &Scope<'_, 'a>,
    views: &[ExpView<'a>],
    mut rows: Stack<Row<'a>>,
    mut looked: Stack<bool>,
) -> Result<bool, OutOfMemory>
    requires rows { map (seen_row (top_names scope.now.top.now)) rows ≡ map (row_of (seen_scope scope.now)) views.now }
    ensures { IfOk result (λ found. found ≡ any_looked (seen_scope scope.now) looked views.now) }
{
    for view in views {
        let Some(row) = rows.pop() else {
            return Err(OutOfMemory);
        };
        let one = next_applies(scope, &mut looked, view, row)?;
        if one {
            return Ok(true);
        }
    }
    Ok(false)
}

/// Whether a table is applied in an expression. The time is proportional to what stands within it, but for look-ups. The one error is
/// want of memory.
#[tactic(auto, using(crate::proofs::Looking::looked_whole))]
fn applies<'a>(
    alloc: Global,
    scope: &Scope<'_, 'a>,
    expression: &ExpView<'a>,
) -> Result<bool, OutOfMemory>
    ensures { IfOk result (λ found. found ≡ applies (seen_scope scope.now) expression.now) }
{
    let Typed { views, rows } = typed_expression(alloc, scope, expression)?;
    let mut looked = Stack::new(alloc);
    looked.push(true)?;
    let found = any_looked(scope, &views, rows, looked)?;
    Ok(found)
}

/// Whether a table is applied in one of these expressions; as `applies`.
pub fn any_applies<'a>(
    alloc: Global,
    scope: &Scope<'_, 'a>,
    mut expressions: Stack<ExpView<'a>>,
) -> Result<bool, OutOfMemory>
    ensures { IfOk result (λ found. found ≡ any_applies (seen_scope scope.now) expressions.entry) }
{
    while let Some(expression) = expressions.pop() {
        let one = applies(alloc, scope, &expression)?;
        if one {
            return Ok(true);
        }
    }
    Ok(false)
}
