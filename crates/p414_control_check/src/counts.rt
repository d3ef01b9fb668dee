// C16: what the statements of a control count.
ghost use Rattle.std.specs.Prelude.{◌≡◌, ◌+◌, ◌≤◌, ◌++◌, cond, map, min, nat_lt, sum_by, count_by, option_to_list, IfOk, OnOk};
ghost use Rattle.p414_syntax.specs.Controls.{is_operand, operand_count, own_count};
ghost use Rattle.p414_syntax.specs.ControlExpansion.{control_in};
ghost use Rattle.p414_control_check.specs.internal.Expanded.{capped_count, own_counts};

use crate::controls::Controls;
use p4x_bits::OutOfMemory;
use p414_syntax::{
    Control, Decl, ExprHead, ExprView, StmtHead, StmtView, all_expressions, all_statements,
};
use std::alloc::Global;

/// What is counted stays at this number, which is over each limit.
pub const LIMIT: u64 = 65_537;

/// The sum, but at most the limit.
fn capped(so_far: u64, more: u64) -> u64
    requires { so_far ≤ 65537 }
    ensures { result ≡ min 65537 (so_far + more) }
{
    if more > LIMIT - so_far {
        LIMIT
    } else {
        so_far + more
    }
}

/// 1 for an operand, and else 0.
fn operand(expression: &ExprView<'_>) -> u64
    ensures { result ≡ cond (is_operand expression.now) 1 0 }
{
    match expression.head() {
        ExprHead::Valid(_) => 1,
        ExprHead::Truth(_) => 1,
        ExprHead::Field(_) => 1,
        ExprHead::Number(_) => 1,
        _ => 0,
    }
}

/// How many of these are operands, and 1 more, but at most the limit.
#[tactic(auto, using(crate::proofs::Loops::operand_now))]
fn operands(expressions: &[ExprView<'_>]) -> u64
    ensures { result ≡ min 65537 (1 + count_by is_operand expressions.now) }
{
    let mut total = 1;
    for expression in expressions {
        total = capped(total, operand(expression));
    }
    total
}

/// What an `if` with this condition counts, but at most the limit.
fn condition_count(alloc: Global, condition: &ExprView<'_>) -> Result<u64, OutOfMemory>
    ensures { IfOk result (λ count. count ≡ min 65537 (1 + operand_count condition.now)) }
{
    let expressions = all_expressions(alloc, condition)?;
    Ok(operands(expressions.as_slice()))
}

/// What a statement counts by itself, but at most the limit.
fn own_count(alloc: Global, statement: &StmtView<'_>) -> Result<u64, OutOfMemory>
    ensures { IfOk result (λ count. count ≡ min 65537 (own_count statement.now)) }
{
    match statement.head() {
        StmtHead::Apply(_) => Ok(1),
        StmtHead::ApplyBranches(_, _) => Ok(1),
        StmtHead::If(condition, _, _) => condition_count(alloc, &condition),
        _ => Ok(0),
    }
}

/// The same of these statements together.
#[tactic(auto, using(crate::proofs::Loops::count_now))]
fn statements_count(alloc: Global, statements: &[StmtView<'_>]) -> Result<u64, OutOfMemory>
    ensures { IfOk result (λ count. count ≡ min 65537 (sum_by own_count statements.now)) }
{
    let mut total = 0;
    for statement in statements {
        let count = own_count(alloc, statement)?;
        total = capped(total, count);
    }
    Ok(total)
}

/// The same of all statements of a control.
fn control_count(alloc: Global, control: &Control) -> Result<u64, OutOfMemory>
    ensures { IfOk result (λ count. count ≡ capped_count 65537 control.now) }
{
    let statements = all_statements(alloc, control)?;
    statements_count(alloc, statements.as_slice())
}

/// Puts the number of a declaration behind these, if it is a control.
fn add_count(found: &mut Vec<u64>, alloc: Global, decl: &Decl) -> Result<(), OutOfMemory>
    ensures { OnOk result (found.new.items ≡ found.old.items ++ map (capped_count 65537) (option_to_list (control_in decl.now))) }
{
    if let Decl::Control(control) = decl {
        let count = control_count(alloc, control)?;
        found.push(count)?;
    }
    Ok(())
}

/// What the statements of each control count, but at most the limit.
#[tactic(auto, using(crate::proofs::Loops::control_now))]
pub fn own_counts(alloc: Global, controls: &Controls<'_, '_>) -> Result<Vec<u64>, OutOfMemory>
    ensures { IfOk result (λ found. found.items ≡ own_counts 65537 controls.now) }
{
    let mut found = Vec::new(alloc);
    for decl in controls.decls() {
        add_count(&mut found, alloc, decl)?;
    }
    Ok(found)
}
