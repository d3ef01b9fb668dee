// C28: expressions whose tree is over 64 deep.
ghost use Rattle.std.specs.Prelude.{◌≡◌, ◌<◌, ◌++◌, IfOk, OnOk};
ghost use Rattle.std.specs.List.{list_any};
ghost use Rattle.p414_syntax.specs.Heads.{of_expr_head};
ghost use Rattle.p414_syntax.specs.Nesting.{is_too_deep, has_deep_expression};
ghost use Rattle.p414_syntax.specs.Expressions.{conditions_of, lengths_of};
ghost use Rattle.p414_flat_check.specs.internal.Rooms.{rooms_within, two_rooms};

use crate::expressions::{conditions_of, lengths_of};
use p4x_bits::OutOfMemory;
use p414_names::Names14;
use p414_syntax::{Decl, ExprHead, ExprView};
use std::alloc::Global;

/// How deep an expression's tree may be.
const MOST_LEVELS: u32 = 64;

/// An expression that is still to be walked, and how deep it may be there.
#[derive(Drop)]
struct Room<'a> {
    expression: ExprView<'a>,
    levels: u32,
}

/// Puts the operands of an expression last, each with how deep it may be.
fn add_within<'a>(
    left: &mut Vec<Room<'a>>,
    head: ExprHead<'a>,
    levels: u32,
) -> Result<(), OutOfMemory>
    requires { 0 < levels }
    ensures { OnOk result (left.new.items ≡ left.old.items ++ rooms_within levels (of_expr_head head.entry)) }
{
    match head {
        ExprHead::Parenthesized(expression) => {
            left.push(Room { expression, levels })?;
            Ok(())
        }
        ExprHead::Unary(_, expression) => {
            let levels = levels - 1;
            left.push(Room { expression, levels })?;
            Ok(())
        }
        ExprHead::Binary(_, first, second) => {
            let levels = levels - 1;
            add_two(left, first, second, levels)
        }
        _ => Ok(()),
    }
}

/// Puts two expressions last that may be equally deep.
fn add_two<'a>(
    left: &mut Vec<Room<'a>>,
    first: ExprView<'a>,
    second: ExprView<'a>,
    levels: u32,
) -> Result<(), OutOfMemory>
    ensures { OnOk result (left.new.items ≡ left.old.items ++ two_rooms levels first.entry second.entry) }
{
    left.push(Room {
        expression: second,
        levels,
    })?;
    left.push(Room {
        expression: first,
        levels,
    })?;
    Ok(())
}

/// Whether the tree of an expression is over 64 deep. Its time is proportional to the number of expressions within it.
fn is_too_deep(alloc: Global, expression: &ExprView<'_>) -> Result<bool, OutOfMemory>
    ensures { IfOk result (λ deep. deep ≡ is_too_deep expression.now) }
{
    let mut left = Vec::new(alloc);
    left.push(Room {
        expression: expression.again(),
        levels: MOST_LEVELS,
    })?;
    while let Some(next) = left.pop() {
        if next.levels == 0 {
            return Ok(true);
        }
        add_within(&mut left, next.expression.head(), next.levels)?;
    }
    Ok(false)
}

/// Whether that is so of one of these expressions.
fn some_too_deep(alloc: Global, expressions: &[ExprView<'_>]) -> Result<bool, OutOfMemory>
    ensures { IfOk result (λ found. found ≡ list_any is_too_deep expressions.now) }
{
    for expression in expressions {
        if is_too_deep(alloc, expression)? {
            return Ok(true);
        }
    }
    Ok(false)
}

/// Whether a condition is too deep.
fn some_deep_condition(alloc: Global, decls: &[Decl]) -> Result<bool, OutOfMemory>
    ensures { IfOk result (λ broken. broken ≡ list_any is_too_deep (conditions_of decls.now)) }
{
    let conditions = conditions_of(alloc, decls)?;
    some_too_deep(alloc, conditions.as_slice())
}

/// Whether what stands behind `length` or `max_length` is too deep.
fn some_deep_length(alloc: Global, decls: &[Decl]) -> Result<bool, OutOfMemory>
    ensures { IfOk result (λ broken. broken ≡ list_any is_too_deep (lengths_of decls.now)) }
{
    let lengths = lengths_of(alloc, decls)?;
    some_too_deep(alloc, lengths.as_slice())
}

/// Whether C28 is broken by an expression. Its time is proportional to the program.
pub fn has_deep_expression(alloc: Global, names: &Names14<'_>) -> Result<bool, OutOfMemory>
    ensures { IfOk result (λ broken. broken ≡ has_deep_expression names.now) }
{
    let decls = names.decls();
    Ok(some_deep_condition(alloc, decls)? || some_deep_length(alloc, decls)?)
}
