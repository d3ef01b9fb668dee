// The uses in expressions.
ghost use Rattle.std.specs.Prelude.{◌≡◌, [], ◌∷◌, ◌++◌, map, option_copied, option_to_list, OnOk, None, Some};
ghost use Rattle.std.specs.List.{flat_map};
ghost use Rattle.p414_syntax.specs.Subtrees.{subexpressions, subtrees};
ghost use Rattle.p414_uses.specs.internal.Collected.{Adds};
ghost use Rattle.p414_syntax.specs.Uses.{own_operand, uses_of_expr};

use crate::uses::{Use, add};
use p4x_bits::OutOfMemory;
use p414_syntax::{ExprHead, ExprView, all_expressions};
use std::alloc::Global;

/// Adds the use of an operand.
fn add_operand<'a>(found: &mut Vec<Use<'a>>, expression: &ExprView<'a>) -> Result<(), OutOfMemory>
    ensures { OnOk result (Adds found.old.items found.new.items (own_operand expression.now)) }
{
    match expression.head() {
        ExprHead::Valid(instance) => add(found, Use::OfInstance(instance)),
        ExprHead::Field(field) => add(found, Use::OfField(field)),
        _ => Ok(()),
    }
}

/// Adds the uses of operands.
fn add_operands<'a>(
    found: &mut Vec<Use<'a>>,
    expressions: &[ExprView<'a>],
) -> Result<(), OutOfMemory>
    ensures { OnOk result (Adds found.old.items found.new.items (flat_map own_operand expressions.now)) }
{
    for operand in expressions {
        add_operand(found, operand)?;
    }
    Ok(())
}

/// Adds the uses in an expression.
pub fn add_expression<'a>(
    alloc: Global,
    found: &mut Vec<Use<'a>>,
    expression: &ExprView<'a>,
) -> Result<(), OutOfMemory>
    ensures { OnOk result (Adds found.old.items found.new.items (uses_of_expr expression.now)) }
{
    let all = all_expressions(alloc, expression)?;
    add_operands(found, all.as_slice())
}
