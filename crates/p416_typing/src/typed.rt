// The rows of an expression, from the innermost expression outwards.
ghost use Rattle.std.specs.Prelude.{◌≡◌, ◌∷◌, map, IfOk};
ghost use Rattle.p416_syntax.specs.Heads.{of_exp_head};
ghost use Rattle.p416_syntax.specs.Subtrees.{subexpressions};
ghost use Rattle.p416_syntax.specs.Declarations.{top_names};
ghost use Rattle.p416_scopes.specs.Seen.{seen_scope};
ghost use Rattle.p416_typing.specs.Rows.{row_of};
ghost use Rattle.p416_typing.specs.Seen.{seen_row};
ghost use Rattle.p416_typing.specs.internal.Steps.{pushed, rows_of};

use crate::parts::{kind_row, literal_kind, name_row};
use crate::row::Row;
use crate::steps::{
    argument_step, binary_step, call_step, cast_step, choice_step, index_step, listed_step,
    lookahead_step, member_step, slice_step, unary_step,
};
use p4x_bits::OutOfMemory;
use p416_names::Kind;
use p416_scopes::Scope;
use p416_syntax::{ExpHead, ExpView, all_expressions};
use std::alloc::Global;
use work_stack::Stack;

/// The row of an expression, which takes those of its parts off the stack.
fn step<'a>(
    scope: &Scope<'_, 'a>,
    head: ExpHead<'a>,
    values: &mut Stack<Row<'a>>,
) -> Result<Row<'a>, OutOfMemory>
    ensures { IfOk result (λ row. pushed (seen_scope scope.now) (of_exp_head head.entry) (map (seen_row (top_names scope.now.top.now)) values.old) ≡ seen_row (top_names scope.now.top.now) row ∷ map (seen_row (top_names scope.now.top.now)) values.new) }
{
    match head {
        ExpHead::Literal(number) => Ok(kind_row(literal_kind(number))),
        ExpHead::Truth(_) => Ok(kind_row(Kind::Boolean)),
        ExpHead::Error => Ok(kind_row(Kind::Errors)),
        ExpHead::Name(text) => Ok(name_row(scope, text.as_slice())),
        ExpHead::Member(_, word) => Ok(member_step(scope, values, word.as_slice())),
        ExpHead::Index(_, _) => Ok(index_step(values)),
        ExpHead::Slice(_, high, low) => Ok(slice_step(values, high, low)),
        ExpHead::Call(_, _) => Ok(call_step(values)),
        ExpHead::Lookahead(_, to, _) => Ok(lookahead_step(scope, values, to)),
        ExpHead::Cast(to, _) => Ok(cast_step(values, to)),
        ExpHead::Unary(operator, _) => Ok(unary_step(values, operator)),
        ExpHead::Binary(operator, _, _) => Ok(binary_step(values, operator)),
        ExpHead::Choice(_, _, _) => Ok(choice_step(values)),
        ExpHead::NoArguments => Ok(kind_row(Kind::Unknown)),
        ExpHead::Argument(_, _) => {
            let row = argument_step(values)?;
            Ok(row)
        }
        ExpHead::Listed(_) => Ok(listed_step(values)),
    }
}

/// What is known of an expression or an argument list and of all within it, in the order of `all_expressions`. The time is
/// proportional to the number of these, but for the look-up of each name. The one error is want of memory.
fn rows_of_views<'a>(
    alloc: Global,
    scope: &Scope<'_, 'a>,
    views: &[ExpView<'a>],
) -> Result<Stack<Row<'a>>, OutOfMemory>
    ensures { IfOk result (λ rows. map (seen_row (top_names scope.now.top.now)) rows ≡ rows_of (seen_scope scope.now) views.now) }
{
    let mut values = Stack::new(alloc);
    let mut rows = Stack::new(alloc);
    for view in views.iter().rev() {
        let row = step(scope, view.head(), &mut values)?;
        values.push(row)?;
        rows.push(row)?;
    }
    Ok(rows)
}

/// An expression with all within it, and what is known of each.
#[derive(Drop)]
pub struct Typed<'a> {
    /// The expressions, from the outside in, from left to right.
    pub views: Vec<ExpView<'a>>,
    /// What is known of them, in the same order.
    pub rows: Stack<Row<'a>>,
}

/// What is known of an expression or an argument list and of all within it, or want of memory.
#[tactic(auto, using(crate::proofs::Stacked::rows_whole))]
pub fn typed_expression<'a>(
    alloc: Global,
    scope: &Scope<'_, 'a>,
    expression: &ExpView<'a>,
) -> Result<Typed<'a>, OutOfMemory>
    ensures views { IfOk result (λ t. t.views.items ≡ subexpressions expression.now) }
    ensures rows { IfOk result (λ t. map (seen_row (top_names scope.now.top.now)) t.rows ≡ map (row_of (seen_scope scope.now)) (subexpressions expression.now)) }
{
    let views = all_expressions(alloc, expression)?;
    let rows = rows_of_views(alloc, scope, &views)?;
    Ok(Typed { views, rows })
}
