// How deep the statements of a state, an action or a control nest, with the expressions in them.
ghost use Rattle.std.specs.Prelude.{◌≡◌, ◌+◌, ◌≤◌, nat_lt, flat_map, IfOk};
ghost use Rattle.p416_syntax.specs.Subtrees.{own_expressions};
ghost use Rattle.p416_syntax.specs.Statements.{nesting};
ghost use Rattle.p416_depth_check.specs.internal.Deep.{has_deep_expression, is_deep_body, is_deep_var, is_deep_instance};

use crate::blocks::nests_deeper;
use crate::expressions::{is_deep, some_deep};
use p4x_bits::OutOfMemory;
use p416_syntax::{ExpView, Instance, StmtView, Var, own_expressions, statements_within};
use std::alloc::Global;

/// How many blocks may nest.
const MOST_BLOCKS: u32 = 512;

/// The expressions of these statements, but for those of the statements within them.
fn expressions_in<'a>(
    alloc: Global,
    statements: &[StmtView<'a>],
) -> Result<Vec<ExpView<'a>>, OutOfMemory>
    ensures { IfOk result (λ found. found.items ≡ flat_map own_expressions statements.now) }
{
    let mut found = Vec::new(alloc);
    for statement in statements {
        own_expressions(&mut found, statement)?;
    }
    Ok(found)
}

/// Whether an expression in a list of statements nests over 512 deep.
fn has_deep_expression(alloc: Global, body: &StmtView<'_>) -> Result<bool, OutOfMemory>
    ensures { IfOk result (λ deep. deep ≡ has_deep_expression body.now) }
{
    let statements = statements_within(alloc, body)?;
    let expressions = expressions_in(alloc, &statements)?;
    some_deep(alloc, &expressions)
}

/// Whether blocks nest over 512 deep in a list of statements, whose own braces are so many blocks.
#[tactic(auto, using(crate::proofs::Walking::with_braces))]
fn has_deep_block(alloc: Global, braces: u32, body: &StmtView<'_>) -> Result<bool, OutOfMemory>
    requires { braces ≤ 1 }
    ensures { IfOk result (λ deep. deep ≡ nat_lt 512 (braces + nesting body.now)) }
{
    nests_deeper(alloc, MOST_BLOCKS - braces, body)
}

/// Whether blocks or expressions nest over 512 deep in a list of statements, whose own braces are so many blocks.
pub(crate) fn is_deep_body(
    alloc: Global,
    braces: u32,
    body: &StmtView<'_>,
) -> Result<bool, OutOfMemory>
    requires { braces ≤ 1 }
    ensures { IfOk result (λ deep. deep ≡ is_deep_body braces body.now) }
{
    if has_deep_block(alloc, braces, body)? {
        return Ok(true);
    }
    has_deep_expression(alloc, body)
}

/// Whether the initial value of a variable nests over 512 deep.
pub(crate) fn is_deep_var(alloc: Global, var: &Var) -> Result<bool, OutOfMemory>
    ensures { IfOk result (λ deep. deep ≡ is_deep_var var.now) }
{
    match &var.initial {
        Some(value) => is_deep(alloc, &value.view()),
        None => Ok(false),
    }
}

/// Whether the size of an object nests over 512 deep.
pub(crate) fn is_deep_instance(alloc: Global, instance: &Instance) -> Result<bool, OutOfMemory>
    ensures { IfOk result (λ deep. deep ≡ is_deep_instance instance.now) }
{
    match instance {
        Instance::Counter(size, _, _) => is_deep(alloc, &size.view()),
        Instance::DirectCounter(_, _) => Ok(false),
        Instance::Register(_, size, _) => is_deep(alloc, &size.view()),
        Instance::Meter(size, _, _) => is_deep(alloc, &size.view()),
    }
}
