// C26, and of C13 that an expression gives a truth value or a number where the other is wanted.
ghost use Rattle.std.specs.Prelude.{◌≡◌, ◌++◌, true, false, IfOk, OnOk};
ghost use Rattle.std.specs.List.{list_any};
ghost use Rattle.std.specs.Option.{option_to_list};
ghost use Rattle.p414_syntax.specs.Uses.{tail_expressions};
ghost use Rattle.p414_syntax.specs.Expressions.{conditions_in, conditions_of, lengths_in, lengths_of, is_not, takes_truth, gives_truth, is_truth, is_of_other_sort, has_wrong_operand, is_mistyped, is_minus, is_negation, is_negated_within, has_minus_sign, has_mistyped_expression};
ghost use Rattle.p414_flat_check.specs.internal.Parts.{inner_of, is_truth_outside};

use p4x_bits::OutOfMemory;
use p414_names::Names14;
use p414_syntax::{
    BinaryOperator, Decl, ExprHead, ExprView, HeaderType, UnaryOperator, all_conditions,
    all_expressions,
};
use std::alloc::Global;

/// Puts these expressions last.
fn add_all<'a>(found: &mut Vec<ExprView<'a>>, more: &[ExprView<'a>]) -> Result<(), OutOfMemory>
    ensures { OnOk result (found.new.items ≡ found.old.items ++ more.now) }
{
    for expression in more {
        found.push(expression.again())?;
    }
    Ok(())
}

/// Puts the conditions of a declaration last.
fn add_conditions<'a>(
    alloc: Global,
    found: &mut Vec<ExprView<'a>>,
    decl: &'a Decl,
) -> Result<(), OutOfMemory>
    ensures { OnOk result (found.new.items ≡ found.old.items ++ conditions_in decl.now) }
{
    match decl {
        Decl::Control(declared) => {
            let more = all_conditions(alloc, declared)?;
            add_all(found, more.as_slice())
        }
        _ => Ok(()),
    }
}

/// The conditions of all controls, in the order of the text.
pub fn conditions_of(alloc: Global, decls: &[Decl]) -> Result<Vec<ExprView<'_>>, OutOfMemory>
    ensures { IfOk result (λ found. found.items ≡ conditions_of decls.now) }
{
    let mut found = Vec::new(alloc);
    for decl in decls {
        add_conditions(alloc, &mut found, decl)?;
    }
    Ok(found)
}

/// Puts an expression last, if there is one.
fn add_one<'a>(
    found: &mut Vec<ExprView<'a>>,
    expression: Option<ExprView<'a>>,
) -> Result<(), OutOfMemory>
    ensures { OnOk result (found.new.items ≡ found.old.items ++ option_to_list expression.entry) }
{
    if let Some(expression) = expression {
        found.push(expression)?;
    }
    Ok(())
}

/// Puts what stands behind `length` and `max_length` last.
fn add_tails<'a>(found: &mut Vec<ExprView<'a>>, declared: &'a HeaderType) -> Result<(), OutOfMemory>
    ensures { OnOk result (found.new.items ≡ found.old.items ++ tail_expressions declared.now) }
{
    add_one(found, declared.length())?;
    add_one(found, declared.max_length())
}

/// Puts what stands behind `length` and `max_length` in a declaration last.
fn add_lengths<'a>(found: &mut Vec<ExprView<'a>>, decl: &'a Decl) -> Result<(), OutOfMemory>
    ensures { OnOk result (found.new.items ≡ found.old.items ++ lengths_in decl.now) }
{
    match decl {
        Decl::HeaderType(declared) => add_tails(found, declared),
        _ => Ok(()),
    }
}

/// What stands behind `length` and `max_length` in all header types, in the order of the text.
pub fn lengths_of(alloc: Global, decls: &[Decl]) -> Result<Vec<ExprView<'_>>, OutOfMemory>
    ensures { IfOk result (λ found. found.items ≡ lengths_of decls.now) }
{
    let mut found = Vec::new(alloc);
    for decl in decls {
        add_lengths(&mut found, decl)?;
    }
    Ok(found)
}

/// Whether an operator is `-`.
fn is_minus(operator: UnaryOperator) -> bool
    ensures { result ≡ is_minus operator }
{
    matches!(operator, UnaryOperator::Negate)
}

/// Whether an expression is a minus sign and its operand.
fn is_negation(expression: &ExprView<'_>) -> bool
    ensures { result ≡ is_negation expression.now }
{
    match expression.head() {
        ExprHead::Unary(operator, _) => is_minus(operator),
        _ => false,
    }
}

/// Whether one of these is a minus sign and its operand.
fn some_negation(expressions: &[ExprView<'_>]) -> bool
    ensures { result ≡ list_any is_negation expressions.now }
{
    for expression in expressions {
        if is_negation(expression) {
            return true;
        }
    }
    false
}

/// Whether a minus sign stands in an expression.
fn is_negated_within(alloc: Global, expression: &ExprView<'_>) -> Result<bool, OutOfMemory>
    ensures { IfOk result (λ found. found ≡ is_negated_within expression.now) }
{
    let all = all_expressions(alloc, expression)?;
    Ok(some_negation(all.as_slice()))
}

/// Whether a minus sign stands in one of these expressions.
fn some_negated_within(alloc: Global, expressions: &[ExprView<'_>]) -> Result<bool, OutOfMemory>
    ensures { IfOk result (λ found. found ≡ list_any is_negated_within expressions.now) }
{
    for expression in expressions {
        if is_negated_within(alloc, expression)? {
            return Ok(true);
        }
    }
    Ok(false)
}

/// Whether an operator is `not`.
fn is_not(operator: UnaryOperator) -> bool
    ensures { result ≡ is_not operator }
{
    matches!(operator, UnaryOperator::Not)
}

/// Whether an operator takes truth values.
fn takes_truth(operator: BinaryOperator) -> bool
    ensures { result ≡ takes_truth operator }
{
    matches!(operator, BinaryOperator::And | BinaryOperator::Or)
}

/// Whether an operator gives a truth value.
fn gives_truth(operator: BinaryOperator) -> bool
    ensures { result ≡ gives_truth operator }
{
    match operator {
        BinaryOperator::Multiply
        | BinaryOperator::Add
        | BinaryOperator::Subtract
        | BinaryOperator::ShiftLeft
        | BinaryOperator::ShiftRight
        | BinaryOperator::BitAnd
        | BinaryOperator::BitXor
        | BinaryOperator::BitOr => false,
        BinaryOperator::Less
        | BinaryOperator::LessEqual
        | BinaryOperator::Greater
        | BinaryOperator::GreaterEqual
        | BinaryOperator::Equal
        | BinaryOperator::NotEqual
        | BinaryOperator::And
        | BinaryOperator::Or => true,
    }
}

/// What stands in the outer parentheses, where the expression stands in them.
fn inner_of<'a>(expression: &ExprView<'a>) -> Option<ExprView<'a>>
    ensures { result ≡ inner_of expression.now }
{
    match expression.head() {
        ExprHead::Parenthesized(inner) => Some(inner),
        _ => None,
    }
}

/// Whether an expression that stands in no parentheses is a truth value.
fn is_truth_outside(expression: &ExprView<'_>) -> bool
    ensures { result ≡ is_truth_outside expression.now }
{
    match expression.head() {
        ExprHead::Valid(_) => true,
        ExprHead::Truth(_) => true,
        ExprHead::Unary(operator, _) => is_not(operator),
        ExprHead::Binary(operator, _, _) => gives_truth(operator),
        _ => false,
    }
}

/// Whether an expression is a truth value; else it is a number.
fn is_truth(expression: &ExprView<'_>) -> bool
    ensures { result ≡ is_truth expression.now }
{
    let mut last = expression.again();
    while let Some(inner) = inner_of(&last) {
        last = inner;
    }
    is_truth_outside(&last)
}

/// Whether a number stands where a truth value is wanted, or a truth value where a number is.
fn is_of_other_sort(truth_wanted: bool, expression: &ExprView<'_>) -> bool
    ensures { result ≡ is_of_other_sort truth_wanted expression.now }
{
    if truth_wanted {
        !is_truth(expression)
    } else {
        is_truth(expression)
    }
}

/// Whether that is so of an operand of an operator.
fn has_wrong_operand(expression: &ExprView<'_>) -> bool
    ensures { result ≡ has_wrong_operand expression.now }
{
    match expression.head() {
        ExprHead::Unary(operator, operand) => is_of_other_sort(is_not(operator), &operand),
        ExprHead::Binary(operator, left, right) => {
            is_of_other_sort(takes_truth(operator), &left)
                || is_of_other_sort(takes_truth(operator), &right)
        }
        _ => false,
    }
}

/// Whether that is so of an operand of one of these.
fn some_wrong_operand(expressions: &[ExprView<'_>]) -> bool
    ensures { result ≡ list_any has_wrong_operand expressions.now }
{
    for expression in expressions {
        if has_wrong_operand(expression) {
            return true;
        }
    }
    false
}

/// Whether an expression, or an operand within it, is a number where a truth value is wanted, or the other way round.
fn is_mistyped(
    alloc: Global,
    truth_wanted: bool,
    expression: &ExprView<'_>,
) -> Result<bool, OutOfMemory>
    ensures { IfOk result (λ found. found ≡ is_mistyped truth_wanted expression.now) }
{
    let all = all_expressions(alloc, expression)?;
    Ok(is_of_other_sort(truth_wanted, expression) || some_wrong_operand(all.as_slice()))
}

/// Whether that is so of one of these expressions.
fn some_mistyped(
    alloc: Global,
    truth_wanted: bool,
    expressions: &[ExprView<'_>],
) -> Result<bool, OutOfMemory>
    ensures { IfOk result (λ found. found ≡ list_any (is_mistyped truth_wanted) expressions.now) }
{
    for expression in expressions {
        if is_mistyped(alloc, truth_wanted, expression)? {
            return Ok(true);
        }
    }
    Ok(false)
}

/// Whether C26 is broken. Its time is proportional to the program.
pub fn has_minus_sign(alloc: Global, names: &Names14<'_>) -> Result<bool, OutOfMemory>
    ensures { IfOk result (λ broken. broken ≡ has_minus_sign names.now) }
{
    let conditions = conditions_of(alloc, names.decls())?;
    some_negated_within(alloc, conditions.as_slice())
}

/// Whether one of all conditions is mistyped.
fn some_mistyped_condition(alloc: Global, decls: &[Decl]) -> Result<bool, OutOfMemory>
    ensures { IfOk result (λ broken. broken ≡ list_any (is_mistyped true) (conditions_of decls.now)) }
{
    let conditions = conditions_of(alloc, decls)?;
    some_mistyped(alloc, true, conditions.as_slice())
}

/// Whether what stands behind `length` or `max_length` is mistyped.
fn some_mistyped_length(alloc: Global, decls: &[Decl]) -> Result<bool, OutOfMemory>
    ensures { IfOk result (λ broken. broken ≡ list_any (is_mistyped false) (lengths_of decls.now)) }
{
    let lengths = lengths_of(alloc, decls)?;
    some_mistyped(alloc, false, lengths.as_slice())
}

/// Whether C13 is broken by an expression. Its time is proportional to the program.
pub fn has_mistyped_expression(alloc: Global, names: &Names14<'_>) -> Result<bool, OutOfMemory>
    ensures { IfOk result (λ broken. broken ≡ has_mistyped_expression names.now) }
{
    let decls = names.decls();
    Ok(some_mistyped_condition(alloc, decls)? || some_mistyped_length(alloc, decls)?)
}
