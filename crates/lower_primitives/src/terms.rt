// What fields get.
ghost use Rattle.std.specs.Prelude.{◌≡◌, ◌<◌, ◌≤◌, length, IfOk};
ghost use Rattle.p414_sem.specs.Operations.{field};
ghost use Rattle.p414_slots.specs.Shown.{slot_in};
ghost use Rattle.p414_ready_actions.specs.Running.{shown_source, shown_target, shown_term};
ghost use Rattle.p416_syntax.specs.declared.node.BinaryOperator.TheVariants as operator;
ghost use Rattle.p416_syntax.specs.Tree as tree;
ghost use Rattle.p416_syntax.specs.Tree.{exp_at};
ghost use Rattle.lower_laws_base.specs.Mirror.{resized, source_exp};
ghost use Rattle.lower_laws_actions.specs.Mirror.{absolute, both_exp, is_negative, masked_exp, own_exp, own_width, signed, term_exp};
ghost use Rattle.lower_expressions.specs.Table.{at_in, words_in};
ghost use Rattle.lower_primitives.specs.Spares.{spare_number};
ghost use Rattle.lower_primitives.specs.Terms.{signed_exp};
ghost use Rattle.lower_expressions.specs.Has.{SourceHas, TargetHas};
ghost use Rattle.lower_primitives.specs.Has.{TermHas};
ghost use Rattle.lower_expressions.specs.Making.{MakesExp};

use crate::spares::{Spare, spare_text};
use lower_expressions::{
    ReadAt, WordsTable, both_expression, magnitude_expression, own_expression, own_width, resized,
    source_expression,
};
use p4x_bits::OutOfMemory;
use p414_ready_actions::{ReadySource, ReadyTarget, ReadyTerm};
use p414_wholes::Whole;
use p416_syntax::{BinaryOperator, ExpNode, Nodes, UnaryOperator};
use std::alloc::Global;

/// The bits of one on a mask, and those of another elsewhere.
fn masked(nodes: &mut Nodes, old: usize, new: usize, mask: usize) -> Result<usize, OutOfMemory>
    requires old { old < length nodes.old.exps }
    requires new { new < length nodes.old.exps }
    requires mask { mask < length nodes.old.exps }
    ensures { IfOk result (λ place. MakesExp nodes.old nodes.new place (masked_exp (exp_at nodes.old.exps old) (exp_at nodes.old.exps new) (exp_at nodes.old.exps mask))) }
{
    let other = nodes.expression(ExpNode::Unary(UnaryOperator::Complement, mask))?;
    let left = nodes.expression(ExpNode::Binary(BinaryOperator::BitAnd, old, other))?;
    let right = nodes.expression(ExpNode::Binary(BinaryOperator::BitAnd, new, mask))?;
    let place = nodes.expression(ExpNode::Binary(BinaryOperator::BitOr, left, right))?;
    Ok(place)
}

/// The field's own bits, and those of a source on a mask.
fn on_mask(
    alloc: Global,
    nodes: &mut Nodes,
    table: &WordsTable<'_>,
    at: ReadAt,
    target: ReadyTarget,
    a: ReadySource,
    mask: ReadySource,
) -> Result<usize, OutOfMemory>
    requires own { TargetHas (words_in table.now) (shown_target target) }
    requires left { SourceHas (words_in table.now) (shown_source a) }
    requires right { SourceHas (words_in table.now) (shown_source mask) }
    ensures { IfOk result (λ place. MakesExp nodes.old nodes.new place (masked_exp (source_exp (words_in table.now) (at_in at) target.width (field (slot_in target.slot))) (source_exp (words_in table.now) (at_in at) target.width (shown_source a)) (source_exp (words_in table.now) (at_in at) target.width (shown_source mask)))) }
{
    let field = ReadySource::Field(target.slot);
    let own = source_expression(alloc, nodes, table, at, target.width, field)?;
    let new = source_expression(alloc, nodes, table, at, target.width, a)?;
    let mask = source_expression(alloc, nodes, table, at, target.width, mask)?;
    let place = masked(nodes, own, new, mask)?;
    Ok(place)
}

/// An operator between a source and the magnitude of another one.
fn with_magnitude(
    alloc: Global,
    nodes: &mut Nodes,
    table: &WordsTable<'_>,
    at: ReadAt,
    operator: BinaryOperator,
    width: u8,
    a: ReadySource,
    b: ReadySource,
) -> Result<usize, OutOfMemory>
    requires fits { width ≤ 128 }
    requires left { SourceHas (words_in table.now) (shown_source a) }
    requires right { SourceHas (words_in table.now) (shown_source b) }
    ensures { IfOk result (λ place. MakesExp nodes.old nodes.new place (both_exp (words_in table.now) (at_in at) operator width (shown_source a) (absolute (shown_source b)))) }
{
    let left = source_expression(alloc, nodes, table, at, width, a)?;
    let right = magnitude_expression(alloc, nodes, table, at, width, b)?;
    let place = nodes.expression(ExpNode::Binary(operator, left, right))?;
    Ok(place)
}

/// Whether a source is a literal below 0.
pub fn is_negative(source: ReadySource) -> bool
    ensures { result ≡ is_negative (shown_source source) }
{
    match source {
        ReadySource::Number(Whole::Minus(_)) => true,
        _ => false,
    }
}

/// A sum or a difference, in which the second literal has no sign.
#[tactic(auto, using(crate::proofs::Signing::signed_sum, crate::proofs::Signing::signed_difference))]
fn signed_expression(
    alloc: Global,
    nodes: &mut Nodes,
    table: &WordsTable<'_>,
    at: ReadAt,
    width: u8,
    adds: bool,
    a: ReadySource,
    b: ReadySource,
) -> Result<usize, OutOfMemory>
    requires fits { width ≤ 128 }
    requires left { SourceHas (words_in table.now) (shown_source a) }
    requires right { SourceHas (words_in table.now) (shown_source b) }
    ensures { IfOk result (λ place. MakesExp nodes.old nodes.new place (signed_exp (words_in table.now) (at_in at) width adds (shown_source a) (shown_source b))) }
{
    let subtracts = is_negative(b);
    let operator = if adds == subtracts {
        BinaryOperator::Subtract
    } else {
        BinaryOperator::Add
    };
    with_magnitude(alloc, nodes, table, at, operator, width, a, b)
}

/// A shift to the left.
fn shifted_left(
    alloc: Global,
    nodes: &mut Nodes,
    table: &WordsTable<'_>,
    at: ReadAt,
    width: u8,
    a: ReadySource,
    b: ReadySource,
) -> Result<usize, OutOfMemory>
    requires fits { width ≤ 128 }
    requires left { SourceHas (words_in table.now) (shown_source a) }
    requires right { SourceHas (words_in table.now) (shown_source b) }
    ensures { IfOk result (λ place. MakesExp nodes.old nodes.new place (tree.binary operator.ShiftLeft (source_exp (words_in table.now) (at_in at) width (shown_source a)) (own_exp (words_in table.now) (at_in at) (shown_source b)))) }
{
    let left = source_expression(alloc, nodes, table, at, width, a)?;
    let right = own_expression(alloc, nodes, table, at, b)?;
    let place = nodes.expression(ExpNode::Binary(BinaryOperator::ShiftLeft, left, right))?;
    Ok(place)
}

/// A shift to the right, at the width of what is shifted, as bits of a width.
fn shifted_right(
    alloc: Global,
    nodes: &mut Nodes,
    table: &WordsTable<'_>,
    at: ReadAt,
    width: u8,
    a: ReadySource,
    b: ReadySource,
) -> Result<usize, OutOfMemory>
    requires left { SourceHas (words_in table.now) (shown_source a) }
    requires right { SourceHas (words_in table.now) (shown_source b) }
    ensures { IfOk result (λ place. MakesExp nodes.old nodes.new place (resized (own_width (words_in table.now) (shown_source a)) width (tree.binary operator.ShiftRight (own_exp (words_in table.now) (at_in at) (shown_source a)) (own_exp (words_in table.now) (at_in at) (shown_source b))))) }
{
    let left = own_expression(alloc, nodes, table, at, a)?;
    let right = own_expression(alloc, nodes, table, at, b)?;
    let shifted = nodes.expression(ExpNode::Binary(BinaryOperator::ShiftRight, left, right))?;
    let place = resized(nodes, own_width(table, a), width, shifted)?;
    Ok(place)
}

/// A variable of a primitive, as bits of a width.
pub fn spare_expression(
    alloc: Global,
    nodes: &mut Nodes,
    table: &WordsTable<'_>,
    number: u32,
    which: Spare,
    own: u8,
    width: u8,
) -> Result<usize, OutOfMemory>
    ensures { IfOk result (λ place. MakesExp nodes.old nodes.new place (resized own width (tree.name ((words_in table.now).spare number (spare_number which))))) }
{
    let text = spare_text(alloc, table, number, which)?;
    let of = nodes.expression(ExpNode::Name(text))?;
    let place = resized(nodes, own, width, of)?;
    Ok(place)
}

/// What a field gets that doesn't saturate.
#[tactic(auto, using(crate::proofs::Signing::signed_sum, crate::proofs::Signing::signed_difference))]
pub fn term_expression(
    alloc: Global,
    nodes: &mut Nodes,
    table: &WordsTable<'_>,
    at: ReadAt,
    number: u32,
    target: ReadyTarget,
    term: ReadyTerm,
) -> Result<usize, OutOfMemory>
    requires own { TargetHas (words_in table.now) (shown_target target) }
    requires has { TermHas (words_in table.now) (shown_term term) }
    ensures { IfOk result (λ place. MakesExp nodes.old nodes.new place (term_exp (words_in table.now) (at_in at) number (shown_target target) (signed (shown_term term)))) }
{
    let width = target.width;
    match term {
        ReadyTerm::Sum(a, b) => signed_expression(alloc, nodes, table, at, width, true, a, b),
        ReadyTerm::Difference(a, b) => {
            signed_expression(alloc, nodes, table, at, width, false, a, b)
        }
        ReadyTerm::And(a, b) => {
            both_expression(alloc, nodes, table, at, BinaryOperator::BitAnd, width, a, b)
        }
        ReadyTerm::Or(a, b) => {
            both_expression(alloc, nodes, table, at, BinaryOperator::BitOr, width, a, b)
        }
        ReadyTerm::Xor(a, b) => {
            both_expression(alloc, nodes, table, at, BinaryOperator::BitXor, width, a, b)
        }
        ReadyTerm::Just(a) => source_expression(alloc, nodes, table, at, width, a),
        ReadyTerm::OnMask(a, mask) => on_mask(alloc, nodes, table, at, target, a, mask),
        ReadyTerm::LeftShift(a, b) => shifted_left(alloc, nodes, table, at, width, a, b),
        ReadyTerm::RightShift(a, b) => shifted_right(alloc, nodes, table, at, width, a, b),
        ReadyTerm::Cell { object, index: _ } => {
            let own = table.object(object).width;
            spare_expression(alloc, nodes, table, number, Spare::Got, own, width)
        }
    }
}
