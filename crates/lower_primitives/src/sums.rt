// Sums and differences that are kept within a width.
ghost use Rattle.std.specs.Prelude.{◌≡◌, ◌<◌, ◌≤◌, true, length, IfOk};
ghost use Rattle.p414_ready_actions.specs.Running.{shown_source, shown_target, shown_term};
ghost use Rattle.p416_syntax.specs.Tree.{exp_at};
ghost use Rattle.lower_laws_actions.specs.Mirror.{absolute, both_exp, signs_exp, stop_exp, stopped_exp, wide_of, write_exp};
ghost use Rattle.lower_expressions.specs.Table.{at_in, words_in};
ghost use Rattle.lower_expressions.specs.Has.{SourceHas, TargetHas};
ghost use Rattle.lower_primitives.specs.Has.{TermHas};
ghost use Rattle.lower_expressions.specs.Making.{MakesExp};

use crate::terms::{is_negative, term_expression};
use lower_expressions::{
    ReadAt, WordsTable, literal, magnitude_expression, own_width, plain, room_over,
};
use p4x_bits::OutOfMemory;
use p414_ready_actions::{ReadySource, ReadyTarget, ReadyTerm};
use p416_syntax::{BinaryOperator, CastType, ExpNode, Nodes};
use std::alloc::Global;

/// The greatest number of a width in place of a greater one.
fn stopped(nodes: &mut Nodes, width: u8, wide: u8, e: usize) -> Result<usize, OutOfMemory>
    requires less { width ≤ wide }
    requires fits { wide ≤ 128 }
    requires there { e < length nodes.old.exps }
    ensures { IfOk result (λ place. MakesExp nodes.old nodes.new place (stop_exp width wide (exp_at nodes.old.exps e))) }
{
    if width == wide {
        return Ok(e);
    }
    let room = literal(nodes, wide, room_over(width, wide))?;
    let up = nodes.expression(ExpNode::Binary(BinaryOperator::SaturatingAdd, e, room))?;
    let room = literal(nodes, wide, room_over(width, wide))?;
    let down = nodes.expression(ExpNode::Binary(BinaryOperator::Subtract, up, room))?;
    let place = nodes.expression(ExpNode::Cast(CastType::Bit(plain(width as u32)), down))?;
    Ok(place)
}

/// An operator between the magnitudes of two sources, at a greater width, kept within a width.
fn stopped_both(
    alloc: Global,
    nodes: &mut Nodes,
    table: &WordsTable<'_>,
    at: ReadAt,
    operator: BinaryOperator,
    width: u8,
    wide: u8,
    a: ReadySource,
    b: ReadySource,
) -> Result<usize, OutOfMemory>
    requires less { width ≤ wide }
    requires fits { wide ≤ 128 }
    requires left { SourceHas (words_in table.now) (shown_source a) }
    requires right { SourceHas (words_in table.now) (shown_source b) }
    ensures { IfOk result (λ place. MakesExp nodes.old nodes.new place (stop_exp width wide (both_exp (words_in table.now) (at_in at) operator wide (absolute (shown_source a)) (absolute (shown_source b))))) }
{
    let left = magnitude_expression(alloc, nodes, table, at, wide, a)?;
    let right = magnitude_expression(alloc, nodes, table, at, wide, b)?;
    let both = nodes.expression(ExpNode::Binary(operator, left, right))?;
    let place = stopped(nodes, width, wide, both)?;
    Ok(place)
}

/// The width at which a sum of two sources is written.
fn wide_of(table: &WordsTable<'_>, width: u8, a: ReadySource, b: ReadySource) -> u8
    requires fits { width ≤ 128 }
    requires left { SourceHas (words_in table.now) (shown_source a) }
    requires right { SourceHas (words_in table.now) (shown_source b) }
    ensures is { result ≡ wide_of (words_in table.now) width (shown_source a) (shown_source b) }
    ensures less { width ≤ result }
    ensures fits { result ≤ 128 }
{
    width.max(own_width(table, a).max(own_width(table, b)))
}

/// A sum of two numbers with signs, where true is below 0.
fn signs_expression(
    alloc: Global,
    nodes: &mut Nodes,
    table: &WordsTable<'_>,
    at: ReadAt,
    width: u8,
    a: ReadySource,
    b: ReadySource,
    a_below: bool,
    b_below: bool,
) -> Result<usize, OutOfMemory>
    requires fits { width ≤ 128 }
    requires left { SourceHas (words_in table.now) (shown_source a) }
    requires right { SourceHas (words_in table.now) (shown_source b) }
    ensures { IfOk result (λ place. MakesExp nodes.old nodes.new place (signs_exp (words_in table.now) (at_in at) width (shown_source a) (shown_source b) a_below b_below)) }
{
    let wide = wide_of(table, width, a, b);
    let less = BinaryOperator::SaturatingSubtract;
    match (a_below, b_below) {
        (false, false) => {
            let more = BinaryOperator::SaturatingAdd;
            stopped_both(alloc, nodes, table, at, more, width, wide, a, b)
        }
        (false, true) => stopped_both(alloc, nodes, table, at, less, width, wide, a, b),
        (true, false) => stopped_both(alloc, nodes, table, at, less, width, wide, b, a),
        (true, true) => literal(nodes, width, 0),
    }
}

/// A sum or a difference that is kept within a width.
fn stopped_expression(
    alloc: Global,
    nodes: &mut Nodes,
    table: &WordsTable<'_>,
    at: ReadAt,
    width: u8,
    term: ReadyTerm,
) -> Result<usize, OutOfMemory>
    requires fits { width ≤ 128 }
    requires has { TermHas (words_in table.now) (shown_term term) }
    ensures { IfOk result (λ place. MakesExp nodes.old nodes.new place (stopped_exp (words_in table.now) (at_in at) width (shown_term term))) }
{
    match term {
        ReadyTerm::Sum(a, b) => {
            let below = is_negative(b);
            signs_expression(alloc, nodes, table, at, width, a, b, is_negative(a), below)
        }
        ReadyTerm::Difference(a, b) => {
            let below = !is_negative(b);
            signs_expression(alloc, nodes, table, at, width, a, b, is_negative(a), below)
        }
        _ => {
            let place = nodes.expression(ExpNode::NoArguments)?;
            Ok(place)
        }
    }
}

/// What is written to a field.
pub fn write_expression(
    alloc: Global,
    nodes: &mut Nodes,
    table: &WordsTable<'_>,
    at: ReadAt,
    number: u32,
    target: ReadyTarget,
    term: ReadyTerm,
) -> Result<usize, OutOfMemory>
    requires own { TargetHas (words_in table.now) (shown_target target) }
    requires has { TermHas (words_in table.now) (shown_term term) }
    ensures { IfOk result (λ place. MakesExp nodes.old nodes.new place (write_exp (words_in table.now) (at_in at) number true (shown_target target) (shown_term term))) }
{
    if target.saturates {
        stopped_expression(alloc, nodes, table, at, target.width, term)
    } else {
        term_expression(alloc, nodes, table, at, number, target, term)
    }
}
