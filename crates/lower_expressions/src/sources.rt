// Sources.
ghost use Rattle.std.specs.Prelude.{◌≡◌, ◌<◌, ◌≤◌, ◌++◌, ◌∷◌, [], length, decimal, IfOk};
ghost use Rattle.p414_sem.specs.Wholes.{wrapped};
ghost use Rattle.p414_slots.specs.Shown.{slot_in};
ghost use Rattle.p414_wholes.specs.Shown.{whole_in};
ghost use Rattle.p414_ready_actions.specs.Running.{shown_source};
ghost use Rattle.p416_syntax.specs.Tree as tree;
ghost use Rattle.p416_syntax.specs.Tree.{exp_at};
ghost use Rattle.agreement_of_meanings.specs.Shown.{standard_width};
ghost use Rattle.lower_laws_base.specs.Mirror.{resized, sized, source_exp, width_in};
ghost use Rattle.lower_laws_actions.specs.Mirror.{absolute, both_exp, own_exp, own_width};
ghost use Rattle.lower_expressions.specs.Table.{at_in, words_in};
ghost use Rattle.lower_expressions.specs.Has.{SlotHas, SourceHas};
ghost use Rattle.lower_expressions.specs.Making.{MakesExp};

use crate::expressions::{literal, named, plain, slot_expression};
use crate::numbers::{low_next, needed, needed_next};
use crate::table::{ReadAt, WordsTable, instance_field};
use p4x_bits::OutOfMemory;
use p414_ready_actions::ReadySource;
use p414_sem::Standard;
use p414_slots::FieldSlot;
use p414_wholes::{Whole, wrapped};
use p416_syntax::{BinaryOperator, CastType, ExpNode, Nodes};
use std::alloc::Global;

/// Bits of a width as bits of another one.
pub fn resized(nodes: &mut Nodes, own: u8, width: u8, e: usize) -> Result<usize, OutOfMemory>
    requires { e < length nodes.old.exps }
    ensures { IfOk result (λ place. MakesExp nodes.old nodes.new place (resized own width (exp_at nodes.old.exps e))) }
{
    if own == width {
        Ok(e)
    } else {
        let place = nodes.expression(ExpNode::Cast(CastType::Bit(plain(width as u32)), e))?;
        Ok(place)
    }
}

/// The width of a field of standard metadata.
fn standard_width(which: Standard) -> u8
    ensures { result ≡ standard_width which }
{
    match which {
        Standard::IngressPort => 9,
        Standard::EgressSpec => 9,
        Standard::EgressPort => 9,
        Standard::PacketLength => 32,
        Standard::InstanceType => 32,
    }
}

/// The width of a field.
pub fn slot_width(table: &WordsTable<'_>, slot: FieldSlot) -> u8
    requires { SlotHas (words_in table.now) (slot_in slot) }
    ensures { result ≡ width_in (words_in table.now) (slot_in slot) }
{
    match slot {
        FieldSlot::Standard(which) => standard_width(which),
        FieldSlot::Declared {
            instance,
            element: _,
            field,
        } => instance_field(table.instance(instance), field).width,
    }
}

/// A source at a width.
pub fn source_expression(
    alloc: Global,
    nodes: &mut Nodes,
    table: &WordsTable<'_>,
    at: ReadAt,
    width: u8,
    source: ReadySource,
) -> Result<usize, OutOfMemory>
    requires fits { width ≤ 128 }
    requires has { SourceHas (words_in table.now) (shown_source source) }
    ensures { IfOk result (λ place. MakesExp nodes.old nodes.new place (source_exp (words_in table.now) (at_in at) width (shown_source source))) }
{
    match source {
        ReadySource::Number(number) => literal(nodes, width, wrapped(width, number)),
        ReadySource::Field(slot) => {
            let of = slot_expression(alloc, nodes, table, at, slot)?;
            let place = resized(nodes, slot_width(table, slot), width, of)?;
            Ok(place)
        }
        ReadySource::Parameter(parameter) => {
            let given = table.parameter(parameter);
            let of = named(alloc, nodes, given.called.as_slice())?;
            let place = resized(nodes, given.width, width, of)?;
            Ok(place)
        }
    }
}

/// A source's magnitude at a width.
pub fn magnitude_expression(
    alloc: Global,
    nodes: &mut Nodes,
    table: &WordsTable<'_>,
    at: ReadAt,
    width: u8,
    source: ReadySource,
) -> Result<usize, OutOfMemory>
    requires fits { width ≤ 128 }
    requires has { SourceHas (words_in table.now) (shown_source source) }
    ensures { IfOk result (λ place. MakesExp nodes.old nodes.new place (source_exp (words_in table.now) (at_in at) width (absolute (shown_source source)))) }
{
    match source {
        ReadySource::Number(Whole::Minus(number)) => {
            literal(nodes, width, low_next(width, number))
        }
        ReadySource::Number(Whole::Plus(number)) => {
            literal(nodes, width, wrapped(width, Whole::Plus(number)))
        }
        ReadySource::Field(slot) => {
            source_expression(alloc, nodes, table, at, width, ReadySource::Field(slot))
        }
        ReadySource::Parameter(parameter) => {
            source_expression(
                alloc,
                nodes,
                table,
                at,
                width,
                ReadySource::Parameter(parameter),
            )
        }
    }
}

/// The width of a source by itself.
pub fn own_width(table: &WordsTable<'_>, source: ReadySource) -> u8
    requires { SourceHas (words_in table.now) (shown_source source) }
    ensures is { result ≡ own_width (words_in table.now) (shown_source source) }
    ensures fits { result ≤ 128 }
{
    match source {
        ReadySource::Number(Whole::Plus(number)) => needed(number),
        ReadySource::Number(Whole::Minus(number)) => needed_next(number),
        ReadySource::Field(slot) => slot_width(table, slot),
        ReadySource::Parameter(parameter) => table.parameter(parameter).width,
    }
}

/// A source at its own width.
pub fn own_expression(
    alloc: Global,
    nodes: &mut Nodes,
    table: &WordsTable<'_>,
    at: ReadAt,
    source: ReadySource,
) -> Result<usize, OutOfMemory>
    requires { SourceHas (words_in table.now) (shown_source source) }
    ensures { IfOk result (λ place. MakesExp nodes.old nodes.new place (own_exp (words_in table.now) (at_in at) (shown_source source))) }
{
    match source {
        ReadySource::Number(Whole::Plus(number)) => literal(nodes, needed(number), number),
        ReadySource::Number(Whole::Minus(_)) => {
            let place = nodes.expression(ExpNode::NoArguments)?;
            Ok(place)
        }
        ReadySource::Field(slot) => slot_expression(alloc, nodes, table, at, slot),
        ReadySource::Parameter(parameter) => {
            named(alloc, nodes, table.parameter(parameter).called.as_slice())
        }
    }
}

/// An operator between two sources.
pub fn both_expression(
    alloc: Global,
    nodes: &mut Nodes,
    table: &WordsTable<'_>,
    at: ReadAt,
    operator: BinaryOperator,
    width: u8,
    a: ReadySource,
    b: ReadySource,
) -> Result<usize, OutOfMemory>
    requires fits { width ≤ 128 }
    requires left { SourceHas (words_in table.now) (shown_source a) }
    requires right { SourceHas (words_in table.now) (shown_source b) }
    ensures { IfOk result (λ place. MakesExp nodes.old nodes.new place (both_exp (words_in table.now) (at_in at) operator width (shown_source a) (shown_source b))) }
{
    let left = source_expression(alloc, nodes, table, at, width, a)?;
    let right = source_expression(alloc, nodes, table, at, width, b)?;
    let place = nodes.expression(ExpNode::Binary(operator, left, right))?;
    Ok(place)
}
