// Values of parser states.
ghost use Rattle.std.specs.Prelude.{◌≡◌, ◌+◌, ◌<◌, length, IfOk};
ghost use Rattle.p414_sem.specs.Operations.{field};
ghost use Rattle.p414_slots.specs.Shown.{slot_in};
ghost use Rattle.p414_ready_parser.specs.declared.rows.ReadyValue.TheVariants as ready_value;
ghost use Rattle.p416_syntax.specs.Tree.{exp_at};
ghost use Rattle.lower_laws_base.specs.Context.{now};
ghost use Rattle.lower_laws_base.specs.Mirror.{plain, resized, source_exp};
ghost use Rattle.lower_expressions.specs.Has.{SlotHas};
ghost use Rattle.lower_expressions.specs.Making.{MakesExp};
ghost use Rattle.lower_expressions.specs.Table.{words_in};
ghost use Rattle.lower_parser.specs.Has.{FieldHas, ValueHas};
ghost use Rattle.lower_parser.specs.Rows.{ahead, row_part, row_value};

use lower_expressions::{
    ReadAt, WordsTable, element_expression, instance_expression, instance_field, literal,
    member_of, named, resized, slot_expression, slot_width,
};
use p4x_bits::OutOfMemory;
use p414_ready_parser::ReadyValue;
use p414_slots::FieldSlot;
use p416_syntax::{CastType, ExpNode, Literal16, Nodes, Type16};
use std::alloc::Global;

/// A number without a width.
pub fn plain_number(value: u128) -> Literal16
    ensures { result ≡ plain value }
{
    Literal16 { width: None, value }
}

/// So many bits that aren't extracted yet.
fn ahead(alloc: Global, nodes: &mut Nodes, bits: u64) -> Result<usize, OutOfMemory>
    ensures { IfOk result (λ place. MakesExp nodes.old nodes.new place (ahead bits)) }
{
    let packet = named(alloc, nodes, b"packet")?;
    let none = nodes.expression(ExpNode::NoArguments)?;
    let bits = Type16::Bit(plain_number(bits as u128));
    let place = nodes.expression(ExpNode::Lookahead(packet, bits, none))?;
    Ok(place)
}

/// The last of so many bits.
fn cut(nodes: &mut Nodes, own: u64, width: u8, e: usize) -> Result<usize, OutOfMemory>
    requires { e < length nodes.old.exps }
    ensures { IfOk result (λ place. MakesExp nodes.old nodes.new place (resized own width (exp_at nodes.old.exps e))) }
{
    if own == width as u64 {
        Ok(e)
    } else {
        let place = nodes.expression(ExpNode::Cast(CastType::Bit(plain_number(width as u128)), e))?;
        Ok(place)
    }
}

/// Bits that aren't extracted yet, behind others, as bits of a width: cut to their own width first.
fn current(
    alloc: Global,
    nodes: &mut Nodes,
    offset: u32,
    bits: u8,
    width: u8,
) -> Result<usize, OutOfMemory>
    ensures { IfOk result (λ place. MakesExp nodes.old nodes.new place (resized bits width (resized (offset + bits) bits (ahead (offset + bits))))) }
{
    let own = offset as u64 + bits as u64;
    let all = ahead(alloc, nodes, own)?;
    let last = cut(nodes, own, bits, all)?;
    let place = resized(nodes, bits, width, last)?;
    Ok(place)
}

/// What is extracted, or what was: an element, or where none is fixed a member of a stack.
pub fn part(
    alloc: Global,
    nodes: &mut Nodes,
    table: &WordsTable<'_>,
    word: &[u8],
    instance: u32,
    element: Option<u32>,
) -> Result<usize, OutOfMemory>
    requires { instance < length (words_in table.now).names.instances }
    ensures { IfOk result (λ place. MakesExp nodes.old nodes.new place (row_part (words_in table.now) word.now instance element)) }
{
    let instance = table.instance(instance);
    match element {
        Some(element) => element_expression(alloc, nodes, table, ReadAt::Now, instance, element),
        None => {
            let of = instance_expression(alloc, nodes, table, ReadAt::Now, instance)?;
            let place = member_of(alloc, nodes, of, word)?;
            Ok(place)
        }
    }
}

/// A field of what was extracted last, as bits of a width.
fn latest(
    alloc: Global,
    nodes: &mut Nodes,
    table: &WordsTable<'_>,
    element: Option<u32>,
    width: u8,
    instance: u32,
    field: u32,
) -> Result<usize, OutOfMemory>
    requires { FieldHas (words_in table.now) instance field }
    ensures { IfOk result (λ place. MakesExp nodes.old nodes.new place (row_value (words_in table.now) element width (ready_value.Latest instance field))) }
{
    let of = part(alloc, nodes, table, b"last", instance, element)?;
    let field = instance_field(table.instance(instance), field);
    let whole = member_of(alloc, nodes, of, field.called.as_slice())?;
    let place = resized(nodes, field.width, width, whole)?;
    Ok(place)
}

/// A field, as bits of a width.
fn field_of(
    alloc: Global,
    nodes: &mut Nodes,
    table: &WordsTable<'_>,
    width: u8,
    slot: FieldSlot,
) -> Result<usize, OutOfMemory>
    requires { SlotHas (words_in table.now) (slot_in slot) }
    ensures { IfOk result (λ place. MakesExp nodes.old nodes.new place (source_exp (words_in table.now) now width (field (slot_in slot)))) }
{
    let of = slot_expression(alloc, nodes, table, ReadAt::Now, slot)?;
    let place = resized(nodes, slot_width(table, slot), width, of)?;
    Ok(place)
}

/// A value, as bits of a width, where `element` was extracted last.
pub fn value(
    alloc: Global,
    nodes: &mut Nodes,
    table: &WordsTable<'_>,
    element: Option<u32>,
    width: u8,
    value: ReadyValue,
) -> Result<usize, OutOfMemory>
    requires { ValueHas (words_in table.now) value }
    ensures { IfOk result (λ place. MakesExp nodes.old nodes.new place (row_value (words_in table.now) element width value)) }
{
    match value {
        ReadyValue::Current {
            offset,
            width: bits,
        } => current(alloc, nodes, offset, bits, width),
        ReadyValue::Latest { instance, field } => {
            latest(alloc, nodes, table, element, width, instance, field)
        }
        ReadyValue::Field(slot) => field_of(alloc, nodes, table, width, slot),
        ReadyValue::Number(number) => literal(nodes, width, number),
    }
}
