// Expressions.
ghost use Rattle.std.specs.Prelude.{◌≡◌, ◌<◌, length, IfOk};
ghost use Rattle.p414_sem.specs.Slots.{Element};
ghost use Rattle.p414_slots.specs.Shown.{slot_in};
ghost use Rattle.p416_syntax.specs.Tree as tree;
ghost use Rattle.p416_syntax.specs.Tree.{exp_at};
ghost use Rattle.agreement_of_meanings.specs.Shown.{standard_word, standard_width};
ghost use Rattle.lower_laws_base.specs.Mirror.{element_exp, instance_exp, part_exp, plain, resized, sized, slot_exp, width_in};
ghost use Rattle.lower_rows.specs.Named.{instance_shown};
ghost use Rattle.lower_expressions.specs.Table.{at_in, words_in};
ghost use Rattle.lower_expressions.specs.Has.{SlotHas};
ghost use Rattle.lower_expressions.specs.Making.{MakesExp};

use crate::table::{ReadAt, WordsTable, instance_field};
use lower_rows::{Form, InstanceRow};
use p4x_bits::{OutOfMemory, Text};
use p414_sem::Standard;
use p414_slots::FieldSlot;
use p416_syntax::{CastType, ExpNode, Literal16, Nodes};
use std::alloc::Global;

/// A literal without a width.
pub fn plain(value: u32) -> Literal16
    ensures { result ≡ plain value }
{
    Literal16 {
        width: None,
        value: value as u128,
    }
}

/// A literal with its width.
pub fn sized(width: u8, value: u128) -> Literal16
    ensures { result ≡ sized width value }
{
    Literal16 {
        width: Some(width),
        value,
    }
}

/// A literal with its width, as an expression.
pub fn literal(nodes: &mut Nodes, width: u8, value: u128) -> Result<usize, OutOfMemory>
    ensures { IfOk result (λ place. MakesExp nodes.old nodes.new place (tree.literal (sized width value))) }
{
    let place = nodes.expression(ExpNode::Literal(sized(width, value)))?;
    Ok(place)
}

/// A name.
pub fn named(alloc: Global, nodes: &mut Nodes, text: &[u8]) -> Result<usize, OutOfMemory>
    ensures { IfOk result (λ place. MakesExp nodes.old nodes.new place (tree.name text.now)) }
{
    let text = Text::from_slice(alloc, text)?;
    let place = nodes.expression(ExpNode::Name(text))?;
    Ok(place)
}

/// A member.
pub fn member_of(
    alloc: Global,
    nodes: &mut Nodes,
    of: usize,
    word: &[u8],
) -> Result<usize, OutOfMemory>
    requires { of < length nodes.old.exps }
    ensures { IfOk result (λ place. MakesExp nodes.old nodes.new place (tree.member (exp_at nodes.old.exps of) word.now)) }
{
    let word = Text::from_slice(alloc, word)?;
    let place = nodes.expression(ExpNode::Member(of, word))?;
    Ok(place)
}

/// A member of a name.
pub fn member_of_name(
    alloc: Global,
    nodes: &mut Nodes,
    root: &[u8],
    word: &[u8],
) -> Result<usize, OutOfMemory>
    ensures { IfOk result (λ place. MakesExp nodes.old nodes.new place (tree.member (tree.name root.now) word.now)) }
{
    let of = named(alloc, nodes, root)?;
    let place = member_of(alloc, nodes, of, word)?;
    Ok(place)
}

/// An instance, as it stands among the parameters of the block or their copies.
#[tactic(auto, using(crate::proofs::Numbered::owner_is, crate::proofs::Numbered::called_is))]
pub fn instance_expression(
    alloc: Global,
    nodes: &mut Nodes,
    table: &WordsTable<'_>,
    at: ReadAt,
    instance: &InstanceRow,
) -> Result<usize, OutOfMemory>
    ensures { IfOk result (λ place. MakesExp nodes.old nodes.new place (instance_exp (words_in table.now) (at_in at) (instance_shown instance.now))) }
{
    let root = table.root(at, instance.form);
    member_of_name(alloc, nodes, root, instance.called.as_slice())
}

/// An element of a stack, a header or metadata.
pub fn element_expression(
    alloc: Global,
    nodes: &mut Nodes,
    table: &WordsTable<'_>,
    at: ReadAt,
    instance: &InstanceRow,
    element: u32,
) -> Result<usize, OutOfMemory>
    ensures { IfOk result (λ place. MakesExp nodes.old nodes.new place (element_exp (words_in table.now) (at_in at) (instance_shown instance.now) element)) }
{
    let of = instance_expression(alloc, nodes, table, at, instance)?;
    match instance.form {
        Form::Header => Ok(of),
        Form::Metadata => Ok(of),
        Form::Stack => {
            let place = nodes.expression(ExpNode::Index(of, plain(element)))?;
            Ok(place)
        }
    }
}

/// The name of a field of standard metadata.
fn standard_name(which: Standard) -> &'static [u8]
    ensures { result.now ≡ standard_word which }
{
    match which {
        Standard::IngressPort => b"ingress_port",
        Standard::EgressSpec => b"egress_spec",
        Standard::EgressPort => b"egress_port",
        Standard::PacketLength => b"packet_length",
        Standard::InstanceType => b"instance_type",
    }
}

/// A field.
pub fn slot_expression(
    alloc: Global,
    nodes: &mut Nodes,
    table: &WordsTable<'_>,
    at: ReadAt,
    slot: FieldSlot,
) -> Result<usize, OutOfMemory>
    requires { SlotHas (words_in table.now) (slot_in slot) }
    ensures { IfOk result (λ place. MakesExp nodes.old nodes.new place (slot_exp (words_in table.now) (at_in at) (slot_in slot))) }
{
    match slot {
        FieldSlot::Standard(which) => {
            member_of_name(alloc, nodes, table.standard_root(at), standard_name(which))
        }
        FieldSlot::Declared {
            instance,
            element,
            field,
        } => {
            let instance = table.instance(instance);
            let of = element_expression(alloc, nodes, table, at, instance, element)?;
            let place = member_of(
                alloc,
                nodes,
                of,
                instance_field(instance, field).called.as_slice(),
            )?;
            Ok(place)
        }
    }
}
