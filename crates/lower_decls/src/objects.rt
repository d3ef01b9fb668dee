// The declarations of objects.
ghost use Rattle.std.specs.Prelude.{◌≡◌, ◌++◌, Some, IfOk, OnOk};
ghost use Rattle.std.specs.Option.{option_map_or};
ghost use Rattle.p414_syntax.specs.declared.syntax.Decl.TheVariants as decl;
ghost use Rattle.p414_syntax.specs.declared.syntax.Sort.TheVariants as sort;
ghost use Rattle.lower_laws_names.specs.NewNames.{new_name};
ghost use Rattle.p414_syntax.specs.Attributes.{direct_table_of, width_of};
ghost use Rattle.p414_syntax.specs.Cells.{literal_value};
ghost use Rattle.p414_sem.specs.Signatures.{cells_of};
ghost use Rattle.lower_laws_names.specs.Objects.{counter_instance, counter_member, meter_member, named_object, object_decl, object_decls, size_exp};

use crate::numbers::plain;
use lower_names::new_name;
use p4x_bits::{OutOfMemory, Rows, Text};
use p414_names::Names14;
use p414_syntax::{CounterType as CounterType14, Decl, Sort, Stateful};
use p416_syntax::{
    CounterType, Decl16, Exp, ExpNode, Instance, Literal16, Member, MeterType, Nodes, Note,
};
use std::alloc::Global;

/// A number of 32 bits.
fn size_exp(alloc: Global, cells: u128) -> Result<Exp, OutOfMemory>
    ensures { IfOk result (λ found. found ≡ size_exp cells) }
{
    let mut nodes = Nodes::new(alloc);
    let place = nodes.expression(ExpNode::Literal(Literal16 {
        width: Some(32),
        value: cells,
    }))?;
    Ok(Exp::new(nodes, place))
}

/// The cells of an object.
fn cells_of(object: &Stateful) -> u128
    ensures { result ≡ cells_of object.now.attributes }
{
    match object.instance_count() {
        Some(count) => count.value,
        None => 0,
    }
}

/// The bits of a cell.
fn width_of(object: &Stateful) -> u128
    ensures { result ≡ option_map_or literal_value (width_of object.now.attributes) 0 }
{
    match object.width() {
        Some(width) => width.value,
        None => 0,
    }
}

/// What is counted; what isn't told is both.
fn counter_member(counts: Option<CounterType14>) -> Member
    ensures { result ≡ counter_member counts }
{
    match counts {
        Some(CounterType14::Packets) => Member::CounterType(CounterType::Packets),
        Some(CounterType14::Bytes) => Member::CounterType(CounterType::Bytes),
        _ => Member::CounterType(CounterType::PacketsAndBytes),
    }
}

/// What is measured; what isn't told, or both, is packets.
fn meter_member(counts: Option<CounterType14>) -> Member
    ensures { result ≡ meter_member counts }
{
    match counts {
        Some(CounterType14::Bytes) => Member::MeterType(MeterType::Bytes),
        _ => Member::MeterType(MeterType::Packets),
    }
}

/// An object under `@name` of its name in P4_14.
fn named_object(alloc: Global, plane: &[u8], object: Instance) -> Result<Decl16, OutOfMemory>
    ensures { IfOk result (λ found. named_object plane.now object ≡ Some found) }
{
    let mut notes = Rows::new(alloc);
    notes.push(Note::Name(Text::from_slice(alloc, plane)?))?;
    Ok(Decl16::Instance(notes, object))
}

/// A counter under its new name, or a direct one where a table is named.
#[tactic(auto, using(crate::proofs::Showing::counter_plain, crate::proofs::Showing::counter_direct))]
fn counter_instance(alloc: Global, object: &Stateful, name: Text) -> Result<Instance, OutOfMemory>
    ensures { IfOk result (λ found. found ≡ counter_instance name object.now.attributes (direct_table_of object.now.attributes)) }
{
    let counts = counter_member(object.counts());
    match object.direct_table() {
        None => {
            let size = size_exp(alloc, cells_of(object))?;
            Ok(Instance::Counter(size, counts, name))
        }
        Some(_) => Ok(Instance::DirectCounter(counts, name)),
    }
}

/// A counter under its new name.
fn counter_named(
    alloc: Global,
    names: &Names14<'_>,
    object: &Stateful,
) -> Result<Instance, OutOfMemory>
    ensures { IfOk result (λ found. found ≡ counter_instance (new_name names.now sort.Object object.now.name) object.now.attributes (direct_table_of object.now.attributes)) }
{
    let name = new_name(alloc, names, Sort::Object, object.name.as_slice())?;
    counter_instance(alloc, object, name)
}

/// A counter.
#[tactic(auto, using(crate::proofs::Showing::counter_declared))]
fn counter_decl(
    alloc: Global,
    names: &Names14<'_>,
    object: &Stateful,
) -> Result<Decl16, OutOfMemory>
    ensures { IfOk result (λ found. object_decl names.now (decl.Counter object.now) ≡ Some found) }
{
    let instance = counter_named(alloc, names, object)?;
    named_object(alloc, object.name.as_slice(), instance)
}

/// A meter.
fn meter_decl(alloc: Global, names: &Names14<'_>, object: &Stateful) -> Result<Decl16, OutOfMemory>
    ensures { IfOk result (λ found. object_decl names.now (decl.Meter object.now) ≡ Some found) }
{
    let plane = object.name.as_slice();
    let name = new_name(alloc, names, Sort::Object, plane)?;
    let size = size_exp(alloc, cells_of(object))?;
    let counts = meter_member(object.counts());
    named_object(alloc, plane, Instance::Meter(size, counts, name))
}

/// A register.
fn register_decl(
    alloc: Global,
    names: &Names14<'_>,
    object: &Stateful,
) -> Result<Decl16, OutOfMemory>
    ensures { IfOk result (λ found. object_decl names.now (decl.Register object.now) ≡ Some found) }
{
    let plane = object.name.as_slice();
    let name = new_name(alloc, names, Sort::Object, plane)?;
    let size = size_exp(alloc, cells_of(object))?;
    let width = plain(width_of(object));
    named_object(alloc, plane, Instance::Register(width, size, name))
}

/// An object, if a declaration is one.
fn object_decl(
    alloc: Global,
    names: &Names14<'_>,
    decl: &Decl,
) -> Result<Option<Decl16>, OutOfMemory>
    ensures { IfOk result (λ found. found ≡ object_decl names.now decl.now) }
{
    match decl {
        Decl::Counter(object) => Ok(Some(counter_decl(alloc, names, object)?)),
        Decl::Meter(object) => Ok(Some(meter_decl(alloc, names, object)?)),
        Decl::Register(object) => Ok(Some(register_decl(alloc, names, object)?)),
        _ => Ok(None),
    }
}

/// Puts the objects behind what is there.
pub fn add_object_decls(
    alloc: Global,
    names: &Names14<'_>,
    found: &mut Rows<Decl16>,
) -> Result<(), OutOfMemory>
    ensures { OnOk result (found.new ≡ found.old ++ object_decls names.now) }
{
    for decl in names.decls() {
        if let Some(object) = object_decl(alloc, names, decl)? {
            found.push(object)?;
        }
    }
    Ok(())
}
