// What a stateful object is to a control plane (`v1model.p4`).
ghost use Rattle.std.specs.Prelude.{◌≡◌, IfOk};
ghost use Rattle.p416_syntax.specs.Scopes.{plane_name};
ghost use Rattle.p416_syntax.specs.Totals.{size_value};
ghost use Rattle.v1_core.specs.Signatures.{counted_by, shape_of};

use p4x_bits::{OutOfMemory, Text};
use p416_syntax::{CounterType, Exp, ExpHead, Instance, Member, Note, name_note};
use state_store::{Kind, Shape};

/// The name by which the control plane knows what has these annotations: that of `@name`, else its own.
pub fn plane_name<'a>(notes: &'a [Note], called: &'a Text) -> &'a [u8]
    ensures { result.now ≡ plane_name notes.now called.now }
{
    match name_note(notes) {
        Some(text) => text.as_slice(),
        None => called.as_slice(),
    }
}

/// A width as one of 8 bits. One that is larger, which no program that keeps the rules has, counts as want of memory.
pub fn narrow_width(width: u128) -> Result<u8, OutOfMemory>
    ensures { IfOk result (λ narrow. narrow ≡ width) }
{
    match u8::try_from(width) {
        Ok(narrow) => Ok(narrow),
        Err(_) => Err(OutOfMemory),
    }
}

/// The value of a size that is a literal, else 0.
fn size_value(size: &Exp) -> u128
    ensures { result ≡ size_value size.now }
{
    match size.view().head() {
        ExpHead::Literal(number) => number.value,
        _ => 0,
    }
}

/// How many cells an object of this size has. More than 32 bits can tell, which no program that keeps the rules has, count
/// as want of memory.
fn cells_of(size: &Exp) -> Result<u32, OutOfMemory>
    ensures { IfOk result (λ cells. cells ≡ size_value size.now) }
{
    match u32::try_from(size_value(size)) {
        Ok(cells) => Ok(cells),
        Err(_) => Err(OutOfMemory),
    }
}

/// What a counter of this type counts.
fn counted_by(of: Member) -> Kind
    ensures { result ≡ counted_by of }
{
    match of {
        Member::CounterType(CounterType::Packets) => Kind::Packets,
        Member::CounterType(CounterType::Bytes) => Kind::Bytes,
        _ => Kind::Both,
    }
}

/// The shape of an object; the cells of a direct counter are told by the entries of its table. The one error is want of
/// memory, which a width over 255 or more cells than 32 bits can tell count as.
pub fn shape_of(instance: &Instance) -> Result<Shape, OutOfMemory>
    ensures { IfOk result (λ shape. shape ≡ shape_of instance.now) }
{
    match instance {
        Instance::Counter(size, of, _) => Ok(Shape::Counter {
            kind: counted_by(*of),
            cells: cells_of(size)?,
        }),
        Instance::DirectCounter(of, _) => Ok(Shape::Direct {
            kind: counted_by(*of),
            cells: 0,
        }),
        Instance::Register(width, size, _) => Ok(Shape::Register {
            width: narrow_width(width.value)?,
            cells: cells_of(size)?,
        }),
        Instance::Meter(size, _, _) => Ok(Shape::Meter {
            cells: cells_of(size)?,
        }),
    }
}
