// What a counter, a meter or a register is to a control plane.
ghost use Rattle.std.specs.Prelude.{◌≡◌, None, IfOk};
ghost use Rattle.std.specs.Option.{option_map_or};
ghost use Rattle.state_store.specs.declared.shapes.Shape.TheVariants as shape;
ghost use Rattle.p414_syntax.specs.Attributes.{direct_table_of, width_of};
ghost use Rattle.p414_syntax.specs.Cells.{literal_value};
ghost use Rattle.p414_sem.specs.Signatures.{cells_of, counter_shape, kind_of, shape_in};

use crate::keys::narrow_width;
use p4x_bits::OutOfMemory;
use p414_syntax::{CounterType, Decl, Literal, Stateful};
use state_store::{Kind, Shape};

/// The number behind an attribute; 0 where it doesn't stand.
fn number_of(literal: Option<Literal>) -> u128
    ensures { result ≡ option_map_or literal_value literal 0 }
{
    match literal {
        Some(number) => number.value,
        None => 0,
    }
}

/// How many cells an object has. More than 32 bits can tell, which no program that keeps the rules has, count as want of
/// memory.
fn cells_of(object: &Stateful) -> Result<u32, OutOfMemory>
    ensures { IfOk result (λ cells. cells ≡ cells_of object.now.attributes) }
{
    match u32::try_from(number_of(object.instance_count())) {
        Ok(cells) => Ok(cells),
        Err(_) => Err(OutOfMemory),
    }
}

/// What a counter counts.
fn kind_of(counts: Option<CounterType>) -> Kind
    ensures { result ≡ kind_of counts }
{
    match counts {
        Some(CounterType::Packets) => Kind::Packets,
        Some(CounterType::Bytes) => Kind::Bytes,
        Some(CounterType::PacketsAndBytes) => Kind::Both,
        None => Kind::Both,
    }
}

/// The shape of a counter that isn't direct.
fn indexed_counter(counter: &Stateful) -> Result<Shape, OutOfMemory>
    ensures { IfOk result (λ made. made ≡ counter_shape counter.now.attributes None) }
{
    let cells = cells_of(counter)?;
    Ok(Shape::Counter {
        kind: kind_of(counter.counts()),
        cells,
    })
}

/// The shape of a counter; the cells of a direct one are told by the entries of its table.
fn counter_shape(counter: &Stateful) -> Result<Shape, OutOfMemory>
    ensures { IfOk result (λ made. made ≡ counter_shape counter.now.attributes (direct_table_of counter.now.attributes)) }
{
    match counter.direct_table() {
        Some(_) => Ok(Shape::Direct {
            kind: kind_of(counter.counts()),
            cells: 0,
        }),
        None => indexed_counter(counter),
    }
}

/// The shape of a register.
fn register_shape(register: &Stateful) -> Result<Shape, OutOfMemory>
    ensures { IfOk result (λ made. made ≡ shape.Register (option_map_or literal_value (width_of register.now.attributes) 0) (cells_of register.now.attributes)) }
{
    let width = narrow_width(number_of(register.width()))?;
    let cells = cells_of(register)?;
    Ok(Shape::Register { width, cells })
}

/// The shape of a meter.
fn meter_shape(meter: &Stateful) -> Result<Shape, OutOfMemory>
    ensures { IfOk result (λ made. made ≡ shape.Meter (cells_of meter.now.attributes)) }
{
    let cells = cells_of(meter)?;
    Ok(Shape::Meter { cells })
}

/// The shape of what is declared; a meter without cells where it is no stateful object. The one error is want of memory,
/// which a width over 255 or more cells than 32 bits can tell count as.
pub fn shape_in(decl: &Decl) -> Result<Shape, OutOfMemory>
    ensures { IfOk result (λ made. made ≡ shape_in decl.now) }
{
    match decl {
        Decl::Counter(counter) => counter_shape(counter),
        Decl::Register(register) => register_shape(register),
        Decl::Meter(meter) => meter_shape(meter),
        _ => Ok(Shape::Meter { cells: 0 }),
    }
}
