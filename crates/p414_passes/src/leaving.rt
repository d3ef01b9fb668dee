// The octets that leave.
ghost use Rattle.std.specs.Prelude.{◌≡◌, ◌≤◌, ◌↔◌, ◌%◌, None, ◌++◌, flat_map, IfOk, IsTrue, OnOk};
ghost use Rattle.p4x_bits.specs.BitLists.{IsOctets};
ghost use Rattle.p414_layout.specs.Placed.{total};
ghost use Rattle.p414_layout.specs.Shapes.{shape_at};
ghost use Rattle.p414_sem.specs.Passes.{header_octets};
ghost use Rattle.p414_sem.specs.State.{header_at, instance_at};
ghost use Rattle.p414_state.specs.Headers.{IsWhole};
ghost use Rattle.p414_passes.specs.Leaving.{AreWhole, IsWholeShape, leaving, octets_in_layout, shape_octets};

use p4x_bits::{Octets, OutOfMemory};
use p414_layout::Shape;
use p414_state::{Standard, State14};
use std::alloc::Global;

/// Whether there is no stack of this size.
fn is_no_stack(size: Option<u32>) -> bool
    ensures { IsTrue result ↔ size ≡ None }
{
    match size {
        Some(_) => false,
        None => true,
    }
}

/// Whether the fields of a header are whole octets, and metadata is no stack.
fn is_whole(shape: &Shape) -> bool
    ensures { IsTrue result ↔ IsWholeShape shape.now }
{
    if shape.metadata {
        is_no_stack(shape.stack)
    } else {
        shape.widths.bits() % 8 == 0
    }
}

/// Whether the fields of all headers are whole octets and no metadata is a stack, as in each program that breaks no rule.
pub fn are_whole(shapes: &[Shape]) -> bool
    ensures { IsTrue result ↔ AreWhole shapes.now }
{
    shapes.iter().all(|shape| is_whole(shape))
}

/// Puts octets last.
fn put_octets(out: &mut Octets, octets: &[u8]) -> Result<(), OutOfMemory>
    ensures put { OnOk result (out.new ≡ out.old ++ octets.now) }
    ensures are { IsOctets octets.now }
{
    out.extend_from_slice(octets)
}

/// Puts the octets of an element of a header last, if it is valid.
#[tactic(auto, using(crate::proofs::Deparsing::valid_put, crate::proofs::Deparsing::invalid_put))]
fn put_element(
    out: &mut Octets,
    state: &State14,
    instance: u32,
    element: u32,
) -> Result<(), OutOfMemory>
    requires { IsWhole state.now.layout instance element }
    ensures { OnOk result (out.new ≡ out.old ++ header_octets (shape_at state.now.layout instance).widths (header_at state.now.state instance element)) }
{
    if state.valid(instance, element) {
        put_octets(out, state.octets(instance, element))?;
        return Ok(());
    }
    Ok(())
}

/// Puts the octets of all elements of a header last.
#[tactic(auto, using(crate::proofs::Deparsing::next_octets))]
fn put_elements(out: &mut Octets, state: &State14, instance: u32) -> Result<(), OutOfMemory>
    requires { total (shape_at state.now.layout instance).widths % 8 ≡ 0 }
    ensures { OnOk result (out.new ≡ out.old ++ flat_map (header_octets (shape_at state.now.layout instance).widths) (instance_at state.now.state instance).elements) }
{
    let count = state.size(instance);
    for element in 0..count {
        put_element(out, state, instance, element)?;
    }
    Ok(())
}

/// Puts the octets of an instance last: none of metadata, and none where there is no such instance.
#[tactic(auto, using(crate::proofs::Deparsing::none_put, crate::proofs::Deparsing::metadata_put, crate::proofs::Deparsing::header_put, crate::proofs::Deparsing::whole_at))]
fn put_instance(out: &mut Octets, state: &State14, instance: u32) -> Result<(), OutOfMemory>
    requires { AreWhole state.now.layout }
    ensures { OnOk result (out.new ≡ out.old ++ octets_in_layout state.now.layout state.now.state instance) }
{
    if (instance as usize) >= state.instances() {
        return Ok(());
    }
    if state.is_metadata(instance) {
        return Ok(());
    }
    put_elements(out, state, instance)?;
    Ok(())
}

/// The most octets for which room is taken at once.
const MOST_AT_ONCE: u32 = 2048;

/// About as many octets as a packet that leaves has: as many as it came in with, as far as the program didn't write that.
fn room_for(state: &State14) -> usize
    ensures { result ≤ 2048 }
{
    state.standard(Standard::PacketLength).min(MOST_AT_ONCE) as usize
}

/// The octets of a packet that leaves: its valid headers in this order, a stack's elements by index, and behind them what wasn't
/// parsed (P4_14 1.0.5, "Deparsing"). The one error is want of memory.
pub fn deparse(alloc: Global, state: &State14, order: &[u32]) -> Result<Octets, OutOfMemory>
    requires { AreWhole state.now.layout }
    ensures { IfOk result (λ out. out ≡ leaving state.now.layout order.now state.now.state) }
{
    let mut out = Octets::with_capacity(alloc, room_for(state))?;
    for instance in order {
        put_instance(&mut out, state, *instance)?;
    }
    out.extend_from_slice(state.unparsed())?;
    Ok(out)
}
