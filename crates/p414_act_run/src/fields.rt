// Reading and writing fields.
ghost use Rattle.std.specs.Prelude.{◌≡◌, ◌^◌, ◌<◌, ◌≤◌, OnOk};
ghost use Rattle.p414_sem.specs.Slots.{declared, standard};
ghost use Rattle.p414_sem.specs.State.{is_live, read, written};
ghost use Rattle.p414_slots.specs.Shown.{slot_in};
ghost use Rattle.p414_state.specs.Packets.{standard_bits, width_at, with_state};
ghost use Rattle.p414_act_run.specs.Fits.{bits_at};

use p4x_bits::OutOfMemory;
use p414_sem::Standard;
use p414_slots::FieldSlot;
use p414_state::State14;

/// A field's number; 0 where its header is invalid.
pub fn read(state: &State14, slot: FieldSlot) -> u128
    ensures { result ≡ read state.now.state (slot_in slot) }
{
    match slot {
        FieldSlot::Standard(field) => u128::from(state.standard(field)),
        FieldSlot::Declared {
            instance,
            element,
            field,
        } => state.number(instance, element, field),
    }
}

/// Whether a field's header is valid.
pub fn is_live(state: &State14, slot: FieldSlot) -> bool
    ensures { result ≡ is_live state.now.state (slot_in slot) }
{
    match slot {
        FieldSlot::Standard(_) => true,
        FieldSlot::Declared {
            instance,
            element,
            ..
        } => state.valid(instance, element),
    }
}

/// The bits of a field of `standard_metadata`.
fn standard_bits(field: Standard) -> u8
    ensures is { result ≡ standard_bits field }
    ensures few { result ≤ 128 }
{
    match field {
        Standard::IngressPort => 9,
        Standard::EgressSpec => 9,
        Standard::EgressPort => 9,
        Standard::PacketLength => 32,
        Standard::InstanceType => 32,
    }
}

/// The bits of a field; 0 where it isn't there.
pub fn bits_of(state: &State14, slot: FieldSlot) -> u8
    ensures is { result ≡ bits_at state.now.layout slot }
    ensures few { result ≤ 128 }
{
    match slot {
        FieldSlot::Standard(field) => standard_bits(field),
        FieldSlot::Declared {
            instance,
            field,
            ..
        } => state.width(instance, field),
    }
}

/// Puts a number that fits into a field; one of an invalid header gets nothing.
pub fn put(state: &mut State14, slot: FieldSlot, value: u128) -> Result<(), OutOfMemory>
    requires { value < 2 ^ bits_at state.old.layout slot }
    ensures { OnOk result (state.new ≡ with_state state.old (written state.old.state (slot_in slot) value)) }
{
    match slot {
        FieldSlot::Standard(field) => state.put_standard(field, value as u32),
        FieldSlot::Declared {
            instance,
            element,
            field,
        } => state.put_number(instance, element, field, value),
    }
}
