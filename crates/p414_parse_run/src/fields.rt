// Reading and writing fields.
ghost use Rattle.std.specs.Prelude.{◌≡◌, ◌%◌, ◌^◌, ◌<◌, ◌≤◌, OnOk};
ghost use Rattle.p414_sem.specs.Parsing.{has_bits};
ghost use Rattle.p414_sem.specs.Slots.{declared, standard};
ghost use Rattle.p414_sem.specs.State.{read, written};
ghost use Rattle.p414_slots.specs.Shown.{slot_in};
ghost use Rattle.p414_state.specs.Packets.{standard_bits, width_at, with_state};
ghost use Rattle.p414_ready_parser.specs.Running.{current_number, ready_number};
ghost use Rattle.p414_parse_run.specs.Fits.{FitsValue, bits_at};

use p4x_bits::{OutOfMemory, read_octet_field};
use p414_ready_parser::ReadyValue;
use p414_sem::Standard;
use p414_slots::{FieldSlot, low};
use p414_state::State14;

/// Whether so many bits are left.
pub fn has_bits(state: &State14, count: u64) -> bool
    ensures { result ≡ has_bits state.now.state count }
{
    u128::from(count) <= 8 * (state.unparsed().len() as u128)
}

/// A field's number; 0 where its header is invalid.
fn read(state: &State14, slot: FieldSlot) -> u128
    ensures { result ≡ read state.now.state (slot_in slot) }
{
    match slot {
        FieldSlot::Standard(field) => u128::from(state.standard(field)),
        FieldSlot::Declared {
            instance,
            element,
            field,
        } => state.number(instance, element, field),
    }
}

/// So many bits behind so many others of those that aren't parsed; none where they go past the end.
fn current(state: &State14, offset: u32, width: u8) -> Option<u128>
    requires { width ≤ 128 }
    ensures { result ≡ current_number state.now.state offset width }
{
    if has_bits(state, u64::from(offset) + u64::from(width)) {
        Some(read_octet_field(state.unparsed(), offset as usize, width))
    } else {
        None
    }
}

/// The number of a value; none where it goes past the end of the packet. `element` was extracted last.
pub fn number(state: &State14, element: u32, value: ReadyValue) -> Option<u128>
    requires { FitsValue value }
    ensures { result ≡ ready_number element state.now.state value }
{
    match value {
        ReadyValue::Current { offset, width } => current(state, offset, width),
        ReadyValue::Latest { instance, field } => Some(state.number(instance, element, field)),
        ReadyValue::Field(slot) => Some(read(state, slot)),
        ReadyValue::Number(number) => Some(number),
    }
}

/// The bits of a field of `standard_metadata`.
fn standard_bits(field: Standard) -> u8
    ensures is { result ≡ standard_bits field }
    ensures few { result ≤ 128 }
{
    match field {
        Standard::IngressPort => 9,
        Standard::EgressSpec => 9,
        Standard::EgressPort => 9,
        Standard::PacketLength => 32,
        Standard::InstanceType => 32,
    }
}

/// Puts a number that fits into a field; one of an invalid header gets nothing.
pub fn put(state: &mut State14, slot: FieldSlot, value: u128) -> Result<(), OutOfMemory>
    requires { value < 2 ^ bits_at state.old.layout slot }
    ensures { OnOk result (state.new ≡ with_state state.old (written state.old.state (slot_in slot) value)) }
{
    match slot {
        FieldSlot::Standard(field) => state.put_standard(field, value as u32),
        FieldSlot::Declared {
            instance,
            element,
            field,
        } => state.put_number(instance, element, field, value),
    }
}

/// The bits of a field; 0 where it isn't there.
fn bits_of(state: &State14, slot: FieldSlot) -> u8
    ensures is { result ≡ bits_at state.now.layout slot }
    ensures few { result ≤ 128 }
{
    match slot {
        FieldSlot::Standard(field) => standard_bits(field),
        FieldSlot::Declared {
            instance,
            field,
            ..
        } => state.width(instance, field),
    }
}

/// Puts a number into a field, modulo its width.
pub fn put_low(state: &mut State14, slot: FieldSlot, value: u128) -> Result<(), OutOfMemory>
    ensures { OnOk result (state.new ≡ with_state state.old (written state.old.state (slot_in slot) (value % 2 ^ bits_at state.old.layout slot))) }
{
    let width = bits_of(state, slot);
    put(state, slot, low(width, value))
}
