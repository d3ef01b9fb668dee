// The slots that a pass reads and writes by itself, in the frames of a program.
ghost use Rattle.std.specs.Prelude.{◌≡◌, ◌+◌, ◌≤◌, length, IfOk, IsTrue};
ghost use Rattle.p416_syntax.specs.Main.{headers_kind, metadata_kind};
ghost use Rattle.p416_names.specs.SeenKinds.{seen_kind};
ghost use Rattle.v1_core.specs.Seats.{form_of, seat, behind};
ghost use Rattle.v1_core.specs.Programs.{layout16};
ghost use Rattle.v1_seats.specs.Seen.{seen_start, seen_seat};
ghost use Rattle.v1_pass_slots.specs.Found.{AreSlots, ArePassSlots};
ghost use Rattle.v1_pass_slots.specs.internal.Places.{AreStarts, IsLoneSlot, HasField, HasFields};

use crate::lists::metadata_lists;
use crate::slots::{PassSlots, SlotLists, Slots, StandardSlots};
use crate::structs::types_of;
use p4x_bits::OutOfMemory;
use p416_names::{Kind, Top};
use p416_syntax::Syntax16;
use std::alloc::Global;
use v1_core::FrameLayout;
use v1_seats::{Seat, Start, TypeTable};

const STANDARD_METADATA: &[u8] = b"standard_metadata_t";

const INGRESS_PORT: &[u8] = b"ingress_port";

const EGRESS_SPEC: &[u8] = b"egress_spec";

const EGRESS_PORT: &[u8] = b"egress_port";

const PACKET_LENGTH: &[u8] = b"packet_length";

const INSTANCE_TYPE: &[u8] = b"instance_type";

/// Where the first value begins.
const FIRST: Start = Start {
    slot: 0,
    header: 0,
    stack: 0,
};

/// A whole value of a kind that begins there.
fn seat_of<'k>(
    types: &TypeTable<'_, '_>,
    kind: Kind<'k>,
    start: Start,
) -> Result<Seat<'k>, OutOfMemory>
    ensures { IfOk result (λ s. seen_seat s ≡ seat (length types.now) (form_of (seen_kind kind.entry)) (seen_start start)) }
{
    let depth = types.depth()?;
    Ok(Seat {
        depth,
        kind,
        start,
        owner: None,
    })
}

/// Where what stands behind a whole value of a kind begins.
fn behind(types: &TypeTable<'_, '_>, kind: Kind<'_>, start: Start) -> Result<Start, OutOfMemory>
    ensures { IfOk result (λ s. seen_start s ≡ behind types.now (length types.now) (form_of (seen_kind kind.entry)) (seen_start start)) }
{
    let seat = seat_of(types, kind, start)?;
    let next = types.behind(seat)?;
    Ok(next)
}

/// Where the metadata, the standard metadata and the variables begin.
#[derive(Drop)]
pub(crate) struct Starts {
    pub(crate) metadata: Start,
    pub(crate) standard: Start,
    pub(crate) variables: Start,
}

/// Where these begin, for headers and metadata of these kinds.
fn starts_of(
    types: &TypeTable<'_, '_>,
    headers: Kind<'_>,
    metadata: Kind<'_>,
) -> Result<Starts, OutOfMemory>
    ensures { IfOk result (AreStarts types.now (seen_kind headers.entry) (seen_kind metadata.entry)) }
{
    let first = behind(types, headers, FIRST)?;
    let second = behind(types, metadata, first)?;
    let third = behind(types, Kind::Struct(STANDARD_METADATA), second)?;
    Ok(Starts {
        metadata: first,
        standard: second,
        variables: third,
    })
}

/// The slots between two places, where nothing but slots stands there; anything else counts as want of memory.
fn slots_between(from: Start, to: Start) -> Result<Slots, OutOfMemory>
    ensures between { IfOk result (AreSlots (seen_start from) (seen_start to)) }
    ensures order { IfOk result (λ slots. slots.from ≤ slots.to) }
{
    if from.header != to.header || from.stack != to.stack || from.slot > to.slot {
        return Err(OutOfMemory);
    }
    Ok(Slots {
        from: from.slot,
        to: to.slot,
    })
}

/// The slot of a seat, where that is bits of this width and no field of a header; anything else counts as want of memory.
#[tactic(auto, using(crate::proofs::Found::lone_found))]
fn lone_slot(layout: &FrameLayout, seat: Seat<'_>, width: u8) -> Result<u32, OutOfMemory>
    ensures { IfOk result (IsLoneSlot layout.now (seen_seat seat.entry) width) }
{
    let Kind::Bits(bits) = seat.kind else {
        return Err(OutOfMemory);
    };
    let slot = seat.start.slot;
    if bits != u128::from(width) || seat.owner.is_some() || slot as usize >= layout.slots() {
        return Err(OutOfMemory);
    }
    if layout.width(slot) != width {
        return Err(OutOfMemory);
    }
    Ok(slot)
}

/// The slot of a field of the standard metadata, which begins there.
fn standard_slot(
    types: &TypeTable<'_, '_>,
    layout: &FrameLayout,
    start: Start,
    word: &[u8],
    width: u8,
) -> Result<u32, OutOfMemory>
    ensures { IfOk result (HasField types.now layout.now (seen_start start) word.now width) }
{
    let standard = seat_of(types, Kind::Struct(STANDARD_METADATA), start)?;
    match types.member(standard, word)? {
        Some(field) => lone_slot(layout, field, width),
        None => Err(OutOfMemory),
    }
}

/// The slots of the fields of the standard metadata, which begins there.
fn standard_fields(
    types: &TypeTable<'_, '_>,
    layout: &FrameLayout,
    start: Start,
) -> Result<StandardSlots, OutOfMemory>
    ensures { IfOk result (HasFields types.now layout.now (seen_start start)) }
{
    let ingress_port = standard_slot(types, layout, start, INGRESS_PORT, 9)?;
    let egress_spec = standard_slot(types, layout, start, EGRESS_SPEC, 9)?;
    let egress_port = standard_slot(types, layout, start, EGRESS_PORT, 9)?;
    let packet_length = standard_slot(types, layout, start, PACKET_LENGTH, 32)?;
    let instance_type = standard_slot(types, layout, start, INSTANCE_TYPE, 32)?;
    Ok(StandardSlots {
        ingress_port,
        egress_spec,
        egress_port,
        packet_length,
        instance_type,
    })
}

/// Whether there are as many slots as these.
fn has_slots(slots: Slots, lists: &[SlotLists]) -> bool
    ensures { IsTrue result → slots.to ≡ slots.from + length lists.now }
{
    match slots.to.checked_sub(slots.from) {
        Some(between) => between as usize == lists.len(),
        None => false,
    }
}

/// Which slots of the frames of a program, whose headers and metadata are of these kinds, a pass reads and writes by itself. The
/// time is linear in the program, but for look-ups. The one error is want of memory, which a program counts as whose standard
/// metadata or whose metadata isn't what T1 and T11 ask for.
pub fn pass_slots(
    alloc: Global,
    top: &Top<'_>,
    syntax: &Syntax16,
    layout: &FrameLayout,
    headers: Kind<'_>,
    metadata: Kind<'_>,
) -> Result<PassSlots, OutOfMemory>
    requires top { top.now ≡ syntax.now.decls }
    requires layout { layout.now ≡ layout16 syntax.now }
    requires headers { seen_kind headers ≡ headers_kind syntax.now }
    requires metadata { seen_kind metadata ≡ metadata_kind syntax.now }
    ensures { IfOk result (ArePassSlots syntax.now) }
{
    let table = TypeTable::of(alloc, top)?;
    let starts = starts_of(&table, headers, metadata)?;
    let between = slots_between(starts.metadata, starts.standard)?;
    let standard = slots_between(starts.standard, starts.variables)?;
    let fields = standard_fields(&table, layout, starts.standard)?;
    let types = types_of(alloc, top)?;
    let lists = metadata_lists(alloc, &types, &table, metadata)?;
    if !has_slots(between, &lists) {
        return Err(OutOfMemory);
    }
    Ok(PassSlots {
        fields,
        standard,
        metadata: between,
        lists,
    })
}
