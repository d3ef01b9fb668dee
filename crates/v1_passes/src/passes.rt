// The passes of a program.
ghost use Rattle.std.specs.Prelude.{◌≡◌, ℕ, ◌%◌, ◌^◌, ◌≤◌, ◌==◌, [], length, drop, IfOk, OnOk, option_map};
ghost use Rattle.state_store.specs.Ports.{IsPort, drop_port};
ghost use Rattle.fabric.specs.Owned.{IsOwnIngressNext};
ghost use Rattle.v1_core.specs.Surroundings.{Setting as Set};
ghost use Rattle.v1_core.specs.Parsing.{parse16};
ghost use Rattle.v1_core.specs.Passes.{Between, is_no_error, new_frame, verified_and_run, egress_spec, put_together};
ghost use Rattle.v1_core.specs.PackedFrames.{IsFrameOf};
ghost use Rattle.v1_core.specs.Programs.{layout16};
ghost use Rattle.v1_pass_slots.specs.Starts.{metadata_start};
ghost use Rattle.v1_packets.specs.Packets.{packet_frame, kept_value, AreFitting};
ghost use Rattle.v1_passes.specs.Moments.{moment_at};
ghost use Rattle.v1_passes.specs.Tags.{tagged_machine, own_tagged};
ghost use Rattle.v1_passes.specs.internal.Steps.{StandsAt, ArePut, verified_by, kept_by, clone_kept, handed_from, next_from, clone_held, leaves_with, finished, Finishes};

use crate::blocks::Blocks;
use crate::held::{Held16, Kept16};
use fabric::{
    EgressEnd, EgressNext, Event, IngressEnd, IngressNext, Item, Passes, RequestKind, Watched,
};
use p4x_bits::{Octets, OutOfMemory, Rows};
use state_store::{DROP_PORT, Store};
use std::alloc::Global;
use std::mem::replace;
use v1_core::{Block, Frame, ParserError};
use v1_packets::Packets;

/// The passes of a program, over what runs its blocks. After want of memory they aren't used again.
pub struct Passes16<'r, B: Blocks<'r> + Drop> {
    alloc: Global,
    /// What runs the blocks, with the counters, registers and meters as the packets so far left them.
    pub blocks: B,
    /// How many statements and transitions began so far, modulo 2^64.
    pub work: u64,
    /// The applications of tables in the last block.
    pub events: Rows<Event>,
    /// The frame of a packet that isn't used any more, if any.
    spare: Option<Box<Frame<'r>>>,
    /// Octets that aren't used any more, for those that aren't parsed.
    room: Octets,
    /// Others, for those of a packet that is put together.
    reused: Octets,
}

impl<'r, B: Blocks<'r> + Drop> Drop for Passes16<'r, B> {
    fn drop(self) {
        let Passes16 {
            alloc: _alloc,
            blocks: _blocks,
            work: _work,
            events: _events,
            spare: _spare,
            room: _room,
            reused: _reused,
        } = self;
    }
}

/// How many octets of headers a packet has room for at once as it is put together.
const HEADROOM: usize = 128;

/// Whether nothing stopped the parser.
fn is_no_error(error: ParserError) -> bool
    ensures { result ≡ is_no_error error }
{
    match error {
        ParserError::NoError => true,
        ParserError::PacketTooShort => false,
        ParserError::StackOutOfBounds => false,
        ParserError::NoMatch => false,
    }
}

/// A frame as a pass begins, made anew.
#[inline(never)]
fn begin_new<'r>(
    alloc: Global,
    packets: &'r Packets<'r>,
    octets: usize,
    port: u16,
    kind: u32,
    kept: &[u128],
) -> Result<Box<Frame<'r>>, OutOfMemory>
    requires port { IsPort port }
    requires kept { AreFitting (layout16 packets.now).widths (metadata_start packets.now).slot kept.now }
    ensures frame { IfOk result (λ frame. IsFrameOf packets.now frame.value) }
    ensures begins { IfOk result (λ frame. packet_frame packets.now frame.value ≡ new_frame packets.now port (octets % 2 ^ 32) kind (kept_value packets.now kept.now)) }
{
    let frame = packets.begin(alloc, octets, port, kind, kept)?;
    Ok(Box::new(alloc, frame)?)
}

/// A frame as a pass begins, in the place of one that isn't used any more, if any.
fn begin_frame<'r>(
    alloc: Global,
    packets: &'r Packets<'r>,
    spare: Option<Box<Frame<'r>>>,
    octets: usize,
    port: u16,
    kind: u32,
    kept: &[u128],
) -> Result<Box<Frame<'r>>, OutOfMemory>
    requires port { IsPort port }
    requires kept { AreFitting (layout16 packets.now).widths (metadata_start packets.now).slot kept.now }
    ensures frame { IfOk result (λ frame. IsFrameOf packets.now frame.value) }
    ensures begins { IfOk result (λ frame. packet_frame packets.now frame.value ≡ new_frame packets.now port (octets % 2 ^ 32) kind (kept_value packets.now kept.now)) }
{
    match spare {
        Some(spare) => {
            let mut frame = spare;
            packets.begin_again(alloc, &mut frame, octets, port, kind, kept)?;
            Ok(frame)
        }
        None => begin_new(alloc, packets, octets, port, kind, kept),
    }
}

/// Verification, which is left out after an error.
fn verify<'r, B: Blocks<'r> + Drop>(
    blocks: &mut B,
    frame: &mut Frame<'r>,
    unparsed: &[u8],
    emitted: &mut Octets,
    error: ParserError,
    work: &mut u64,
) -> Result<(), OutOfMemory>
    requires { IsFrameOf (B.setting blocks.old).syntax frame.old }
    ensures setting { OnOk result (B.setting blocks.new ≡ B.setting blocks.old) }
    ensures frame { OnOk result (IsFrameOf (B.setting blocks.new).syntax frame.new) }
    ensures runs { OnOk result (verified_by (B.setting blocks.old) error (moment_at (B.setting blocks.old).syntax frame.old (B.store blocks.old) unparsed.now emitted.old work.old) ≡ moment_at (B.setting blocks.new).syntax frame.new (B.store blocks.new) unparsed.now emitted.new work.new) }
{
    if !is_no_error(error) {
        return Ok(());
    }
    blocks.control(Block::Verify, frame, unparsed, emitted, work)
}

/// Parsing, verification where nothing stopped the parser, and ingress; how many octets were parsed.
fn run_to_egress<'r, B: Blocks<'r> + Drop>(
    alloc: Global,
    blocks: &mut B,
    frame: &mut Frame<'r>,
    octets: &[u8],
    work: &mut u64,
) -> Result<usize, OutOfMemory>
    requires { IsFrameOf (B.setting blocks.old).syntax frame.old }
    ensures setting { OnOk result (B.setting blocks.new ≡ B.setting blocks.old) }
    ensures frame { OnOk result (IsFrameOf (B.setting blocks.new).syntax frame.new) }
    ensures within { IfOk result (λ at. at ≤ length octets.now) }
    ensures runs { IfOk result (λ at. StandsAt (B.setting blocks.new).syntax frame.new (B.store blocks.new) (drop at octets.now) work.new (verified_and_run (B.setting blocks.old) (parse16 (B.setting blocks.old) (moment_at (B.setting blocks.old).syntax frame.old (B.store blocks.old) octets.now [] work.old)))) }
{
    let end = blocks.parse(frame, octets, work)?;
    let unparsed = &octets[end.at..];
    let mut emitted = Octets::new(alloc);
    verify(blocks, frame, unparsed, &mut emitted, end.error, work)?;
    blocks.control(Block::Ingress, frame, unparsed, &mut emitted, work)?;
    Ok(end.at)
}

/// What a request preserves of a frame, whose list this is.
fn keep<'r>(
    alloc: Global,
    packets: &'r Packets<'r>,
    frame: &Frame<'_>,
    list: u8,
) -> Result<Kept16<'r>, OutOfMemory>
    requires { IsFrameOf packets.now frame.now }
    ensures { IfOk result (λ kept. (session : ℕ) → kept ≡ kept_by packets.now (packet_frame packets.now frame.now) (session, list)) }
{
    let numbers = packets.preserve(alloc, frame, list)?;
    Ok(Kept16 { packets, numbers })
}

/// The clone that ingress asked for.
fn ingress_clone<'r>(
    alloc: Global,
    packets: &'r Packets<'r>,
    frame: &Frame<'_>,
) -> Result<Option<(u32, Kept16<'r>)>, OutOfMemory>
    requires { IsFrameOf packets.now frame.now }
    ensures { IfOk result (λ clone. clone ≡ option_map (clone_kept packets.now (packet_frame packets.now frame.now)) frame.now.clone_i2e) }
{
    match frame.request(RequestKind::CloneI2E) {
        None => Ok(None),
        Some((session, list)) => {
            let kept = keep(alloc, packets, frame, list)?;
            Ok(Some((session, kept)))
        }
    }
}

/// No octets, in the room of others that aren't used any more.
fn emptied(alloc: Global, room: &mut Octets) -> Octets
    ensures { result ≡ [] }
{
    let mut emptied = replace(room, Octets::new(alloc));
    emptied.clear();
    emptied
}

/// Octets that are copied, in the room of others that aren't used any more.
fn copied(alloc: Global, room: &mut Octets, octets: &[u8]) -> Result<Octets, OutOfMemory>
    ensures { IfOk result (λ copied. copied ≡ octets.now) }
{
    let mut copied = emptied(alloc, room);
    copied.extend_from_slice(octets)?;
    Ok(copied)
}

/// What is held of a packet that goes on to egress.
#[inline(always)]
fn hand_on<'r>(
    alloc: Global,
    packets: &'r Packets<'r>,
    frame: Box<Frame<'r>>,
    room: &mut Octets,
    unparsed: &[u8],
    port: u16,
) -> Result<Held16<'r>, OutOfMemory>
    requires frame { IsFrameOf packets.now frame.value }
    requires port { IsPort port }
    ensures { IfOk result (λ held. held ≡ handed_from packets.now port (packet_frame packets.now frame.entry.value) unparsed.now) }
{
    let mut frame = frame;
    packets.clear(&mut frame);
    let unparsed = copied(alloc, room, unparsed)?;
    Ok(Held16 {
        packets,
        frame,
        unparsed,
        port,
    })
}

/// What comes of a packet behind ingress: it is resubmitted where that was asked for, else dropped where that is its port, and
/// else goes on to egress.
fn after_ingress<'r>(
    alloc: Global,
    packets: &'r Packets<'r>,
    frame: Box<Frame<'r>>,
    room: &mut Octets,
    unparsed: &[u8],
    port: u16,
) -> Result<IngressNext<Kept16<'r>, Held16<'r>>, OutOfMemory>
    requires frame { IsFrameOf packets.now frame.value }
    requires port { IsPort port }
    ensures next { IfOk result (λ next. next ≡ next_from packets.now port (packet_frame packets.now frame.entry.value) unparsed.now frame.entry.value.resubmit) }
    ensures own { IfOk result (λ next. (c : Set) → c.syntax ≡ packets.now → IsOwnIngressNext (own_tagged c) next) }
{
    if let Some((_, list)) = frame.request(RequestKind::Resubmit) {
        let kept = keep(alloc, packets, &frame, list)?;
        return Ok(IngressNext::Resubmit(kept));
    }
    let chosen = packets.egress_spec(&frame);
    if chosen == DROP_PORT {
        return Ok(IngressNext::Drop);
    }
    let held = hand_on(alloc, packets, frame, room, unparsed, port)?;
    Ok(IngressNext::Go(chosen, held))
}

/// The clone that egress asked for.
fn egress_clone<'r>(
    alloc: Global,
    packets: &'r Packets<'r>,
    frame: &Frame<'r>,
    unparsed: &[u8],
    port: u16,
) -> Result<Option<(u32, Held16<'r>)>, OutOfMemory>
    requires frame { IsFrameOf packets.now frame.now }
    requires port { IsPort port }
    ensures { IfOk result (λ clone. clone ≡ option_map (clone_held packets.now port (packet_frame packets.now frame.now) unparsed.now) frame.now.clone_e2e) }
{
    match frame.request(RequestKind::CloneE2E) {
        None => Ok(None),
        Some((session, list)) => {
            let frame = packets.clone_frame(alloc, frame, list, port)?;
            let frame = Box::new(alloc, frame)?;
            let unparsed = Octets::from_slice(alloc, unparsed)?;
            let held = Held16 {
                packets,
                frame,
                unparsed,
                port,
            };
            Ok(Some((session, held)))
        }
    }
}

/// What is preserved for another pass of the packet, where recirculate was asked for.
fn kept_again<'r>(
    alloc: Global,
    packets: &'r Packets<'r>,
    frame: &Frame<'_>,
) -> Result<Option<Kept16<'r>>, OutOfMemory>
    requires { IsFrameOf packets.now frame.now }
    ensures { IfOk result (λ kept. kept ≡ option_map (kept_by packets.now (packet_frame packets.now frame.now)) frame.now.recirculate) }
{
    match frame.request(RequestKind::Recirculate) {
        None => Ok(None),
        Some((_, list)) => {
            let kept = keep(alloc, packets, frame, list)?;
            Ok(Some(kept))
        }
    }
}

/// A packet that was put together leaves: it takes another pass where something is preserved for that, and else is sent.
fn leave(octets: Octets, again: Option<Kept16<'_>>) -> EgressNext<Kept16<'_>>
    ensures { result ≡ leaves_with octets again.entry }
{
    match again {
        Some(kept) => EgressNext::Recirculate(octets, kept),
        None => EgressNext::Send(octets),
    }
}

/// The packet is put together behind egress, and leaves.
fn put_together<'r, B: Blocks<'r> + Drop>(
    blocks: &mut B,
    frame: &mut Frame<'r>,
    unparsed: &[u8],
    emitted: Octets,
    work: &mut u64,
) -> Result<Octets, OutOfMemory>
    requires { IsFrameOf (B.setting blocks.old).syntax frame.old }
    ensures setting { OnOk result (B.setting blocks.new ≡ B.setting blocks.old) }
    ensures frame { OnOk result (IsFrameOf (B.setting blocks.new).syntax frame.new) }
    ensures together { IfOk result (λ octets. ArePut (B.setting blocks.new).syntax frame.new (B.store blocks.new) unparsed.now work.new octets (put_together (B.setting blocks.old) (moment_at (B.setting blocks.old).syntax frame.old (B.store blocks.old) unparsed.now emitted work.old))) }
{
    let mut octets = emitted;
    octets.reserve(unparsed.len().saturating_add(HEADROOM))?;
    blocks.control(Block::Compute, frame, unparsed, &mut octets, work)?;
    blocks.control(Block::Deparse, frame, unparsed, &mut octets, work)?;
    octets.extend_from_slice(unparsed)?;
    Ok(octets)
}

/// Whether a packet is dropped behind egress.
fn is_dropped(packets: &Packets<'_>, frame: &Frame<'_>) -> bool
    requires { IsFrameOf packets.now frame.now }
    ensures { result ≡ (egress_spec (packet_frame packets.now frame.now) == drop_port) }
{
    packets.egress_spec(frame) == DROP_PORT
}

/// What comes of a packet behind egress: it is dropped where that is its port, and else is put together and leaves.
fn finish<'r, B: Blocks<'r> + Drop>(
    alloc: Global,
    packets: &'r Packets<'r>,
    blocks: &mut B,
    frame: &mut Frame<'r>,
    unparsed: &[u8],
    emitted: Octets,
    work: &mut u64,
) -> Result<EgressNext<Kept16<'r>>, OutOfMemory>
    requires program { packets.now ≡ (B.setting blocks.old).syntax }
    requires frame { IsFrameOf packets.now frame.old }
    ensures setting { OnOk result (B.setting blocks.new ≡ B.setting blocks.old) }
    ensures frame { OnOk result (IsFrameOf (B.setting blocks.new).syntax frame.new) }
    ensures ends { IfOk result (λ end. Finishes (B.setting blocks.new).syntax frame.new (B.store blocks.new) unparsed.now work.new end (finished (B.setting blocks.old) (moment_at (B.setting blocks.old).syntax frame.old (B.store blocks.old) unparsed.now emitted work.old))) }
{
    if is_dropped(packets, frame) {
        return Ok(EgressNext::Drop);
    }
    let again = kept_again(alloc, packets, frame)?;
    let octets = put_together(blocks, frame, unparsed, emitted, work)?;
    Ok(leave(octets, again))
}

impl<'r, B: Blocks<'r> + Drop> Passes16<'r, B> {
    /// The passes over these blocks, whose count of work is 0.
    pub fn new(alloc: Global, blocks: B) -> Self
        ensures blocks { result.blocks ≡ blocks }
        ensures work { result.work ≡ 0 }
        ensures events { result.events ≡ [] }
    {
        Passes16 {
            alloc,
            blocks,
            work: 0,
            events: Rows::new(alloc),
            spare: None,
            room: Octets::new(alloc),
            reused: Octets::new(alloc),
        }
    }

    /// Octets that aren't used any more, if any, are handed to it, for the memory that they have: the next packet that is put
    /// together has its octets there.
    pub fn reuse(&mut self, octets: Option<Octets>)
        ensures blocks { self.new.blocks ≡ self.old.blocks }
        ensures work { self.new.work ≡ self.old.work }
        ensures events { self.new.events ≡ self.old.events }
    {
        if let Some(octets) = octets {
            self.reused = octets;
        }
    }

    /// The counters, registers and meters as the packets so far left them.
    pub fn store(&self) -> &Store
        ensures { result.now ≡ B.store self.now.blocks }
    {
        self.blocks.store()
    }

    /// The counters, registers and meters by themselves. It takes no memory.
    pub fn into_store(self) -> Store
        ensures { result ≡ B.store self.entry.blocks }
    {
        let Passes16 {
            alloc: _alloc,
            blocks,
            work: _work,
            events: _events,
            spare: _spare,
            room: _room,
            reused: _reused,
        } = self;
        blocks.into_store()
    }

    /// How many statements and transitions began so far, modulo 2^64.
    pub fn work(&self) -> u64
        ensures { result ≡ self.now.work }
    {
        self.work
    }

    /// Keeps the applications of tables in the last block.
    fn note(&mut self, events: &[Event]) -> Result<(), OutOfMemory>
        ensures blocks { self.new.blocks ≡ self.old.blocks }
        ensures work { self.new.work ≡ self.old.work }
        ensures events { OnOk result (self.new.events ≡ events.now) }
    {
        if events.is_empty() {
            self.events.clear();
            return Ok(());
        }
        self.note_some(events)
    }

    /// The same, where there may be some.
    #[inline(never)]
    fn note_some(&mut self, events: &[Event]) -> Result<(), OutOfMemory>
        ensures blocks { self.new.blocks ≡ self.old.blocks }
        ensures work { self.new.work ≡ self.old.work }
        ensures events { OnOk result (self.new.events ≡ events.now) }
    {
        self.events.clear();
        self.events.extend_from_slice(events)
    }
}

impl<'r, B: Blocks<'r> + Drop> Passes for Passes16<'r, B> {
    type Kept = Kept16<'r>;

    type Held = Held16<'r>;

    ghost Setting = { Set };

    ghost setting = { λ p. B.setting p.blocks };

    ghost State = { Between };

    ghost state = { λ p. record { store = B.store p.blocks; work = p.work; events = p.events } };

    ghost machine = { tagged_machine };

    ghost own = { own_tagged };

    ghost events_of = { λ b. b.events };

    fn nothing(&mut self) -> Result<Kept16<'r>, OutOfMemory> {
        let packets = self.blocks.packets();
        packets.nothing_kept();
        Ok(Kept16 {
            packets,
            numbers: Vec::new(self.alloc),
        })
    }

    fn ingress(
        &mut self,
        item: &Item<Kept16<'r>>,
    ) -> Result<IngressEnd<Kept16<'r>, Held16<'r>>, OutOfMemory> {
        let packets = self.blocks.packets();
        let octets = item.octets.as_slice();
        let kept = item.kept.numbers();
        let spare = self.spare.take();
        let mut frame = begin_frame(
            self.alloc,
            packets,
            spare,
            octets.len(),
            item.port,
            item.instance,
            kept,
        )?;
        let at = run_to_egress(
            self.alloc,
            &mut self.blocks,
            &mut frame,
            octets,
            &mut self.work,
        )?;
        self.note(frame.events())?;
        let clone = ingress_clone(self.alloc, packets, &frame)?;
        let next = after_ingress(
            self.alloc,
            packets,
            frame,
            &mut self.room,
            &octets[at..],
            item.port,
        )?;
        Ok(IngressEnd { clone, next })
    }

    fn reparse(&mut self, item: &Item<Kept16<'r>>) -> Result<Held16<'r>, OutOfMemory> {
        let packets = self.blocks.packets();
        let octets = item.octets.as_slice();
        let kept = item.kept.numbers();
        let spare = self.spare.take();
        let mut frame = begin_frame(
            self.alloc,
            packets,
            spare,
            octets.len(),
            item.port,
            item.instance,
            kept,
        )?;
        let end = self.blocks.parse(&mut frame, octets, &mut self.work)?;
        self.note(frame.events())?;
        let held = hand_on(
            self.alloc,
            packets,
            frame,
            &mut self.room,
            &octets[end.at..],
            item.port,
        )?;
        Ok(held)
    }

    fn egress(
        &mut self,
        held: Held16<'r>,
        port: u16,
        instance: u32,
    ) -> Result<EgressEnd<Kept16<'r>, Held16<'r>>, OutOfMemory> {
        let packets = self.blocks.packets();
        let held = held.into_parts();
        let mut frame = held.frame;
        packets.enter_egress(&mut frame, port, instance);
        let unparsed = held.unparsed.as_slice();
        let mut emitted = emptied(self.alloc, &mut self.reused);
        self.blocks.control(
            Block::Egress,
            &mut frame,
            unparsed,
            &mut emitted,
            &mut self.work,
        )?;
        let clone = egress_clone(self.alloc, packets, &frame, unparsed, held.port)?;
        let end = finish(
            self.alloc,
            packets,
            &mut self.blocks,
            &mut frame,
            unparsed,
            emitted,
            &mut self.work,
        )?;
        self.note(frame.events())?;
        self.spare = Some(frame);
        self.room = held.unparsed;
        Ok(EgressEnd { clone, end })
    }
}

impl<'r, B: Blocks<'r> + Drop> Watched for Passes16<'r, B> {
    fn events(&self) -> &[Event] {
        self.events.as_slice()
    }
}
