// The frame of a packet between two blocks.
ghost use Rattle.std.specs.Prelude.{◌≡◌, ℕ, ◌%◌, ◌^◌, ◌<◌, [], length, slice_index, IfOk, OnOk, codes};
ghost use Rattle.state_store.specs.Ports.{IsPort};
ghost use Rattle.p416_syntax.specs.Names.{Name};
ghost use Rattle.p416_syntax.specs.Main.{headers_kind, metadata_kind};
ghost use Rattle.p416_names.specs.SeenKinds.{seen_kind};
ghost use Rattle.v1_core.specs.Values.{a_number};
ghost use Rattle.v1_core.specs.Frames.{with_standard, standard_number, without_requests_and_events};
ghost use Rattle.v1_core.specs.Passes.{none_preserved, blank_frame, preserved, new_frame, egress_spec};
ghost use Rattle.v1_core.specs.Cells.{new_cells};
ghost use Rattle.v1_core.specs.Programs.{layout16};
ghost use Rattle.v1_core.specs.PackedFrames.{IsFrameOf};
ghost use Rattle.v1_pass_slots.specs.Starts.{metadata_start};
ghost use Rattle.v1_pass_slots.specs.Found.{IsStandard, ArePassSlots};
ghost use Rattle.v1_packets.specs.Packets.{packet_frame, kept_value, with_metadata, with_zero_standard, AreFitting, clone_frame, with_fresh, egress_begun};

use crate::fill::fill;
use crate::keep::keep;
use p4x_bits::OutOfMemory;
use p416_names::{Kind, Top};
use p416_syntax::Syntax16;
use std::alloc::Global;
use std::marker::Model;
use v1_core::{Frame, FrameLayout};
use v1_pass_slots::{PassSlots, pass_slots};

/// What the passes of a packet under a program do to its frame between two blocks. It borrows the program and the layout of its
/// frames (`v1model.p4`, `standard_metadata_t`; the kinds and what is preserved are this project's own). Contracts see the program's
/// syntax.
#[derive(Drop)]
pub struct Packets<'p> {
    syntax: &'p Syntax16,
    layout: &'p FrameLayout,
    slots: PassSlots,
}

impl<'p> Model for Packets<'p> {
    ghost use Rattle.std.specs.Prelude.{◌≡◌};
    ghost use Rattle.std.specs.Coded.{codes};
    ghost use Rattle.p416_syntax.specs.declared.program.Syntax16.{Syntax16 as Syntax};
    ghost use Rattle.p416_syntax.specs.contracts.program.Syntax16 as declaration;
    ghost use Rattle.v1_core.specs.Programs.{layout16};
    ghost use Rattle.v1_pass_slots.specs.Found.{ArePassSlots};

    ghost Value = { Syntax };

    ghost coded = { declaration.the_row.coded };

    ghost view = { λ p. p.syntax.now };

    ghost invariant = { λ p. (p.layout.now ≡ layout16 p.syntax.now) × ArePassSlots p.syntax.now p.slots };
}

/// A number of octets modulo 2^32.
fn short(octets: usize) -> u32
    ensures { result ≡ octets % 2 ^ 32 }
{
    (octets as u64 % (1 << 32)) as u32
}

/// Makes a frame of these parts in the place of one that has others.
#[inline(never)]
fn make_anew<'p>(
    alloc: Global,
    frame: &mut Frame<'p>,
    layout: &'p FrameLayout,
) -> Result<(), OutOfMemory>
    ensures { OnOk result (frame.new ≡ new_cells layout.now) }
{
    *frame = Frame::of_layout(alloc, layout)?;
    Ok(())
}

/// Makes a frame one with these parts again, as `Frame::of_layout` gives it.
fn renew<'p>(
    alloc: Global,
    frame: &mut Frame<'p>,
    layout: &'p FrameLayout,
) -> Result<(), OutOfMemory>
    ensures { OnOk result (frame.new ≡ new_cells layout.now) }
{
    if frame.renew(layout) {
        return Ok(());
    }
    make_anew(alloc, frame, layout)
}

impl<'p> Packets<'p> {
    /// The packets of a program with these names at the top, whose frames have this layout, and whose headers and metadata are
    /// these. The time is linear in the program, but for look-ups. The one error is want of memory.
    pub fn new(
        alloc: Global,
        top: &Top<'_>,
        syntax: &'p Syntax16,
        layout: &'p FrameLayout,
        headers: Kind<'_>,
        metadata: Kind<'_>,
    ) -> Result<Self, OutOfMemory>
        requires top { top.now ≡ syntax.now.decls }
        requires layout { layout.now ≡ layout16 syntax.now }
        requires headers { seen_kind headers ≡ headers_kind syntax.now }
        requires metadata { seen_kind metadata ≡ metadata_kind syntax.now }
        ensures { IfOk result (λ packets. packets ≡ syntax.now) }
    {
        let slots = pass_slots(alloc, top, syntax, layout, headers, metadata)?;
        Ok(Packets {
            syntax,
            layout,
            slots,
        })
    }

    /// What was found of the frames.
    fn found(&self) -> &PassSlots
        ensures { ArePassSlots self.now result.now }
    {
        &self.slots
    }

    /// The layout of the frames.
    fn frames(&self) -> &'p FrameLayout
        ensures { result.now ≡ layout16 self.now }
    {
        self.layout
    }

    /// Nothing is kept of a packet that comes in: all its metadata is 0. It does nothing.
    pub fn nothing_kept(&self)
        ensures { kept_value self.now [] ≡ none_preserved self.now }
    {
        let _found = self.found();
    }

    /// Puts a number into a slot of the standard metadata.
    fn put(&self, frame: &mut Frame<'_>, slot: u32, number: u128)
        requires frame { IsFrameOf self.now frame.old }
        requires slot { slot < length frame.old.layout.widths }
        requires number { number < 2 ^ slice_index frame.old.layout.widths slot }
        ensures frame { IsFrameOf self.now frame.new }
        ensures put { (word : Name) (width : ℕ) → IsStandard self.now word width slot → packet_frame self.now frame.new ≡ with_standard word (a_number width number) (packet_frame self.now frame.old) }
    {
        frame.set(slot, number);
        frame.is_whole();
    }

    /// Puts the port of arrival, the packet's length and its kind.
    #[tactic(auto, using(crate::proofs::Begun::slot_there, crate::proofs::Begun::number_there))]
    fn put_fresh(&self, frame: &mut Frame<'_>, port: u16, octets: u32, kind: u32)
        requires frame { IsFrameOf self.now frame.old }
        requires port { IsPort port }
        ensures frame { IsFrameOf self.now frame.new }
        ensures put { packet_frame self.now frame.new ≡ with_fresh port octets kind (packet_frame self.now frame.old) }
    {
        let found = self.found();
        self.put(frame, found.fields.instance_type, u128::from(kind));
        self.put(frame, found.fields.packet_length, u128::from(octets));
        self.put(frame, found.fields.ingress_port, u128::from(port));
    }

    /// Takes back what a block asked for, and forgets the tables that it applied.
    pub fn clear(&self, frame: &mut Frame<'_>)
        requires { IsFrameOf self.now frame.old }
        ensures frame { IsFrameOf self.now frame.new }
        ensures cleared { packet_frame self.now frame.new ≡ without_requests_and_events (packet_frame self.now frame.old) }
    {
        frame.clear_requests();
        frame.clear_events();
        frame.is_whole();
    }

    /// Puts numbers into the slots of the metadata, in order, and 0 into those that are left.
    #[tactic(auto, using(crate::proofs::Begun::metadata_order, crate::proofs::Begun::kept_there, crate::proofs::Begun::frame_filled))]
    fn put_kept(&self, frame: &mut Frame<'_>, kept: &[u128])
        requires frame { IsFrameOf self.now frame.old }
        requires kept { AreFitting (layout16 self.now).widths (metadata_start self.now).slot kept.now }
        ensures frame { IsFrameOf self.now frame.new }
        ensures put { packet_frame self.now frame.new ≡ with_metadata (kept_value self.now kept.now) (packet_frame self.now frame.old) }
    {
        let found = self.found();
        fill(frame, found.metadata, kept);
        frame.is_whole();
    }

    /// Puts 0 into the slots of the standard metadata.
    #[tactic(auto, using(crate::proofs::Begun::frame_filled))]
    fn clear_standard(&self, frame: &mut Frame<'_>)
        requires { IsFrameOf self.now frame.old }
        ensures frame { IsFrameOf self.now frame.new }
        ensures put { packet_frame self.now frame.new ≡ with_zero_standard self.now (packet_frame self.now frame.old) }
    {
        let found = self.found();
        fill(frame, found.standard, &[]);
        frame.is_whole();
    }

    /// A frame in which all numbers are 0, all headers are invalid and all stacks are at place 0, or want of memory.
    #[tactic(auto, using(crate::proofs::Begun::frame_new, crate::proofs::Begun::blank_new))]
    fn blank(&self, alloc: Global) -> Result<Frame<'p>, OutOfMemory>
        ensures frame { IfOk result (IsFrameOf self.now) }
        ensures blank { IfOk result (λ frame. packet_frame self.now frame ≡ blank_frame self.now) }
    {
        let frame = Frame::of_layout(alloc, self.frames())?;
        frame.is_whole();
        Ok(frame)
    }

    /// The same in the place of another frame. It takes memory only where that has other parts.
    #[tactic(auto, using(crate::proofs::Begun::frame_new, crate::proofs::Begun::blank_new))]
    fn blank_again(&self, alloc: Global, frame: &mut Frame<'p>) -> Result<(), OutOfMemory>
        ensures frame { OnOk result (IsFrameOf self.now frame.new) }
        ensures blank { OnOk result (packet_frame self.now frame.new ≡ blank_frame self.now) }
    {
        renew(alloc, frame, self.frames())?;
        frame.is_whole();
        Ok(())
    }

    /// Puts what is kept into a frame in which all numbers are 0; where nothing is kept that takes no time.
    fn bring(&self, frame: &mut Frame<'_>, kept: &[u128])
        requires frame { IsFrameOf self.now frame.old }
        requires blank { packet_frame self.now frame.old ≡ blank_frame self.now }
        requires kept { AreFitting (layout16 self.now).widths (metadata_start self.now).slot kept.now }
        ensures frame { IsFrameOf self.now frame.new }
        ensures brought { packet_frame self.now frame.new ≡ with_metadata (kept_value self.now kept.now) (blank_frame self.now) }
    {
        let _found = self.found();
        if !kept.is_empty() {
            self.put_kept(frame, kept);
        }
    }

    /// A frame as a pass begins: of so many octets that came in on this port, 0 to 510, of this kind, as
    /// `standard_metadata.instance_type` tells it, with what is kept of metadata, by the numbers in its slots. All other numbers are 0, all headers are invalid, and all stacks are at place 0. The one error is want
    /// of memory.
    #[tactic(auto, using(crate::proofs::Begun::begun))]
    pub fn begin(
        &self,
        alloc: Global,
        octets: usize,
        port: u16,
        kind: u32,
        kept: &[u128],
    ) -> Result<Frame<'p>, OutOfMemory>
        requires port { IsPort port }
        requires kept { AreFitting (layout16 self.now).widths (metadata_start self.now).slot kept.now }
        ensures frame { IfOk result (IsFrameOf self.now) }
        ensures begins { IfOk result (λ frame. packet_frame self.now frame ≡ new_frame self.now port (octets % 2 ^ 32) kind (kept_value self.now kept.now)) }
    {
        let mut frame = self.blank(alloc)?;
        self.bring(&mut frame, kept);
        let count = short(octets);
        self.put_fresh(&mut frame, port, count, kind);
        Ok(frame)
    }

    /// A frame as a pass begins, as `begin` gives it, in the place of another one. It takes memory only where that has other parts. The
    /// one error is want of memory, after which the frame isn't used again.
    #[tactic(auto, using(crate::proofs::Begun::begun))]
    pub fn begin_again(
        &self,
        alloc: Global,
        frame: &mut Frame<'p>,
        octets: usize,
        port: u16,
        kind: u32,
        kept: &[u128],
    ) -> Result<(), OutOfMemory>
        requires port { IsPort port }
        requires kept { AreFitting (layout16 self.now).widths (metadata_start self.now).slot kept.now }
        ensures frame { OnOk result (IsFrameOf self.now frame.new) }
        ensures begins { OnOk result (packet_frame self.now frame.new ≡ new_frame self.now port (octets % 2 ^ 32) kind (kept_value self.now kept.now)) }
    {
        self.blank_again(alloc, frame)?;
        self.bring(frame, kept);
        let count = short(octets);
        self.put_fresh(frame, port, count, kind);
        Ok(())
    }

    /// The port that ingress or egress chose, 0 to 511.
    #[tactic(auto, using(crate::proofs::Begun::slot_there, crate::proofs::Begun::number_small))]
    pub fn egress_spec(&self, frame: &Frame<'_>) -> u16
        requires { IsFrameOf self.now frame.now }
        ensures is { result ≡ egress_spec (packet_frame self.now frame.now) }
        ensures small { result < 512 }
    {
        let found = self.found();
        frame.get(found.fields.egress_spec) as u16
    }

    /// The length that the packet had when it came in, or what a block wrote there.
    #[tactic(auto, using(crate::proofs::Begun::slot_there, crate::proofs::Begun::number_small))]
    fn packet_length(&self, frame: &Frame<'_>) -> u32
        requires { IsFrameOf self.now frame.now }
        ensures { result ≡ standard_number (packet_frame self.now frame.now) (codes "packet_length") }
    {
        let found = self.found();
        frame.get(found.fields.packet_length) as u32
    }

    /// The frame as egress begins, on this port, 0 to 510, of this kind.
    #[tactic(auto, using(crate::proofs::Begun::slot_there, crate::proofs::Begun::number_there))]
    pub fn enter_egress(&self, frame: &mut Frame<'_>, port: u16, kind: u32)
        requires frame { IsFrameOf self.now frame.old }
        requires port { IsPort port }
        ensures frame { IsFrameOf self.now frame.new }
        ensures begins { packet_frame self.now frame.new ≡ egress_begun port kind (packet_frame self.now frame.old) }
    {
        let found = self.found();
        self.clear(frame);
        self.put(frame, found.fields.instance_type, u128::from(kind));
        self.put(frame, found.fields.egress_port, u128::from(port));
        self.put(frame, found.fields.egress_spec, 0);
    }

    /// What a field list preserves of a frame's metadata, by the numbers in its slots: 0 in place of what isn't in the list. The
    /// one error is want of memory.
    #[tactic(auto, using(crate::proofs::Keeping::kept_fits_at))]
    pub fn preserve(
        &self,
        alloc: Global,
        frame: &Frame<'_>,
        list: u8,
    ) -> Result<Vec<u128>, OutOfMemory>
        requires { IsFrameOf self.now frame.now }
        ensures fits { IfOk result (λ kept. AreFitting (layout16 self.now).widths (metadata_start self.now).slot kept.items) }
        ensures preserves { IfOk result (λ kept. (session : ℕ) → kept_value self.now kept.items ≡ preserved self.now (packet_frame self.now frame.now) (session, list)) }
    {
        let found = self.found();
        let kept = keep(alloc, frame, found.metadata, &found.lists, list)?;
        Ok(kept)
    }

    /// The frame of a clone made behind egress, of a packet that came in on this port, 0 to 510. The one error is want of memory.
    pub fn clone_frame(
        &self,
        alloc: Global,
        frame: &Frame<'p>,
        list: u8,
        port: u16,
    ) -> Result<Frame<'p>, OutOfMemory>
        requires frame { IsFrameOf self.now frame.now }
        requires port { IsPort port }
        ensures frame { IfOk result (IsFrameOf self.now) }
        ensures is { IfOk result (λ clone. packet_frame self.now clone ≡ clone_frame self.now list port (standard_number (packet_frame self.now frame.now) (codes "packet_length")) (packet_frame self.now frame.now)) }
    {
        let kept = self.preserve(alloc, frame, list)?;
        let octets = self.packet_length(frame);
        let mut clone = frame.copy(alloc)?;
        self.clear(&mut clone);
        self.put_kept(&mut clone, &kept);
        self.clear_standard(&mut clone);
        self.put_fresh(&mut clone, port, octets, 0);
        Ok(clone)
    }
}
