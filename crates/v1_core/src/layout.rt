// The parts of a frame.
ghost use Rattle.std.specs.Prelude.{◌≡◌, ◌<◌, ◌≤◌, true, length, slice_index, slice_index_or, All, OnOk, None};
ghost use Rattle.v1_core.specs.Layouts.{no_slots, no_parts, with_lone_slot, with_header_part, with_stack_part};
ghost use Rattle.v1_core.specs.internal.Parts.{AreFields, AreOwned, AreWithin};

use name_numbers::narrow;
use p4x_bits::OutOfMemory;
use std::alloc::Global;
use std::marker::Model;

/// The slots of a header: those from one number up to another, which is behind the last.
#[derive(Clone, Copy, PartialEq, Eq, Drop)]
pub struct HeaderSlots {
    /// The first.
    pub from: usize,
    /// The one behind the last.
    pub to: usize,
}

/// Which parts the frames of a program have: the bits of each slot and the header of which it is a field, the slots of each
/// header, and the size of each stack. The parts are numbered in the order in which they are added. After want of memory a
/// layout isn't used again.
pub struct FrameLayout {
    widths: Vec<u8>,
    owners: Vec<Option<u32>>,
    headers: Vec<HeaderSlots>,
    sizes: Vec<u32>,
}

impl Drop for FrameLayout {
    fn drop(self) {
        let FrameLayout {
            widths: _widths,
            owners: _owners,
            headers: _headers,
            sizes: _sizes,
        } = self;
    }
}

impl Model for FrameLayout {
    ghost use Rattle.v1_core.specs.Layouts.{Layout};
    ghost use Rattle.v1_core.specs.internal.Parts.{layout_with, AreParts};

    ghost Value = { Layout };

    ghost view = { λ l. layout_with l.widths.items l.owners.items l.headers.items l.sizes.items };

    ghost invariant = { λ l. AreParts l.widths.items l.owners.items l.headers.items };
}

impl FrameLayout {
    /// No parts.
    pub fn new(alloc: Global) -> Self
        ensures { result ≡ no_parts }
    {
        FrameLayout {
            widths: Vec::new(alloc),
            owners: Vec::new(alloc),
            headers: Vec::new(alloc),
            sizes: Vec::new(alloc),
        }
    }

    /// How many slots there are.
    pub fn slots(&self) -> usize
        ensures { result ≡ length self.now.widths }
    {
        self.widths.len()
    }

    /// The bits of a slot.
    pub fn width(&self, slot: u32) -> u8
        requires { slot < length self.now.widths }
        ensures is { result ≡ slice_index self.now.widths slot }
        ensures fits { result ≤ 128 }
    {
        self.widths[slot as usize]
    }

    /// Whether it tells of each slot whether that is a field, as it does but after want of memory. A field of a header is among the
    /// header's slots, and these are its fields.
    pub(crate) fn is_whole(&self) -> bool
        ensures owners { result ≡ true → length self.now.owners ≡ length self.now.widths }
        ensures slots { All (AreWithin (length self.now.widths)) self.now.headers }
        ensures owned { AreOwned self.now.owners self.now.headers }
        ensures fields { AreFields self.now.owners self.now.headers }
    {
        self.owners.len() == self.widths.len()
    }

    /// The header of which a slot is a field, where it is one.
    pub(crate) fn owner(&self, slot: u32) -> Option<u32>
        requires { slot < length self.now.owners }
        ensures { result ≡ slice_index_or self.now.owners slot None }
    {
        self.owners[slot as usize]
    }

    /// The slots of a header.
    pub(crate) fn header(&self, header: u32) -> HeaderSlots
        requires { header < length self.now.headers }
        ensures is { result ≡ slice_index_or self.now.headers header no_slots }
        ensures order { result.from ≤ result.to }
        ensures within { result.to ≤ length self.now.widths }
    {
        self.headers[header as usize]
    }

    /// How many elements a stack has.
    pub fn size(&self, stack: u32) -> u32
        requires { stack < length self.now.sizes }
        ensures { result ≡ slice_index self.now.sizes stack }
    {
        self.sizes[stack as usize]
    }

    /// How many headers there are.
    pub fn headers(&self) -> usize
        ensures { result ≡ length self.now.headers }
    {
        self.headers.len()
    }

    /// How many stacks there are.
    pub fn stacks(&self) -> usize
        ensures { result ≡ length self.now.sizes }
    {
        self.sizes.len()
    }

    /// One slot more, of so many bits, which is no field of a header. The one error is want of memory, which also an earlier one counts
    /// as.
    pub fn add_number(&mut self, width: u8) -> Result<(), OutOfMemory>
        requires { width ≤ 128 }
        ensures { OnOk result (self.new ≡ with_lone_slot self.old width) }
    {
        if self.owners.len() != self.widths.len() {
            return Err(OutOfMemory);
        }
        self.widths.push(width)?;
        self.owners.push(None)?;
        Ok(())
    }

    /// One header more, with fields of so many bits each. The one error is want of memory, which also an earlier one counts as.
    #[tactic(auto, using(crate::proofs::Frames::owners_more))]
    pub fn add_header(&mut self, widths: &[u8]) -> Result<(), OutOfMemory>
        requires { All (λ width. width ≤ 128) widths.now }
        ensures { OnOk result (self.new ≡ with_header_part self.old widths.now) }
    {
        let header = narrow(self.headers.len())?;
        let from = self.widths.len();
        if self.owners.len() != from {
            return Err(OutOfMemory);
        }
        self.widths.extend_from_slice(widths)?;
        let to = self.widths.len();
        self.headers.push(HeaderSlots { from, to })?;
        self.owners.resize(to, Some(header))?;
        Ok(())
    }

    /// One stack more, of so many elements, which are headers by themselves. The one error is want of memory.
    pub fn add_stack(&mut self, size: u32) -> Result<(), OutOfMemory>
        ensures { OnOk result (self.new ≡ with_stack_part self.old size) }
    {
        self.sizes.push(size)?;
        Ok(())
    }
}
