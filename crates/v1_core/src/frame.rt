// Frames.
ghost use Rattle.std.specs.Prelude.{◌≡◌, ℕ, ◌<◌, ◌≤◌, ◌^◌, if◌then◌else◌, not, false, length, replicate, slice_index, slice_index_or, true, IfOk, IsOk, OnOk, OnErr};
ghost use Rattle.v1_core.specs.Numbers.{is_same_truth};
ghost use Rattle.v1_core.specs.Cells.{Cells, owner_valid, is_live, slot_value, with_slot, header_valid, with_validity, stack_place, stack_size, with_stack_place, request_of, with_request, without_requests, with_event, without_events, new_cells, cleared_numbers, AreWhole};

use crate::layout::{FrameLayout, HeaderSlots};
use crate::requests::{Requests, get as request_of, with as with_request};
use fabric::{Event, RequestKind};
use p4x_bits::OutOfMemory;
use std::alloc::Global;
use std::marker::Model;

/// The frame of a packet: a number for each slot, which is bits, a truth value (1 or 0) or an error (0 to 3); for each header
/// whether it is valid; for each stack its place, which is the element that `next` means; the last request of each kind; and
/// the applications of tables (P4_16 1.2, "Operations on headers", "Operations on header stacks"; numbers, requests and
/// applications are this project's own).
///
/// A field of an invalid header reads 0, and a write to it does nothing. The layout is lent: many frames have one. Only
/// `of_layout`, `push_event` and `copy` take memory.
pub struct Frame<'l> {
    layout: &'l FrameLayout,
    numbers: Vec<u128>,
    valids: Vec<bool>,
    places: Vec<u32>,
    requests: Requests,
    events: Vec<Event>,
}

impl Drop for Frame<'_> {
    fn drop(self) {
        let Frame {
            layout: _layout,
            numbers: _numbers,
            valids: _valids,
            places: _places,
            requests: _requests,
            events: _events,
        } = self;
    }
}

impl<'l> Model for Frame<'l> {
    ghost use Rattle.v1_core.specs.Cells.{Cells};
    ghost use Rattle.v1_core.specs.internal.Parts.{cells_with, AreKept};

    ghost Value = { Cells };

    ghost view = { λ f. cells_with f.layout.now f.numbers.items f.valids.items f.places.items f.requests f.events.items };

    ghost invariant = { λ f. AreKept (cells_with f.layout.now f.numbers.items f.valids.items f.places.items f.requests f.events.items) };
}

/// No request of any kind.
const NO_REQUESTS: Requests = Requests {
    clone_i2e: None,
    clone_e2e: None,
    resubmit: None,
    recirculate: None,
};

/// Whether the header of a slot is valid, where it has one; a number of no header counts as invalid.
#[tactic(auto, using(crate::proofs::Frames::past_marks))]
fn is_live(valids: &[bool], owner: Option<u32>) -> bool
    ensures { result ≡ owner_valid valids.now owner }
{
    match owner {
        Some(header) => (header as usize) < valids.len() && valids[header as usize],
        None => true,
    }
}

/// So many numbers that are 0.
fn zero_numbers(alloc: Global, count: usize) -> Result<Vec<u128>, OutOfMemory>
    ensures { IfOk result (λ numbers. numbers.items ≡ replicate count 0) }
{
    Ok(vec![in alloc; 0u128; count]?)
}

/// So many marks of headers that aren't valid.
fn no_marks(alloc: Global, count: usize) -> Result<Vec<bool>, OutOfMemory>
    ensures { IfOk result (λ marks. marks.items ≡ replicate count false) }
{
    Ok(vec![in alloc; false; count]?)
}

/// So many places of stacks, all 0.
fn first_places(alloc: Global, count: usize) -> Result<Vec<u32>, OutOfMemory>
    ensures { IfOk result (λ places. places.items ≡ replicate count 0) }
{
    Ok(vec![in alloc; 0u32; count]?)
}

/// Makes the numbers in the slots of a header 0.
#[tactic(auto, using(crate::proofs::Frames::nothing_cleared, crate::proofs::Frames::one_cleared_more, crate::proofs::Frames::zero_put))]
fn clear(numbers: &mut [u128], slots: HeaderSlots)
    requires order { slots.from ≤ slots.to }
    requires within { slots.to ≤ length numbers.old }
    ensures cleared { numbers.new ≡ cleared_numbers slots numbers.old }
    ensures less { (i : ℕ) → slice_index numbers.new i ≤ slice_index numbers.old i }
{
    for slot in slots.from..slots.to {
        numbers[slot] = 0;
    }
}

/// What is set is what is got, and every other slot stays; a field of an invalid header reads 0, and a write to it changes
/// nothing at all. It does nothing.
pub fn what_is_set_is_got()
    ensures got { (c : Cells) (slot n : ℕ) → slot < length c.numbers →
        slot_value (with_slot c slot n) slot ≡ if is_live c slot then n else 0 }
    ensures others { (c : Cells) (slot n i : ℕ) → (i ≡ slot → ⊥) → slot_value (with_slot c slot n) i ≡ slot_value c i }
    ensures nothing { (c : Cells) (slot n : ℕ) → is_live c slot ≡ false → with_slot c slot n ≡ c }
{}

impl<'l> Frame<'l> {
    /// A frame with these parts in which all slots are 0, all headers are invalid, all stacks are at place 0, nothing is
    /// requested and no table was applied. The one error is want of memory, which also one of the layout counts as.
    #[tactic(auto, using(crate::proofs::Frames::whole_first))]
    pub fn of_layout(alloc: Global, layout: &'l FrameLayout) -> Result<Self, OutOfMemory>
        ensures { IfOk result (λ frame. frame ≡ new_cells layout.now) }
    {
        if !layout.is_whole() {
            return Err(OutOfMemory);
        }
        let numbers = zero_numbers(alloc, layout.slots())?;
        let valids = no_marks(alloc, layout.headers())?;
        let places = first_places(alloc, layout.stacks())?;
        Ok(Frame {
            layout,
            numbers,
            valids,
            places,
            requests: NO_REQUESTS,
            events: Vec::new(alloc),
        })
    }

    /// The same again, with the same layout. The one error is want of memory.
    pub fn copy(&self, alloc: Global) -> Result<Self, OutOfMemory>
        ensures { IfOk result (λ frame. frame ≡ self.now) }
    {
        let numbers = Vec::from_slice(alloc, &self.numbers)?;
        let valids = Vec::from_slice(alloc, &self.valids)?;
        let places = Vec::from_slice(alloc, &self.places)?;
        let events = Vec::from_slice(alloc, &self.events)?;
        Ok(Frame {
            layout: self.layout,
            numbers,
            valids,
            places,
            requests: self.requests,
            events,
        })
    }

    /// What holds of every frame: each slot has a number that fits it, each header a mark, and each stack a place that is at
    /// most its size. It does nothing.
    #[tactic(auto, using(crate::proofs::Frames::are_whole))]
    pub fn is_whole(&self)
        ensures { AreWhole self.now }
    {
        let _ = &self.layout;
    }

    /// Makes it what `of_layout` gives of a layout, where that has as many slots, headers and stacks and met no want of memory; else
    /// nothing changes. It tells whether it did. It takes no memory.
    pub fn renew(&mut self, layout: &'l FrameLayout) -> bool
        ensures made { result ≡ true → self.new ≡ new_cells layout.now }
        ensures kept { result ≡ false → self.new ≡ self.old }
    {
        if !layout.is_whole()
            || self.numbers.len() != layout.slots()
            || self.valids.len() != layout.headers()
            || self.places.len() != layout.stacks()
        {
            return false;
        }
        self.layout = layout;
        self.numbers.fill(0);
        self.valids.fill(false);
        self.places.fill(0);
        self.requests = NO_REQUESTS;
        self.events.clear();
        true
    }

    /// The number in a slot; 0 in that of a field of an invalid header.
    #[tactic(auto, using(crate::proofs::Frames::reads_value))]
    pub fn get(&self, slot: u32) -> u128
        requires { slot < length self.now.layout.widths }
        ensures is { result ≡ slot_value self.now slot }
        ensures fits { result < 2 ^ slice_index self.now.layout.widths slot }
    {
        self.numbers[slot as usize]
    }

    /// Puts a number into a slot; that of a field of an invalid header keeps its own.
    #[tactic(auto, using(crate::proofs::Frames::kept_put))]
    pub fn set(&mut self, slot: u32, value: u128)
        requires slot { slot < length self.old.layout.widths }
        requires value { value < 2 ^ slice_index self.old.layout.widths slot }
        ensures { self.new ≡ with_slot self.old slot value }
    {
        if is_live(&self.valids, self.layout.owner(slot)) {
            self.numbers[slot as usize] = value;
        }
    }

    /// The bits of a slot.
    pub fn width(&self, slot: u32) -> u8
        requires { slot < length self.now.layout.widths }
        ensures is { result ≡ slice_index self.now.layout.widths slot }
        ensures fits { result ≤ 128 }
    {
        self.layout.width(slot)
    }

    /// Whether a header is valid.
    pub fn valid(&self, header: u32) -> bool
        requires { header < length self.now.layout.headers }
        ensures { result ≡ header_valid self.now header }
    {
        self.valids[header as usize]
    }

    /// Makes a header valid or invalid. Where that changes its validity, its fields become 0, and else nothing changes.
    #[tactic(auto, using(crate::proofs::Frames::turned_on, crate::proofs::Frames::stays_off, crate::proofs::Frames::turned_off, crate::proofs::Frames::kept_on))]
    pub fn set_valid(&mut self, header: u32, on: bool)
        requires { header < length self.old.layout.headers }
        ensures { self.new ≡ with_validity self.old header on }
    {
        if on {
            self.valids[header as usize] = true;
        } else if self.valids[header as usize] {
            clear(&mut self.numbers, self.layout.header(header));
            self.valids[header as usize] = false;
        }
    }

    /// The place of a stack.
    pub fn place(&self, stack: u32) -> u32
        requires { stack < length self.now.layout.sizes }
        ensures is { result ≡ stack_place self.now stack }
        ensures fits { result ≤ stack_size self.now stack }
    {
        self.places[stack as usize]
    }

    /// How many elements a stack has, which is its greatest place.
    pub fn size(&self, stack: u32) -> u32
        requires { stack < length self.now.layout.sizes }
        ensures { result ≡ stack_size self.now stack }
    {
        self.layout.size(stack)
    }

    /// Puts the place of a stack, at most its size. It takes no memory and can't fail.
    pub fn set_place(&mut self, stack: u32, place: u32) -> Result<(), OutOfMemory>
        requires stack { stack < length self.old.layout.sizes }
        requires place { place ≤ stack_size self.old stack }
        ensures done { IsOk result }
        ensures put { self.new ≡ with_stack_place self.old stack place }
    {
        self.places[stack as usize] = place;
        Ok(())
    }

    /// The session and the field list of the last request of a kind; None exactly where none stands.
    pub fn request(&self, kind: RequestKind) -> Option<(u32, u8)>
        ensures { result ≡ request_of self.now kind }
    {
        request_of(self.requests, kind)
    }

    /// Puts the request of a kind, or none. It takes no memory and can't fail.
    pub fn set_request(
        &mut self,
        kind: RequestKind,
        request: Option<(u32, u8)>,
    ) -> Result<(), OutOfMemory>
        ensures done { IsOk result }
        ensures put { self.new ≡ with_request kind request self.old }
    {
        self.requests = with_request(self.requests, kind, request);
        Ok(())
    }

    /// Takes all requests back.
    pub fn clear_requests(&mut self)
        ensures { self.new ≡ without_requests self.old }
    {
        self.requests = NO_REQUESTS;
    }

    /// The applications of tables since `clear_events`, in order.
    pub fn events(&self) -> &[Event]
        ensures { result.now ≡ self.now.events }
    {
        &self.events
    }

    /// Notes an application of a table. The one error is want of memory, and the frame is then as it was.
    pub fn push_event(&mut self, event: Event) -> Result<(), OutOfMemory>
        ensures ok { OnOk result (self.new ≡ with_event event self.old) }
        ensures err { OnErr result (self.new ≡ self.old) }
    {
        self.events.push(event)?;
        Ok(())
    }

    /// Forgets the applications of tables.
    pub fn clear_events(&mut self)
        ensures { self.new ≡ without_events self.old }
    {
        self.events.clear();
    }
}
