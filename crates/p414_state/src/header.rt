// Headers by themselves.
ghost use Rattle.std.specs.Prelude.{◌≡◌, ℕ, ◌+◌, ◌*◌, ◌^◌, ◌<◌, ◌≤◌, true, false, length, map, take, drop, replicate, ◌++◌, IfOk};
ghost use Rattle.p4x_bits.specs.BitLists.{num, bits, octet_bits};
ghost use Rattle.p414_state.specs.internal.Cells.{emptied, first_emptied};

use p4x_bits::{OutOfMemory, read_octet_field, write_octet_field};
use p414_layout::FieldPlace;
use std::alloc::Global;
use std::marker::Model;

/// A header, an element of a stack, or metadata by itself: whether it is valid, and the octets in which its fields lie side
/// by side, as on the wire.
#[derive(Drop)]
pub struct PackedHeader {
    valid: bool,
    octets: Vec<u8>,
}

impl Model for PackedHeader {
    ghost use Rattle.p414_state.specs.Headers.{Packed};

    ghost Value = { Packed };

    ghost view = { λ e. record { valid = e.valid; octets = e.octets.items } };
}

impl PackedHeader {
    /// One of so many octets, all 0. The one error is want of memory.
    pub fn new(alloc: Global, valid: bool, octets: usize) -> Result<PackedHeader, OutOfMemory>
        ensures { IfOk result (λ element. element ≡ record { valid = valid; octets = replicate octets 0 }) }
    {
        Ok(PackedHeader {
            valid,
            octets: vec![in alloc; 0u8; octets]?,
        })
    }

    /// The same again. The one error is want of memory.
    pub fn copy(&self, alloc: Global) -> Result<PackedHeader, OutOfMemory>
        ensures { IfOk result (λ element. element ≡ self.now) }
    {
        Ok(PackedHeader {
            valid: self.valid,
            octets: Vec::from_slice(alloc, &self.octets)?,
        })
    }

    /// Whether it is valid.
    pub fn is_valid(&self) -> bool
        ensures { result ≡ self.now.valid }
    {
        self.valid
    }

    /// The number in the bits of a field.
    pub fn number(&self, field: FieldPlace) -> u128
        requires width { field.width ≤ 128 }
        requires within { field.at + field.width ≤ 8 * length self.now.octets }
        ensures { result ≡ num (take field.width (drop field.at (octet_bits self.now.octets))) }
    {
        read_octet_field(&self.octets, field.at, field.width)
    }

    /// Puts a number into the bits of a field.
    pub fn put(&mut self, field: FieldPlace, value: u128)
        requires width { field.width ≤ 128 }
        requires within { field.at + field.width ≤ 8 * length self.old.octets }
        requires value { value < 2 ^ field.width }
        ensures valid { self.new.valid ≡ self.old.valid }
        ensures room { length self.new.octets ≡ length self.old.octets }
        ensures bits { let old = octet_bits self.old.octets in
            octet_bits self.new.octets ≡ take field.at old ++ bits field.width value ++ drop (field.at + field.width) old }
    {
        write_octet_field(&mut self.octets, field.at, field.width, value);
    }

    /// Makes it valid or invalid, with all bits 0.
    pub fn clear(&mut self, valid: bool)
        ensures { self.new ≡ record { valid = valid; octets = replicate (length self.old.octets) 0 } }
    {
        self.valid = valid;
        self.octets.fill(0);
    }

    /// Makes it valid, with these octets.
    pub fn fill(&mut self, octets: &[u8])
        requires { length octets.now ≡ length self.old.octets }
        ensures { self.new ≡ record { valid = true; octets = octets.now } }
    {
        self.valid = true;
        self.octets.copy_from_slice(octets);
    }

    /// Makes it the same as another one of as many octets.
    pub fn assign(&mut self, header: &PackedHeader)
        requires { length header.now.octets ≡ length self.old.octets }
        ensures { self.new ≡ header.now }
    {
        self.valid = header.valid;
        self.octets.copy_from_slice(&header.octets);
    }

    /// Its octets.
    pub fn octets(&self) -> &[u8]
        ensures { result.now ≡ self.now.octets }
    {
        &self.octets
    }
}

/// The same elements again. The one error is want of memory.
pub fn copy_all(alloc: Global, elements: &[PackedHeader]) -> Result<Vec<PackedHeader>, OutOfMemory>
    ensures { IfOk result (λ copies. copies.items ≡ elements.now) }
{
    let mut copies = Vec::with_capacity(alloc, elements.len())?;
    for element in elements {
        copies.push(element.copy(alloc)?)?;
    }
    Ok(copies)
}

/// Makes so many of these from the first on valid or invalid, with all bits 0.
pub fn empty_first(elements: &mut Vec<PackedHeader>, count: usize, valid: bool)
    requires { count ≤ length elements.old.items }
    ensures { elements.new.items ≡ first_emptied valid count elements.old.items }
{
    for index in 0..count {
        elements[index].clear(valid);
    }
}

/// Makes all of these invalid, with all bits 0.
#[tactic(auto, using(crate::proofs::Elements::emptied_all))]
pub fn empty_all(elements: &mut Vec<PackedHeader>)
    ensures { elements.new.items ≡ map (emptied false) elements.old.items }
{
    let count = elements.len();
    empty_first(elements, count, false);
}
