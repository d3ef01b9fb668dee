// A header, a header stack or metadata.
ghost use Rattle.std.specs.Prelude.{◌≡◌, ℕ, ◌*◌, ◌%◌, ◌^◌, ◌<◌, ◌≤◌, true, false, not, [], length, map, replicate, slice_index, IfOk, MatchBool};
ghost use Rattle.p4x_bits.specs.BitLists.{octet_bits};
ghost use Rattle.p414_sem.specs.State.{with_field, cleared, is_same};
ghost use Rattle.p414_sem.specs.Packing.{numbers_in, bits_in};
ghost use Rattle.p414_layout.specs.Placed.{total};
ghost use Rattle.p414_layout.specs.Shapes.{element_count, last_place, blank_of};
ghost use Rattle.p414_state.specs.Headers.{header_in, IsPacked, ArePacked, HoldsHeader, HoldsStack, FitsShape};
ghost use Rattle.p414_state.specs.internal.Cells.{Laid, IsLive, IsDead, element_in, read_in, put_in, put_valid_in, with_all, with_element, with_place_of, begun_of, new_laid};

use crate::header::{PackedHeader, copy_all, empty_all, empty_first};
use crate::stack::PackedStack;
use p4x_bits::OutOfMemory;
use p414_layout::Shape;
use std::alloc::Global;
use std::marker::Model;

/// A header, a header stack or metadata: its elements, and the place of the next one that is extracted. Contracts see what
/// it is made of, and what it means.
pub struct InstanceCells {
    shape: Shape,
    elements: Vec<PackedHeader>,
    place: u32,
}

impl Drop for InstanceCells {
    fn drop(self) {
        let InstanceCells {
            shape: _shape,
            elements: _elements,
            place: _place,
        } = self;
    }
}

impl Model for InstanceCells {
    ghost use Rattle.p414_state.specs.Headers.{header_in, IsPacked, ArePacked, HoldsHeader, HoldsStack, FitsShape};
    ghost use Rattle.p414_state.specs.internal.Cells.{Laid, laid, AreCells};

    ghost Value = { Laid };

    ghost view = { λ c. laid c.shape c.elements.items c.place };

    ghost invariant = { λ c. AreCells c.shape c.elements.items c.place };
}

/// So many elements of so many octets each, all 0.
fn elements_of(
    alloc: Global,
    count: u32,
    valid: bool,
    octets: usize,
) -> Result<Vec<PackedHeader>, OutOfMemory>
    ensures { IfOk result (λ elements. elements.items ≡ replicate count (record { valid = valid; octets = replicate octets 0 })) }
{
    let mut elements = Vec::new(alloc);
    for made in 0..count {
        elements.push(PackedHeader::new(alloc, valid, octets)?)?;
    }
    Ok(elements)
}

/// Whether two truth values aren't one.
fn differ(a: bool, b: bool) -> bool
    ensures { result ≡ not (is_same a b) }
{
    a != b
}

impl InstanceCells {
    /// An instance with all fields 0, invalid where it isn't metadata, at place 0. The one error is want of memory.
    pub fn new(alloc: Global, shape: Shape) -> Result<InstanceCells, OutOfMemory>
        ensures { IfOk result (λ cells. cells ≡ record { shape = shape; instance = blank_of shape }) }
    {
        let elements = elements_of(
            alloc,
            shape.elements(),
            shape.metadata,
            shape.widths.octets(),
        )?;
        Ok(InstanceCells {
            shape,
            elements,
            place: 0,
        })
    }

    /// The same again. The one error is want of memory.
    pub fn copy(&self, alloc: Global) -> Result<InstanceCells, OutOfMemory>
        ensures { IfOk result (λ cells. cells ≡ self.now) }
    {
        let elements = copy_all(alloc, &self.elements)?;
        Ok(InstanceCells {
            shape: self.shape.copy(alloc)?,
            elements,
            place: self.place,
        })
    }

    /// Whether there is such a field and its element is valid. Where not, it reads 0 and gets nothing.
    fn is_live(&self, element: u32, field: u32) -> bool
        ensures { MatchBool result (IsLive self.now element field) (IsDead self.now element field) }
    {
        self.is_valid(element) && (field as usize) < self.shape.widths.len()
    }

    /// The number in the bits of a field.
    fn stored(&self, element: u32, field: u32) -> u128
        requires element { element < element_count self.now.shape }
        requires field { field < length self.now.shape.widths }
        ensures is { result ≡ slice_index (element_in self.now element).numbers field }
        ensures fits { result < 2 ^ slice_index self.now.shape.widths field }
    {
        let place = self.shape.widths.get(field as usize);
        self.elements[element as usize].number(place)
    }

    /// The number of a field; 0 where its element is invalid, or where there is no such field.
    pub fn number(&self, element: u32, field: u32) -> u128
        ensures is { result ≡ read_in self.now element field }
        ensures fits { result < 2 ^ slice_index self.now.shape.widths field }
    {
        if self.is_live(element, field) {
            self.stored(element, field)
        } else {
            0
        }
    }

    /// Whether an element is valid; one that isn't there isn't.
    pub fn is_valid(&self, element: u32) -> bool
        ensures { result ≡ (element_in self.now element).valid }
    {
        match self.elements.get(element as usize) {
            Some(found) => found.is_valid(),
            None => false,
        }
    }

    /// The place of the next element that is extracted.
    pub fn place(&self) -> u32
        ensures is { result ≡ self.now.instance.place }
        ensures fits { result ≤ last_place self.now.shape }
    {
        self.place
    }

    /// The greatest place.
    pub fn last_place(&self) -> u32
        ensures { result ≡ last_place self.now.shape }
    {
        self.shape.last_place()
    }

    /// How many elements there are.
    pub fn size(&self) -> u32
        ensures is { result ≡ length self.now.instance.elements }
        ensures count { result ≡ element_count self.now.shape }
    {
        self.shape.elements()
    }

    /// How many fields an element has.
    pub fn fields(&self) -> usize
        ensures { result ≡ length self.now.shape.widths }
    {
        self.shape.widths.len()
    }

    /// The bits of all fields of an element.
    pub fn bits(&self) -> usize
        ensures { result ≡ total self.now.shape.widths }
    {
        self.shape.widths.bits()
    }

    /// The bits of a field; 0 where there is no such field.
    pub fn width(&self, field: u32) -> u8
        ensures is { result ≡ slice_index self.now.shape.widths field }
        ensures fits { result ≤ 128 }
    {
        if (field as usize) < self.shape.widths.len() {
            self.shape.widths.get(field as usize).width
        } else {
            0
        }
    }

    /// Whether it is metadata.
    pub fn is_metadata(&self) -> bool
        ensures { result ≡ self.now.shape.metadata }
    {
        self.shape.metadata
    }

    /// Puts a number into the bits of a field of a valid element.
    fn store(&mut self, element: u32, field: u32, value: u128)
        requires element { element < element_count self.old.shape }
        requires field { field < length self.old.shape.widths }
        requires valid { (element_in self.old element).valid ≡ true }
        requires value { value < 2 ^ slice_index self.old.shape.widths field }
        ensures { self.new ≡ with_element self.old element (with_field (element_in self.old element) field value) }
    {
        let place = self.shape.widths.get(field as usize);
        self.elements[element as usize].put(place, value);
    }

    /// Puts a number into a field; nothing where its element is invalid, or where there is no such field.
    pub fn put(&mut self, element: u32, field: u32, value: u128)
        requires { value < 2 ^ slice_index self.old.shape.widths field }
        ensures { self.new ≡ put_in self.old element field value }
    {
        if self.is_live(element, field) {
            self.store(element, field, value);
        }
    }

    /// Makes an element of a header valid or invalid, with all fields 0.
    fn clear(&mut self, element: u32, valid: bool)
        requires element { element < element_count self.old.shape }
        requires header { self.old.shape.metadata ≡ false }
        ensures { self.new ≡ with_element self.old element (cleared valid (element_in self.old element)) }
    {
        self.elements[element as usize].clear(valid);
    }

    /// Makes an element of a header valid or invalid, with all fields 0; nothing where there is no such element.
    pub fn put_cleared(&mut self, element: u32, valid: bool)
        requires { self.old.shape.metadata ≡ false }
        ensures { self.new ≡ with_element self.old element (cleared valid (element_in self.old element)) }
    {
        if element < self.shape.elements() {
            self.clear(element, valid);
        }
    }

    /// Makes an element of a header valid or invalid. Where that changes its validity, its fields become 0, and else
    /// nothing changes.
    pub fn put_valid(&mut self, element: u32, valid: bool)
        requires { self.old.shape.metadata ≡ false }
        ensures { self.new ≡ put_valid_in self.old element valid }
    {
        let changes = differ(self.is_valid(element), valid);
        if changes && element < self.shape.elements() {
            self.clear(element, valid);
        }
    }

    /// Makes an element valid, with the fields that lie at the front of these octets.
    pub fn fill(&mut self, element: u32, octets: &[u8])
        requires { total self.old.shape.widths ≤ 8 * length octets.now }
        ensures { self.new ≡ with_element self.old element (record { valid = true; numbers = numbers_in self.old.shape.widths (octet_bits octets.now) }) }
    {
        if element < self.shape.elements() {
            let room = self.shape.widths.octets();
            self.elements[element as usize].fill(&octets[..room]);
        }
    }

    /// A copy of an element. The one error is want of memory.
    pub fn element(&self, alloc: Global, element: u32) -> Result<PackedHeader, OutOfMemory>
        requires { element < element_count self.now.shape }
        ensures { IfOk result (HoldsHeader self.now.shape (element_in self.now element)) }
    {
        self.elements[element as usize].copy(alloc)
    }

    /// Puts a header in the place of an element; nothing where there is no such element.
    pub fn put_element(&mut self, element: u32, header: &PackedHeader)
        requires { IsPacked self.old.shape header.now }
        ensures { self.new ≡ with_element self.old element (header_in self.old.shape.widths header.now) }
    {
        if element < self.shape.elements() {
            self.elements[element as usize].assign(header);
        }
    }

    /// A copy of all elements. The one error is want of memory.
    pub fn elements(&self, alloc: Global) -> Result<PackedStack, OutOfMemory>
        ensures { IfOk result (HoldsStack self.now.shape self.now.instance.elements) }
    {
        Ok(PackedStack::of(copy_all(alloc, &self.elements)?))
    }

    /// Puts other elements in the place of all.
    pub fn put_elements(&mut self, stack: PackedStack)
        requires { ArePacked self.old.shape stack }
        ensures { self.new ≡ with_all self.old (map (header_in self.old.shape.widths) stack) }
    {
        self.elements = stack.into_elements();
    }

    /// The octets of an element: the bits of its fields, first field first, where these are whole octets; none where there is
    /// no such element.
    pub fn octets(&self, element: u32) -> &[u8]
        ensures none { element_count self.now.shape ≤ element → result.now ≡ [] }
        ensures bits { element < element_count self.now.shape → total self.now.shape.widths % 8 ≡ 0 → octet_bits result.now ≡ bits_in self.now.shape.widths (element_in self.now element).numbers }
    {
        match self.elements.get(element as usize) {
            Some(found) => found.octets(),
            None => &[],
        }
    }

    /// An instance is as its shape tells. It does nothing.
    pub fn fits(&self)
        ensures { FitsShape self.now.shape self.now.instance }
    {
        let _ = &self.elements;
    }

    /// Puts the place of the next element that is extracted.
    pub fn put_place(&mut self, place: u32)
        requires { place ≤ last_place self.old.shape }
        ensures { self.new ≡ with_place_of self.old place }
    {
        self.place = place;
    }

    /// Makes it an instance with all fields 0, invalid where it isn't metadata, at place 0. It takes no memory.
    pub fn renew(&mut self)
        ensures { self.new ≡ new_laid self.old.shape }
    {
        let count = self.elements.len();
        self.place = 0;
        empty_first(&mut self.elements, count, self.shape.metadata);
    }

    /// Makes all elements of a header invalid, with all fields 0, and its place 0. Metadata stays.
    pub fn begin(&mut self)
        ensures { self.new ≡ begun_of self.old }
    {
        if !self.shape.metadata {
            self.place = 0;
            empty_all(&mut self.elements);
        }
    }
}
