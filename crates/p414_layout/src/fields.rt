// The fields of an instance, side by side.
ghost use Rattle.std.specs.Prelude.{◌≡◌, ℕ, ◌+◌, ◌<◌, ◌≤◌, false, map, length, slice_index, IfOk};
ghost use Rattle.std.specs.List.{list_any};
ghost use Rattle.p414_syntax.specs.Fields.{field_bits};
ghost use Rattle.p414_syntax.specs.Widths.{is_bad_field};
ghost use Rattle.p414_layout.specs.Placed.{total, octets_for, bits_before, place_width, ArePlaced};

use p4x_bits::OutOfMemory;
use p414_syntax::{Field, FieldWidth};
use std::alloc::Global;
use std::marker::Model;

/// Where a field lies among the bits of its header, first field first.
#[derive(Clone, Copy, PartialEq, Eq, Drop)]
pub struct FieldPlace {
    /// The bits in front of it.
    pub at: usize,
    /// Its bits, 0 to 128.
    pub width: u8,
}

/// Where the fields of an instance lie, side by side in order. Contracts see their widths.
#[derive(Drop)]
pub struct FieldPlaces {
    places: Vec<FieldPlace>,
    bits: usize,
}

impl Model for FieldPlaces {
    ghost use Rattle.std.specs.Prelude.{List, ℕ, map};
    ghost use Rattle.p414_layout.specs.Placed.{place_width, ArePlaced};

    ghost Value = { List ℕ };

    ghost view = { λ f. map place_width f.places.items };

    ghost invariant = { λ f. ArePlaced 0 f.places.items f.bits };
}

/// The bits of a field; `*` counts as 0.
#[tactic(auto, using(crate::proofs::Widths::width_good))]
fn width_of(field: &Field) -> u8
    requires { is_bad_field field.now ≡ false }
    ensures is { result ≡ field_bits field.now }
    ensures fits { result ≤ 128 }
{
    match field.width {
        FieldWidth::Bits(width) => width.value as u8,
        FieldWidth::Rest => 0,
    }
}

/// Where a field of so many bits ends; want of memory where no address is that great.
fn end_of(at: usize, width: u8) -> Result<usize, OutOfMemory>
    ensures { IfOk result (λ end. end ≡ at + width) }
{
    match at.checked_add(width as usize) {
        Some(end) => Ok(end),
        None => Err(OutOfMemory),
    }
}

impl FieldPlaces {
    /// Where these fields lie; `*` counts as 0 bits. The one error is want of memory.
    #[tactic(auto, using(crate::proofs::Widths::field_good))]
    pub fn new(alloc: Global, fields: &[Field]) -> Result<FieldPlaces, OutOfMemory>
        requires { list_any is_bad_field fields.now ≡ false }
        ensures { IfOk result (λ places. places ≡ map field_bits fields.now) }
    {
        let mut places = Vec::with_capacity(alloc, fields.len())?;
        let mut bits = 0usize;
        for field in fields {
            let width = width_of(field);
            places.push(FieldPlace { at: bits, width })?;
            bits = end_of(bits, width)?;
        }
        Ok(FieldPlaces { places, bits })
    }

    /// The same again. The one error is want of memory.
    pub fn copy(&self, alloc: Global) -> Result<FieldPlaces, OutOfMemory>
        ensures { IfOk result (λ places. places ≡ self.now) }
    {
        Ok(FieldPlaces {
            places: Vec::from_slice(alloc, &self.places)?,
            bits: self.bits,
        })
    }

    /// How many fields there are.
    pub fn len(&self) -> usize
        ensures { result ≡ length self.now }
    {
        self.places.len()
    }

    /// Where the field with this number lies.
    #[tactic(auto, using(crate::proofs::Placing::place_begins, crate::proofs::Placing::place_wide, crate::proofs::Placing::place_fits, crate::proofs::Placing::place_within))]
    pub fn get(&self, field: usize) -> FieldPlace
        requires { field < length self.now }
        ensures at { result.at ≡ bits_before self.now field }
        ensures width { result.width ≡ slice_index self.now field }
        ensures fits { result.width ≤ 128 }
        ensures within { result.at + result.width ≤ total self.now }
    {
        self.places[field]
    }

    /// The bits of all fields together.
    #[tactic(auto, using(crate::proofs::Placing::bits_are))]
    pub fn bits(&self) -> usize
        ensures { result ≡ total self.now }
    {
        self.bits
    }

    /// How many octets have the bits of all fields.
    #[tactic(auto, using(crate::proofs::Placing::bits_are))]
    pub fn octets(&self) -> usize
        ensures { result ≡ octets_for (total self.now) }
    {
        self.bits.div_ceil(8)
    }
}
