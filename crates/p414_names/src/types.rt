// Header types with the names of their fields.
ghost use Rattle.std.specs.Prelude.{◌≡◌, ◌%◌, true, false, map, sum_by, nat_eq, option_copied, IfOk, MatchOption};
ghost use Rattle.std.specs.List.{list_any};
ghost use Rattle.p414_syntax.specs.Names.{field_name, repeats};
ghost use Rattle.p414_syntax.specs.Fields.{field_bits, field_in, width_in, header_type_in, types, type_bits, is_rest_field};
ghost use Rattle.p414_syntax.specs.Twice.{has_field_twice};
ghost use Rattle.p414_names.specs.internal.Types.{IsTypePut, IsUpTo};
ghost use Rattle.p414_syntax.specs.Widths.{is_unaligned};

use crate::name_set::NameSet;
use p4x_bits::OutOfMemory;
use p414_syntax::{Decl, Field, FieldWidth, HeaderType};
use std::alloc::Global;
use std::marker::Model;

/// How many bits all headers have at most: 32,768 octets.
pub const MOST_HEADER_BITS: u128 = 262_144;

/// A header type with the names of its fields. Contracts see the header type.
#[derive(Drop)]
pub struct TypeFields<'a> {
    header_type: &'a HeaderType,
    names: NameSet<'a>,
    unaligned: bool,
    bits: Option<u128>,
}

impl<'a> Model for TypeFields<'a> {
    ghost use Rattle.p414_syntax.specs.Views.{HeaderTypeTree};
    ghost use Rattle.p414_syntax.specs.Code.{coded_header_type};

    ghost Value = { HeaderTypeTree };

    ghost coded = { coded_header_type };

    ghost use Rattle.p414_names.specs.internal.Types.{AreFacts};

    ghost view = { λ t. t.header_type.now };

    ghost invariant = { λ t. AreFacts t.header_type.now t.names t.unaligned t.bits };
}

/// The bits of a field; `*` counts as 0.
pub fn field_bits(field: &Field) -> u128
    ensures { result ≡ field_bits field.now }
{
    match field.width {
        FieldWidth::Bits(width) => width.value,
        FieldWidth::Rest => 0,
    }
}

/// Whether one of these fields has the width `*`.
fn some_rest(fields: &[Field]) -> bool
    ensures { result ≡ list_any is_rest_field fields.now }
{
    for field in fields {
        if is_rest_field(field) {
            return true;
        }
    }
    false
}

/// Whether a field has the width `*`.
fn is_rest_field(field: &Field) -> bool
    ensures { result ≡ is_rest_field field.now }
{
    matches!(field.width, FieldWidth::Rest)
}

/// Whether these fields have no bits.
fn have_no_bits(fields: &[Field]) -> bool
    ensures { result ≡ nat_eq (sum_by field_bits fields.now) 0 }
{
    for field in fields {
        if field_bits(field) != 0 {
            return false;
        }
    }
    true
}

/// The bits that these fields have beyond whole octets.
#[tactic(auto, using(crate::proofs::Sums::add_rest))]
fn loose_bits(fields: &[Field]) -> u128
    ensures { result ≡ sum_by field_bits fields.now % 8 }
{
    let mut rest = 0;
    for field in fields {
        rest = (rest + field_bits(field) % 8) % 8;
    }
    rest
}

/// Whether a type has no bits, or octets that aren't whole; not where a field has the width `*`.
fn is_unaligned(header_type: &HeaderType) -> bool
    ensures { result ≡ is_unaligned header_type.now }
{
    let fields = header_type.fields();
    !some_rest(fields) && (have_no_bits(fields) || loose_bits(fields) != 0)
}

/// The bits of these fields together, if they are no more than all headers may have.
#[tactic(auto, using(crate::proofs::Sums::over_now, crate::proofs::Sums::add_now))]
fn bits_up_to(fields: &[Field]) -> Option<u128>
    ensures { IsUpTo 262144 (sum_by field_bits fields.now) result }
{
    let mut total = 0;
    for field in fields {
        let bits = field_bits(field);
        if bits > MOST_HEADER_BITS - total {
            return None;
        }
        total += bits;
    }
    Some(total)
}

/// The names of fields; none where one stands twice.
fn field_names(alloc: Global, fields: &[Field]) -> Result<Option<NameSet<'_>>, OutOfMemory>
    ensures { IfOk result (λ found. MatchOption found (repeats (map field_name fields.now) ≡ true) (λ names. (repeats (map field_name fields.now) ≡ false) × (names ≡ map field_name fields.now))) }
{
    let mut names = NameSet::new(alloc);
    for field in fields {
        if !names.add(field.name.as_slice())? {
            return Ok(None);
        }
    }
    Ok(Some(names))
}

/// A header type with the names of its fields; none where two fields have one name.
fn type_fields(
    alloc: Global,
    header_type: &HeaderType,
) -> Result<Option<TypeFields<'_>>, OutOfMemory>
    ensures { IfOk result (λ found. MatchOption found (has_field_twice header_type.now ≡ true) (λ t. (has_field_twice header_type.now ≡ false) × (t ≡ header_type.now))) }
{
    match field_names(alloc, header_type.fields())? {
        Some(names) => Ok(Some(TypeFields {
            header_type,
            names,
            unaligned: is_unaligned(header_type),
            bits: bits_up_to(header_type.fields()),
        })),
        None => Ok(None),
    }
}

impl<'a> TypeFields<'a> {
    /// The header type.
    pub fn header_type(&self) -> &'a HeaderType
        ensures { result.now ≡ self.now }
    {
        self.header_type
    }

    /// Whether the type has no bits, or octets that aren't whole; not where a field has the width `*`.
    pub fn is_unaligned(&self) -> bool
        ensures { result ≡ is_unaligned self.now }
    {
        self.unaligned
    }

    /// The bits of the type together, if they are no more than all headers may have.
    pub fn bits(&self) -> Option<u128>
        ensures { IsUpTo 262144 (type_bits self.now) result }
    {
        self.bits
    }

    /// The field of a name.
    fn field(&self, name: &[u8]) -> Option<&'a Field>
        ensures { option_copied result ≡ field_in self.now name.now }
    {
        match self.names.find(name) {
            Some(place) => self.header_type.fields().get(place),
            None => None,
        }
    }

    /// The bits of the field of a name, if there is one; `*` counts as 0.
    pub fn width_of(&self, name: &[u8]) -> Option<u128>
        ensures { result ≡ width_in self.now name.now }
    {
        match self.field(name) {
            Some(field) => Some(field_bits(field)),
            None => None,
        }
    }
}

/// Puts the header type of a declaration behind these, if it is one; false where two of its fields have one name.
fn add_type<'a>(
    alloc: Global,
    found: &mut Vec<TypeFields<'a>>,
    decl: &'a Decl,
) -> Result<bool, OutOfMemory>
    ensures { IfOk result (λ fresh. IsTypePut found.old.items found.new.items (header_type_in decl.now) fresh) }
{
    let Decl::HeaderType(header_type) = decl else {
        return Ok(true);
    };
    match type_fields(alloc, header_type)? {
        Some(fields) => {
            found.push(fields)?;
            Ok(true)
        }
        None => Ok(false),
    }
}

/// The header types of a program with the names of their fields; none where two fields of a type have one name.
pub fn types_of(alloc: Global, decls: &[Decl]) -> Result<Option<Vec<TypeFields<'_>>>, OutOfMemory>
    ensures { IfOk result (λ found. MatchOption found (list_any has_field_twice (types decls.now) ≡ true) (λ ts. (list_any has_field_twice (types decls.now) ≡ false) × (ts.items ≡ types decls.now))) }
{
    let mut found = Vec::new(alloc);
    for decl in decls {
        if !add_type(alloc, &mut found, decl)? {
            return Ok(None);
        }
    }
    Ok(Some(found))
}
