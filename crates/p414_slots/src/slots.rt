// Instances and fields by number.
ghost use Rattle.std.specs.Prelude.{◌≡◌, ◌^◌, ◌≤◌, option_and_then, option_copied, sum, IfOk, OnErr};
ghost use Rattle.p414_syntax.specs.Names.{number_of};
ghost use Rattle.p414_syntax.specs.declared.syntax.Sort.TheVariants as sort;
ghost use Rattle.p414_syntax.specs.ParserGraph.{instance_number};
ghost use Rattle.p414_sem.specs.Slots.{bits_of_ref, declared_slot, element_number, field_number, slot_of, standard_field};
ghost use Rattle.p414_sem.specs.Packing.{widths_of};
ghost use Rattle.p414_sem.specs.Parsing.{field_named};
ghost use Rattle.p414_slots.specs.Shown.{kept_slot};
ghost use Rattle.p414_slots.specs.internal.Found.{bits_by, fields_at, number_among, number_in, ref_to, slot_found, standard_named, type_named};

use crate::fields::{bits_of_types, fields_of_types, instance_names, type_name_in};
use crate::numbers::{narrow_number, narrow_width};
use crate::slot::FieldSlot;
use name_numbers::{Numbering, number_names};
use p4x_bits::{OutOfMemory, Text};
use p414_names::{Names14, is_standard};
use p414_sem::Standard;
use p414_syntax::{Index, Inst, Ref, Sort};
use std::alloc::Global;
use std::marker::Model;

const INGRESS_PORT: &[u8] = b"ingress_port";

const EGRESS_SPEC: &[u8] = b"egress_spec";

const EGRESS_PORT: &[u8] = b"egress_port";

const PACKET_LENGTH: &[u8] = b"packet_length";

const INSTANCE_TYPE: &[u8] = b"instance_type";

/// The instances and fields of a program by number. Contracts see the declarations of the program.
pub struct Slots<'n, 'a> {
    names: &'n Names14<'a>,
    fields: Vec<Numbering<'a>>,
    bits: Vec<u32>,
    instances: Numbering<'a>,
}

impl Drop for Slots<'_, '_> {
    fn drop(self) {
        let Slots {
            names: _names,
            fields: _fields,
            bits: _bits,
            instances: _instances,
        } = self;
    }
}

impl<'n, 'a> Model for Slots<'n, 'a> {
    ghost use Rattle.std.specs.Prelude.{List};
    ghost use Rattle.std.specs.Coded.{codes};
    ghost use Rattle.p414_syntax.specs.declared.syntax.Decl.{Decl};
    ghost use Rattle.p414_syntax.specs.contracts.syntax.Decl as declaration;
    ghost use Rattle.p414_slots.specs.internal.Found.{AreFound};

    ghost Value = { List Decl };

    ghost coded = { Prim.hlevel (codes, declaration.the_row.coded) };

    ghost view = { λ s. s.names.now };

    ghost invariant = { λ s. AreFound s.names.now s.fields.items s.bits.items s.instances };
}

/// The field of standard metadata with a name, if it isn't left out.
fn standard_field(name: &[u8]) -> Option<Standard>
    ensures { result ≡ standard_field name.now }
{
    if name == INGRESS_PORT {
        Some(Standard::IngressPort)
    } else if name == EGRESS_SPEC {
        Some(Standard::EgressSpec)
    } else if name == EGRESS_PORT {
        Some(Standard::EgressPort)
    } else if name == PACKET_LENGTH {
        Some(Standard::PacketLength)
    } else if name == INSTANCE_TYPE {
        Some(Standard::InstanceType)
    } else {
        None
    }
}

/// The field of standard metadata with these names, if it is one.
fn standard_named(instance: &[u8], field: &[u8]) -> Option<Standard>
    ensures { result ≡ standard_named instance.now field.now }
{
    if is_standard(instance) {
        standard_field(field)
    } else {
        None
    }
}

/// The number of a name among these, or how many there are.
fn number_among(numbering: &Numbering<'_>, name: &[u8]) -> Result<u32, OutOfMemory>
    ensures ok { IfOk result (λ number. number ≡ number_among numbering.now name.now) }
    ensures err { OnErr result (2 ^ 32 ≤ number_among numbering.now name.now) }
{
    match numbering.find(name) {
        Some(number) => Ok(number),
        None => narrow_number(numbering.len() as u128),
    }
}

/// The name of the type of an instance.
fn type_named<'a>(names: &Names14<'a>, instance: &[u8]) -> Option<&'a Text>
    ensures { option_copied result ≡ type_named names.now instance.now }
{
    match names.declaration_of(Sort::Instance, instance) {
        Some(decl) => type_name_in(decl),
        None => None,
    }
}

/// The number of the type of an instance.
fn type_number(names: &Names14<'_>, instance: &[u8]) -> Option<usize>
    ensures { result ≡ option_and_then (number_of sort.HeaderType names.now) (type_named names.now instance.now) }
{
    match type_named(names, instance) {
        Some(name) => names.number_of(Sort::HeaderType, name.as_slice()),
        None => None,
    }
}

/// The bits of the type with this number; 0 where there is none.
fn bits_by(bits: &[u32], number: Option<usize>) -> u32
    ensures { result ≡ bits_by bits.now number }
{
    match number {
        Some(number) => match bits.get(number) {
            Some(found) => *found,
            None => 0,
        },
        None => 0,
    }
}

/// The fields of an instance, by those of all types.
fn fields_at<'s, 'a>(
    names: &Names14<'_>,
    fields: &'s [Numbering<'a>],
    instance: &[u8],
) -> Option<&'s Numbering<'a>>
    ensures { option_copied result ≡ fields_at names.now fields.now instance.now }
{
    match type_number(names, instance) {
        Some(number) => fields.get(number),
        None => None,
    }
}

/// The number of a field of an instance, by the fields of all types; 0 where it has no type.
fn number_in(
    names: &Names14<'_>,
    fields: &[Numbering<'_>],
    instance: &[u8],
    field: &[u8],
) -> Result<u32, OutOfMemory>
    ensures { IfOk result (λ number. number ≡ number_in names.now fields.now instance.now field.now) }
{
    match fields_at(names, fields, instance) {
        Some(found) => number_among(found, field),
        None => Ok(0),
    }
}

/// The element that an index names; 0 where it is `next` or `last`, or none stands. One of 2^32 or more, which no program
/// has that breaks no rule, counts as want of memory, and that is the one error.
pub fn element_number(index: Option<Index>) -> Result<u32, OutOfMemory>
    ensures ok { IfOk result (λ element. element ≡ element_number index) }
    ensures err { OnErr result (2 ^ 32 ≤ element_number index) }
{
    match index {
        Some(Index::At(number)) => narrow_number(number.value),
        Some(Index::Next) => Ok(0),
        Some(Index::Last) => Ok(0),
        None => Ok(0),
    }
}

impl<'n, 'a> Slots<'n, 'a> {
    /// The instances and fields of the program of these names. In time O(n log n) in the program; the one error is want of
    /// memory, which a header type of 2^32 bits and more counts as: no program has one that breaks no rule.
    pub fn of(alloc: Global, names: &'n Names14<'a>) -> Result<Self, OutOfMemory>
        ensures { IfOk result (λ slots. slots ≡ names.now) }
    {
        let fields = fields_of_types(alloc, names.decls())?;
        let bits = bits_of_types(alloc, names.decls())?;
        let instances = instance_names(alloc, names.decls())?;
        Ok(Slots {
            names,
            fields,
            bits,
            instances: number_names(alloc, instances)?,
        })
    }

    /// The names of the program.
    pub fn names(&self) -> &'n Names14<'a>
        ensures { result.now ≡ self.now }
    {
        self.names
    }

    /// The number of an instance, from 0 in the order of declaration; that behind the last of a name that none has.
    pub fn instance(&self, name: &[u8]) -> Result<u32, OutOfMemory>
        ensures ok { IfOk result (λ number. number ≡ instance_number self.now name.now) }
        ensures err { OnErr result (2 ^ 32 ≤ instance_number self.now name.now) }
    {
        number_among(&self.instances, name)
    }

    /// The number of a field of an instance, from 0 in the order of its header type; that behind the last where it has none
    /// of the name.
    pub fn field(&self, instance: &[u8], field: &[u8]) -> Result<u32, OutOfMemory>
        ensures { IfOk result (λ number. number ≡ field_number self.now instance.now field.now) }
    {
        let number = number_in(self.names, &self.fields, instance, field)?;
        Ok(number)
    }

    /// The bits that the fields of an instance have together; 0 where no instance has the name.
    pub fn bits_of_fields(&self, instance: &[u8]) -> u32
        ensures { result ≡ sum (widths_of self.now instance.now) }
    {
        bits_by(&self.bits, type_number(self.names, instance))
    }

    /// A field of a declared instance.
    fn declared(
        &self,
        instance: &[u8],
        index: Option<Index>,
        field: &[u8],
    ) -> Result<FieldSlot, OutOfMemory>
        ensures { IfOk result (λ slot. slot ≡ kept_slot (declared_slot self.now (ref_to instance.now index field.now))) }
    {
        let number = self.instance(instance)?;
        let element = element_number(index)?;
        let field = self.field(instance, field)?;
        Ok(FieldSlot::Declared {
            instance: number,
            element,
            field,
        })
    }

    /// A field by names: one of standard metadata, or one that is declared.
    fn found(
        &self,
        instance: &[u8],
        index: Option<Index>,
        field: &[u8],
    ) -> Result<FieldSlot, OutOfMemory>
        ensures { IfOk result (λ slot. slot ≡ kept_slot (slot_found self.now (ref_to instance.now index field.now))) }
    {
        match standard_named(instance, field) {
            Some(which) => Ok(FieldSlot::Standard(which)),
            None => self.declared(instance, index, field),
        }
    }

    /// Where the field stands that a reference names. One of an element that is too large, which no program has that breaks
    /// no rule, counts as want of memory.
    pub fn slot(&self, named: &Ref) -> Result<FieldSlot, OutOfMemory>
        ensures { IfOk result (λ slot. slot ≡ kept_slot (slot_of self.now named.now)) }
    {
        self.slot_in(&named.instance, named.field.as_slice())
    }

    /// Where a field of an instance or of an element of a stack stands, by its name. One of an element that is too large,
    /// which no program has that breaks no rule, counts as want of memory.
    pub fn slot_in(&self, instance: &Inst, field: &[u8]) -> Result<FieldSlot, OutOfMemory>
        ensures { IfOk result (λ slot. slot ≡ kept_slot (slot_of self.now (record { instance = instance.now; field = field.now }))) }
    {
        let slot = self.found(instance.name.as_slice(), instance.index, field)?;
        Ok(slot)
    }

    /// Where a field of an instance stands, by their names; of a stack that of its first element.
    pub fn slot_of_field(&self, instance: &[u8], field: &[u8]) -> Result<FieldSlot, OutOfMemory>
        ensures { IfOk result (λ slot. slot ≡ kept_slot (slot_of self.now (field_named instance.now field.now))) }
    {
        let slot = self.found(instance, None, field)?;
        Ok(slot)
    }

    /// The bits of the field of an instance with a name; 0 where there is none.
    pub fn bits_of_field(&self, instance: &[u8], field: &[u8]) -> Result<u8, OutOfMemory>
        ensures ok { IfOk result (λ bits. bits ≡ bits_of_ref self.now (field_named instance.now field.now)) }
        ensures err { OnErr result (256 ≤ bits_of_ref self.now (field_named instance.now field.now)) }
    {
        narrow_width(self.names.width_of(instance, field).unwrap_or(0))
    }

    /// The bits of the field that a reference names; 0 where there is none.
    pub fn bits(&self, named: &Ref) -> Result<u8, OutOfMemory>
        ensures ok { IfOk result (λ bits. bits ≡ bits_of_ref self.now named.now) }
        ensures err { OnErr result (256 ≤ bits_of_ref self.now named.now) }
    {
        narrow_width(self.names.ref_width(named).unwrap_or(0))
    }
}
