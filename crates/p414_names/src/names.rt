// The names of a program, sort by sort.
ghost use Rattle.std.specs.Prelude.{◌≡◌, true, false, map, take, option_copied, slice_get, length, ◌<◌, ◌≤◌, IfOk, IfSome, MatchOption};
ghost use Rattle.std.specs.List.{list_any};
ghost use Rattle.p414_syntax.specs.References.{referred};
ghost use Rattle.p414_syntax.specs.Names.{names_in, number_of, declaration_of, is_declared};
ghost use Rattle.p414_syntax.specs.Twice.{sorts, repeats_in, has_field_twice, declares_twice};
ghost use Rattle.p414_syntax.specs.Fields.{types, type_of, type_bits, instance_of, type_name_in, size_in, is_header_in, is_instance, is_header, stack_size, instance_type, width_in_type, width_of, ref_width};
ghost use Rattle.std.specs.Option.{option_map_or};
ghost use Rattle.p414_syntax.specs.Widths.{is_unaligned};
ghost use Rattle.p414_syntax.specs.Totals.{bits_of_type};
ghost use Rattle.p414_names.specs.internal.Types.{IsUpTo};
ghost use Rattle.p414_names.specs.internal.Tables.{scopes, type_name_of, declared_width, width_at};

use crate::primitives::{is_standard, standard_width};
use crate::scope::{Scope, scope_of};
use crate::twice::some_repeat_within;
use crate::types::{TypeFields, types_of};
use p4x_bits::{OutOfMemory, Text};
use p414_syntax::{Decl, HeaderType, Literal, Ref, Sort};
use std::alloc::Global;
use std::marker::Model;

/// The sorts in order.
const SORTS: [Sort; 8] = [
    Sort::HeaderType,
    Sort::Instance,
    Sort::Parse,
    Sort::Action,
    Sort::Table,
    Sort::List,
    Sort::Calculation,
    Sort::Object,
];

/// How many declarations a program has at most: their numbers have 32 bits.
const MOST_DECLS: usize = 0xffff_ffff;

/// The names of a program, sort by sort, with what they are declared by. Contracts see the declarations of the program.
pub struct Names14<'a> {
    decls: &'a [Decl],
    scopes: Vec<Scope<'a>>,
    types: Vec<TypeFields<'a>>,
}

impl Drop for Names14<'_> {
    fn drop(self) {
        let Names14 {
            decls: _decls,
            scopes: _scopes,
            types: _types,
        } = self;
    }
}

impl<'a> Model for Names14<'a> {
    ghost use Rattle.std.specs.Prelude.{List};
    ghost use Rattle.p414_syntax.specs.declared.syntax.Decl.{Decl};
    ghost use Rattle.p414_names.specs.internal.Tables.{AreTables};
    ghost use Rattle.std.specs.Coded.{codes};
    ghost use Rattle.p414_syntax.specs.contracts.syntax.Decl as declaration;

    ghost Value = { List Decl };

    ghost coded = { Prim.hlevel (codes, declaration.the_row.coded) };

    ghost view = { λ n. n.decls.now };

    ghost invariant = { λ n. AreTables n.decls.now n.scopes.items n.types.items };
}

/// The names of these sorts; none where a name is declared twice in one of them.
fn scopes_of<'a>(
    alloc: Global,
    sorts: &[Sort],
    decls: &'a [Decl],
) -> Result<Option<Vec<Scope<'a>>>, OutOfMemory>
    ensures { IfOk result (λ found. MatchOption found (list_any (repeats_in decls.now) sorts.now ≡ true) (λ ss. (list_any (repeats_in decls.now) sorts.now ≡ false) × (ss.items ≡ scopes decls.now sorts.now))) }
{
    let mut found = Vec::new(alloc);
    for sort in sorts {
        match scope_of(alloc, *sort, decls)? {
            Some(scope) => found.push(scope)?,
            None => return Ok(None),
        }
    }
    Ok(Some(found))
}

/// The bits of a field of the header type with this number, if it has one.
fn width_at(types: &[TypeFields<'_>], number: usize, field: &[u8]) -> Option<u128>
    ensures { result ≡ width_at types.now number field.now }
{
    match types.get(number) {
        Some(found) => found.width_of(field),
        None => None,
    }
}

/// The header type with this number.
fn type_at<'a>(types: &[TypeFields<'a>], number: usize) -> Option<&'a HeaderType>
    ensures { option_copied result ≡ slice_get types.now number }
{
    match types.get(number) {
        Some(found) => Some(found.header_type()),
        None => None,
    }
}

/// Whether the header type with this number has no bits, or octets that aren't whole.
fn is_unaligned_at(types: &[TypeFields<'_>], number: usize) -> bool
    ensures { result ≡ option_map_or is_unaligned (slice_get types.now number) false }
{
    match types.get(number) {
        Some(found) => found.is_unaligned(),
        None => false,
    }
}

/// The bits of the header type with this number, if they are no more than all headers may have.
fn bits_at(types: &[TypeFields<'_>], number: usize) -> Option<u128>
    ensures { IsUpTo 262144 (option_map_or type_bits (slice_get types.now number) 0) result }
{
    match types.get(number) {
        Some(found) => found.bits(),
        None => Some(0),
    }
}

/// The name of the type of an instance.
fn type_name_in(decl: &Decl) -> Option<&Text>
    ensures { option_copied result ≡ type_name_in decl.now }
{
    match decl {
        Decl::Header(declared) => Some(&declared.header_type),
        Decl::Metadata(declared) => Some(&declared.header_type),
        _ => None,
    }
}

/// The number of elements of a stack.
pub fn size_in(decl: &Decl) -> Option<Literal>
    ensures { result ≡ size_in decl.now }
{
    match decl {
        Decl::Header(declared) => declared.size,
        _ => None,
    }
}

/// Whether a declaration is that of a header or a header stack.
fn is_header_in(decl: &Decl) -> bool
    ensures { result ≡ is_header_in decl.now }
{
    matches!(decl, Decl::Header(_))
}

/// The names of a program; none where a name is declared twice in its sort (C1). More declarations than numbers of 32
/// bits can tell apart are want of memory.
pub fn names_of(alloc: Global, decls: &[Decl]) -> Result<Option<Names14<'_>>, OutOfMemory>
    ensures { IfOk result (λ found. MatchOption found (declares_twice decls.now ≡ true) (λ names. (declares_twice decls.now ≡ false) × (names ≡ decls.now))) }
{
    if decls.len() > MOST_DECLS {
        return Err(OutOfMemory);
    }
    if some_repeat_within(alloc, decls)? {
        return Ok(None);
    }
    let Some(scopes) = scopes_of(alloc, &SORTS, decls)? else {
        return Ok(None);
    };
    let Some(types) = types_of(alloc, decls)? else {
        return Ok(None);
    };
    Ok(Some(Names14 {
        decls,
        scopes,
        types,
    }))
}

impl<'a> Names14<'a> {
    /// All declarations of the program, in the order of the text.
    pub fn decls(&self) -> &'a [Decl]
        ensures { result.now ≡ self.now }
    {
        self.decls
    }

    /// The names of a sort.
    fn scope(&self, sort: Sort) -> &Scope<'a>
        ensures is { result.now ≡ (sort, self.now) }
        ensures few { length self.now ≤ 4294967295 }
    {
        match sort {
            Sort::HeaderType => &self.scopes[0],
            Sort::Instance => &self.scopes[1],
            Sort::Parse => &self.scopes[2],
            Sort::Action => &self.scopes[3],
            Sort::Table => &self.scopes[4],
            Sort::List => &self.scopes[5],
            Sort::Calculation => &self.scopes[6],
            Sort::Object => &self.scopes[7],
        }
    }

    /// The number of a name in a sort, from 0 in the order of the text; none where the sort doesn't have it.
    #[tactic(auto, using(crate::proofs::Numbers::number_below))]
    pub fn number_of(&self, sort: Sort, name: &[u8]) -> Option<usize>
        ensures is { result ≡ number_of sort self.now name.now }
        ensures fits { IfSome result (λ number. number < 4294967296) }
    {
        self.scope(sort).find(name)
    }

    /// The number of a name in a sort, from 0 in the order of declaration; none exactly where no declaration of the sort
    /// has the name.
    pub fn find(&self, sort: Sort, name: &[u8]) -> Option<u32>
        ensures { result ≡ number_of sort self.now name.now }
    {
        match self.number_of(sort, name) {
            Some(number) => Some(number as u32),
            None => None,
        }
    }

    /// The declaration of a name in a sort; none where the sort doesn't have it.
    pub fn declaration_of(&self, sort: Sort, name: &[u8]) -> Option<&'a Decl>
        ensures { option_copied result ≡ declaration_of sort self.now name.now }
    {
        self.scope(sort).declaration(name)
    }

    /// Whether the sort has the name.
    pub fn is_declared(&self, sort: Sort, name: &[u8]) -> bool
        ensures { result ≡ is_declared sort self.now name.now }
    {
        self.number_of(sort, name).is_some()
    }

    /// The bits of a field of the header type with a name, if it has one.
    pub fn width_in_type(&self, header_type: &[u8], field: &[u8]) -> Option<u128>
        ensures { result ≡ width_in_type self.now header_type.now field.now }
    {
        match self.number_of(Sort::HeaderType, header_type) {
            Some(number) => width_at(&self.types, number, field),
            None => None,
        }
    }

    /// The header type of a name.
    pub fn type_of(&self, name: &[u8]) -> Option<&'a HeaderType>
        ensures { option_copied result ≡ type_of self.now name.now }
    {
        match self.number_of(Sort::HeaderType, name) {
            Some(number) => type_at(&self.types, number),
            None => None,
        }
    }

    /// Whether the header type of a name has no bits, or octets that aren't whole; not where a field has the width `*`.
    pub fn is_unaligned_type(&self, name: &[u8]) -> bool
        ensures { result ≡ option_map_or is_unaligned (type_of self.now name.now) false }
    {
        match self.number_of(Sort::HeaderType, name) {
            Some(number) => is_unaligned_at(&self.types, number),
            None => false,
        }
    }

    /// The bits of the header type of a name together, if they are no more than all headers may have; 0 where no type has
    /// the name.
    pub fn bits_of_type(&self, name: &[u8]) -> Option<u128>
        ensures { IsUpTo 262144 (bits_of_type self.now name.now) result }
    {
        match self.number_of(Sort::HeaderType, name) {
            Some(number) => bits_at(&self.types, number),
            None => Some(0),
        }
    }

    /// The name of the type of an instance; `standard_metadata` has none.
    fn type_name(&self, instance: &[u8]) -> Option<&'a Text>
        ensures { option_copied result ≡ type_name_of self.now instance.now }
    {
        match self.declaration_of(Sort::Instance, instance) {
            Some(decl) => type_name_in(decl),
            None => None,
        }
    }

    /// The type of an instance; `standard_metadata` has none.
    pub fn instance_type(&self, instance: &[u8]) -> Option<&'a HeaderType>
        ensures { option_copied result ≡ instance_type self.now instance.now }
    {
        match self.type_name(instance) {
            Some(name) => self.type_of(name.as_slice()),
            None => None,
        }
    }

    /// Whether an instance has the name; every program has `standard_metadata`.
    pub fn is_instance(&self, name: &[u8]) -> bool
        ensures { result ≡ is_instance self.now name.now }
    {
        is_standard(name) || self.is_declared(Sort::Instance, name)
    }

    /// Whether the instance with a name is a header or a header stack.
    pub fn is_header(&self, name: &[u8]) -> bool
        ensures { result ≡ is_header self.now name.now }
    {
        match self.declaration_of(Sort::Instance, name) {
            Some(decl) => is_header_in(decl),
            None => false,
        }
    }

    /// The number of elements of the stack with a name, if it is one.
    pub fn stack_size(&self, name: &[u8]) -> Option<Literal>
        ensures { result ≡ stack_size self.now name.now }
    {
        match self.declaration_of(Sort::Instance, name) {
            Some(decl) => size_in(decl),
            None => None,
        }
    }

    /// The bits of a field of a declared instance, if it has one.
    fn declared_width(&self, instance: &[u8], field: &[u8]) -> Option<u128>
        ensures { result ≡ declared_width self.now instance.now field.now }
    {
        match self.type_name(instance) {
            Some(name) => self.width_in_type(name.as_slice(), field),
            None => None,
        }
    }

    /// The bits of a field of an instance, if it has one; those of width `*`, and those of standard metadata that are left
    /// out, count as 0.
    pub fn width_of(&self, instance: &[u8], field: &[u8]) -> Option<u128>
        ensures { result ≡ width_of self.now instance.now field.now }
    {
        if is_standard(instance) {
            standard_width(field)
        } else {
            self.declared_width(instance, field)
        }
    }

    /// The bits of the field that a reference names, if there is one.
    pub fn ref_width(&self, named: &Ref) -> Option<u128>
        ensures { result ≡ ref_width self.now named.now }
    {
        self.width_of(named.instance.name.as_slice(), named.field.as_slice())
    }
}
