// What field lists have by themselves.
ghost use Rattle.std.specs.Prelude.{◌≡◌, ◌++◌, ◌∷◌, [], is_some, length, map, option_to_list, IfOk, OnOk};
ghost use Rattle.std.specs.List.{list_any};
ghost use Rattle.std.specs.Option.{option_map_or};
ghost use Rattle.p414_syntax.specs.declared.syntax.Sort.TheVariants as sort;
ghost use Rattle.p414_syntax.specs.Names.{declared_in, has_name, initial_name};
ghost use Rattle.p414_syntax.specs.Primitives.{ports, counts};
ghost use Rattle.p414_syntax.specs.Distinct.{distinct};
ghost use Rattle.p414_syntax.specs.Fields.{instance_type, width_of};
ghost use Rattle.p414_syntax.specs.Totals.{field_count};
ghost use Rattle.p414_syntax.specs.Targets.{is_metadata};
ghost use Rattle.p414_syntax.specs.Expansion.{fields_of, inner_number, list_in};
ghost use Rattle.p414_syntax.specs.Preserved.{initialized_in, initialized};
ghost use Rattle.p414_syntax.specs.Payloads.{is_payload};
ghost use Rattle.p414_preserved_check.specs.internal.Marks.{one_if, own_has, own_mark, own_marks};
ghost use Rattle.p414_preserved_check.specs.internal.Asking.{has_fields, fills_by, is_no_metadata, no_metadata_by, initial_set, initial_sets, set_has, is_field, some_initial, initialized_by, asked_of};

use crate::named::add_name;
use p4x_bits::OutOfMemory;
use p414_list_check::inner_number;
use p414_names::{NameSet, Names14, is_among, is_standard};
use p414_syntax::{Decl, Initial, Item, Sort};
use std::alloc::Global;

/// The fields of standard metadata.
const STANDARD_FIELDS: [&[u8]; 5] = [
    b"ingress_port",
    b"egress_spec",
    b"egress_port",
    b"packet_length",
    b"instance_type",
];

/// What is asked of the items of field lists.
#[derive(Clone, Copy, Drop)]
pub enum Asked {
    /// Whether it is anything other than a field of metadata.
    NoMetadata,
    /// Whether it is a field that has an initial value.
    Initialized,
    /// Whether it is `payload`.
    Payload,
    /// Whether it is there.
    Anything,
}

/// How many fields the type of an instance has.
fn type_field_count(names: &Names14<'_>, name: &[u8]) -> usize
    ensures { result ≡ option_map_or field_count (instance_type names.now name.now) 0 }
{
    match names.instance_type(name) {
        Some(found) => found.fields().len(),
        None => 0,
    }
}

/// How many fields an instance has. Standard metadata has five.
fn field_count(names: &Names14<'_>, name: &[u8]) -> usize
    ensures { result ≡ length (fields_of names.now name.now) }
{
    if is_standard(name) {
        5
    } else {
        type_field_count(names, name)
    }
}

/// Whether an instance has a field.
fn has_fields(names: &Names14<'_>, name: &[u8]) -> bool
    ensures { result ≡ has_fields names.now name.now }
{
    field_count(names, name) > 0
}

/// Whether an item that is no list comes to anything.
pub fn fills_by(names: &Names14<'_>, item: &Item) -> bool
    ensures { result ≡ fills_by names.now item.now }
{
    match item {
        Item::Instance(instance) => has_fields(names, instance.name.as_slice()),
        _ => true,
    }
}

/// Whether an item is `payload`.
pub fn is_payload(item: &Item) -> bool
    ensures { result ≡ is_payload item.now }
{
    matches!(item, Item::Payload)
}

/// Whether an instance is metadata that the program declares.
fn is_metadata(names: &Names14<'_>, name: &[u8]) -> bool
    ensures { result ≡ is_metadata names.now name.now }
{
    match names.declaration_of(Sort::Instance, name) {
        Some(Decl::Metadata(_)) => true,
        _ => false,
    }
}

/// Whether an instance is no metadata.
fn is_no_metadata(names: &Names14<'_>, name: &[u8]) -> bool
    ensures { result ≡ is_no_metadata names.now name.now }
{
    !(is_standard(name) || is_metadata(names, name))
}

/// Whether an item that is no list comes to anything other than fields of metadata.
fn no_metadata_by(names: &Names14<'_>, item: &Item) -> bool
    ensures { result ≡ no_metadata_by names.now item.now }
{
    match item {
        Item::Instance(instance) => {
            has_fields(names, instance.name.as_slice())
                && is_no_metadata(names, instance.name.as_slice())
        }
        Item::Field(field) => is_no_metadata(names, field.instance.name.as_slice()),
        _ => true,
    }
}

/// The names of the fields that these initial values are for, each once.
#[tactic(auto, using(crate::proofs::Once::put_now))]
fn initials_of(alloc: Global, initials: &[Initial]) -> Result<NameSet<'_>, OutOfMemory>
    ensures { IfOk result (λ set. set ≡ distinct (map initial_name initials.now)) }
{
    let mut set = NameSet::new(alloc);
    for initial in initials {
        add_name(&mut set, initial.field.as_slice())?;
    }
    Ok(set)
}

/// Puts the set of a declaration behind these, if it declares an instance.
fn add_set<'a>(
    alloc: Global,
    sets: &mut Vec<NameSet<'a>>,
    decl: &'a Decl,
) -> Result<(), OutOfMemory>
    ensures { OnOk result (sets.new.items ≡ sets.old.items ++ map initial_set (declared_in sort.Instance (decl.now ∷ []))) }
{
    match decl {
        Decl::Header(_) => {
            sets.push(NameSet::new(alloc))?;
            Ok(())
        }
        Decl::Metadata(declared) => {
            sets.push(initials_of(alloc, declared.initial_values())?)?;
            Ok(())
        }
        _ => Ok(()),
    }
}

/// Of each instance, by its number, the names of the fields that have an initial value.
#[tactic(auto, using(crate::proofs::Loops::set_now))]
pub fn initial_sets(alloc: Global, decls: &[Decl]) -> Result<Vec<NameSet<'_>>, OutOfMemory>
    ensures { IfOk result (λ sets. sets.items ≡ initial_sets decls.now) }
{
    let mut sets = Vec::new(alloc);
    for decl in decls {
        add_set(alloc, &mut sets, decl)?;
    }
    Ok(sets)
}

/// Whether a field of an instance has an initial value.
fn set_has(names: &Names14<'_>, sets: &[NameSet<'_>], name: &[u8], field: &[u8]) -> bool
    ensures { result ≡ set_has names.now sets.now name.now field.now }
{
    match names.number_of(Sort::Instance, name) {
        Some(number) => match sets.get(number) {
            Some(set) => set.has(field),
            None => false,
        },
        None => false,
    }
}

/// Whether standard metadata has a field of a name.
fn is_standard_field(field: &[u8]) -> bool
    ensures { result ≡ has_name (ports ++ counts) field.now }
{
    is_among(field, &STANDARD_FIELDS)
}

/// Whether a field of an instance has a width.
fn has_width(names: &Names14<'_>, name: &[u8], field: &[u8]) -> bool
    ensures { result ≡ is_some (width_of names.now name.now field.now) }
{
    names.width_of(name, field).is_some()
}

/// Whether an instance has a field of a name. Those of standard metadata that are left out are none.
fn is_field(names: &Names14<'_>, name: &[u8], field: &[u8]) -> bool
    ensures { result ≡ is_field names.now name.now field.now }
{
    if is_standard(name) {
        is_standard_field(field)
    } else {
        has_width(names, name, field)
    }
}

/// Whether one of these initial values is that of a field.
#[tactic(auto, using(crate::proofs::Loops::any_mapped))]
fn some_initial_in(names: &Names14<'_>, name: &[u8], initials: &[Initial]) -> bool
    ensures { result ≡ list_any (is_field names.now name.now) (map initial_name initials.now) }
{
    for initial in initials {
        if is_field(names, name, initial.field.as_slice()) {
            return true;
        }
    }
    false
}

/// Whether an instance has a field with an initial value. In a program where each initial value is that of a field the
/// first one tells.
fn some_initial(names: &Names14<'_>, name: &[u8]) -> bool
    ensures { result ≡ some_initial names.now name.now }
{
    match names.declaration_of(Sort::Instance, name) {
        Some(Decl::Metadata(declared)) => some_initial_in(names, name, declared.initial_values()),
        _ => false,
    }
}

/// Whether an item that is no list comes to a field with an initial value.
fn initialized_by(names: &Names14<'_>, sets: &[NameSet<'_>], item: &Item) -> bool
    ensures { result ≡ initialized_by names.now sets.now item.now }
{
    match item {
        Item::Instance(instance) => some_initial(names, instance.name.as_slice()),
        Item::Field(field) => set_has(
            names,
            sets,
            field.instance.name.as_slice(),
            field.field.as_slice(),
        ),
        _ => false,
    }
}

/// What is asked of an item that is no list.
fn asked_of(names: &Names14<'_>, sets: &[NameSet<'_>], asked: Asked, item: &Item) -> bool
    ensures { result ≡ asked_of names.now sets.now asked item.now }
{
    match asked {
        Asked::NoMetadata => no_metadata_by(names, item),
        Asked::Initialized => initialized_by(names, sets, item),
        Asked::Payload => is_payload(item),
        Asked::Anything => fills_by(names, item),
    }
}

/// Whether an item is no list, and it is so.
fn own_has(names: &Names14<'_>, sets: &[NameSet<'_>], asked: Asked, item: &Item) -> bool
    ensures { result ≡ own_has names.now (asked_of names.now sets.now asked) item.now }
{
    if inner_number(names, item).is_some() {
        false
    } else {
        asked_of(names, sets, asked, item)
    }
}

/// Whether that is so of one of these items.
#[tactic(auto, using(crate::proofs::Loops::any_next))]
fn some_own(names: &Names14<'_>, sets: &[NameSet<'_>], asked: Asked, items: &[Item]) -> bool
    ensures { result ≡ list_any (own_has names.now (asked_of names.now sets.now asked)) items.now }
{
    for item in items {
        if own_has(names, sets, asked, item) {
            return true;
        }
    }
    false
}

/// One where it is so.
fn one_if(is_so: bool) -> u64
    ensures { result ≡ one_if is_so }
{
    if is_so { 1 } else { 0 }
}

/// Puts the mark of a declaration behind these, if it is a list.
fn add_mark(
    found: &mut Vec<u64>,
    names: &Names14<'_>,
    sets: &[NameSet<'_>],
    asked: Asked,
    decl: &Decl,
) -> Result<(), OutOfMemory>
    ensures { OnOk result (found.new.items ≡ found.old.items ++ map (own_mark names.now (asked_of names.now sets.now asked)) (option_to_list (list_in decl.now))) }
{
    if let Decl::FieldList(declared) = decl {
        found.push(one_if(some_own(names, sets, asked, declared.items.as_slice())))?;
    }
    Ok(())
}

/// For each list, by its number, 1 where what is asked is so of an item that it has by itself, else 0.
#[tactic(auto, using(p414_list_check::proofs::Loops::list_now))]
pub fn own_marks(
    alloc: Global,
    names: &Names14<'_>,
    sets: &[NameSet<'_>],
    asked: Asked,
) -> Result<Vec<u64>, OutOfMemory>
    ensures { IfOk result (λ found. found.items ≡ own_marks names.now (asked_of names.now sets.now asked)) }
{
    let mut found = Vec::new(alloc);
    for decl in names.decls() {
        add_mark(&mut found, names, sets, asked, decl)?;
    }
    Ok(found)
}
