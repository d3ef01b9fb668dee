// C21: conditions of calculated fields that read a calculated field.
ghost use Rattle.std.specs.Prelude.{◌≡◌, ℕ, ◌||◌, false, [], IfOk, OnOk};
ghost use Rattle.std.specs.List.{list_any};
ghost use Rattle.std.specs.Option.{option_map_or};
ghost use Rattle.p414_syntax.specs.declared.parts.Ref.{Ref};
ghost use Rattle.p414_syntax.specs.Lists.{calculated_in, calculated_fields};
ghost use Rattle.p414_syntax.specs.CalculatedFields.{is_same_field, is_field_of, is_calculated, reads_calculated, is_calculated_entry, has_calculated_entry, has_calculated_condition};
ghost use Rattle.p414_flat_check.specs.internal.Keys.{place_of, shown_key, key_of, is_same_key};

use indexmap::IndexSet;
use p4x_bits::OutOfMemory;
use p414_names::Names14;
use p414_syntax::{Calc, CalcCond, CalculatedField, Decl, Index, Ref};
use std::alloc::Global;
use std::marker::Model;

/// The kind and the number of an index. Each index has its own.
type Place = (u32, u128);

/// A field by the name of its instance, its index and its own name.
type Key<'a> = (&'a [u8], (Place, &'a [u8]));

/// The kind and the number of an index.
fn place_of(index: Option<Index>) -> Place
    ensures { result ≡ place_of index }
{
    match index {
        None => (0, 0),
        Some(Index::At(number)) => (1, number.value),
        Some(Index::Next) => (2, 0),
        Some(Index::Last) => (3, 0),
    }
}

/// A field by the names and the index that it is written with.
fn key_of(field: &Ref) -> Key<'_>
    ensures { shown_key result ≡ key_of field.now }
{
    let instance = field.instance.name.as_slice();
    (
        instance,
        (place_of(field.instance.index), field.field.as_slice()),
    )
}

/// Fields, each once. Contracts see the list of them.
#[derive(Drop)]
struct FieldSet<'a> {
    set: IndexSet<Key<'a>>,
}

impl<'a> Model for FieldSet<'a> {
    ghost use Rattle.std.specs.Prelude.{List, map};
    ghost use Rattle.p414_flat_check.specs.internal.Keys.{FieldKey, shown_key};

    ghost Value = { List FieldKey };

    ghost view = { λ s. map shown_key s.set.keys };
}

impl<'a> FieldSet<'a> {
    /// No fields. It takes no memory until a field is added.
    fn new(alloc: Global) -> Self
        ensures { result ≡ [] }
    {
        FieldSet {
            set: IndexSet::new(alloc),
        }
    }

    /// Whether the field is there.
    fn has(&self, field: &Ref) -> bool
        ensures { result ≡ list_any (is_same_key (key_of field.now)) self.now }
    {
        let key = key_of(field);
        self.set.contains(&key)
    }

    /// Puts the field there.
    fn add(&mut self, field: &'a Ref) -> Result<(), OutOfMemory>
        ensures { OnOk result ((r : Ref) → list_any (is_same_key (key_of r)) self.new ≡ (list_any (is_same_key (key_of r)) self.old || is_same_field r field.now)) }
    {
        let key = key_of(field);
        self.set.insert_full(key)?;
        Ok(())
    }
}

/// Puts the field of a declaration there, if it is a calculated field.
fn add_field<'a>(set: &mut FieldSet<'a>, decl: &'a Decl) -> Result<(), OutOfMemory>
    ensures { OnOk result ((r : Ref) → list_any (is_same_key (key_of r)) set.new ≡ (list_any (is_same_key (key_of r)) set.old || list_any (is_field_of r) (calculated_in decl.now))) }
{
    match decl {
        Decl::CalculatedField(declared) => set.add(&declared.field),
        _ => Ok(()),
    }
}

/// The calculated fields of these declarations.
fn fields_in(alloc: Global, decls: &[Decl]) -> Result<FieldSet<'_>, OutOfMemory>
    ensures { IfOk result (λ set. (r : Ref) → list_any (is_same_key (key_of r)) set ≡ is_calculated decls.now r) }
{
    let mut set = FieldSet::new(alloc);
    for decl in decls {
        add_field(&mut set, decl)?;
    }
    Ok(set)
}

/// The calculated fields of a program. Contracts see its declarations.
#[derive(Drop)]
struct Calculated<'a> {
    decls: &'a [Decl],
    set: FieldSet<'a>,
}

impl<'a> Model for Calculated<'a> {
    ghost use Rattle.std.specs.Prelude.{List};
    ghost use Rattle.p414_syntax.specs.declared.syntax.Decl.{Decl};
    ghost use Rattle.p414_flat_check.specs.internal.Keys.{AreCalculated};
    ghost use Rattle.std.specs.Coded.{codes};
    ghost use Rattle.p414_syntax.specs.contracts.syntax.Decl as declaration;

    ghost Value = { List Decl };

    ghost coded = { Prim.hlevel (codes, declaration.the_row.coded) };

    ghost view = { λ c. c.decls.now };

    ghost invariant = { λ c. AreCalculated c.decls.now c.set };
}

/// The calculated fields of a program.
fn calculated_of(alloc: Global, decls: &[Decl]) -> Result<Calculated<'_>, OutOfMemory>
    ensures { IfOk result (λ found. found ≡ decls.now) }
{
    let set = fields_in(alloc, decls)?;
    Ok(Calculated { decls, set })
}

impl<'a> Calculated<'a> {
    /// Whether a field is calculated.
    fn has(&self, field: &Ref) -> bool
        ensures { result ≡ is_calculated self.now field.now }
    {
        self.set.has(field)
    }
}

/// Whether a condition reads a calculated field.
fn reads_calculated(fields: &Calculated<'_>, condition: &CalcCond) -> bool
    ensures { result ≡ reads_calculated fields.now condition.now }
{
    match condition {
        CalcCond::Valid(_) => false,
        CalcCond::Equal(field, _) => fields.has(field),
    }
}

/// Whether the condition of an entry does.
fn is_calculated_entry(fields: &Calculated<'_>, entry: &Calc) -> bool
    ensures { result ≡ is_calculated_entry fields.now entry.now }
{
    match &entry.condition {
        Some(condition) => reads_calculated(fields, condition),
        None => false,
    }
}

/// Whether the condition of one of these entries does.
fn some_calculated_entry(fields: &Calculated<'_>, entries: &[Calc]) -> bool
    ensures { result ≡ list_any (is_calculated_entry fields.now) entries.now }
{
    for entry in entries {
        if is_calculated_entry(fields, entry) {
            return true;
        }
    }
    false
}

/// Whether a condition of a calculated field does.
fn has_calculated_entry(fields: &Calculated<'_>, declared: &CalculatedField) -> bool
    ensures { result ≡ has_calculated_entry fields.now declared.now }
{
    some_calculated_entry(fields, declared.entries.as_slice())
}

/// Whether a declaration is such a calculated field.
fn declares_calculated_entry(fields: &Calculated<'_>, decl: &Decl) -> bool
    ensures { result ≡ list_any (has_calculated_entry fields.now) (calculated_in decl.now) }
{
    match decl {
        Decl::CalculatedField(declared) => has_calculated_entry(fields, declared),
        _ => false,
    }
}

/// Whether one of these declarations is.
fn some_calculated_condition(fields: &Calculated<'_>, decls: &[Decl]) -> bool
    ensures { result ≡ list_any (has_calculated_entry fields.now) (calculated_fields decls.now) }
{
    for decl in decls {
        if declares_calculated_entry(fields, decl) {
            return true;
        }
    }
    false
}

/// Whether C21 is broken. Its time is proportional to the program.
pub fn has_calculated_condition(alloc: Global, names: &Names14<'_>) -> Result<bool, OutOfMemory>
    ensures { IfOk result (λ broken. broken ≡ has_calculated_condition names.now) }
{
    let decls = names.decls();
    let fields = calculated_of(alloc, decls)?;
    Ok(some_calculated_condition(&fields, decls))
}
