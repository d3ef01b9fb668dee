// C8: what needs no expansion.
ghost use Rattle.std.specs.Prelude.{◌≡◌, cond, count_by, nat_lt, option_copied};
ghost use Rattle.std.specs.List.{list_any};
ghost use Rattle.p414_syntax.specs.Lists.{is_bare_item, has_bare_number, is_update, is_verify, calculation_of, is_other_width, gives_other_width, condition_reads_standard, is_standard_condition, is_bad_calculated, calculated_in, calculated_fields, has_flat_fault};

use p414_names::{Names14, is_standard};
use p414_syntax::{
    Calc, CalcCond, CalcUse, CalculatedField, Decl, FieldListCalculation, Item, Ref, Sort,
};

/// How many entries of a calculated field update it at most, and how many verify it.
const MOST_ENTRIES: u32 = 16;

/// Whether an item is a number without a width prefix.
fn is_bare_item(item: &Item) -> bool
    ensures { result ≡ is_bare_item item.now }
{
    match item {
        Item::Number(number) => number.width.is_none(),
        _ => false,
    }
}

/// Whether one of these items is such a number.
fn some_bare_item(items: &[Item]) -> bool
    ensures { result ≡ list_any is_bare_item items.now }
{
    for item in items {
        if is_bare_item(item) {
            return true;
        }
    }
    false
}

/// Whether a declaration is a list with such a number.
fn has_bare_number(decl: &Decl) -> bool
    ensures { result ≡ has_bare_number decl.now }
{
    match decl {
        Decl::FieldList(declared) => some_bare_item(declared.items.as_slice()),
        _ => false,
    }
}

/// Whether one of these declarations is such a list.
fn some_bare_number(decls: &[Decl]) -> bool
    ensures { result ≡ list_any has_bare_number decls.now }
{
    for decl in decls {
        if has_bare_number(decl) {
            return true;
        }
    }
    false
}

/// The calculation with a name.
pub fn calculation_of<'a>(names: &Names14<'a>, name: &[u8]) -> Option<&'a FieldListCalculation>
    ensures { option_copied result ≡ calculation_of names.now name.now }
{
    match names.declaration_of(Sort::Calculation, name) {
        Some(Decl::FieldListCalculation(found)) => Some(found),
        _ => None,
    }
}

/// Whether a calculation gives another width than a field has.
fn is_other_width(names: &Names14<'_>, field: &Ref, calculation: &FieldListCalculation) -> bool
    ensures { result ≡ is_other_width names.now field.now calculation.now }
{
    match names.ref_width(field) {
        Some(width) => calculation.output_width.value != width,
        None => false,
    }
}

/// Whether the calculation of an entry gives another width than the field has.
fn gives_other_width(names: &Names14<'_>, field: &Ref, entry: &Calc) -> bool
    ensures { result ≡ gives_other_width names.now field.now entry.now }
{
    match calculation_of(names, entry.calculation.as_slice()) {
        Some(calculation) => is_other_width(names, field, calculation),
        None => false,
    }
}

/// Whether that is so of one of these entries.
fn some_other_width(names: &Names14<'_>, field: &Ref, entries: &[Calc]) -> bool
    ensures { result ≡ list_any (gives_other_width names.now field.now) entries.now }
{
    for entry in entries {
        if gives_other_width(names, field, entry) {
            return true;
        }
    }
    false
}

/// Whether a condition reads standard metadata.
fn condition_reads_standard(condition: &CalcCond) -> bool
    ensures { result ≡ condition_reads_standard condition.now }
{
    match condition {
        CalcCond::Valid(instance) => is_standard(instance.name.as_slice()),
        CalcCond::Equal(field, _) => is_standard(field.instance.name.as_slice()),
    }
}

/// Whether the condition of an entry reads standard metadata.
fn is_standard_condition(entry: &Calc) -> bool
    ensures { result ≡ is_standard_condition entry.now }
{
    match &entry.condition {
        Some(condition) => condition_reads_standard(condition),
        None => false,
    }
}

/// Whether that is so of one of these entries.
fn some_standard_condition(entries: &[Calc]) -> bool
    ensures { result ≡ list_any is_standard_condition entries.now }
{
    for entry in entries {
        if is_standard_condition(entry) {
            return true;
        }
    }
    false
}

/// Whether an entry is there to update the field.
fn is_update(entry: &Calc) -> bool
    ensures { result ≡ is_update entry.now }
{
    matches!(entry.used_to, CalcUse::Update)
}

/// One where it is so.
fn one_if(is_so: bool) -> u32
    ensures { result ≡ cond is_so 1 0 }
{
    if is_so { 1 } else { 0 }
}

/// Whether over 16 entries update the field.
#[tactic(auto, using(p414_names::proofs::Sums::over_now, p414_names::proofs::Sums::add_now))]
fn has_many_updates(entries: &[Calc]) -> bool
    ensures { result ≡ nat_lt 16 (count_by is_update entries.now) }
{
    let mut total = 0;
    for entry in entries {
        let more = one_if(is_update(entry));
        if more > MOST_ENTRIES - total {
            return true;
        }
        total += more;
    }
    false
}

/// Whether over 16 entries verify the field.
#[tactic(auto, using(p414_names::proofs::Sums::over_now, p414_names::proofs::Sums::add_now))]
fn has_many_verifies(entries: &[Calc]) -> bool
    ensures { result ≡ nat_lt 16 (count_by is_verify entries.now) }
{
    let mut total = 0;
    for entry in entries {
        let more = one_if(!is_update(entry));
        if more > MOST_ENTRIES - total {
            return true;
        }
        total += more;
    }
    false
}

/// Whether a calculated field breaks the rule, whatever its lists come to.
fn is_bad_calculated(names: &Names14<'_>, declared: &CalculatedField) -> bool
    ensures { result ≡ is_bad_calculated names.now declared.now }
{
    let entries = declared.entries.as_slice();
    !names.is_header(declared.field.instance.name.as_slice())
        || (has_many_updates(entries) || has_many_verifies(entries))
        || (some_other_width(names, &declared.field, entries) || some_standard_condition(entries))
}

/// Whether a declaration is such a calculated field.
fn declares_bad_calculated(names: &Names14<'_>, decl: &Decl) -> bool
    ensures { result ≡ list_any (is_bad_calculated names.now) (calculated_in decl.now) }
{
    match decl {
        Decl::CalculatedField(declared) => is_bad_calculated(names, declared),
        _ => false,
    }
}

/// Whether some calculated field breaks the rule, whatever its lists come to.
#[tactic(auto, using(crate::proofs::Loops::any_field))]
fn some_bad_calculated(names: &Names14<'_>, decls: &[Decl]) -> bool
    ensures { result ≡ list_any (is_bad_calculated names.now) (calculated_fields decls.now) }
{
    for decl in decls {
        if declares_bad_calculated(names, decl) {
            return true;
        }
    }
    false
}

/// Whether C8 is broken, whatever the lists come to.
pub fn has_flat_fault(names: &Names14<'_>) -> bool
    ensures { result ≡ has_flat_fault names.now }
{
    some_bare_number(names.decls()) || some_bad_calculated(names, names.decls())
}
