// Header and struct types, and parameters (P4_16 1.2, "Header types", "Struct types", "Parameters").
ghost use Rattle.std.specs.Prelude.{◌≡◌, ◌+◌, ◌≤◌, ◌*◌, ◌++◌, ◌∷◌, map, flat_map, sum_by, Option, Some, None, if◌then◌else◌, OnOk, IfOk};
ghost use Rattle.std.specs.List.{list_any};
ghost use Rattle.p416_syntax.specs.Sizes as rules;
ghost use Rattle.p416_syntax.specs.Uses.{a_header, names_of_scope};
ghost use Rattle.p416_syntax.specs.Declarations.{field_name, field_width, header_uses, member_name, struct_field_uses, struct_uses, parameter_name, parameter_uses};
ghost use Rattle.p416_scopes.specs.Seen.{seen_scope};
ghost use Rattle.p416_expression_check.specs.Judged.{first_broken};
ghost use Rattle.p416_expression_uses.specs.Found.{after, after_all};
ghost use Rattle.p416_expression_uses.specs.Seen.{seen_type_place};
ghost use Rattle.p416_uses.specs.Parts.{bits_rule};

use crate::names::see_names;
use crate::notes::see_notes;
use p4x_bits::OutOfMemory;
use p416_expression_uses::{Findings, TypePlace, see_type, see_width};
use p416_scopes::Scope;
use p416_syntax::{BitField, Header16, Param, ProgramRule, Struct16, StructField};
use std::alloc::Global;

/// The most bits of a field.
const MOST_BITS: u128 = 128;

/// Whether a field has less than one bit or over 128.
fn has_bad_width(field: &BitField) -> bool
    ensures { result ≡ rules.has_bad_width field.now }
{
    field.width.value < 1 || field.width.value > MOST_BITS
}

/// How many bits these fields have together; none, where one has less than one bit or over 128.
fn bits_of(fields: &[BitField]) -> Option<u128>
    ensures { result ≡ (if list_any rules.has_bad_width fields.now then None else Some (sum_by rules.bits_of_field fields.now)) }
{
    let mut bits: u128 = 0;
    for field in fields {
        if has_bad_width(field) {
            return None;
        }
        bits += field.width.value;
    }
    Some(bits)
}

/// The rule that a header breaks whose fields have so many bits together.
fn broken_bits(bits: Option<u128>) -> Option<ProgramRule>
    ensures { result ≡ bits_rule bits }
{
    match bits {
        Some(bits) => {
            if bits == 0 || bits % 8 != 0 {
                Some(ProgramRule::T2)
            } else {
                None
            }
        }
        None => None,
    }
}

/// The rule that a header breaks as a whole.
#[tactic(auto, using(crate::proofs::Widths::header_told))]
fn broken_header(header: &Header16) -> Option<ProgramRule>
    ensures { result ≡ first_broken (a_header header.now) }
{
    broken_bits(bits_of(header.fields.as_slice()))
}

/// Judges a header as a whole.
fn see_whole(header: &Header16, found: &mut Findings<'_>)
    ensures { found.new ≡ after found.old (a_header header.now) }
{
    found.see_rule(broken_header(header));
}

/// The names of these fields.
fn field_names<'a>(alloc: Global, fields: &'a [BitField]) -> Result<Vec<&'a [u8]>, OutOfMemory>
    ensures { IfOk result (λ names. map (λ name. name.now) names.items ≡ map field_name fields.now) }
{
    let mut names = Vec::new(alloc);
    for field in fields {
        names.push(field.name.as_slice())?;
    }
    Ok(names)
}

/// Judges the widths of these fields.
fn see_widths(fields: &[BitField], found: &mut Findings<'_>)
    ensures { found.new ≡ after_all found.old (map field_width fields.now) }
{
    for field in fields {
        see_width(field.width, found);
    }
}

/// Judges a header type.
pub(crate) fn see_header(
    alloc: Global,
    header: &Header16,
    found: &mut Findings<'_>,
) -> Result<(), OutOfMemory>
    ensures { OnOk result (found.new ≡ after_all found.old (header_uses header.now)) }
{
    let names = field_names(alloc, header.fields.as_slice())?;
    see_names(alloc, &names, found)?;
    see_whole(header, found);
    see_widths(header.fields.as_slice(), found);
    Ok(())
}

/// The names of these fields of a struct.
fn member_names<'a>(alloc: Global, fields: &'a [StructField]) -> Result<Vec<&'a [u8]>, OutOfMemory>
    ensures { IfOk result (λ names. map (λ name. name.now) names.items ≡ map member_name fields.now) }
{
    let mut names = Vec::new(alloc);
    for field in fields {
        names.push(field.name.as_slice())?;
    }
    Ok(names)
}

/// Judges a field of a struct.
#[tactic(auto, using(p416_expression_uses::proofs::Finding::after_then))]
fn see_field<'a>(
    scope: &Scope<'_, 'a>,
    field: &StructField,
    found: &mut Findings<'a>,
) -> Result<(), OutOfMemory>
    ensures { OnOk result (found.new ≡ after_all found.old (struct_field_uses (seen_scope scope.now) field.now)) }
{
    see_notes(field.notes.as_slice(), found);
    see_type(scope, TypePlace::Field, &field.of, found)?;
    Ok(())
}

/// Judges these fields of a struct.
#[tactic(auto, using(p416_expression_uses::proofs::Finding::after_turn))]
fn see_fields<'a>(
    scope: &Scope<'_, 'a>,
    fields: &[StructField],
    found: &mut Findings<'a>,
) -> Result<(), OutOfMemory>
    ensures { OnOk result (found.new ≡ after_all found.old (flat_map (struct_field_uses (seen_scope scope.now)) fields.now)) }
{
    for field in fields {
        see_field(scope, field, found)?;
    }
    Ok(())
}

/// Judges a struct type.
pub(crate) fn see_struct<'a>(
    alloc: Global,
    scope: &Scope<'_, 'a>,
    declared: &Struct16,
    found: &mut Findings<'a>,
) -> Result<(), OutOfMemory>
    ensures { OnOk result (found.new ≡ after_all found.old (struct_uses (seen_scope scope.now) declared.now)) }
{
    let names = member_names(alloc, declared.fields.as_slice())?;
    see_names(alloc, &names, found)?;
    see_fields(scope, declared.fields.as_slice(), found)?;
    Ok(())
}

/// Puts the names of these parameters behind others.
pub(crate) fn push_parameters<'a>(
    names: &mut Vec<&'a [u8]>,
    parameters: &'a [Param],
) -> Result<(), OutOfMemory>
    ensures { OnOk result (map (λ name. name.now) names.new.items ≡ map (λ name. name.now) names.old.items ++ map parameter_name parameters.now) }
{
    for parameter in parameters {
        names.push(parameter.name.as_slice())?;
    }
    Ok(())
}

/// Judges the types of these parameters.
#[tactic(auto, using(p416_expression_uses::proofs::Finding::after_turn))]
pub(crate) fn see_parameters<'a>(
    scope: &Scope<'_, 'a>,
    place: TypePlace,
    parameters: &[Param],
    found: &mut Findings<'a>,
) -> Result<(), OutOfMemory>
    ensures { OnOk result (found.new ≡ after_all found.old (flat_map (parameter_uses (seen_scope scope.now) (seen_type_place place)) parameters.now)) }
{
    for parameter in parameters {
        see_type(scope, place, &parameter.of, found)?;
    }
    Ok(())
}
