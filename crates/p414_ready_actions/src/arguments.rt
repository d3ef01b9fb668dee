// What the arguments of primitives are by number.
ghost use Rattle.std.specs.Prelude.{◌≡◌, false, map, slice_get, pos, neg_ℤ, codes, IfOk};
ghost use Rattle.std.specs.Option.{option_map_or};
ghost use Rattle.p414_syntax.specs.Names.{has_name};
ghost use Rattle.p414_calls.specs.Shown.{shown_argument};
ghost use Rattle.p414_sem.specs.Operations.{argument_at, element, element_count, list_at, name_in_argument, object, source, source_of, stack, target};
ghost use Rattle.p414_sem.specs.Slots.{element_of, field_target, is_saturating, is_saturating_ref};
ghost use Rattle.p414_sem.specs.Wholes.{whole};
ghost use Rattle.p414_wholes.specs.Shown.{kept_whole};
ghost use Rattle.p414_ready_actions.specs.Rows.{kept_element, kept_source, kept_target};
ghost use Rattle.p414_ready_actions.specs.Words.{called_with, calculation_number};
ghost use Rattle.p414_ready_actions.specs.internal.Places.{count_by, is_saturating_number, list_by};

use crate::names::ActionNames;
use crate::rows::{ReadyElement, ReadySource, ReadyTarget};
use name_numbers::narrow;
use p4x_bits::{OutOfMemory, Text};
use p414_calls::Argument;
use p414_names::is_standard;
use p414_slots::{element_number, narrow_number};
use p414_syntax::{Field, HeaderType, Inst, Literal, Number, Ref, Sign};
use p414_wholes::Whole;

const SATURATING: &[u8] = b"saturating";

/// The number 0, which stands where no argument does.
const ZERO: Number = Number {
    sign: None,
    literal: Literal {
        width: None,
        value: 0,
    },
};

/// The argument at a place, from 0.
#[tactic(auto, using(crate::proofs::Places::some_there, crate::proofs::Places::none_there))]
fn argument_at<'a>(arguments: &[Argument<'a>], place: usize) -> Argument<'a>
    ensures { shown_argument result ≡ argument_at (called_with (map shown_argument arguments.now)) place }
{
    match arguments.get(place) {
        Some(argument) => *argument,
        None => Argument::Number(ZERO),
    }
}

/// A number with a minus sign.
#[tactic(auto, using(crate::proofs::Places::minus_none, crate::proofs::Places::minus_some))]
fn minus(value: u128) -> Whole
    ensures { result ≡ kept_whole (neg_ℤ (pos value)) }
{
    if value == 0 {
        Whole::Plus(0)
    } else {
        Whole::Minus(value - 1)
    }
}

/// A number that is written, with its sign.
fn whole_of(number: Number) -> Whole
    ensures { result ≡ kept_whole (whole number) }
{
    match number.sign {
        Some(Sign::Minus) => minus(number.literal.value),
        Some(Sign::Plus) => Whole::Plus(number.literal.value),
        None => Whole::Plus(number.literal.value),
    }
}

/// Where a number comes from that an argument stands for.
fn source_of(
    names: &ActionNames<'_, '_>,
    argument: &Argument<'_>,
) -> Result<ReadySource, OutOfMemory>
    ensures { IfOk result (λ found. found ≡ kept_source (source_of names.now (shown_argument argument.now))) }
{
    match argument {
        Argument::Number(number) => Ok(ReadySource::Number(whole_of(*number))),
        Argument::Field(field) => Ok(ReadySource::Field(names.slots().slot(field)?)),
        Argument::Parameter(number) => Ok(ReadySource::Parameter(narrow(*number)?)),
        Argument::Named(_) => Ok(ReadySource::Number(Whole::Plus(0))),
    }
}

/// Where a number comes from, by the argument at a place.
pub fn source(
    names: &ActionNames<'_, '_>,
    arguments: &[Argument<'_>],
    place: usize,
) -> Result<ReadySource, OutOfMemory>
    ensures { IfOk result (λ found. found ≡ kept_source (source names.now (called_with (map shown_argument arguments.now)) place)) }
{
    let argument = argument_at(arguments, place);
    let found = source_of(names, &argument)?;
    Ok(found)
}

/// Whether `saturating` stands among these attributes.
fn has_saturating(attributes: &[Text]) -> bool
    ensures { result ≡ has_name attributes.now (codes "saturating") }
{
    for attribute in attributes {
        if SATURATING == attribute.as_slice() {
            return true;
        }
    }
    false
}

/// Whether a field is saturating.
fn is_saturating(field: &Field) -> bool
    ensures { result ≡ is_saturating field.now }
{
    has_saturating(field.attributes.as_slice())
}

/// Whether the field with a number is saturating.
fn is_saturating_at(header_type: &HeaderType, field: u32) -> bool
    ensures { result ≡ option_map_or is_saturating (slice_get header_type.now.fields field) false }
{
    match header_type.fields().get(field as usize) {
        Some(found) => is_saturating(found),
        None => false,
    }
}

/// Whether the field with a name of an instance is saturating.
fn is_saturating_in(names: &ActionNames<'_, '_>, instance: &[u8], field: u32) -> bool
    ensures { result ≡ is_saturating_number names.now instance.now field }
{
    match names.slots().names().instance_type(instance) {
        Some(header_type) => is_saturating_at(header_type, field),
        None => false,
    }
}

/// Whether the field that a reference names is saturating.
#[tactic(auto, using(crate::proofs::Places::same_saturating))]
fn is_saturating_ref(names: &ActionNames<'_, '_>, named: &Ref) -> Result<bool, OutOfMemory>
    ensures { IfOk result (λ is. is ≡ is_saturating_ref names.now named.now) }
{
    let instance = named.instance.name.as_slice();
    if is_standard(instance) {
        return Ok(false);
    }
    let field = names.slots().field(instance, named.field.as_slice())?;
    Ok(is_saturating_in(names, instance, field))
}

/// A field that gets a sum or a difference, or something else.
fn target_of(
    names: &ActionNames<'_, '_>,
    sums: bool,
    field: &Ref,
) -> Result<ReadyTarget, OutOfMemory>
    ensures { IfOk result (λ found. found ≡ kept_target sums (field_target names.now field.now)) }
{
    let slot = names.slots().slot(field)?;
    let width = names.slots().bits(field)?;
    let saturating = is_saturating_ref(names, field)?;
    Ok(ReadyTarget {
        slot,
        width,
        saturates: sums && saturating,
    })
}

/// The field at a place, which gets a sum or a difference, or something else. What is no field, as no accepted program has
/// there, counts as want of memory.
pub fn target(
    names: &ActionNames<'_, '_>,
    sums: bool,
    arguments: &[Argument<'_>],
    place: usize,
) -> Result<ReadyTarget, OutOfMemory>
    ensures { IfOk result (λ found. found ≡ kept_target sums (target names.now (called_with (map shown_argument arguments.now)) place)) }
{
    match argument_at(arguments, place) {
        Argument::Field(field) => {
            let found = target_of(names, sums, field)?;
            Ok(found)
        }
        _ => Err(OutOfMemory),
    }
}

/// A header, or an element of a stack.
fn element_of(names: &ActionNames<'_, '_>, named: &Inst) -> Result<ReadyElement, OutOfMemory>
    ensures { IfOk result (λ found. found ≡ kept_element (element_of names.now named.now)) }
{
    let instance = names.slots().instance(named.name.as_slice())?;
    let element = element_number(named.index)?;
    Ok(ReadyElement { instance, element })
}

/// The header or the element of a stack at a place. What is none, as no accepted program has there, counts as want of memory.
pub fn element(
    names: &ActionNames<'_, '_>,
    arguments: &[Argument<'_>],
    place: usize,
) -> Result<ReadyElement, OutOfMemory>
    ensures { IfOk result (λ found. found ≡ kept_element (element names.now (called_with (map shown_argument arguments.now)) place)) }
{
    match argument_at(arguments, place) {
        Argument::Named(named) => {
            let found = element_of(names, named)?;
            Ok(found)
        }
        _ => Err(OutOfMemory),
    }
}

/// The name at a place; no octets where none stands.
fn name_at<'a>(arguments: &[Argument<'a>], place: usize) -> &'a [u8]
    ensures { result.now ≡ name_in_argument (argument_at (called_with (map shown_argument arguments.now)) place) }
{
    match argument_at(arguments, place) {
        Argument::Named(named) => named.name.as_slice(),
        _ => &[],
    }
}

/// The number of the stack that is meant.
pub fn stack(names: &ActionNames<'_, '_>, arguments: &[Argument<'_>]) -> Result<u32, OutOfMemory>
    ensures { IfOk result (λ found. found ≡ stack names.now (called_with (map shown_argument arguments.now))) }
{
    names.slots().instance(name_at(arguments, 0))
}

/// The number of the stateful object at a place.
pub fn object(
    names: &ActionNames<'_, '_>,
    arguments: &[Argument<'_>],
    place: usize,
) -> Result<u32, OutOfMemory>
    ensures { IfOk result (λ found. found ≡ object names.now (called_with (map shown_argument arguments.now)) place) }
{
    names.object(name_at(arguments, place))
}

/// The number of the calculation at a place.
pub fn calculation(
    names: &ActionNames<'_, '_>,
    arguments: &[Argument<'_>],
    place: usize,
) -> Result<u32, OutOfMemory>
    ensures { IfOk result (λ found. found ≡ calculation_number names.now (name_in_argument (argument_at (called_with (map shown_argument arguments.now)) place))) }
{
    names.calculation(name_at(arguments, place))
}

/// By how many elements a stack moves.
#[tactic(auto, using(crate::proofs::Places::count_there, crate::proofs::Places::count_none))]
pub fn element_count(arguments: &[Argument<'_>]) -> Result<u32, OutOfMemory>
    ensures { IfOk result (λ count. count ≡ element_count (called_with (map shown_argument arguments.now))) }
{
    match arguments.get(1) {
        Some(argument) => count_of(argument),
        None => Ok(1),
    }
}

/// The same by an argument.
fn count_of(argument: &Argument<'_>) -> Result<u32, OutOfMemory>
    ensures { IfOk result (λ count. count ≡ count_by (shown_argument argument.now)) }
{
    match argument {
        Argument::Number(number) => narrow_number(number.literal.value),
        _ => Ok(1),
    }
}

/// The number of the field list at a place, if one stands there.
#[tactic(auto, using(crate::proofs::Places::list_there, crate::proofs::Places::list_none))]
pub fn list_at(
    names: &ActionNames<'_, '_>,
    arguments: &[Argument<'_>],
    place: usize,
) -> Result<Option<u32>, OutOfMemory>
    ensures { IfOk result (λ list. list ≡ list_at names.now (called_with (map shown_argument arguments.now)) place) }
{
    match arguments.get(place) {
        Some(argument) => list_of(names, argument),
        None => Ok(None),
    }
}

/// The number of the field list that an argument names.
fn list_of(names: &ActionNames<'_, '_>, argument: &Argument<'_>) -> Result<Option<u32>, OutOfMemory>
    ensures { IfOk result (λ list. list ≡ list_by names.now (shown_argument argument.now)) }
{
    match argument {
        Argument::Named(named) => names.list(named.name.as_slice()),
        _ => Ok(None),
    }
}
