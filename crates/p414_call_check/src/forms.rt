// C13: which arguments a place takes.
ghost use Rattle.std.specs.Prelude.{◌≡◌};
ghost use Rattle.p414_syntax.specs.Calls.{is_negative, is_element_count, takes_number, takes_field, is_indirect_counter, is_register, is_meter, is_object, takes_bare_name, takes_name, takes};
ghost use Rattle.p414_calls.specs.Shown.{shown_argument};

use p414_calls::Argument;
use p414_names::Names14;
use p414_syntax::{ArgumentPlace, Decl, Inst, Number, Sign, Sort};

/// How many elements are pushed or popped at most.
const MOST_ELEMENTS: u128 = 256;

/// Whether a number is below 0; `-0` isn't.
fn is_negative(number: Number) -> bool
    ensures { result ≡ is_negative number }
{
    matches!(number.sign, Some(Sign::Minus)) && number.literal.value != 0
}

/// Whether a number is one of elements: it has no sign.
fn is_element_count(number: Number) -> bool
    ensures { result ≡ is_element_count number }
{
    number.sign.is_none() && !(number.literal.value < 1 || MOST_ELEMENTS < number.literal.value)
}

/// Whether a place takes a number (P4_14 1.0.5, "Primitive Actions").
pub fn takes_number(place: ArgumentPlace, number: Number) -> bool
    ensures { result ≡ takes_number place number }
{
    match place {
        ArgumentPlace::Source => true,
        ArgumentPlace::Unsigned => !is_negative(number),
        ArgumentPlace::Elements => is_element_count(number),
        _ => false,
    }
}

/// Whether a place takes a field (P4_14 1.0.5, "Primitive Actions").
pub fn takes_field(place: ArgumentPlace) -> bool
    ensures { result ≡ takes_field place }
{
    matches!(
        place,
        ArgumentPlace::Target | ArgumentPlace::Source | ArgumentPlace::Unsigned
    )
}

/// Whether a declaration is that of a counter that isn't direct.
fn is_indirect_counter(decl: &Decl) -> bool
    ensures { result ≡ is_indirect_counter decl.now }
{
    match decl {
        Decl::Counter(declared) => declared.direct_table().is_none(),
        _ => false,
    }
}

/// Whether a counter that isn't direct has the name.
fn is_counter_name(names: &Names14<'_>, name: &[u8]) -> bool
    ensures { result ≡ is_object is_indirect_counter names.now name.now }
{
    match names.declaration_of(Sort::Object, name) {
        Some(decl) => is_indirect_counter(decl),
        None => false,
    }
}

/// Whether a register has the name.
fn is_register_name(names: &Names14<'_>, name: &[u8]) -> bool
    ensures { result ≡ is_object is_register names.now name.now }
{
    match names.declaration_of(Sort::Object, name) {
        Some(Decl::Register(_)) => true,
        _ => false,
    }
}

/// Whether a meter has the name.
fn is_meter_name(names: &Names14<'_>, name: &[u8]) -> bool
    ensures { result ≡ is_object is_meter names.now name.now }
{
    match names.declaration_of(Sort::Object, name) {
        Some(Decl::Meter(_)) => true,
        _ => false,
    }
}

/// Whether a place takes a name without an index.
fn takes_bare_name(names: &Names14<'_>, place: ArgumentPlace, name: &[u8]) -> bool
    ensures { result ≡ takes_bare_name names.now place name.now }
{
    match place {
        ArgumentPlace::Stack => names.stack_size(name).is_some(),
        ArgumentPlace::Counter => is_counter_name(names, name),
        ArgumentPlace::Register => is_register_name(names, name),
        ArgumentPlace::Meter => is_meter_name(names, name),
        ArgumentPlace::Calculation => names.is_declared(Sort::Calculation, name),
        ArgumentPlace::List => names.is_declared(Sort::List, name),
        _ => false,
    }
}

/// Whether a place takes a name or an element of a stack.
fn takes_name(names: &Names14<'_>, place: ArgumentPlace, instance: &Inst) -> bool
    ensures { result ≡ takes_name names.now place instance.now }
{
    match place {
        ArgumentPlace::Header => names.is_header(instance.name.as_slice()),
        _ => { instance.index.is_none() && takes_bare_name(names, place, instance.name.as_slice()) }
    }
}

/// Whether a place takes what an argument stands for; a parameter has every form.
pub fn takes(names: &Names14<'_>, place: ArgumentPlace, argument: Argument<'_>) -> bool
    ensures { result ≡ takes names.now place (shown_argument argument.entry) }
{
    match argument {
        Argument::Number(number) => takes_number(place, number),
        Argument::Field(_) => takes_field(place),
        Argument::Parameter(_) => true,
        Argument::Named(instance) => takes_name(names, place, instance),
    }
}
