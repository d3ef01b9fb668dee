// C25, but for what is written: what stands in declarations and is left out of this profile.
ghost use Rattle.std.specs.Prelude.{◌≡◌, ◌||◌, not, is_some, map, IfOk};
ghost use Rattle.std.specs.List.{list_any};
ghost use Rattle.p414_syntax.specs.Attributes.{length_of, direct_table_of, layout_of};
ghost use Rattle.p414_syntax.specs.Names.{has_name};
ghost use Rattle.p414_syntax.specs.Primitives.{left_out_fields};
ghost use Rattle.p414_syntax.specs.Fields.{is_rest_field};
ghost use Rattle.p414_syntax.specs.Uses.{uses};
ghost use Rattle.p414_syntax.specs.Unsupported.{is_unsupported_attribute, is_unsupported_field, algorithms, is_error_target, is_error_case, ends_in_error, is_unsupported_call, is_unsupported_counter, is_unsupported_meter, is_unsupported_register, declares_unsupported, is_last_index, is_last, is_unsupported_standard, is_unsupported_use};
ghost use Rattle.p414_uses.specs.Shown.{shown_use};

use p4x_bits::{OutOfMemory, Text};
use p414_names::{Names14, is_among, is_left_out_primitive, is_standard};
use p414_syntax::{
    Call, Case, CaseTarget, Decl, Field, FieldWidth, HeaderType, Index, Inst, Ref, Return, Stateful,
};
use p414_uses::{Use, uses_of};
use std::alloc::Global;

/// The algorithms that calculations may have.
const ALGORITHMS: [&[u8]; 4] = [b"csum16", b"crc16", b"crc32", b"identity"];

/// The fields of standard metadata that are left out.
const LEFT_OUT_FIELDS: [&[u8]; 4] = [
    b"egress_instance",
    b"parser_status",
    b"parser_error_location",
    b"clone_spec",
];

/// Whether an attribute of a field is another one than `saturating`.
fn is_unsupported_attribute(attribute: &Text) -> bool
    ensures { result ≡ is_unsupported_attribute attribute.now }
{
    attribute.as_slice() != b"saturating".as_slice()
}

/// Whether one of these attributes is.
fn some_unsupported_attribute(attributes: &[Text]) -> bool
    ensures { result ≡ list_any is_unsupported_attribute attributes.now }
{
    for attribute in attributes {
        if is_unsupported_attribute(attribute) {
            return true;
        }
    }
    false
}

/// Whether a field has the width `*`.
fn is_rest_field(field: &Field) -> bool
    ensures { result ≡ is_rest_field field.now }
{
    matches!(field.width, FieldWidth::Rest)
}

/// Whether a field has what is left out.
fn is_unsupported_field(field: &Field) -> bool
    ensures { result ≡ is_unsupported_field field.now }
{
    is_rest_field(field) || some_unsupported_attribute(field.attributes.as_slice())
}

/// Whether one of these fields has.
fn some_unsupported_field(fields: &[Field]) -> bool
    ensures { result ≡ list_any is_unsupported_field fields.now }
{
    for field in fields {
        if is_unsupported_field(field) {
            return true;
        }
    }
    false
}

/// Whether `length` stands in a header type.
fn has_length(declared: &HeaderType) -> bool
    ensures { result ≡ is_some (length_of declared.now.tails) }
{
    declared.length().is_some()
}

/// Whether an algorithm is left out.
fn is_unsupported_algorithm(name: &[u8]) -> bool
    ensures { result ≡ not (has_name algorithms name.now) }
{
    !is_among(name, &ALGORITHMS)
}

/// Whether a case leads to `parse_error`.
fn is_error_target(target: &CaseTarget) -> bool
    ensures { result ≡ is_error_target target.now }
{
    matches!(target, CaseTarget::ParseError(_))
}

/// Whether one of these cases does.
fn some_error_case(cases: &[Case]) -> bool
    ensures { result ≡ list_any is_error_case cases.now }
{
    for case in cases {
        if is_error_target(&case.target) {
            return true;
        }
    }
    false
}

/// Whether a state leads to `parse_error`.
fn ends_in_error(end: &Return) -> bool
    ensures { result ≡ ends_in_error end.now }
{
    match end {
        Return::Select(_, cases) => some_error_case(cases.as_slice()),
        Return::State(_) => false,
        Return::ParseError(_) => true,
    }
}

/// Whether a call is one of a primitive that is left out.
fn is_unsupported_call(call: &Call) -> bool
    ensures { result ≡ is_unsupported_call call.now }
{
    is_left_out_primitive(call.name.as_slice())
}

/// Whether one of these calls is.
fn some_unsupported_call(calls: &[Call]) -> bool
    ensures { result ≡ list_any is_unsupported_call calls.now }
{
    for call in calls {
        if is_unsupported_call(call) {
            return true;
        }
    }
    false
}

/// Whether a counter has what is left out.
fn is_unsupported_counter(declared: &Stateful) -> bool
    ensures { result ≡ is_unsupported_counter declared.now.attributes }
{
    declared.is_saturating() || declared.is_signed()
}

/// Whether a counter, a meter or a register is direct.
fn is_direct(declared: &Stateful) -> bool
    ensures { result ≡ is_some (direct_table_of declared.now.attributes) }
{
    declared.direct_table().is_some()
}

/// Whether `layout` stands in a register.
fn has_layout(declared: &Stateful) -> bool
    ensures { result ≡ is_some (layout_of declared.now.attributes) }
{
    declared.layout().is_some()
}

/// Whether a meter has what is left out.
fn is_unsupported_meter(declared: &Stateful) -> bool
    ensures { result ≡ is_unsupported_meter declared.now.attributes }
{
    is_direct(declared) || declared.is_signed()
}

/// Whether a register has what is left out.
fn is_unsupported_register(declared: &Stateful) -> bool
    ensures { result ≡ is_unsupported_register declared.now.attributes }
{
    is_direct(declared)
        || has_layout(declared)
        || (declared.is_saturating() || declared.is_signed())
}

/// Whether what is left out stands in a header type.
fn is_unsupported_type(declared: &HeaderType) -> bool
    ensures { result ≡ (is_some (length_of declared.now.tails) || list_any is_unsupported_field declared.now.fields) }
{
    has_length(declared) || some_unsupported_field(declared.fields())
}

/// Whether what is left out stands in a declaration.
fn is_unsupported(decl: &Decl) -> bool
    ensures { result ≡ declares_unsupported decl.now }
{
    match decl {
        Decl::HeaderType(declared) => is_unsupported_type(declared),
        Decl::FieldListCalculation(declared) => {
            is_unsupported_algorithm(declared.algorithm.as_slice())
        }
        Decl::Parser(declared) => ends_in_error(&declared.end),
        Decl::Action(declared) => some_unsupported_call(declared.calls.as_slice()),
        Decl::Table(declared) => declared.action_profile().is_some(),
        Decl::Counter(declared) => is_unsupported_counter(declared),
        Decl::Meter(declared) => is_unsupported_meter(declared),
        Decl::Register(declared) => is_unsupported_register(declared),
        Decl::LeftOut(_) => true,
        _ => false,
    }
}

/// Whether that is so of one of these declarations.
fn some_unsupported(decls: &[Decl]) -> bool
    ensures { result ≡ list_any declares_unsupported decls.now }
{
    for decl in decls {
        if is_unsupported(decl) {
            return true;
        }
    }
    false
}

/// Whether C25 is broken by what stands in a declaration. Its time is proportional to the program.
pub fn declares_unsupported(names: &Names14<'_>) -> bool
    ensures { result ≡ list_any declares_unsupported names.now }
{
    some_unsupported(names.decls())
}

/// Whether an index is `last`.
fn is_last_index(index: Option<Index>) -> bool
    ensures { result ≡ is_last_index index }
{
    matches!(index, Some(Index::Last))
}

/// Whether an instance has the index `last`.
fn is_last(instance: &Inst) -> bool
    ensures { result ≡ is_last instance.now }
{
    is_last_index(instance.index)
}

/// Whether a field is one of standard metadata that is left out.
fn is_unsupported_standard(field: &Ref) -> bool
    ensures { result ≡ is_unsupported_standard field.now }
{
    is_standard(field.instance.name.as_slice())
        && is_among(field.field.as_slice(), &LEFT_OUT_FIELDS)
}

/// Whether a use is left out.
fn is_unsupported_use(item: &Use<'_>) -> bool
    ensures { result ≡ is_unsupported_use (shown_use item.now) }
{
    match item {
        Use::OfInstance(instance) => is_last(instance),
        Use::OfExtracted(instance) => is_last(instance),
        Use::OfItem(instance) => is_last(instance),
        Use::OfField(field) => is_last(&field.instance) || is_unsupported_standard(field),
        _ => false,
    }
}

/// Whether one of these uses is left out.
fn some_unsupported_use(uses: &[Use<'_>]) -> bool
    ensures { result ≡ list_any is_unsupported_use (map shown_use uses.now) }
{
    for item in uses {
        if is_unsupported_use(item) {
            return true;
        }
    }
    false
}

/// Whether C25 is broken by what is used: the index `last`, or a field of standard metadata that is left out. Its time is
/// proportional to the program.
pub fn uses_unsupported(alloc: Global, names: &Names14<'_>) -> Result<bool, OutOfMemory>
    ensures { IfOk result (λ broken. broken ≡ list_any is_unsupported_use (uses names.now)) }
{
    let found = uses_of(alloc, names.decls())?;
    Ok(some_unsupported_use(found.as_slice()))
}
