// The parts of a program of the form, each by itself.
ghost use Rattle.std.specs.Prelude.{◌≡◌, map, IfOk};
ghost use Rattle.std.specs.List.{list_all};
ghost use Rattle.p414_syntax.specs.Conditions.{is_bare};
ghost use Rattle.p414_one_table.specs.Form as parts;

use crate::program::Field;
use p4x_bits::{OutOfMemory, Rows, Text};
use p414_syntax::{
    Action, Arg, Call, Control, Field as DeclaredField, FieldWidth, Header, HeaderType, Inst,
    Number, PStmt, Parser, Ref, Return, Sign, StmtHead, StmtView, TableAttr,
};
use std::alloc::Global;

fn clipped(number: u128) -> u64
    ensures { result ≡ parts.clipped number }
{
    if number <= u128::from(u64::MAX) {
        number as u64
    } else {
        u64::MAX
    }
}

fn is_bare(name: &[u8], instance: &Inst) -> bool
    ensures { result ≡ is_bare name.now instance.now }
{
    instance.name.as_slice() == name && instance.index.is_none()
}

// A field of a header type.

fn is_plain(field: &DeclaredField) -> bool
    ensures { result ≡ parts.is_plain field.now }
{
    matches!(field.width, FieldWidth::Bits(_)) && field.attributes.as_slice().is_empty()
}

fn bits_of(width: FieldWidth) -> u64
    ensures { result ≡ parts.bits_of width }
{
    match width {
        FieldWidth::Bits(number) => clipped(number.value),
        FieldWidth::Rest => 0,
    }
}

fn plain_field(alloc: Global, field: &DeclaredField) -> Result<Field, OutOfMemory>
    ensures { IfOk result (λ f. f ≡ parts.plain_field field.now) }
{
    Ok(Field {
        name: Text::from_slice(alloc, field.name.as_slice())?,
        width: bits_of(field.width),
    })
}

/// The fields of a header type of the form. The one error is want of memory.
pub(crate) fn plain_fields(
    alloc: Global,
    declared: &[DeclaredField],
) -> Result<Rows<Field>, OutOfMemory>
    ensures { IfOk result (λ fields. fields ≡ map parts.plain_field declared.now) }
{
    let mut fields = Rows::new(alloc);
    for field in declared {
        fields.push(plain_field(alloc, field)?)?;
    }
    Ok(fields)
}

fn are_plain(fields: &[DeclaredField]) -> bool
    ensures { result ≡ list_all parts.is_plain fields.now }
{
    fields.iter().all(|field| is_plain(field))
}

fn has_no_tails(header_type: &HeaderType) -> bool
    ensures { result ≡ parts.is_empty header_type.now.tails }
{
    header_type.parts().tails.as_slice().is_empty()
}

/// Whether the header type has fields with widths in bits alone.
pub(crate) fn is_plain_type(header_type: &HeaderType) -> bool
    ensures { result ≡ parts.is_plain_type header_type.now }
{
    are_plain(header_type.fields()) && has_no_tails(header_type)
}

/// Whether the header is a single one of this type.
pub(crate) fn is_header_of(type_name: &[u8], header: &Header) -> bool
    ensures { result ≡ parts.is_header_of type_name.now header.now }
{
    header.header_type.as_slice() == type_name && header.size.is_none()
}

fn extracts(header: &[u8], statements: &[PStmt]) -> bool
    ensures { result ≡ parts.extracts header.now statements.now }
{
    match statements {
        [PStmt::Extract(instance)] => is_bare(header, instance),
        _ => false,
    }
}

fn returns_ingress(end: &Return) -> bool
    ensures { result ≡ parts.returns_ingress end.now }
{
    match end {
        Return::State(name) => name.as_slice() == b"ingress".as_slice(),
        _ => false,
    }
}

/// Whether the parser state is `start`, which extracts this header and goes on to ingress.
pub(crate) fn is_start_of(header: &[u8], state: &Parser) -> bool
    ensures { result ≡ parts.is_start_of header.now state.now }
{
    state.name.as_slice() == b"start".as_slice()
        && extracts(header, state.statements.as_slice())
        && returns_ingress(&state.end)
}

fn is_egress_spec(field: &Ref) -> bool
    ensures { result ≡ parts.is_egress_spec field.now }
{
    is_bare(b"standard_metadata", &field.instance)
        && field.field.as_slice() == b"egress_spec".as_slice()
}

fn is_not_negative(sign: Option<Sign>) -> bool
    ensures { result ≡ parts.is_not_negative sign }
{
    !matches!(sign, Some(Sign::Minus))
}

fn port_in(arguments: &[Arg]) -> Option<u64>
    ensures { result ≡ parts.port_in arguments.now }
{
    match arguments {
        [Arg::Field(field), Arg::Number(number)]
            if is_egress_spec(field) && is_not_negative(number.sign) => {
            Some(clipped(number.literal.value))
        }
        _ => None,
    }
}

fn port_of_call(call: &Call) -> Option<u64>
    ensures { result ≡ parts.port_of_call call.now }
{
    if call.name.as_slice() == b"modify_field".as_slice() {
        port_in(call.arguments.as_slice())
    } else {
        None
    }
}

fn port_of_calls(calls: &[Call]) -> Option<u64>
    ensures { result ≡ parts.port_of_calls calls.now }
{
    match calls {
        [call] => port_of_call(call),
        _ => None,
    }
}

/// The port that the action sends to, if it sends to one and does nothing else.
pub(crate) fn port_of(action: &Action) -> Option<u64>
    ensures { result ≡ parts.port_of action.now }
{
    if action.parameters.as_slice().is_empty() {
        port_of_calls(action.calls.as_slice())
    } else {
        None
    }
}

fn is_only(action: &[u8], names: &[Text]) -> bool
    ensures { result ≡ parts.is_only action.now names.now }
{
    match names {
        [name] => name.as_slice() == action,
        _ => false,
    }
}

fn has_no_arguments(numbers: &Option<Rows<Number>>) -> bool
    ensures { result ≡ parts.has_no_arguments numbers.now }
{
    match numbers {
        Some(numbers) => numbers.as_slice().is_empty(),
        None => true,
    }
}

fn is_call_of(action: &[u8], name: &Text, numbers: &Option<Rows<Number>>) -> bool
    ensures { result ≡ parts.is_call_of action.now name.now numbers.now }
{
    name.as_slice() == action && has_no_arguments(numbers)
}

/// Whether these are the attributes of a table that has this action alone, and has it as its default.
pub(crate) fn are_attributes_of(action: &[u8], attributes: &[TableAttr]) -> bool
    ensures { result ≡ parts.are_attributes_of action.now attributes.now }
{
    match attributes {
        [
            TableAttr::Actions(names),
            TableAttr::DefaultAction(name, numbers),
        ] => { is_only(action, names.as_slice()) && is_call_of(action, name, numbers) }
        [
            TableAttr::DefaultAction(name, numbers),
            TableAttr::Actions(names),
        ] => { is_only(action, names.as_slice()) && is_call_of(action, name, numbers) }
        _ => false,
    }
}

fn applies(table: &[u8], body: &StmtView<'_>) -> bool
    ensures { result ≡ parts.applies table.now body.now }
{
    match body.head() {
        StmtHead::Then(before, last) => match (before.head(), last.head()) {
            (StmtHead::NoStatements, StmtHead::Apply(name)) => name.as_slice() == table,
            _ => false,
        },
        _ => false,
    }
}

/// Whether the control is `ingress`, which applies this table and does nothing else.
pub(crate) fn is_ingress_of(table: &[u8], control: &Control) -> bool
    ensures { result ≡ parts.is_ingress_of table.now control.now }
{
    control.name().as_slice() == b"ingress".as_slice() && applies(table, &control.body())
}
