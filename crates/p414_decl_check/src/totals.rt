// C5: header types of whole octets. C7: how many fields and bits there are.
ghost use Rattle.std.specs.Prelude.{◌≡◌, ◌*◌, sum_by, nat_lt, option_copied, length};
ghost use Rattle.std.specs.List.{list_any};
ghost use Rattle.p414_syntax.specs.Widths.{is_unaligned_header, has_bad_layout};
ghost use Rattle.p414_syntax.specs.Totals.{elements_of, fields_of_type, bits_of_type, instance_fields, header_bits, has_too_much};
ghost use Rattle.p414_names.specs.internal.Types.{IsUpTo};

use crate::currents::some_state_looks_too_far;
use p414_names::{MOST_HEADER_BITS, Names14};
use p414_syntax::{Decl, Literal};

/// How many fields all instances have at most.
const MOST_FIELDS: u128 = 65_536;

/// Whether the type of a header hasn't whole octets.
fn is_unaligned_header(names: &Names14<'_>, decl: &Decl) -> bool
    ensures { result ≡ is_unaligned_header names.now decl.now }
{
    match decl {
        Decl::Header(declared) => names.is_unaligned_type(declared.header_type.as_slice()),
        _ => false,
    }
}

/// Whether that is so of some header.
fn some_unaligned_header(names: &Names14<'_>, decls: &[Decl]) -> bool
    ensures { result ≡ list_any (is_unaligned_header names.now) decls.now }
{
    for decl in decls {
        if is_unaligned_header(names, decl) {
            return true;
        }
    }
    false
}

/// Whether C5 is broken.
pub fn has_bad_layout(names: &Names14<'_>) -> bool
    ensures { result ≡ has_bad_layout names.now }
{
    some_unaligned_header(names, names.decls()) || some_state_looks_too_far(names.decls())
}

/// The number of instances: the elements of a stack, or one.
fn elements_of(size: Option<Literal>) -> u128
    ensures { result ≡ elements_of size }
{
    match size {
        Some(size) => size.value,
        None => 1,
    }
}

/// The product, if it is no more than the limit.
fn product_up_to(limit: u128, a: u128, b: u128) -> Option<u128>
    ensures { IsUpTo limit (a * b) result }
{
    match a.checked_mul(b) {
        Some(product) if product <= limit => Some(product),
        _ => None,
    }
}

/// The fields of a type with this name.
fn fields_of_type(names: &Names14<'_>, name: &[u8]) -> u128
    ensures { result ≡ fields_of_type names.now name.now }
{
    match names.type_of(name) {
        Some(found) => found.fields().len() as u128,
        None => 0,
    }
}

/// The fields of an instance, if they are no more than all may have.
fn instance_fields(names: &Names14<'_>, decl: &Decl) -> Option<u128>
    ensures { IsUpTo 65536 (instance_fields names.now decl.now) result }
{
    match decl {
        Decl::Header(declared) => product_up_to(
            MOST_FIELDS,
            elements_of(declared.size),
            fields_of_type(names, declared.header_type.as_slice()),
        ),
        Decl::Metadata(declared) => product_up_to(
            MOST_FIELDS,
            1,
            fields_of_type(names, declared.header_type.as_slice()),
        ),
        _ => Some(0),
    }
}

/// Whether all instances have over 65,536 fields.
#[tactic(auto, using(p414_names::proofs::Sums::over_now, p414_names::proofs::Sums::add_now))]
fn has_too_many_fields(names: &Names14<'_>, decls: &[Decl]) -> bool
    ensures { result ≡ nat_lt 65536 (sum_by (instance_fields names.now) decls.now) }
{
    let mut total = 0;
    for decl in decls {
        let Some(fields) = instance_fields(names, decl) else {
            return true;
        };
        if fields > MOST_FIELDS - total {
            return true;
        }
        total += fields;
    }
    false
}

/// So many times the bits of the type with this name, if that is no more than all headers may have.
fn bits_times(names: &Names14<'_>, elements: u128, name: &[u8]) -> Option<u128>
    ensures { IsUpTo 262144 (elements * bits_of_type names.now name.now) result }
{
    match names.bits_of_type(name) {
        Some(bits) => product_up_to(MOST_HEADER_BITS, elements, bits),
        None if elements == 0 => Some(0),
        None => None,
    }
}

/// The bits of a header, if they are no more than all may have.
fn header_bits(names: &Names14<'_>, decl: &Decl) -> Option<u128>
    ensures { IsUpTo 262144 (header_bits names.now decl.now) result }
{
    match decl {
        Decl::Header(declared) => bits_times(
            names,
            elements_of(declared.size),
            declared.header_type.as_slice(),
        ),
        _ => Some(0),
    }
}

/// Whether all headers have over 32,768 octets.
#[tactic(auto, using(p414_names::proofs::Sums::over_now, p414_names::proofs::Sums::add_now))]
fn has_too_many_bits(names: &Names14<'_>, decls: &[Decl]) -> bool
    ensures { result ≡ nat_lt 262144 (sum_by (header_bits names.now) decls.now) }
{
    let mut total = 0;
    for decl in decls {
        let Some(bits) = header_bits(names, decl) else {
            return true;
        };
        if bits > MOST_HEADER_BITS - total {
            return true;
        }
        total += bits;
    }
    false
}

/// Whether C7 is broken.
pub fn has_too_much(names: &Names14<'_>) -> bool
    ensures { result ≡ has_too_much names.now }
{
    has_too_many_fields(names, names.decls()) || has_too_many_bits(names, names.decls())
}
