// How large types are.
use crate::kind_words::{kind_of, kinds_of};
use crate::lines::{cut, is_true, number_of};
use p4x_bits::OutOfMemory;
use p416_names::{Kind, Top};
use p416_size_check::{has_large_headers, has_large_variables};
use p416_syntax::Decl16;
use p416_top_check::declares_twice;
use p416_type_totals::TypeTotals;
use std::alloc::Global;

/// Whether a value of a kind has so many fields and octets of headers, the headers `hs` with the metadata `ms` are too large
/// where `+` stands, and variables of these kinds hold too much where another stands.
fn are_sizes(
    totals: &TypeTotals<'_, '_>,
    kind: Kind<'_>,
    held: &[Kind<'_>],
    wanted: &[u8],
) -> bool {
    let (fields, rest) = cut(wanted, b',');
    let (octets, rest) = cut(rest, b',');
    let (large, much) = cut(rest, b',');
    let is_large = has_large_headers(totals, Kind::Struct(b"hs"), Kind::Struct(b"ms"));
    totals.fields(kind) == number_of(fields)
        && totals.octets(kind) == number_of(octets)
        && is_large == is_true(large)
        && has_large_variables(totals, held) == is_true(much)
}

/// Whether declarations are told so, or a struct holds itself where `itself` stands.
fn are_totals(
    alloc: Global,
    decls: &[Decl16],
    kind: Kind<'_>,
    held: &[Kind<'_>],
    wanted: &[u8],
) -> Result<bool, OutOfMemory> {
    if declares_twice(alloc, decls)? {
        return Ok(false);
    }
    let top = Top::of(alloc, decls)?;
    match &TypeTotals::of(alloc, &top)? {
        Some(totals) => Ok(are_sizes(totals, kind, held, wanted)),
        None => Ok(wanted == b"itself".as_slice()),
    }
}

/// Whether this is told of declarations: a kind, behind a semicolon kinds of variables, and behind another what is expected.
pub fn has_sizes(alloc: Global, decls: &[Decl16], wanted: &[u8]) -> Result<bool, OutOfMemory> {
    let (kind, rest) = cut(wanted, b';');
    let (held, wanted) = cut(rest, b';');
    let held = kinds_of(alloc, held)?;
    are_totals(alloc, decls, kind_of(kind), &held, wanted)
}
