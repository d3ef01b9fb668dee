// How far values reach.
ghost use Rattle.std.specs.Prelude.{◌≡◌, ◌≤◌, length, slice_get, Some, IfSome, IfOk};
ghost use Rattle.p416_syntax.specs.Scopes.{fields_in};
ghost use Rattle.p416_names.specs.SeenKinds.{seen_kind};
ghost use Rattle.v1_core.specs.Seats.{header_form, stack_form, struct_form};
ghost use Rattle.v1_seats.specs.Seen.{seen_start};
ghost use Rattle.v1_seats.specs.Extents.{no_size, one_slot, further, forms_in, Reaches};
ghost use Rattle.v1_seats.specs.internal.Rows.{HasExtent, AreStructs, IsLaid};

use crate::laying::Laid;
use crate::rows::Rows;
use crate::start::{Start, further, product, small};
use name_numbers::narrow;
use p4x_bits::OutOfMemory;
use p416_names::Kind;

/// How far a value reaches that is looked into through at least so many structs within each other.
#[derive(Clone, Copy, Drop)]
pub(crate) struct Extent {
    pub(crate) size: Start,
    pub(crate) depth: usize,
}

/// One slot.
fn lone() -> Extent
    ensures { seen_start result.size ≡ one_slot }
{
    let size = Start {
        slot: 1,
        header: 0,
        stack: 0,
    };
    Extent { size, depth: 0 }
}

/// Nothing.
pub(crate) fn nothing() -> Extent
    ensures { seen_start result.size ≡ no_size }
{
    let size = Start {
        slot: 0,
        header: 0,
        stack: 0,
    };
    Extent { size, depth: 0 }
}

/// How many fields a header of the type of this name has.
pub(crate) fn field_count(rows: &Rows<'_, '_>, of: &[u8]) -> Result<u32, OutOfMemory>
    ensures { IfOk result (λ n. n ≡ length (fields_in rows.now.types of.now)) }
{
    let row = rows.row(of)?;
    narrow(row.names.len())
}

/// How far a header of the type of this name reaches.
#[tactic(auto, using(crate::proofs::Reaching::header_reaches))]
fn header_extent(rows: &Rows<'_, '_>, of: &[u8]) -> Result<Extent, OutOfMemory>
    ensures { IfOk result (λ x. Reaches rows.now.types (header_form of.now) (seen_start x.size) x.depth) }
{
    let slot = field_count(rows, of)?;
    Ok(Extent {
        size: Start {
            slot,
            header: 1,
            stack: 0,
        },
        depth: 0,
    })
}

/// How far a stack of so many headers of the type of this name reaches.
#[tactic(auto, using(crate::proofs::Reaching::stack_reaches))]
fn stack_extent(rows: &Rows<'_, '_>, of: &[u8], size: u128) -> Result<Extent, OutOfMemory>
    ensures { IfOk result (λ x. Reaches rows.now.types (stack_form of.now size) (seen_start x.size) x.depth) }
{
    let fields = field_count(rows, of)?;
    let header = small(size)?;
    let slot = product(header, fields)?;
    Ok(Extent {
        size: Start {
            slot,
            header,
            stack: 1,
        },
        depth: 0,
    })
}

/// The struct with a number, where it is laid out.
fn struct_at(laid: &[Option<Laid>], number: usize) -> Option<&Laid>
    ensures { IfSome result (λ l. slice_get laid.now number ≡ Some (Some l.now)) }
{
    match laid.get(number) {
        Some(found) => found.as_ref(),
        None => None,
    }
}

/// The struct of the type of this name, where it is laid out; where it isn't, that counts as want of memory.
#[tactic(auto, using(crate::proofs::Naming::struct_named))]
pub(crate) fn laid_struct<'l>(
    rows: &Rows<'_, '_>,
    laid: &'l [Option<Laid>],
    of: &[u8],
) -> Result<&'l Laid, OutOfMemory>
    requires { AreStructs rows.now.types rows.now.names laid.now }
    ensures { IfOk result (λ l. IsLaid rows.now.types (forms_in rows.now.types of.now) l.now) }
{
    let number = rows.number(of)?;
    match struct_at(laid, number) {
        Some(laid) => Ok(laid),
        None => Err(OutOfMemory),
    }
}

/// How far a struct of the type of this name reaches, which is looked into through one struct more than its members.
#[tactic(auto, using(crate::proofs::Reaching::struct_reaches))]
fn struct_extent(
    rows: &Rows<'_, '_>,
    laid: &[Option<Laid>],
    of: &[u8],
) -> Result<Extent, OutOfMemory>
    requires { AreStructs rows.now.types rows.now.names laid.now }
    ensures { IfOk result (λ x. Reaches rows.now.types (struct_form of.now) (seen_start x.size) x.depth) }
{
    let members = laid_struct(rows, laid, of)?;
    let Some(depth) = members.all.depth.checked_add(1) else {
        return Err(OutOfMemory);
    };
    Ok(Extent {
        size: members.all.size,
        depth,
    })
}

/// How far a value of a kind reaches, where this is known of the structs in it.
#[tactic(auto, using(crate::proofs::Reaching::lone_reaches, crate::proofs::Reaching::nothing_reaches))]
pub(crate) fn extent_of(
    rows: &Rows<'_, '_>,
    laid: &[Option<Laid>],
    kind: Kind<'_>,
) -> Result<Extent, OutOfMemory>
    requires { AreStructs rows.now.types rows.now.names laid.now }
    ensures { IfOk result (HasExtent rows.now.types kind.entry) }
{
    match kind {
        Kind::Bits(_) => Ok(lone()),
        Kind::Boolean => Ok(lone()),
        Kind::ErrorCode => Ok(lone()),
        Kind::Header(of) => header_extent(rows, of),
        Kind::Stack(of, size) => stack_extent(rows, of, size),
        Kind::Struct(of) => struct_extent(rows, laid, of),
        _ => Ok(nothing()),
    }
}

/// One value behind another.
pub(crate) fn both(first: Extent, second: Extent) -> Result<Extent, OutOfMemory>
    ensures size { IfOk result (λ x. seen_start x.size ≡ further (seen_start first.size) (seen_start second.size)) }
    ensures first { IfOk result (λ x. first.depth ≤ x.depth) }
    ensures second { IfOk result (λ x. second.depth ≤ x.depth) }
{
    let size = further(first.size, second.size)?;
    Ok(Extent {
        size,
        depth: first.depth.max(second.depth),
    })
}
