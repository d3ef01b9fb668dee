// Fields, members and elements (P4_16 1.2, "Operations on headers", "Operations on struct types", "Operations on header
// stacks").
ghost use Rattle.std.specs.Prelude.{◌≡◌, length, map, slice_get, Some, IfOk, option_map};
ghost use Rattle.p416_syntax.specs.Scopes.{fields_in};
ghost use Rattle.p416_syntax.specs.Totals.{bits_in};
ghost use Rattle.p416_names.specs.SeenKinds.{seen_kind};
ghost use Rattle.v1_core.specs.Values.{to_member};
ghost use Rattle.v1_core.specs.Seats.{some_bits, slot_form, struct_form, form_of, moved, field_seat, element_seat, stepped_seat};
ghost use Rattle.v1_seats.specs.Seen.{seen_start, seen_seat};
ghost use Rattle.v1_seats.specs.internal.Rows.{AreStructs};

use crate::extents::{field_count, laid_struct};
use crate::laying::Laid;
use crate::rows::Rows;
use crate::seat::Seat;
use crate::start::{Start, further, product, small, sum};
use p4x_bits::OutOfMemory;
use p416_names::Kind;

/// A field of a header is bits, whatever it is declared as.
fn as_bits<'a>(kind: Kind<'_>) -> Kind<'a>
    ensures { form_of (seen_kind result) ≡ slot_form (some_bits (bits_in (seen_kind kind.entry))) }
{
    match kind {
        Kind::Bits(width) => Kind::Bits(width),
        _ => Kind::Bits(0),
    }
}

/// Behind so many slots more.
fn slots_behind(start: Start, slots: u32) -> Result<Start, OutOfMemory>
    ensures { IfOk result (λ s. seen_start s ≡ moved (seen_start start) slots 0 0) }
{
    let slot = sum(start.slot, slots)?;
    Ok(Start { slot, ..start })
}

/// The field of this name of a header of a type that stands there.
#[tactic(auto, using(crate::proofs::Stepping::field_there, crate::proofs::Stepping::field_missing))]
pub(crate) fn field_of<'a>(
    rows: &Rows<'_, 'a>,
    seat: Seat<'a>,
    of: &[u8],
    word: &[u8],
) -> Result<Option<Seat<'a>>, OutOfMemory>
    ensures { IfOk result (λ found. option_map seen_seat found ≡ field_seat seat.entry.start.header seat.entry.depth (fields_in rows.now.types of.now) (seen_start seat.entry.start) word.now) }
{
    let Some(field) = rows.row(of)?.find(word)? else {
        return Ok(None);
    };
    let start = slots_behind(seat.start, field.number)?;
    Ok(Some(Seat {
        depth: seat.depth,
        kind: as_bits(field.kind),
        start,
        owner: Some(seat.start.header),
    }))
}

/// Where the member with a number begins, counted from the beginning of its struct.
fn member_start(laid: &Laid, number: u32) -> Result<Start, OutOfMemory>
    ensures { IfOk result (λ by. slice_get (map seen_start laid.now.starts.items) number ≡ Some (seen_start by)) }
{
    match laid.starts.get(number as usize) {
        Some(by) => Ok(*by),
        None => Err(OutOfMemory),
    }
}

/// The member of this name of a struct of a type that stands there.
#[tactic(auto, using(crate::proofs::Stepping::member_there, crate::proofs::Stepping::member_missing, crate::proofs::Stepping::none_within))]
pub(crate) fn member_of<'a>(
    rows: &Rows<'_, 'a>,
    laid: &[Option<Laid>],
    seat: Seat<'a>,
    of: &[u8],
    word: &[u8],
) -> Result<Option<Seat<'a>>, OutOfMemory>
    requires { AreStructs rows.now.types rows.now.names laid.now }
    ensures { IfOk result (λ found. option_map seen_seat found ≡ stepped_seat rows.now.types seat.entry.depth (struct_form of.now) (seen_start seat.entry.start) (to_member word.now)) }
{
    if seat.depth == 0 {
        return Ok(None);
    }
    let depth = seat.depth - 1;
    let Some(member) = rows.row(of)?.find(word)? else {
        return Ok(None);
    };
    let members = laid_struct(rows, laid, of)?;
    if depth < members.all.depth {
        return Err(OutOfMemory);
    }
    let start = further(seat.start, member_start(members, member.number)?)?;
    Ok(Some(Seat {
        depth,
        kind: member.kind,
        start,
        owner: None,
    }))
}

/// The element with a number of a stack of so many headers of a type that stands there.
#[tactic(auto, using(crate::proofs::Stepping::element_there, crate::proofs::Stepping::element_missing))]
pub(crate) fn element_of<'a>(
    rows: &Rows<'_, 'a>,
    seat: Seat<'a>,
    of: &'a [u8],
    size: u128,
    number: u128,
) -> Result<Option<Seat<'a>>, OutOfMemory>
    ensures { IfOk result (λ found. option_map seen_seat found ≡ element_seat seat.entry.depth of.now (length (fields_in rows.now.types of.now)) size (seen_start seat.entry.start) number) }
{
    if number >= size {
        return Ok(None);
    }
    let header = small(number)?;
    let slot = product(header, field_count(rows, of)?)?;
    let start = further(
        seat.start,
        Start {
            slot,
            header,
            stack: 0,
        },
    )?;
    Ok(Some(Seat {
        depth: seat.depth,
        kind: Kind::Header(of),
        start,
        owner: None,
    }))
}
