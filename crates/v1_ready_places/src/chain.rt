// An l-value is gone through from the inside out.
ghost use Rattle.std.specs.Prelude.{◌≡◌, None, length, map, option_map, IfOk};
ghost use Rattle.p416_syntax.specs.Heads.{of_exp_head};
ghost use Rattle.p416_syntax.specs.Declarations.{layouts_of};
ghost use Rattle.p416_names.specs.SeenKinds.{seen_kind};
ghost use Rattle.p416_scopes.specs.Seen.{seen_scope};
ghost use Rattle.p416_typing.specs.Rows.{left_of};
ghost use Rattle.v1_ready_forms.specs.Named.{seat_of_name};
ghost use Rattle.v1_ready_forms.specs.Spots.{spot_with};
ghost use Rattle.v1_place_laws.specs.Places.{meant, meant_by};
ghost use Rattle.v1_ready_program.specs.Seen.{seen_seats};
ghost use Rattle.v1_ready_places.specs.Seen.{seen_meant};
ghost use Rattle.v1_ready_places.specs.internal.Chains.{seen_left, step, chained};

use crate::meant::{Meant, element_meant, member_meant, slice_meant, whole};
use p4x_bits::OutOfMemory;
use p416_names::Kind;
use p416_syntax::{ExpHead, ExpView};
use p416_typing::{Row, Typed, typed_expression};
use std::alloc::Global;
use v1_ready_program::spots::Spot;
use v1_ready_program::{Around, NamedSeats};
use v1_seats::TypeTable;
use work_stack::Stack;

/// What a name means.
fn name_meant<'a>(seats: &NamedSeats<'a>, name: &[u8]) -> Option<Meant<'a>>
    ensures { option_map seen_meant result ≡ meant None (spot_with None (seat_of_name (seen_seats seats.now) name.now)) }
{
    match seats.find(name) {
        Some(seat) => whole(Some(Spot { seat, told: None })),
        None => None,
    }
}

/// What an expression means, given the kind of its first part and what that means.
fn step<'a>(
    seats: &NamedSeats<'a>,
    types: &TypeTable<'_, 'a>,
    head: ExpHead<'a>,
    left: Kind<'_>,
    meant: Option<Meant<'a>>,
) -> Result<Option<Meant<'a>>, OutOfMemory>
    ensures { IfOk result (λ found. option_map seen_meant found ≡ step types.now (seen_seats seats.now) (seen_kind left.entry) (of_exp_head head.entry) (option_map seen_meant meant.entry)) }
{
    match head {
        ExpHead::Name(text) => Ok(name_meant(seats, text.as_slice())),
        ExpHead::Member(_, word) => member_meant(types, left, word.as_slice(), meant),
        ExpHead::Index(_, at) => element_meant(types, at.value, meant),
        ExpHead::Slice(_, high, low) => slice_meant(high, low, meant),
        _ => Ok(None),
    }
}

/// The kinds of the first parts of expressions of which this is known.
#[tactic(auto, using(crate::proofs::Chained::lefts_begin, crate::proofs::Chained::lefts_turn, crate::proofs::Chained::lefts_end))]
fn left_kinds<'a>(alloc: Global, mut rows: Stack<Row<'a>>) -> Result<Vec<Kind<'a>>, OutOfMemory>
    ensures { IfOk result (λ kinds. map seen_kind kinds.items ≡ map seen_left rows.entry) }
{
    let mut kinds = Vec::new(alloc);
    while let Some(row) = rows.pop() {
        kinds.push(row.left)?;
    }
    Ok(kinds)
}

/// What the first of these expressions means, each of which is the first part of the one before it, given the kinds of their
/// first parts.
fn first_meant<'a>(
    around: Around<'_, 'a>,
    views: &[ExpView<'a>],
    kinds: &[Kind<'a>],
) -> Result<Option<Meant<'a>>, OutOfMemory>
    requires many { length kinds.now ≡ length views.now }
    requires types { around.types.now ≡ layouts_of around.scope.now.top.now }
    requires kinds { map seen_kind kinds.now ≡ map (left_of (seen_scope around.scope.now)) views.now }
    ensures { IfOk result (λ found. option_map seen_meant found ≡ chained (seen_scope around.entry.scope.now) (seen_seats around.entry.seats.now) views.now) }
{
    let mut meant = None;
    let mut left = views.len();
    while left > 0 {
        left -= 1;
        meant = step(
            around.seats,
            around.types,
            views[left].head(),
            kinds[left],
            meant,
        )?;
    }
    Ok(meant)
}

/// What an l-value means; none exactly where an expression is no l-value of a part of the frame. The time is proportional to what
/// stands within it, but for look-ups. The one error is want of memory, which numbers count as that no accepted program has.
pub fn ready_place<'a>(
    alloc: Global,
    around: Around<'_, 'a>,
    target: &ExpView<'a>,
) -> Result<Option<Meant<'a>>, OutOfMemory>
    requires types { around.types.now ≡ layouts_of around.scope.now.top.now }
    ensures { IfOk result (λ found. option_map seen_meant found ≡ meant_by (seen_scope around.entry.scope.now) (seen_seats around.entry.seats.now) target.now) }
{
    let Typed { views, rows } = typed_expression(alloc, around.scope, target)?;
    let kinds = left_kinds(alloc, rows)?;
    first_meant(around, &views, &kinds)
}
