// What is asked of a part, as an expression without operands (P4_16 1.2, "Operations on headers").
ghost use Rattle.std.specs.Prelude.{◌≡◌, List, Some, None, option_map};
ghost use Rattle.v1_seats.specs.Seen.{seen_seat};
ghost use Rattle.v1_core.specs.Ready.{Ready};
ghost use Rattle.v1_core.specs.Nodes.{ready_of};
ghost use Rattle.v1_ready_forms.specs.Spots.{spot, element_with, value_ready, validity_ready};
ghost use Rattle.v1_ready_program.specs.Seen.{seen_told, seen_spot};
ghost use Rattle.v1_ready_program.specs.internal.Coded.{seen_leaf};

use crate::spots::{Spot, Told};
use p416_names::Kind;
use v1_core::{Content, Element, Node};
use v1_seats::Seat;

/// An expression without operands.
#[derive(Clone, Copy, Drop)]
pub enum Leaf {
    /// Bits: how many, and their number.
    Number(u8, u128),
    /// A truth value.
    Truth(bool),
    /// An error, by its number in the order of `error`.
    Error(u128),
    /// A slot, with what stands in it.
    Slot(Content, u32),
    /// A field of an element of a stack.
    ElementSlot(Element),
    /// Whether a header is valid.
    Valid(u32),
    /// Whether an element of a stack is valid.
    ElementValid(Element),
    /// So many bits in front of those that aren't parsed.
    Ahead(u8),
}

impl Leaf {
    /// It as a node.
    pub fn node(self) -> Node
        ensures { (es : List Ready) → ready_of es result ≡ seen_leaf self }
    {
        match self {
            Leaf::Number(width, number) => Node::Number(width, number),
            Leaf::Truth(holds) => Node::Truth(holds),
            Leaf::Error(number) => Node::Error(number),
            Leaf::Slot(of, slot) => Node::Slot(of, slot),
            Leaf::ElementSlot(of) => Node::ElementSlot(of),
            Leaf::Valid(header) => Node::Valid(header),
            Leaf::ElementValid(of) => Node::ElementValid(of),
            Leaf::Ahead(width) => Node::Ahead(width),
        }
    }
}

/// The part of each element of a stack that has this number in the element 0.
fn element(told: Told, first: u32, apart: u32) -> Element
    ensures { result ≡ element_with (seen_told told) first apart }
{
    Element {
        which: told.which,
        stack: told.stack,
        first,
        apart,
    }
}

/// The value of what stands at a seat, where it is a single one.
fn plain_value(seat: Seat<'_>) -> Option<Leaf>
    ensures { option_map seen_leaf result ≡ value_ready (spot None (seen_seat seat.entry)) }
{
    match seat.kind {
        Kind::Bits(_) => Some(Leaf::Slot(Content::Bits, seat.start.slot)),
        Kind::Boolean => Some(Leaf::Slot(Content::Truth, seat.start.slot)),
        Kind::ErrorCode => Some(Leaf::Slot(Content::Error, seat.start.slot)),
        _ => None,
    }
}

/// The value of this part of an element that is told, where it is a single one.
fn told_value(seat: Seat<'_>, told: Told) -> Option<Leaf>
    ensures { option_map seen_leaf result ≡ value_ready (spot (Some (seen_told told)) (seen_seat seat.entry)) }
{
    match seat.kind {
        Kind::Bits(_) => Some(Leaf::ElementSlot(element(told, seat.start.slot, told.apart))),
        _ => None,
    }
}

/// The value of what stands there, where it is a single one.
pub fn value_of(spot: Spot<'_>) -> Option<Leaf>
    ensures { option_map seen_leaf result ≡ value_ready (seen_spot spot.entry) }
{
    match spot.told {
        Some(told) => told_value(spot.seat, told),
        None => plain_value(spot.seat),
    }
}

/// Whether the header is valid that stands at a seat, where one does.
fn plain_validity(seat: Seat<'_>) -> Option<Leaf>
    ensures { option_map seen_leaf result ≡ validity_ready (spot None (seen_seat seat.entry)) }
{
    match seat.kind {
        Kind::Header(_) => Some(Leaf::Valid(seat.start.header)),
        _ => None,
    }
}

/// Whether an element that is told is valid.
fn told_validity(seat: Seat<'_>, told: Told) -> Option<Leaf>
    ensures { option_map seen_leaf result ≡ validity_ready (spot (Some (seen_told told)) (seen_seat seat.entry)) }
{
    match seat.kind {
        Kind::Header(_) => Some(Leaf::ElementValid(element(told, seat.start.header, 1))),
        _ => None,
    }
}

/// Whether the header is valid that stands there, where one does.
pub fn validity_of(spot: Spot<'_>) -> Option<Leaf>
    ensures { option_map seen_leaf result ≡ validity_ready (seen_spot spot.entry) }
{
    match spot.told {
        Some(told) => told_validity(spot.seat, told),
        None => plain_validity(spot.seat),
    }
}
