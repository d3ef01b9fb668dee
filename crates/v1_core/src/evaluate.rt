// The values of ready expressions over a frame (P4_16 1.2, "Expressions").
ghost use Rattle.std.specs.Prelude.{◌≡◌, ℕ, ◌+◌, ◌*◌, ◌^◌, ◌<◌, ◌≤◌, true, false, List, length, slice_index, MatchOption, IfSome, IfOk};
ghost use Rattle.v1_core.specs.Values.{a_truth};
ghost use Rattle.v1_core.specs.Cells.{header_valid, stack_place, stack_size};
ghost use Rattle.v1_core.specs.declared.node.Content.TheVariants as content;
ghost use Rattle.v1_core.specs.Scalars.{seen_scalar, FitsScalar};
ghost use Rattle.v1_core.specs.Ready.{bits_ahead, element_by, given, is_past, part_number, ready_value, value_in, within_stack};
ghost use Rattle.v1_core.specs.Ready as ready;
ghost use Rattle.v1_core.specs.Nodes.{IsElement, IsWidth, ready_at};
ghost use Rattle.v1_core.specs.Kept.{trees};
ghost use Rattle.v1_core.specs.Results.{seen_end};

use crate::expressions::Expressions;
use crate::frame::Frame;
use crate::node::{Content, Element, Node, Which};
use crate::operators::{binary, unary};
use crate::parser_error::ParserError;
use crate::scalar::{Scalar, to_bits, to_slice, to_truth};
use p4x_bits::read_octet_field;
use p416_syntax::BinaryOperator;

/// What stands in a slot.
fn slot_value(frame: &Frame<'_>, of: Content, slot: u32) -> Scalar
    requires { slot < length frame.now.layout.widths }
    ensures is { seen_scalar result ≡ value_in frame.now of slot }
    ensures fits { FitsScalar result }
{
    match of {
        Content::Bits => Scalar::Number(frame.width(slot), frame.get(slot)),
        Content::Truth => Scalar::Truth(frame.get(slot) != 0),
        Content::Error => Scalar::Error(frame.get(slot)),
    }
}

/// Whether a stack at this place has no such element.
fn is_past(which: Which, place: u32, size: u32) -> bool
    ensures { result ≡ is_past which place size }
{
    match which {
        Which::Next => place >= size,
        Which::Last => place == 0,
    }
}

/// The element that a stack at this place tells.
fn element_by(which: Which, place: u32) -> u32
    ensures { result ≡ element_by which place }
{
    match which {
        Which::Next => place,
        Which::Last => place.saturating_sub(1),
    }
}

/// The number of a part of the element with this number.
fn number_of(element: Element, number: u32, size: u32) -> u32
    requires within { number < size }
    requires narrow { element.first + size * element.apart < 2 ^ 32 }
    ensures is { result ≡ element.first + number * element.apart }
    ensures order { result + element.apart ≤ element.first + size * element.apart }
{
    let ahead = number * element.apart;
    element.first + ahead
}

/// The number of a part of the element that the place of the stack tells, or none where the stack has no such element.
fn part_number(frame: &Frame<'_>, element: Element) -> Option<u32>
    requires stack { element.stack < length frame.now.layout.sizes }
    requires narrow { element.first + slice_index frame.now.layout.sizes element.stack * element.apart < 2 ^ 32 }
    ensures past { MatchOption result (is_past element.which (stack_place frame.now element.stack) (stack_size frame.now element.stack) ≡ true) (λ number. is_past element.which (stack_place frame.now element.stack) (stack_size frame.now element.stack) ≡ false) }
    ensures is { IfSome result (λ number. number ≡ part_number frame.now element) }
    ensures order { IfSome result (λ number. number + element.apart ≤ element.first + slice_index frame.now.layout.sizes element.stack * element.apart) }
{
    let place = frame.place(element.stack);
    let size = frame.size(element.stack);
    if is_past(element.which, place, size) {
        None
    } else {
        Some(number_of(element, element_by(element.which, place), size))
    }
}

/// What stands in a slot of the element that the place of a stack tells.
fn element_slot(frame: &Frame<'_>, element: Element) -> Result<Scalar, ParserError>
    requires { IsElement frame.now.layout (length frame.now.layout.widths) element }
    ensures is { seen_end result ≡ within_stack frame.now element (value_in frame.now content.Bits (part_number frame.now element)) }
    ensures fits { IfOk result FitsScalar }
{
    match part_number(frame, element) {
        Some(slot) => Ok(slot_value(frame, Content::Bits, slot)),
        None => Err(ParserError::StackOutOfBounds),
    }
}

/// Whether the element is valid that the place of a stack tells.
fn element_valid(frame: &Frame<'_>, element: Element) -> Result<Scalar, ParserError>
    requires { IsElement frame.now.layout (length frame.now.layout.headers) element }
    ensures is { seen_end result ≡ within_stack frame.now element (a_truth (header_valid frame.now (part_number frame.now element))) }
    ensures fits { IfOk result FitsScalar }
{
    match part_number(frame, element) {
        Some(header) => Ok(Scalar::Truth(frame.valid(header))),
        None => Err(ParserError::StackOutOfBounds),
    }
}

/// So many bits in front of these octets.
#[tactic(auto, using(crate::proofs::Looking::ahead_there, crate::proofs::Looking::ahead_past, crate::proofs::Looking::ahead_fits))]
fn bits_ahead(unparsed: &[u8], width: u8) -> Result<Scalar, ParserError>
    requires { IsWidth width }
    ensures is { seen_end result ≡ bits_ahead unparsed.now width }
    ensures fits { IfOk result FitsScalar }
{
    if unparsed.len() < (usize::from(width) + 7) / 8 {
        Err(ParserError::PacketTooShort)
    } else {
        Ok(Scalar::Number(width, read_octet_field(unparsed, 0, width)))
    }
}

impl Expressions<'_> {
    /// The value of the expression at a place, over a frame with the same parts, where these octets aren't parsed; or the
    /// error that ends its evaluation: `PacketTooShort` exactly where it looks ahead further than the octets go, and
    /// `StackOutOfBounds` exactly where it asks for `next` of a full stack or `last` of one at place 0, whichever comes first.
    /// It takes no memory and looks nothing up, and it calls itself as deep as the expression is.
    // (A function's frame has room for all of its arms: what comes often is evaluated here, and the rest behind a call.)
    #[cycle(value)]
    pub fn value(
        &self,
        place: usize,
        frame: &Frame<'_>,
        unparsed: &[u8],
    ) -> Result<Scalar, ParserError>
        requires place { place < length self.now.nodes }
        requires layout { frame.now.layout ≡ self.now.layout }
        ensures is { seen_end result ≡ ready_value frame.now unparsed.now (ready_at (trees self.now) place) }
        ensures fits { IfOk result FitsScalar }
    {
        match self.node(place) {
            Node::Slot(of, slot) => Ok(slot_value(frame, of, slot)),
            Node::Number(width, number) => Ok(Scalar::Number(width, number)),
            Node::Valid(header) => Ok(Scalar::Truth(frame.valid(header))),
            Node::Binary(operator, a, b) => self.pair(operator, a, b, frame, unparsed),
            Node::And(a, b) => self.both(a, b, frame, unparsed),
            _ => self.value_within(place, frame, unparsed),
        }
    }

    /// The value of the expression at a place, where it is seen to be a slot, a number or whether a header is valid; None tells
    /// nothing.
    fn leaf(&self, place: usize, frame: &Frame<'_>) -> Option<Scalar>
        requires place { place < length self.now.nodes }
        requires layout { frame.now.layout ≡ self.now.layout }
        ensures is { (octets : List ℕ) → IfSome result (λ x. given (seen_scalar x) ≡ ready_value frame.now octets (ready_at (trees self.now) place)) }
        ensures fits { IfSome result FitsScalar }
    {
        match self.node(place) {
            Node::Slot(of, slot) => Some(slot_value(frame, of, slot)),
            Node::Number(width, number) => Some(Scalar::Number(width, number)),
            Node::Valid(header) => Some(Scalar::Truth(frame.valid(header))),
            _ => None,
        }
    }

    /// The same as `value`, for an operand that may be one of these.
    #[cycle(value)]
    fn operand(
        &self,
        place: usize,
        frame: &Frame<'_>,
        unparsed: &[u8],
    ) -> Result<Scalar, ParserError>
        requires place { place < length self.now.nodes }
        requires layout { frame.now.layout ≡ self.now.layout }
        ensures is { seen_end result ≡ ready_value frame.now unparsed.now (ready_at (trees self.now) place) }
        ensures fits { IfOk result FitsScalar }
    {
        match self.leaf(place, frame) {
            Some(found) => Ok(found),
            None => self.value(place, frame, unparsed),
        }
    }

    /// The same, for an expression of any node.
    #[cycle(value)]
    #[inline(never)]
    fn value_within(
        &self,
        place: usize,
        frame: &Frame<'_>,
        unparsed: &[u8],
    ) -> Result<Scalar, ParserError>
        requires place { place < length self.now.nodes }
        requires layout { frame.now.layout ≡ self.now.layout }
        ensures is { seen_end result ≡ ready_value frame.now unparsed.now (ready_at (trees self.now) place) }
        ensures fits { IfOk result FitsScalar }
    {
        match self.node(place) {
            Node::Number(width, number) => Ok(Scalar::Number(width, number)),
            Node::Truth(holds) => Ok(Scalar::Truth(holds)),
            Node::Error(number) => Ok(Scalar::Error(number)),
            Node::Slot(of, slot) => Ok(slot_value(frame, of, slot)),
            Node::ElementSlot(element) => element_slot(frame, element),
            Node::Valid(header) => Ok(Scalar::Truth(frame.valid(header))),
            Node::ElementValid(element) => element_valid(frame, element),
            Node::Ahead(width) => bits_ahead(unparsed, width),
            Node::Slice(a, from, width) => {
                Ok(to_slice(from, width, self.value(a, frame, unparsed)?))
            }
            Node::ToBits(width, a) => Ok(to_bits(width, self.value(a, frame, unparsed)?)),
            Node::ToTruth(a) => Ok(to_truth(self.value(a, frame, unparsed)?)),
            Node::Unary(operator, a) => Ok(unary(operator, self.value(a, frame, unparsed)?)),
            Node::And(a, b) => self.both(a, b, frame, unparsed),
            Node::Or(a, b) => self.either(a, b, frame, unparsed),
            Node::Binary(operator, a, b) => self.pair(operator, a, b, frame, unparsed),
            Node::Choice(condition, yes, no) => self.choice(condition, yes, no, frame, unparsed),
        }
    }

    /// The value of `&&`.
    #[cycle(value)]
    #[inline(never)]
    fn both(
        &self,
        a: usize,
        b: usize,
        frame: &Frame<'_>,
        unparsed: &[u8],
    ) -> Result<Scalar, ParserError>
        requires left { a < length self.now.nodes }
        requires right { b < length self.now.nodes }
        requires layout { frame.now.layout ≡ self.now.layout }
        ensures is { seen_end result ≡ ready_value frame.now unparsed.now (ready.both (ready_at (trees self.now) a) (ready_at (trees self.now) b)) }
        ensures fits { IfOk result FitsScalar }
    {
        let left = self.value(a, frame, unparsed)?;
        if left.is_true() {
            self.operand(b, frame, unparsed)
        } else {
            Ok(left)
        }
    }

    /// The value of `||`.
    #[cycle(value)]
    #[inline(never)]
    fn either(
        &self,
        a: usize,
        b: usize,
        frame: &Frame<'_>,
        unparsed: &[u8],
    ) -> Result<Scalar, ParserError>
        requires left { a < length self.now.nodes }
        requires right { b < length self.now.nodes }
        requires layout { frame.now.layout ≡ self.now.layout }
        ensures is { seen_end result ≡ ready_value frame.now unparsed.now (ready.either (ready_at (trees self.now) a) (ready_at (trees self.now) b)) }
        ensures fits { IfOk result FitsScalar }
    {
        let left = self.value(a, frame, unparsed)?;
        if left.is_true() {
            Ok(left)
        } else {
            self.value(b, frame, unparsed)
        }
    }

    /// The value of another operator with two operands.
    #[cycle(value)]
    #[inline(never)]
    fn pair(
        &self,
        operator: BinaryOperator,
        a: usize,
        b: usize,
        frame: &Frame<'_>,
        unparsed: &[u8],
    ) -> Result<Scalar, ParserError>
        requires left { a < length self.now.nodes }
        requires right { b < length self.now.nodes }
        requires layout { frame.now.layout ≡ self.now.layout }
        ensures is { seen_end result ≡ ready_value frame.now unparsed.now (ready.binary operator (ready_at (trees self.now) a) (ready_at (trees self.now) b)) }
        ensures fits { IfOk result FitsScalar }
    {
        let left = self.operand(a, frame, unparsed)?;
        let right = self.operand(b, frame, unparsed)?;
        Ok(binary(operator, left, right))
    }

    /// The value of `? :`.
    #[cycle(value)]
    #[inline(never)]
    fn choice(
        &self,
        condition: usize,
        yes: usize,
        no: usize,
        frame: &Frame<'_>,
        unparsed: &[u8],
    ) -> Result<Scalar, ParserError>
        requires condition { condition < length self.now.nodes }
        requires positive { yes < length self.now.nodes }
        requires negative { no < length self.now.nodes }
        requires layout { frame.now.layout ≡ self.now.layout }
        ensures is { seen_end result ≡ ready_value frame.now unparsed.now (ready.choice (ready_at (trees self.now) condition) (ready_at (trees self.now) yes) (ready_at (trees self.now) no)) }
        ensures fits { IfOk result FitsScalar }
    {
        let chosen = self.value(condition, frame, unparsed)?;
        if chosen.is_true() {
            self.value(yes, frame, unparsed)
        } else {
            self.value(no, frame, unparsed)
        }
    }
}
