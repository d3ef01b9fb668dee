// Widths and sizes that elements, slices and `++` leave (P4_16 1.2, "Header stacks", "Operations on `bit` types").
ghost use Rattle.std.specs.Prelude.{◌≡◌, ◌+◌, nat_lt};
ghost use Rattle.p416_syntax.specs.declared.node.BinaryOperator.TheVariants.{Concatenate};
ghost use Rattle.p416_syntax.specs.Sizes as rules;
ghost use Rattle.p416_names.specs.SeenKinds.{seen_kind};
ghost use Rattle.p416_expression_check.specs.internal.Broken.{leaves_by};

use p416_names::Kind;
use p416_syntax::{BinaryOperator, ExpHead, ExpView, Literal16};

/// Whether an element isn't one of a stack.
fn leaves_stack(of: Kind<'_>, at: Literal16) -> bool
    ensures { result ≡ rules.leaves_stack (seen_kind of.entry) at }
{
    match of {
        Kind::Stack(_, size) => size <= at.value,
        _ => false,
    }
}

/// Whether a slice isn't one of so many bits.
fn leaves_bits(of: Kind<'_>, high: Literal16, low: Literal16) -> bool
    ensures { result ≡ rules.leaves_bits (seen_kind of.entry) high low }
{
    match of {
        Kind::Bits(width) => high.value < low.value || width <= high.value,
        _ => false,
    }
}

/// Whether two widths come to more than 128 bits.
fn are_too_many(v: u128, w: u128) -> bool
    ensures { result ≡ nat_lt 128 (v + w) }
{
    v > 128 || w > 128 - v
}

/// Whether these come to more than 128 bits.
fn join_too_many(a: Kind<'_>, b: Kind<'_>) -> bool
    ensures { result ≡ rules.joins_too_many Concatenate (seen_kind a.entry) (seen_kind b.entry) }
{
    match (a, b) {
        (Kind::Bits(v), Kind::Bits(w)) => are_too_many(v, w),
        _ => false,
    }
}

/// Whether an operator makes more than 128 bits.
fn joins_too_many(operator: BinaryOperator, a: Kind<'_>, b: Kind<'_>) -> bool
    ensures { result ≡ rules.joins_too_many operator (seen_kind a.entry) (seen_kind b.entry) }
{
    match operator {
        BinaryOperator::Concatenate => join_too_many(a, b),
        _ => false,
    }
}

/// Whether an expression leaves a width or a size, given what its parts are (T2).
pub(crate) fn leaves_size(view: &ExpView<'_>, left: Kind<'_>, right: Kind<'_>) -> bool
    ensures { result ≡ leaves_by (seen_kind left.entry) (seen_kind right.entry) view.now }
{
    match view.head() {
        ExpHead::Index(_, at) => leaves_stack(left, at),
        ExpHead::Slice(_, high, low) => leaves_bits(left, high, low),
        ExpHead::Binary(operator, _, _) => joins_too_many(operator, left, right),
        _ => false,
    }
}
