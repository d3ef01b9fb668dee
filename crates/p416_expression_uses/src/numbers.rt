// Numbers that stand by themselves (P4_16 1.2, "Literal constants", "Base types", "Header stacks").
ghost use Rattle.std.specs.Prelude.{◌≡◌};
ghost use Rattle.p416_syntax.specs.Sizes.{is_outside};
ghost use Rattle.p416_syntax.specs.Uses.{a_width, a_size, a_number, cast_numbers};
ghost use Rattle.p416_expression_check.specs.Judged.{first_broken};
ghost use Rattle.p416_expression_uses.specs.Found.{after, after_all};

use crate::found::Findings;
use p416_expression_check::is_too_large;
use p416_syntax::{CastType, Literal16, ProgramRule};

/// The most bits of a width.
const MOST_BITS: u128 = 128;

/// The most elements of a stack.
const MOST_ELEMENTS: u128 = 256;

/// Whether a number is less than 1 or over so many.
fn is_outside(most: u128, number: Literal16) -> bool
    ensures { result ≡ is_outside 1 most number }
{
    number.value < 1 || number.value > most
}

/// The rule that a number breaks which has no width but what is written with it.
fn broken_number(number: Literal16) -> Option<ProgramRule>
    ensures { result ≡ first_broken (a_number number) }
{
    if is_too_large(None, number) {
        Some(ProgramRule::T4)
    } else {
        None
    }
}

/// The first rule that the width of bits breaks.
fn broken_width(width: Literal16) -> Option<ProgramRule>
    ensures { result ≡ first_broken (a_width width) }
{
    if is_outside(MOST_BITS, width) {
        Some(ProgramRule::T2)
    } else {
        broken_number(width)
    }
}

/// The first rule that the size of a stack breaks.
fn broken_size(size: Literal16) -> Option<ProgramRule>
    ensures { result ≡ first_broken (a_size size) }
{
    if is_outside(MOST_ELEMENTS, size) {
        Some(ProgramRule::T2)
    } else {
        broken_number(size)
    }
}

/// Judges a number that has no width but what is written with it: T4, where it doesn't fit that.
pub fn see_number(number: Literal16, found: &mut Findings<'_>)
    ensures { found.new ≡ after found.old (a_number number) }
{
    found.see_rule(broken_number(number));
}

/// Judges the width of bits: T2 or T4.
pub fn see_width(width: Literal16, found: &mut Findings<'_>)
    ensures { found.new ≡ after found.old (a_width width) }
{
    found.see_rule(broken_width(width));
}

/// Judges the size of a stack: T2 or T4.
pub(crate) fn see_size(size: Literal16, found: &mut Findings<'_>)
    ensures { found.new ≡ after found.old (a_size size) }
{
    found.see_rule(broken_size(size));
}

/// Judges the number in a cast.
pub(crate) fn see_cast(to: CastType, found: &mut Findings<'_>)
    ensures { found.new ≡ after_all found.old (cast_numbers to) }
{
    match to {
        CastType::Bit(width) => see_width(width, found),
        CastType::Bool => {}
    }
}
