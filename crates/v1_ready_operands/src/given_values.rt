// What arguments and l-values mean.
ghost use Rattle.std.specs.Prelude.{◌≡◌, IfOk};
ghost use Rattle.p416_syntax.specs.Declarations.{layouts_of};
ghost use Rattle.p416_scopes.specs.Seen.{seen_scope};
ghost use Rattle.v1_ready_program.specs.Seen.{seen_seats};
ghost use Rattle.v1_ready_statements.specs.Targets.{range_given, target_given};
ghost use Rattle.v1_ready_statements.specs.Called.{number_given};

use p4x_bits::OutOfMemory;
use p416_syntax::{ExpHead, ExpView};
use std::alloc::Global;
use v1_ready_blocks::{RangePlace, Target};
use v1_ready_places::{parts_of, ready_place, target_of};
use v1_ready_program::Around;

/// The parts of the header, the stack or the struct that an l-value is; none exactly where it is no such thing. Errors as those of
/// `ready_place`.
pub fn range_given<'a>(
    alloc: Global,
    around: Around<'_, 'a>,
    target: &ExpView<'a>,
) -> Result<Option<RangePlace>, OutOfMemory>
    requires types { around.types.now ≡ layouts_of around.scope.now.top.now }
    ensures { IfOk result (λ found. found ≡ range_given (seen_scope around.entry.scope.now) (seen_seats around.entry.seats.now) target.now) }
{
    match ready_place(alloc, around, target)? {
        Some(meant) => parts_of(around.types, meant),
        None => Ok(None),
    }
}

/// The slot that an l-value is, with the slice of it; none exactly where it is no single value, or a stack tells it. Errors as those
/// of `ready_place`.
pub fn target_given<'a>(
    alloc: Global,
    around: Around<'_, 'a>,
    target: &ExpView<'a>,
) -> Result<Option<Target>, OutOfMemory>
    requires types { around.types.now ≡ layouts_of around.scope.now.top.now }
    ensures { IfOk result (λ found. found ≡ target_given (seen_scope around.entry.scope.now) (seen_seats around.entry.seats.now) target.now) }
{
    match ready_place(alloc, around, target)? {
        Some(meant) => Ok(target_of(meant)),
        None => Ok(None),
    }
}

/// The number that a literal is, and 0 for what is none. One of more than 32 bits counts as want of memory.
pub fn number_given(view: &ExpView<'_>) -> Result<u32, OutOfMemory>
    ensures { IfOk result (λ n. n ≡ number_given view.now) }
{
    match view.head() {
        ExpHead::Literal(number) => {
            if number.value <= u128::from(u32::MAX) {
                Ok(number.value as u32)
            } else {
                Err(OutOfMemory)
            }
        }
        _ => Ok(0),
    }
}
