// Several items that are put on a stack at once.
ghost use Rattle.std.specs.Prelude.{◌≡◌, ◌∷◌, OnOk};

use p4x_bits::OutOfMemory;
use work_stack::Stack;

/// Puts four items in front, the first of them foremost.
///
/// # Errors
/// It fails for want of memory alone.
pub fn push_four<T: Drop>(left: &mut Stack<T>, a: T, b: T, c: T, d: T) -> Result<(), OutOfMemory>
    ensures { OnOk result (left.new ≡ a ∷ b ∷ c ∷ d ∷ left.old) }
{
    left.push(d)?;
    left.push_three(a, b, c)
}

/// Puts five items in front, the first of them foremost.
///
/// # Errors
/// It fails for want of memory alone.
pub fn push_five<T: Drop>(
    left: &mut Stack<T>,
    a: T,
    b: T,
    c: T,
    d: T,
    e: T,
) -> Result<(), OutOfMemory>
    ensures { OnOk result (left.new ≡ a ∷ b ∷ c ∷ d ∷ e ∷ left.old) }
{
    left.push_two(d, e)?;
    left.push_three(a, b, c)
}
