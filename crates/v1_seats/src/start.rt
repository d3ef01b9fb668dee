// Where a value begins.
ghost use Rattle.std.specs.Prelude.{◌≡◌, ◌+◌, ◌*◌, IfOk};
ghost use Rattle.v1_seats.specs.Seen.{seen_start};
ghost use Rattle.v1_seats.specs.Extents.{further};

use p4x_bits::OutOfMemory;

/// Where a value begins: its first slot, its first header and its first stack; or how many of these it has.
#[derive(Clone, Copy, PartialEq, Eq, Drop)]
pub struct Start {
    /// The slot.
    pub slot: u32,
    /// The header.
    pub header: u32,
    /// The stack.
    pub stack: u32,
}

/// The sum, and want of memory for one of more than 32 bits.
pub(crate) fn sum(a: u32, b: u32) -> Result<u32, OutOfMemory>
    ensures { IfOk result (λ n. n ≡ a + b) }
{
    match a.checked_add(b) {
        Some(n) => Ok(n),
        None => Err(OutOfMemory),
    }
}

/// The product, and want of memory for one of more than 32 bits.
pub(crate) fn product(a: u32, b: u32) -> Result<u32, OutOfMemory>
    ensures { IfOk result (λ n. n ≡ a * b) }
{
    match a.checked_mul(b) {
        Some(n) => Ok(n),
        None => Err(OutOfMemory),
    }
}

/// A number of elements as one of 32 bits, and want of memory for a larger one.
pub(crate) fn small(number: u128) -> Result<u32, OutOfMemory>
    ensures { IfOk result (λ small. small ≡ number) }
{
    if number <= u128::from(u32::MAX) {
        Ok(number as u32)
    } else {
        Err(OutOfMemory)
    }
}

/// Behind so many more, and want of memory where a number has more than 32 bits.
pub(crate) fn further(start: Start, by: Start) -> Result<Start, OutOfMemory>
    ensures { IfOk result (λ s. seen_start s ≡ further (seen_start start) (seen_start by)) }
{
    let slot = sum(start.slot, by.slot)?;
    let header = sum(start.header, by.header)?;
    let stack = sum(start.stack, by.stack)?;
    Ok(Start {
        slot,
        header,
        stack,
    })
}
