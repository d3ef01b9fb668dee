// Numbers in fewer bits.
ghost use Rattle.std.specs.Prelude.{◌≡◌, ◌+◌, ◌%◌, ◌^◌, ◌≤◌, IfOk, OnErr};

use p4x_bits::OutOfMemory;

/// A number as one of 32 bits. One of 2^32 or more, which no program has that breaks no rule, counts as want of memory, and
/// that is the one error.
pub fn narrow_number(value: u128) -> Result<u32, OutOfMemory>
    ensures ok { IfOk result (λ narrow. narrow ≡ value) }
    ensures err { OnErr result (2 ^ 32 ≤ value) }
{
    match u32::try_from(value) {
        Ok(narrow) => Ok(narrow),
        Err(_) => Err(OutOfMemory),
    }
}

/// A number as one of 8 bits. One of 256 or more, which no width is in a program that breaks no rule, counts as want of
/// memory, and that is the one error.
pub fn narrow_width(value: u128) -> Result<u8, OutOfMemory>
    ensures ok { IfOk result (λ narrow. narrow ≡ value) }
    ensures err { OnErr result (256 ≤ value) }
{
    match u8::try_from(value) {
        Ok(narrow) => Ok(narrow),
        Err(_) => Err(OutOfMemory),
    }
}

/// A sum as a number of 32 bits. One of 2^32 or more counts as want of memory, and that is the one error.
pub fn add_bits(total: u32, bits: u128) -> Result<u32, OutOfMemory>
    ensures ok { IfOk result (λ sum. sum ≡ total + bits) }
    ensures err { OnErr result (2 ^ 32 ≤ total + bits) }
{
    let bits = narrow_number(bits)?;
    match total.checked_add(bits) {
        Some(sum) => Ok(sum),
        None => Err(OutOfMemory),
    }
}

/// A number modulo 2 ^ width. It takes no memory.
#[tactic(auto, using(crate::proofs::Powers::low_all))]
pub fn low(width: u8, value: u128) -> u128
    ensures { result ≡ value % 2 ^ width }
{
    if width < 128 {
        value % (1u128 << width)
    } else {
        value
    }
}
