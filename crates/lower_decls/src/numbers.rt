// Numbers that are written.
ghost use Rattle.std.specs.Prelude.{◌≡◌, IfOk};
ghost use Rattle.lower_laws_names.specs.Types.{plain};

use p4x_bits::OutOfMemory;
use p416_syntax::Literal16;

/// A literal without a width.
pub fn plain(value: u128) -> Literal16
    ensures { result ≡ plain value }
{
    Literal16 { width: None, value }
}

/// A number of 128 bits as one of 32. One that is larger counts as want of memory.
pub fn narrow_count(number: u128) -> Result<u32, OutOfMemory>
    ensures { IfOk result (λ narrow. narrow ≡ number) }
{
    match u32::try_from(number) {
        Ok(number) => Ok(number),
        Err(_) => Err(OutOfMemory),
    }
}

/// The bits of a field, of which an accepted program has 128 at most. More than 255 count as want of memory.
pub fn narrow_width(number: u128) -> Result<u8, OutOfMemory>
    ensures { IfOk result (λ narrow. narrow ≡ number) }
{
    match u8::try_from(number) {
        Ok(number) => Ok(number),
        Err(_) => Err(OutOfMemory),
    }
}
