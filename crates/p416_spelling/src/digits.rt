// Numbers in decimal digits.
ghost use Rattle.std.specs.Prelude.{◌≡◌, ◌++◌, OnOk, IfOk};
ghost use Rattle.std.specs.Fmt.{decimal};
ghost use Rattle.p416_spelling.specs.Spelled.{number_text16};

use itoa::Buffer;
use p4x_bits::{Octets, OutOfMemory};
use p416_syntax::Literal16;
use std::alloc::Global;

/// Puts a number in decimal digits at the end.
fn push_digits(text: &mut Octets, number: u128) -> Result<(), OutOfMemory>
    ensures { OnOk result (text.new ≡ text.old ++ decimal number) }
{
    text.extend_from_slice(Buffer::new().format(number).as_bytes())
}

/// A number in decimal digits, with its width in front of a `w` where it has one. The only error is want of memory.
pub fn number_text(alloc: Global, number: Literal16) -> Result<Octets, OutOfMemory>
    ensures { IfOk result (λ text. text ≡ number_text16 number) }
{
    let mut text = Octets::new(alloc);
    if let Some(width) = number.width {
        push_digits(&mut text, u128::from(width))?;
        text.push(b'w')?;
    }
    push_digits(&mut text, number.value)?;
    Ok(text)
}
