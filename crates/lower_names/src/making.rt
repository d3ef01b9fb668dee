// Names that are made.
ghost use Rattle.std.specs.Prelude.{◌≡◌, ◌≤◌, length, take, IfOk};
ghost use Rattle.lower_laws_names.specs.Made.{made, called};

use itoa::Buffer;
use p4x_bits::{OutOfMemory, Text};
use std::alloc::Global;

/// How many octets a made name keeps of the old one.
const KEPT: usize = 48;

/// The front of a name.
fn front(name: &[u8]) -> &[u8]
    ensures { result.now ≡ take 48 name.now }
{
    if name.len() > KEPT {
        &name[..KEPT]
    } else {
        name
    }
}

/// The front of a name, `_`, a letter, a number and `_`.
#[tactic(auto, using(lower_laws_names::proofs::Things::made_parts))]
pub fn made(alloc: Global, letter: u8, number: u32, name: &[u8]) -> Result<Text, OutOfMemory>
    ensures { IfOk result (λ text. text ≡ made letter number name.now) }
{
    let mut text = Text::from_slice(alloc, front(name))?;
    text.extend_from_slice(&[b'_', letter])?;
    text.extend_from_slice(Buffer::new().format(number).as_bytes())?;
    text.push(b'_')?;
    Ok(text)
}

/// The new name of a thing, by its letter, its number, its name, and whether that stays.
pub fn called(
    alloc: Global,
    letter: u8,
    number: u32,
    name: &[u8],
    stays: bool,
) -> Result<Text, OutOfMemory>
    ensures { IfOk result (λ text. text ≡ called (record { letter = letter; number = number; name = name.now; stays = stays })) }
{
    if stays {
        Ok(Text::from_slice(alloc, name)?)
    } else {
        made(alloc, letter, number, name)
    }
}
