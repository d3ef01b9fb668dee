// What tells the entries of a table apart.
ghost use Rattle.std.specs.Prelude.{◌≡◌, [], ◌∷◌, ◌++◌, OnOk};
ghost use Rattle.match_core.specs.Identity.{counted, identity};

use crate::entries::{Entry, KeyMatch};
use crate::key::Key;
use crate::scan::high_bits;
use crate::signatures::KeySpec;
use p4x_bits::OutOfMemory;

/// What counts of a key of `width` bits, from 1 to 128, when two are compared: of an exact key its value; of a ternary
/// key the bits of the value that are 1 in the mask, and the mask; of a prefix its bits alone, and its length; of a range
/// its two ends.
pub fn counted(width: u8, key: KeyMatch) -> (u128, u128)
    ensures { counted width key ≡ result.0 ∷ result.1 ∷ [] }
{
    match key {
        KeyMatch::Exact(value) => (value, 0),
        KeyMatch::Ternary { value, mask } => (value & mask, mask),
        KeyMatch::Lpm { value, length } => {
            let low = width.saturating_sub(length);
            (high_bits(value, low), u128::from(length))
        }
        KeyMatch::Range { low, high } => (low, high),
    }
}

/// Puts at the end of a key what tells an entry from the others of its table: its priority, and what counts of each of
/// its keys. For want of memory the key may have a part of that.
pub fn push_identity(key: &mut Key, specs: &[KeySpec], entry: &Entry) -> Result<(), OutOfMemory>
    ensures { OnOk result (key.new ≡ key.old ++ identity specs.now entry.now) }
{
    key.push(u128::from(entry.priority))?;
    let ones = entry.keys.as_slice();
    for i in 0..specs.len().min(ones.len()) {
        let (first, second) = counted(specs[i].width, ones[i]);
        key.push(first)?;
        key.push(second)?;
    }
    Ok(())
}
