// Entries that fit the keys of a table, made of numbers.
ghost use Rattle.std.specs.Prelude.{◌≤◌, IfOk, IsTrue, All};
ghost use Rattle.std.specs.List.{AllZip};
ghost use Rattle.match_core.specs.Fits.{FitsKey, FitsKeys};
ghost use Rattle.match_core.specs.declared.signatures.KeySpec.{KeySpec};

use crate::bits::low;
use match_core::{Entry, KeyKind, KeyMatch, KeySpec};
use p4x_bits::{Numbers, OutOfMemory, Rows};
use std::alloc::Global;

/// What an entry asks of a key, by the key's kind: a number and nothing; a value and its mask; a value and the length of its
/// prefix; or the two ends of a range.
pub type Asked = (u128, u128);

/// What is asked of a key, with numbers cut to its width.
fn asked_of(spec: KeySpec, asked: Asked) -> KeyMatch
    requires { spec.width ≤ 128 }
    ensures { FitsKey spec result }
{
    let value = low(spec.width, asked.0);
    match spec.kind {
        KeyKind::Exact => KeyMatch::Exact(value),
        KeyKind::Ternary => KeyMatch::Ternary {
            value,
            mask: low(spec.width, asked.1),
        },
        KeyKind::Lpm => KeyMatch::Lpm {
            value,
            length: (asked.1 % (u128::from(spec.width) + 1)) as u8,
        },
        KeyKind::Range => {
            let other = low(spec.width, asked.1);
            KeyMatch::Range {
                low: value.min(other),
                high: value.max(other),
            }
        }
    }
}

/// What is asked of each key; of one that nothing is said of, zeros.
fn all_asked(
    alloc: Global,
    specs: &[KeySpec],
    asked: &[Asked],
) -> Result<Rows<KeyMatch>, OutOfMemory>
    requires { All (λ (spec : KeySpec). spec.width ≤ 128) specs.now }
    ensures { IfOk result (λ keys. AllZip FitsKey specs.now keys) }
{
    let mut keys = Rows::new(alloc);
    for spec in specs {
        let one = asked.get(keys.len()).copied().unwrap_or((0, 0));
        keys.push(asked_of(*spec, one))?;
    }
    Ok(keys)
}

/// An entry that asks this of the keys.
pub fn entry_of(
    alloc: Global,
    specs: &[KeySpec],
    asked: &[Asked],
    priority: u32,
) -> Result<Entry, OutOfMemory>
    requires { All (λ (spec : KeySpec). spec.width ≤ 128) specs.now }
    ensures { IfOk result (FitsKeys specs.now) }
{
    let keys = all_asked(alloc, specs, asked)?;
    Ok(Entry {
        keys,
        priority,
        action: 0,
        arguments: Numbers::new(alloc),
    })
}

/// Whether all keys have 128 bits at most.
pub fn are_narrow(specs: &[KeySpec]) -> bool
    ensures { IsTrue result → All (λ (spec : KeySpec). spec.width ≤ 128) specs.now }
{
    specs.iter().all(|spec| spec.width <= 128)
}
