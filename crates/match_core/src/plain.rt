// What an entry whose keys are exact, but for one lpm key at most, is found by, and the index of a table of one such key:
// for each length of a prefix that the entries use, the longest first, a map from the number that an entry asks for to the
// first entry that does.
ghost use Rattle.std.specs.Prelude.{◌≡◌, ◌^◌, ◌<◌, [], ◌∷◌, length, All, IfOk};
ghost use Rattle.std.specs.List.{AllZip};
ghost use Rattle.std.specs.Ordering.{nat_cmp};
ghost use Rattle.match_core.specs.Matching.{prefix_length};
ghost use Rattle.match_core.specs.Signatures.{AreSpecs};
ghost use Rattle.match_core.specs.Fits.{FitsKey, FitsKeys};
ghost use Rattle.match_core.specs.internal.Maps.{stored};
ghost use Rattle.match_core.specs.internal.Levels.{AreLevels};
ghost use Rattle.match_core.specs.internal.Codes.{are_plain, code_one, code_of, part_by, IsCodeIndex, number_found, IsLongest};

use crate::entries::{Entry, KeyMatch};
use crate::key::Key;
use crate::levels::{Level, put};
use crate::scan::{has_priority, high_bits, prefix_rank};
use crate::signatures::{KeyKind, KeySpec};
use p4x_bits::OutOfMemory;
use std::alloc::Global;

/// Whether each key is exact or lpm.
pub fn are_plain(specs: &[KeySpec]) -> bool
    ensures { result ≡ are_plain specs.now }
{
    specs.iter().all(|spec| !has_priority(spec.kind))
}

/// The number that an entry asks for at one key.
fn code_one(width: u8, one: KeyMatch) -> u128
    ensures { result ≡ code_one width one }
{
    match one {
        KeyMatch::Exact(value) => value,
        KeyMatch::Lpm { value, length } => high_bits(value, width.saturating_sub(length)),
        _ => 0,
    }
}

/// The number that an entry of one key asks for.
fn first_code(spec: KeySpec, ones: &[KeyMatch]) -> u128
    requires { AllZip FitsKey (spec ∷ []) ones.now }
    ensures { code_of (spec ∷ []) ones.now ≡ result ∷ [] }
{
    match ones {
        [one] => code_one(spec.width, *one),
        _ => 0,
    }
}

/// The numbers that an entry asks for.
pub fn code_of(alloc: Global, specs: &[KeySpec], ones: &[KeyMatch]) -> Result<Key, OutOfMemory>
    ensures { IfOk result (λ code. code ≡ code_of specs.now ones.now) }
{
    let mut code = Key::new(alloc);
    for i in 0..specs.len().min(ones.len()) {
        code.push(code_one(specs[i].width, ones[i]))?;
    }
    Ok(code)
}

/// The number that a value is found by where prefixes have so many bits.
fn part_of(spec: KeySpec, bits: u8, value: u128) -> u128
    ensures { result ≡ part_by spec.kind spec.width bits value }
{
    match spec.kind {
        KeyKind::Lpm => high_bits(value, spec.width.saturating_sub(bits)),
        _ => value,
    }
}

/// How many bits the prefix of an entry has.
pub fn prefix_bits(specs: &[KeySpec], ones: &[KeyMatch]) -> u8
    requires specs { AreSpecs specs.now }
    requires fits { AllZip FitsKey specs.now ones.now }
    ensures { result ≡ prefix_length ones.now }
{
    (128 - prefix_rank(ones)) as u8
}

/// The index of a table of one key.
pub fn number_levels(
    alloc: Global,
    spec: KeySpec,
    entries: &[Entry],
) -> Result<Vec<Level>, OutOfMemory>
    requires specs { AreSpecs (spec ∷ []) }
    requires few { length entries.now < 2 ^ 32 }
    requires fits { All (FitsKeys (spec ∷ [])) entries.now }
    ensures levels { IfOk result (λ levels. AreLevels levels.items) }
    ensures index { IfOk result (λ levels. IsCodeIndex (spec ∷ []) entries.now (length entries.now) (number_found levels.items)) }
{
    let mut levels = Vec::new(alloc);
    for i in 0..entries.len() {
        let ones = entries[i].keys.as_slice();
        let bits = prefix_bits(&[spec], ones);
        let number = first_code(spec, ones);
        put(alloc, &mut levels, entries.len(), bits, number, i as u32)?;
    }
    Ok(levels)
}

/// The number that a level has for a value.
fn number_at(level: &Level, spec: KeySpec, value: u128) -> Option<u32>
    ensures { result ≡ stored nat_cmp level.now.map (part_by spec.kind spec.width level.now.bits value) }
{
    let number = part_of(spec, level.bits, value);
    level.map.get(number)
}

/// The number that the first level has for a value, the longest prefix first.
pub fn find_number(levels: &[Level], spec: KeySpec, value: u128) -> Option<u32>
    requires { AreLevels levels.now }
    ensures { IsLongest (number_found levels.now) (spec ∷ []) (value ∷ []) result }
{
    for level in levels {
        if let Some(found) = number_at(level, spec, value) {
            return Some(found);
        }
    }
    None
}
