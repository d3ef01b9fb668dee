// Maps by prefix length.
ghost use Rattle.std.specs.Prelude.{◌≡◌, ◌≢◌, ℕ, ◌<◌, ◌≤◌, true, false, length, slice_index_or, IfOk, OnOk};
ghost use Rattle.std.specs.Ordering.{nat_cmp};
ghost use Rattle.match_core.specs.declared.levels.Level.{Level};
ghost use Rattle.match_core.specs.internal.Levels.{AreLevels, found_in, IsLevelPut};

use crate::numbers::NumberMap;
use p4x_bits::OutOfMemory;
use std::alloc::Global;

/// The entries whose prefixes have so many bits: for each number that they ask for the first of them.
#[derive(Drop)]
pub struct Level {
    pub bits: u8,
    pub map: NumberMap,
}

/// Where a level of so many bits stands, or would stand: behind those with more bits.
fn place_of(levels: &[Level], bits: u8) -> usize
    ensures within { result ≤ length levels.now }
    ensures more { (i : ℕ) (d : Level) → i < result → bits < (slice_index_or levels.now i d).bits }
    ensures rest { (d : Level) → result < length levels.now → (slice_index_or levels.now result d).bits ≤ bits }
{
    for i in 0..levels.len() {
        if levels[i].bits <= bits {
            return i;
        }
    }
    levels.len()
}

/// Whether a level of so many bits stands at a place.
fn stands_at(levels: &[Level], place: usize, bits: u8) -> bool
    ensures within { result ≡ true → place < length levels.now }
    ensures same { result ≡ true → (d : Level) → (slice_index_or levels.now place d).bits ≡ bits }
    ensures other { result ≡ false → (d : Level) → place < length levels.now → (slice_index_or levels.now place d).bits ≢ bits }
{
    place < levels.len() && levels[place].bits == bits
}

/// The place of the level of so many bits, which is made, for so many entries, where there is none.
fn level_of(
    alloc: Global,
    levels: &mut Vec<Level>,
    bits: u8,
    entries: usize,
) -> Result<usize, OutOfMemory>
    requires { AreLevels levels.old.items }
    ensures levels { OnOk result (AreLevels levels.new.items) }
    ensures within { IfOk result (λ place. place < length levels.new.items) }
    ensures bits { IfOk result (λ place. (d : Level) → (slice_index_or levels.new.items place d).bits ≡ bits) }
    ensures same { OnOk result ((many : ℕ) (key : ℕ) → found_in nat_cmp levels.new.items many key ≡ found_in nat_cmp levels.old.items many key) }
{
    let place = place_of(levels, bits);
    if stands_at(levels, place, bits) {
        return Ok(place);
    }
    let map = NumberMap::new(alloc, entries)?;
    levels.insert(place, Level { bits, map })?;
    Ok(place)
}

/// Puts the number of an entry at a key of the level of so many bits, where none stands. A level that is made serves so many
/// entries.
pub fn put(
    alloc: Global,
    levels: &mut Vec<Level>,
    entries: usize,
    bits: u8,
    key: u128,
    number: u32,
) -> Result<(), OutOfMemory>
    requires { AreLevels levels.old.items }
    ensures levels { OnOk result (AreLevels levels.new.items) }
    ensures put { OnOk result (IsLevelPut nat_cmp levels.old.items levels.new.items bits key number) }
{
    let place = level_of(alloc, levels, bits, entries)?;
    levels[place].map.put(key, number)?;
    Ok(())
}
