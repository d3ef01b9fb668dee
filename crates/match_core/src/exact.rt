// The index of a table whose keys are all exact: a map from each key to its best entry.
ghost use Rattle.std.specs.Prelude.{◌≡◌, ℕ, ◌^◌, ◌<◌, ◌≤◌, length, map, All, IfOk, OnOk, OnErr, IsTrue};
ghost use Rattle.match_core.specs.Best.{Filled};
ghost use Rattle.match_core.specs.Fits.{FitsKeys};
ghost use Rattle.match_core.specs.internal.Index.{is_exact, are_exact, value_of, IsKeyIndex};
ghost use Rattle.match_core.specs.internal.Maps.{stored, IsPut};

use crate::entries::{Entry, KeyMatch};
use crate::key::Key;
use crate::signatures::{KeyKind, KeySpec};
use p4x_bits::OutOfMemory;
use std::alloc::Global;
use std::collections::BTreeMap;

fn is_exact(kind: KeyKind) -> bool
    ensures { result ≡ is_exact kind }
{
    match kind {
        KeyKind::Exact => true,
        _ => false,
    }
}

/// Whether all keys of a table are exact.
pub fn are_exact(specs: &[KeySpec]) -> bool
    ensures { result ≡ are_exact specs.now }
{
    specs.iter().all(|spec| is_exact(spec.kind))
}

fn value_of(one: KeyMatch) -> u128
    ensures { result ≡ value_of one }
{
    match one {
        KeyMatch::Exact(value) => value,
        _ => 0,
    }
}

/// The one key that an entry of exact keys matches.
fn key_of(alloc: Global, ones: &[KeyMatch]) -> Result<Key, OutOfMemory>
    ensures { IfOk result (λ key. key ≡ map value_of ones.now) }
{
    let mut key = Key::new(alloc);
    for one in ones {
        key.push(value_of(*one))?;
    }
    Ok(key)
}

/// Puts a number into an index at a key where none stands.
pub fn put_first<K: Ord + Drop>(
    index: &mut BTreeMap<K, u32>,
    key: K,
    i: u32,
) -> Result<(), OutOfMemory>
    ensures put { OnOk result (IsPut K.cmp index.old.entries index.new.entries key i) }
    ensures err { OnErr result ((other : _) → stored K.cmp index.new.entries other ≡ stored K.cmp index.old.entries other) }
{
    index.entry(key)?.or_insert(i);
    Ok(())
}

/// The index of these entries, of which the first counts where two have one key.
pub fn key_index(
    alloc: Global,
    specs: &[KeySpec],
    entries: &[Entry],
) -> Result<BTreeMap<Key, u32>, OutOfMemory>
    requires exact { IsTrue (are_exact specs.now) }
    requires few { length entries.now < 2 ^ 32 }
    requires fits { All (FitsKeys specs.now) entries.now }
    ensures { IfOk result (IsKeyIndex (record { specs = specs.now; entries = entries.now })) }
{
    let mut index = BTreeMap::new(alloc);
    for i in 0..entries.len() {
        let key = key_of(alloc, entries[i].keys.as_slice())?;
        put_first(&mut index, key, i as u32)?;
    }
    Ok(index)
}
