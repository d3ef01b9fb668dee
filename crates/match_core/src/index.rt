// How a table finds the best entry.
ghost use Rattle.std.specs.Prelude.{◌≡◌, ℕ, ◌^◌, ◌<◌, length, All, IfOk};
ghost use Rattle.match_core.specs.Best.{Filled, IsBest};
ghost use Rattle.match_core.specs.Fits.{FitsKeys};
ghost use Rattle.match_core.specs.Signatures.{AreSpecs};
ghost use Rattle.match_core.specs.internal.Index.{IsIndex, IsNumberIndex, IsGroupIndex};

use crate::entries::Entry;
use crate::exact::{are_exact, key_index};
use crate::groups::{Group, find_in_groups, key_groups};
use crate::key::Key;
use crate::levels::Level;
use crate::order::{first, order_of};
use crate::plain::{are_plain, find_number, number_levels};
use crate::signatures::KeySpec;
use p4x_bits::OutOfMemory;
use std::alloc::Global;
use std::collections::BTreeMap;

/// How a table finds the best entry of a key.
pub enum Index {
    /// The one key is exact or lpm: for each length that the prefixes of entries have, the longest first, a map from a
    /// number to its first entry. Exact keys are all of one length.
    Numbers(Vec<Level>),
    /// All keys are exact: a map from a key to its first entry.
    Keys(BTreeMap<Key, u32>),
    /// One of several keys is lpm, and the others are exact: a group for each choice of exact values, in their order.
    Groups(Vec<Group>),
    /// The entries are asked one by one, in the order in which they count.
    Order(Vec<u64>),
}

impl Drop for Index {
    fn drop(self) {
        match self {
            Index::Numbers(_a) => {}
            Index::Keys(_a) => {}
            Index::Groups(_a) => {}
            Index::Order(_a) => {}
        }
    }
}

/// The index of these entries.
pub fn index_of(alloc: Global, specs: &[KeySpec], entries: &[Entry]) -> Result<Index, OutOfMemory>
    requires specs { AreSpecs specs.now }
    requires few { length entries.now < 2 ^ 32 }
    requires fits { All (FitsKeys specs.now) entries.now }
    ensures { IfOk result (IsIndex (record { specs = specs.now; entries = entries.now })) }
{
    if !are_plain(specs) {
        return Ok(Index::Order(order_of(alloc, specs, entries)?));
    }
    if let [spec] = specs {
        return Ok(Index::Numbers(number_levels(alloc, *spec, entries)?));
    }
    if are_exact(specs) {
        return Ok(Index::Keys(key_index(alloc, specs, entries)?));
    }
    Ok(Index::Groups(key_groups(alloc, specs, entries)?))
}

/// The number of the best entry of a key.
pub fn find(index: &Index, specs: &[KeySpec], entries: &[Entry], key: &Key) -> Option<u32>
    requires few { length entries.now < 2 ^ 32 }
    requires fits { All (FitsKeys specs.now) entries.now }
    requires index { IsIndex (record { specs = specs.now; entries = entries.now }) index.now }
    ensures { IsBest (record { specs = specs.now; entries = entries.now }) key.now result }
{
    match index {
        Index::Numbers(levels) => find_one(levels, specs, entries, key.as_slice()),
        Index::Keys(keys) => keys.get(key).copied(),
        Index::Groups(groups) => find_several(groups, specs, entries, key.as_slice()),
        Index::Order(order) => first(order, specs, entries, key.as_slice()),
    }
}

/// The number of the best entry of a key of one value.
fn find_one(levels: &[Level], specs: &[KeySpec], entries: &[Entry], key: &[u128]) -> Option<u32>
    requires fits { All (FitsKeys specs.now) entries.now }
    requires index { IsNumberIndex specs.now entries.now levels.now }
    ensures { IsBest (record { specs = specs.now; entries = entries.now }) key.now result }
{
    if key.len() != 1 {
        return None;
    }
    match specs {
        [spec] => find_number(levels, *spec, key[0]),
        _ => None,
    }
}

/// The number of the best entry of a key of as many values as the table has keys.
fn find_several(groups: &[Group], specs: &[KeySpec], entries: &[Entry], key: &[u128]) -> Option<u32>
    requires fits { All (FitsKeys specs.now) entries.now }
    requires index { IsGroupIndex specs.now entries.now groups.now }
    ensures { IsBest (record { specs = specs.now; entries = entries.now }) key.now result }
{
    if key.len() != specs.len() {
        return None;
    }
    find_in_groups(groups, specs, key)
}
