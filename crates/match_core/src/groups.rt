// The index of a table whose keys are exact, but for one lpm key at most: a group for each choice of exact values that the
// entries have. A look-up asks for one group, and the lengths of the prefixes cost what they cost at one key.
ghost use Rattle.std.specs.Prelude.{◌≡◌, ◌^◌, ◌<◌, ◌≤◌, [], length, All, IfOk, OnOk, if◌then◌else◌};
ghost use Rattle.std.specs.List.{AllZip};
ghost use Rattle.std.specs.Ordering.{nat_cmp};
ghost use Rattle.std.specs.Cmp.Lexicographic.{slice_cmp};
ghost use Rattle.match_core.specs.Matching.{prefix_length};
ghost use Rattle.match_core.specs.Signatures.{is_lpm, AreSpecs};
ghost use Rattle.match_core.specs.Fits.{FitsKey, FitsKeys};
ghost use Rattle.match_core.specs.internal.Codes.{code_of, IsCodeIndex, IsLongest};
ghost use Rattle.match_core.specs.internal.Groups.{group_of, prefix_in, width_in, pairs_of, levels_at, AreInOrder, AreGroups, AreGiven, group_found, IsCodePut};

use crate::entries::{Entry, KeyMatch};
use crate::key::Key;
use crate::levels::{Level, put};
use crate::plain::{code_of, find_number, prefix_bits};
use crate::signatures::{KeyKind, KeySpec};
use crate::well_formed::is_lpm;
use p4x_bits::OutOfMemory;
use std::alloc::Global;
use std::cmp::Ordering;
use std::collections::BTreeMap;

/// The entries with the same values of the exact keys.
pub struct Group {
    /// The values, with 0 for the lpm key.
    pub values: Key,
    /// What one lpm key has: a map for each length of a prefix, the longest first.
    pub levels: Vec<Level>,
}

impl Drop for Group {
    fn drop(self) {
        let Group {
            values: _values,
            levels: _levels,
        } = self;
    }
}

/// The number that a group has for one of a code.
fn group_part(spec: KeySpec, number: u128) -> u128
    ensures { result ≡ (if is_lpm spec.kind then 0 else number) }
{
    if is_lpm(spec.kind) { 0 } else { number }
}

/// The group of the numbers of a code.
fn group_of(alloc: Global, specs: &[KeySpec], numbers: &[u128]) -> Result<Key, OutOfMemory>
    requires { length numbers.now ≡ length specs.now }
    ensures { IfOk result (λ group. group ≡ group_of specs.now numbers.now) }
{
    let mut group = Key::new(alloc);
    for i in 0..specs.len().min(numbers.len()) {
        group.push(group_part(specs[i], numbers[i]))?;
    }
    Ok(group)
}

/// The number at the lpm key, or 0 where there is none.
fn prefix_in(specs: &[KeySpec], numbers: &[u128]) -> u128
    ensures { result ≡ prefix_in specs.now numbers.now }
{
    for i in 0..specs.len().min(numbers.len()) {
        if is_lpm(specs[i].kind) {
            return numbers[i];
        }
    }
    0
}

/// How many bits the lpm key has, or 0 where there is none.
fn width_in(specs: &[KeySpec]) -> u8
    ensures { result ≡ width_in specs.now }
{
    for i in 0..specs.len() {
        if is_lpm(specs[i].kind) {
            return specs[i].width;
        }
    }
    0
}

/// Takes the levels of a group out.
fn take_levels(alloc: Global, groups: &mut BTreeMap<Key, Vec<Level>>, group: &Key) -> Vec<Level>
    ensures levels { result.items ≡ levels_at groups.old.entries group.now }
    ensures others { AreGiven groups.old.entries groups.new.entries group.now [] }
{
    match groups.remove(group) {
        Some(levels) => levels,
        None => Vec::new(alloc),
    }
}

/// Gives a group its levels.
fn give_levels(
    groups: &mut BTreeMap<Key, Vec<Level>>,
    group: Key,
    levels: Vec<Level>,
) -> Result<(), OutOfMemory>
    ensures { OnOk result (AreGiven groups.old.entries groups.new.entries group levels.items) }
{
    groups.insert(group, levels)?;
    Ok(())
}

/// Puts the number of an entry at the code of so many bits, where none stands.
fn put_code(
    alloc: Global,
    groups: &mut BTreeMap<Key, Vec<Level>>,
    specs: &[KeySpec],
    bits: u8,
    code: &[u128],
    number: u32,
) -> Result<(), OutOfMemory>
    requires specs { AreSpecs specs.now }
    requires same { length code.now ≡ length specs.now }
    requires are { AreGroups groups.old.entries }
    ensures are { OnOk result (AreGroups groups.new.entries) }
    ensures put { OnOk result (IsCodePut specs.now groups.old.entries groups.new.entries bits code.now number) }
{
    let group = group_of(alloc, specs, code)?;
    let mut levels = take_levels(alloc, groups, &group);
    put(alloc, &mut levels, 0, bits, prefix_in(specs, code), number)?;
    give_levels(groups, group, levels)?;
    Ok(())
}

/// Puts the number of an entry that asks so of each key, where none stands.
fn put_entry(
    alloc: Global,
    groups: &mut BTreeMap<Key, Vec<Level>>,
    specs: &[KeySpec],
    ones: &[KeyMatch],
    number: u32,
) -> Result<(), OutOfMemory>
    requires specs { AreSpecs specs.now }
    requires fits { AllZip FitsKey specs.now ones.now }
    requires are { AreGroups groups.old.entries }
    ensures are { OnOk result (AreGroups groups.new.entries) }
    ensures put { OnOk result (IsCodePut specs.now groups.old.entries groups.new.entries (prefix_length ones.now) (code_of specs.now ones.now) number) }
{
    let bits = prefix_bits(specs, ones);
    let code = code_of(alloc, specs, ones)?;
    put_code(alloc, groups, specs, bits, code.as_slice(), number)?;
    Ok(())
}

/// What the groups of a table of several keys have.
fn levels_by_group(
    alloc: Global,
    specs: &[KeySpec],
    entries: &[Entry],
) -> Result<BTreeMap<Key, Vec<Level>>, OutOfMemory>
    requires specs { AreSpecs specs.now }
    requires few { length entries.now < 2 ^ 32 }
    requires fits { All (FitsKeys specs.now) entries.now }
    ensures groups { IfOk result (λ groups. AreGroups groups.entries) }
    ensures index { IfOk result (λ groups. IsCodeIndex specs.now entries.now (length entries.now) (group_found specs.now groups.entries)) }
{
    let mut groups = BTreeMap::new(alloc);
    for i in 0..entries.len() {
        let ones = entries[i].keys.as_slice();
        put_entry(alloc, &mut groups, specs, ones, i as u32)?;
    }
    Ok(groups)
}

/// The groups of a map, in the order of their values.
fn in_order(alloc: Global, map: BTreeMap<Key, Vec<Level>>) -> Result<Vec<Group>, OutOfMemory>
    ensures same { IfOk result (λ groups. pairs_of groups.items ≡ map.entries) }
    ensures order { AreInOrder map.entries }
{
    let mut groups = Vec::new(alloc);
    for (values, levels) in map {
        groups.push(Group { values, levels })?;
    }
    Ok(groups)
}

/// The groups of a table of several keys, in the order of their values.
pub fn key_groups(
    alloc: Global,
    specs: &[KeySpec],
    entries: &[Entry],
) -> Result<Vec<Group>, OutOfMemory>
    requires specs { AreSpecs specs.now }
    requires few { length entries.now < 2 ^ 32 }
    requires fits { All (FitsKeys specs.now) entries.now }
    ensures order { IfOk result (λ groups. AreInOrder (pairs_of groups.items)) }
    ensures groups { IfOk result (λ groups. AreGroups (pairs_of groups.items)) }
    ensures index { IfOk result (λ groups. IsCodeIndex specs.now entries.now (length entries.now) (group_found specs.now (pairs_of groups.items))) }
{
    let map = levels_by_group(alloc, specs, entries)?;
    let groups = in_order(alloc, map)?;
    Ok(groups)
}

/// How the values of a group compare with those that a key has.
fn compare_values(values: &[u128], specs: &[KeySpec], key: &[u128]) -> Ordering
    requires { length key.now ≡ length specs.now }
    ensures { result ≡ slice_cmp nat_cmp values.now (group_of specs.now key.now) }
{
    for i in 0..values.len().min(key.len()) {
        let order = values[i].cmp(&group_part(specs[i], key[i]));
        if order.is_ne() {
            return order;
        }
    }
    values.len().cmp(&key.len())
}

/// How a group compares with the one of a key.
fn compare(group: &Group, specs: &[KeySpec], key: &[u128]) -> Ordering
    requires { length key.now ≡ length specs.now }
    ensures { result ≡ slice_cmp nat_cmp group.now.values (group_of specs.now key.now) }
{
    compare_values(group.values.as_slice(), specs, key)
}

/// The levels of the group of a key. It takes no memory.
fn levels_of<'a>(groups: &'a [Group], specs: &[KeySpec], key: &[u128]) -> &'a [Level]
    requires order { AreInOrder (pairs_of groups.now) }
    requires same { length key.now ≡ length specs.now }
    ensures { result.now ≡ levels_at (pairs_of groups.now) (group_of specs.now key.now) }
{
    match groups.binary_search_by(|group| compare(group, specs, key)) {
        Ok(place) => groups[place].levels.as_slice(),
        Err(_) => &[],
    }
}

/// The number that the longest prefix in the group of a key has.
pub fn find_in_groups(groups: &[Group], specs: &[KeySpec], key: &[u128]) -> Option<u32>
    requires order { AreInOrder (pairs_of groups.now) }
    requires groups { AreGroups (pairs_of groups.now) }
    requires same { length key.now ≡ length specs.now }
    ensures { IsLongest (group_found specs.now (pairs_of groups.now)) specs.now key.now result }
{
    let spec = KeySpec {
        kind: KeyKind::Lpm,
        width: width_in(specs),
    };
    find_number(levels_of(groups, specs, key), spec, prefix_in(specs, key))
}
