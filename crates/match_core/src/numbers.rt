// A map from numbers to entries, in parts, so that a look-up searches a small one.
ghost use Rattle.std.specs.Prelude.{◌≡◌, ℕ, ◌≤◌, [], length, IfOk, OnOk, OnErr};
ghost use Rattle.std.specs.Ordering.{nat_cmp};
ghost use Rattle.match_core.specs.internal.Maps.{stored, part_number, joined, AreParts, IsPut};

use crate::exact::put_first;
use p4x_bits::OutOfMemory;
use std::alloc::Global;
use std::collections::BTreeMap;
use std::marker::Model;

/// How many numbers a part has where they are spread evenly over the parts.
const SHARE: usize = 8;

/// How many parts a map has at most.
const MOST_PARTS: usize = 8192;

/// The entries of some of the numbers.
struct Part {
    map: BTreeMap<u128, u32>,
}

impl Drop for Part {
    fn drop(self) {
        let Part { map: _map } = self;
    }
}

impl Model for Part {
    ghost use Rattle.std.specs.Prelude.{List, ℕ};

    ghost Value = { List (ℕ × ℕ) };

    ghost view = { λ part. part.map.entries };
}

impl Part {
    fn new(alloc: Global) -> Part
        ensures { result ≡ [] }
    {
        Part {
            map: BTreeMap::new(alloc),
        }
    }

    fn put(&mut self, number: u128, entry: u32) -> Result<(), OutOfMemory>
        ensures put { OnOk result (IsPut nat_cmp self.old self.new number entry) }
        ensures err { OnErr result ((other : ℕ) → stored nat_cmp self.new other ≡ stored nat_cmp self.old other) }
    {
        put_first(&mut self.map, number, entry)
    }

    fn get(&self, number: u128) -> Option<u32>
        ensures { result ≡ stored nat_cmp self.now number }
    {
        self.map.get(&number).copied()
    }
}

/// A map from numbers to entries. A number stands in the part that its low bits tell.
#[derive(Drop)]
pub struct NumberMap {
    parts: Vec<Part>,
}

impl Model for NumberMap {
    ghost use Rattle.std.specs.Prelude.{List, ℕ};
    ghost use Rattle.match_core.specs.internal.Maps.{joined, AreParts};

    ghost Value = { List (ℕ × ℕ) };

    ghost view = { λ numbers. joined numbers.parts.items };

    ghost invariant = { λ numbers. AreParts numbers.parts.items };
}

/// How many parts a map of so many entries has: a power of two.
fn parts_for(entries: usize) -> usize
    ensures { 1 ≤ result }
{
    (entries / SHARE).clamp(1, MOST_PARTS).next_power_of_two()
}

/// The place of the part of a number.
fn part_number(parts: &[Part], number: u128) -> usize
    ensures { result ≡ part_number (length parts.now) number }
{
    let mask = parts.len().saturating_sub(1);
    ((number % MOST_PARTS as u128) as usize & mask).min(mask)
}

/// So many parts, which have no numbers.
fn empty_parts(alloc: Global, count: usize) -> Result<Vec<Part>, OutOfMemory>
    requires { 1 ≤ count }
    ensures are { IfOk result (λ parts. AreParts parts.items) }
    ensures empty { IfOk result (λ parts. joined parts.items ≡ []) }
{
    let mut parts = Vec::with_capacity(alloc, count)?;
    for _ in 0..count {
        parts.push(Part::new(alloc))?;
    }
    Ok(parts)
}

impl NumberMap {
    /// A map without numbers, with as many parts as serve so many entries.
    pub fn new(alloc: Global, entries: usize) -> Result<NumberMap, OutOfMemory>
        ensures { IfOk result (λ numbers. numbers ≡ []) }
    {
        let parts = empty_parts(alloc, parts_for(entries))?;
        Ok(NumberMap { parts })
    }

    /// Puts an entry at a number where none stands.
    pub fn put(&mut self, number: u128, entry: u32) -> Result<(), OutOfMemory>
        ensures { OnOk result (IsPut nat_cmp self.old self.new number entry) }
    {
        let place = part_number(&self.parts, number);
        self.parts[place].put(number, entry)
    }

    /// The entry of a number.
    pub fn get(&self, number: u128) -> Option<u32>
        ensures { result ≡ stored nat_cmp self.now number }
    {
        let place = part_number(&self.parts, number);
        self.parts[place].get(number)
    }
}
