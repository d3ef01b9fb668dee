// The keys of entries.
ghost use Rattle.std.specs.Prelude.{◌≡◌, ℕ, List, ◌<◌, not, if◌then◌else◌, true, false, length, replicate, IfOk, IfSome, OnOk};
ghost use Rattle.std.specs.Cmp.Lexicographic.{slice_cmp};
ghost use Rattle.std.specs.Ordering.{is_eq, nat_cmp};
ghost use Rattle.entries_file.specs.internal.KeySets.{has_key, no_numbers, number_of};

use match_core::Key;
use p4x_bits::OutOfMemory;
use std::alloc::Global;
use std::collections::BTreeSet;

/// Keys, each behind the number of its table. One that is a single number without a priority, as that of an entry with one exact key,
/// stands in the set of its table as this number, which takes a tenth of the room.
pub struct KeySet {
    pub numbers: Vec<BTreeSet<u128>>,
    pub others: BTreeSet<Key>,
}

impl Drop for KeySet {
    fn drop(self) {
        let KeySet {
            numbers: _numbers,
            others: _others,
        } = self;
    }
}

/// A set without numbers for each of so many tables.
fn no_numbers(alloc: Global, tables: usize) -> Result<Vec<BTreeSet<u128>>, OutOfMemory>
    ensures { IfOk result (λ sets. sets.items ≡ replicate tables no_numbers) }
{
    let mut sets = Vec::with_capacity(alloc, tables)?;
    for _ in 0..tables {
        sets.push(BTreeSet::new(alloc))?;
    }
    Ok(sets)
}

/// The table and the number of a key that is a single number without a priority, of one of so many tables.
fn number_of(tables: usize, key: &[u128]) -> Option<(usize, u128)>
    ensures is { result ≡ number_of tables key.now }
    ensures within { IfSome result (λ at. at.0 < tables) }
{
    let [table, priority, number, second] = key else {
        return None;
    };
    if *table < tables as u128 && (*priority == 0 && *second == 0) {
        Some((*table as usize, *number))
    } else {
        None
    }
}

impl KeySet {
    /// No keys, of so many tables. The one error is want of memory.
    pub fn new(alloc: Global, tables: usize) -> Result<KeySet, OutOfMemory>
        ensures { IfOk result (λ set. (key : List ℕ) → has_key set key ≡ false) }
    {
        Ok(KeySet {
            numbers: no_numbers(alloc, tables)?,
            others: BTreeSet::new(alloc),
        })
    }

    /// Puts a key there, and tells whether it wasn't there. The one error is want of memory.
    pub fn insert(&mut self, key: Key) -> Result<bool, OutOfMemory>
        ensures added { IfOk result (λ is_new. is_new ≡ not (has_key self.old key)) }
        ensures updates { OnOk result ((other : List ℕ) → has_key self.new other ≡ (if is_eq (slice_cmp nat_cmp key other) then true else has_key self.old other)) }
    {
        match number_of(self.numbers.len(), key.as_slice()) {
            Some((table, number)) => Ok(self.numbers[table].insert(number)?),
            None => Ok(self.others.insert(key)?),
        }
    }
}
