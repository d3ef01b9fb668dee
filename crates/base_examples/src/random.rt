// The indexes of tables against the plain scan, on random tables.
ghost use Rattle.std.specs.Prelude.{◌≤◌, length, All, IfOk};
ghost use Rattle.match_core.specs.Fits.{FitsKeys};
ghost use Rattle.match_core.specs.Signatures.{AreSpecs};
ghost use Rattle.match_core.specs.declared.signatures.KeySpec.{KeySpec};

use crate::lines::{cut, number_of};
use crate::made::{Asked, are_narrow, entry_of};
use match_core::{Entry, Key, KeyKind, KeySpec, Table, are_specs};
use p4x_bits::OutOfMemory;
use std::alloc::Global;

/// A linear congruential generator of 64 bits.
#[derive(Drop)]
struct Random {
    state: u64,
}

impl Random {
    fn next(&mut self) -> u32 {
        self.state = self
            .state
            .wrapping_mul(6364136223846793005)
            .wrapping_add(1442695040888963407);
        (self.state / 4294967296) as u32
    }

    /// What an entry asks of ten keys.
    fn asked(&mut self) -> [Asked; 10] {
        let mut asked = [(0, 0); 10];
        for one in &mut asked {
            let value = u128::from(self.next());
            *one = (value, u128::from(self.next()));
        }
        asked
    }
}

/// A few random entries, of ten keys at most.
fn random_entries(
    alloc: Global,
    random: &mut Random,
    specs: &[KeySpec],
) -> Result<Vec<Entry>, OutOfMemory>
    requires { All (λ (spec : KeySpec). spec.width ≤ 128) specs.now }
    ensures few { IfOk result (λ entries. length entries.items ≤ 8) }
    ensures fits { IfOk result (λ entries. All (FitsKeys specs.now) entries.items) }
{
    let mut entries = Vec::new(alloc);
    let count = random.next() % 9;
    for _ in 0..count {
        let asked = random.asked();
        entries.push(entry_of(alloc, specs, &asked, random.next() % 3)?)?;
    }
    Ok(entries)
}

/// Puts random values for the keys of a table into a key: each of as many bits as its key has, and of eight at most.
fn put_random(key: &mut Key, random: &mut Random, specs: &[KeySpec]) -> bool {
    for spec in specs {
        let value = random.next() % (1u32 << spec.width.min(8));
        if key.push(u128::from(value)).is_err() {
            return false;
        }
    }
    true
}

/// What was found in random tables.
#[derive(Clone, Copy, Drop)]
struct Tally {
    /// In how many tables index and scan didn't agree.
    wrong: u32,
    /// In how many of the others an entry was found.
    hits: u32,
}

/// Whether the index of a table finds for a key what the scan finds, and whether that is an entry.
fn agrees(alloc: Global, specs: &[KeySpec], entries: &[Entry], key: &Key) -> (bool, bool)
    requires specs { AreSpecs specs.now }
    requires few { length entries.now ≤ 8 }
    requires fits { All (FitsKeys specs.now) entries.now }
{
    match &Table::build(alloc, entries, specs) {
        Ok(table) => {
            let found = table.lookup(key);
            (found == table.scan(key), found.is_some())
        }
        Err(_) => (false, false),
    }
}

/// The same of a random table with these keys.
fn agrees_at_random(alloc: Global, random: &mut Random, specs: &[KeySpec]) -> (bool, bool) {
    let mut key = Key::new(alloc);
    if !are_specs(specs) || !are_narrow(specs) || !put_random(&mut key, random, specs) {
        return (false, false);
    }
    match &random_entries(alloc, random, specs) {
        Ok(entries) => agrees(alloc, specs, entries, &key),
        Err(_) => (false, false),
    }
}

/// Tries so many random tables with these keys.
fn try_tables(alloc: Global, specs: &[KeySpec], turns: u32, tally: &mut Tally) {
    let mut random = Random { state: 14 };
    for _ in 0..turns {
        let (agrees, hits) = agrees_at_random(alloc, &mut random, specs);
        tally.wrong = tally.wrong.saturating_add(u32::from(!agrees));
        tally.hits = tally.hits.saturating_add(u32::from(hits));
    }
}

/// A key by a number: exact and ternary ones of two bits, lpm and range ones of three, and an exact one of one bit.
fn spec_of(number: u32) -> KeySpec {
    let (kind, width) = match number {
        0 => (KeyKind::Exact, 2),
        1 => (KeyKind::Ternary, 2),
        2 => (KeyKind::Lpm, 3),
        3 => (KeyKind::Range, 3),
        _ => (KeyKind::Exact, 1),
    };
    KeySpec { kind, width }
}

/// Keys by the digits of a number, the lowest first, in base four or five.
fn put_specs(specs: &mut Vec<KeySpec>, number: u32, five: bool, count: u32) -> bool {
    let mut left = number;
    for _ in 0..count {
        let (digit, more) = if five {
            (left % 5, left / 5)
        } else {
            (left % 4, left / 4)
        };
        if specs.push(spec_of(digit)).is_err() {
            return false;
        }
        left = more;
    }
    true
}

/// Tries so many random tables with the keys of a number, where a table can have such keys.
fn try_mix(alloc: Global, number: u32, five: bool, count: u32, turns: u32, tally: &mut Tally) {
    let mut specs = Vec::new(alloc);
    if !put_specs(&mut specs, number, five, count) {
        tally.wrong = turns;
    } else if are_specs(&specs) {
        try_tables(alloc, &specs, turns, tally);
    }
}

/// The next number of a row, and what stands behind it.
fn next_number(row: &[u8]) -> (u32, &[u8]) {
    let (cell, more) = cut(row, b' ');
    (number_of(cell).min(10_000_000) as u32, more)
}

/// Whether index and scan agree on random tables of some mixes of keys. A row tells the first of the mixes and the number of those, the
/// base of their digits, how many keys they have, how many tables of each are tried, and how many have to hit, so that the comparison
/// isn't one of misses alone.
pub fn agree(alloc: Global, row: &[u8]) -> bool {
    let (from, row) = next_number(row);
    let (mixes, row) = next_number(row);
    let (base, row) = next_number(row);
    let (count, row) = next_number(row);
    let (turns, row) = next_number(row);
    let (least, _) = next_number(row);
    let mut tally = Tally { wrong: 0, hits: 0 };
    for number in 0..mixes {
        let number = number.saturating_add(from);
        try_mix(alloc, number, base == 5, count, turns, &mut tally);
    }
    tally.wrong == 0 && tally.hits > least
}
