// Matching as it is defined: each entry is asked, and the best of those that match is kept.
ghost use Rattle.std.specs.Prelude.{◌≡◌, ℕ, ◌+◌, ◌-◌, ◌/◌, ◌^◌, ◌<◌, ◌≤◌, length, IfSome};
ghost use Rattle.match_core.specs.Matching.{matches_one, matches, has_priority, by_priority, prefix_of, prefix_length, rank_of};
ghost use Rattle.match_core.specs.Best.{Filled, rank_at, lead, best};

use crate::entries::{Entry, KeyMatch};
use crate::signatures::{KeyKind, KeySpec};

/// A number without so many of its low bits.
pub fn high_bits(value: u128, low: u8) -> u128
    ensures { result ≡ value / 2 ^ low }
{
    if low < 128 { value >> low } else { 0 }
}

/// Whether a key of so many bits matches.
pub fn matches_one(width: u8, one: KeyMatch, key: u128) -> bool
    ensures { result ≡ matches_one width one key }
{
    match one {
        KeyMatch::Exact(value) => value == key,
        KeyMatch::Ternary { value, mask } => key & mask == value & mask,
        KeyMatch::Lpm { value, length } => {
            let low = width.saturating_sub(length);
            high_bits(key, low) == high_bits(value, low)
        }
        KeyMatch::Range { low, high } => low <= key && key <= high,
    }
}

/// Whether each key matches.
pub fn matches(specs: &[KeySpec], ones: &[KeyMatch], key: &[u128]) -> bool
    ensures { result ≡ matches specs.now ones.now key.now }
{
    if ones.len() != specs.len() || key.len() != specs.len() {
        return false;
    }
    for i in 0..specs.len() {
        if !matches_one(specs[i].width, ones[i], key[i]) {
            return false;
        }
    }
    true
}

/// Whether the entries of a table with a key of this kind have priorities: it is ternary or a range.
pub fn has_priority(kind: KeyKind) -> bool
    ensures { result ≡ has_priority kind }
{
    match kind {
        KeyKind::Exact | KeyKind::Lpm => false,
        KeyKind::Ternary | KeyKind::Range => true,
    }
}

/// Whether the entries of a table with these keys have priorities: one of them is ternary or a range.
pub fn by_priority(specs: &[KeySpec]) -> bool
    ensures { result ≡ by_priority specs.now }
{
    specs.iter().any(|spec| has_priority(spec.kind))
}

fn prefix_of(one: KeyMatch) -> u8
    ensures { result ≡ prefix_of one }
{
    match one {
        KeyMatch::Lpm { length, .. } => length,
        _ => 0,
    }
}

/// By how much an entry's prefixes fall short of 128 bits.
pub fn prefix_rank(ones: &[KeyMatch]) -> u32
    ensures { result ≡ 128 - prefix_length ones.now }
{
    let mut left = 128u32;
    for one in ones {
        left = left.saturating_sub(prefix_of(*one) as u32);
    }
    left
}

/// An entry's rank: the smaller counts first.
pub fn rank_of(specs: &[KeySpec], entry: &Entry) -> u32
    ensures { result ≡ rank_of specs.now entry.now }
{
    if by_priority(specs) {
        entry.priority
    } else {
        prefix_rank(entry.keys.as_slice())
    }
}

/// The number of the best entry, by a scan of all.
pub fn scan(specs: &[KeySpec], entries: &[Entry], key: &[u128]) -> Option<u32>
    requires { length entries.now < 2 ^ 32 }
    ensures { result ≡ best (record { specs = specs.now; entries = entries.now }) key.now }
{
    let mut best: Option<u32> = None;
    for i in 0..entries.len() {
        if matches(specs, entries[i].keys.as_slice(), key) {
            best = lead(specs, entries, best, i as u32);
        }
    }
    best
}

/// The best of two entries, the earlier one where both count the same.
fn lead(specs: &[KeySpec], entries: &[Entry], best: Option<u32>, i: u32) -> Option<u32>
    requires best { IfSome best (λ n. n < length entries.now) }
    requires i { i < length entries.now }
    ensures { result ≡ lead (rank_at (record { specs = specs.now; entries = entries.now })) best i }
{
    match best {
        None => Some(i),
        Some(n) => {
            let sooner = rank_of(specs, &entries[i as usize])
                < rank_of(specs, &entries[n as usize]);
            if sooner { Some(i) } else { Some(n) }
        }
    }
}
