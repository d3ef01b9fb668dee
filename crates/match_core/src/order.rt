// Tables whose entries are asked one by one, in the order in which they count.
ghost use Rattle.std.specs.Prelude.{◌≡◌, ℕ, ◌+◌, ◌*◌, ◌%◌, ◌^◌, ◌<◌, length, IfOk};
ghost use Rattle.match_core.specs.Best.{Filled, IsBest};
ghost use Rattle.match_core.specs.internal.Order.{IsOrder};

use crate::entries::Entry;
use crate::scan::{matches, rank_of};
use crate::signatures::KeySpec;
use p4x_bits::OutOfMemory;
use std::alloc::Global;

/// Where an entry stands in the order: its rank, and then its number.
fn place(rank: u32, number: u32) -> u64
    ensures { result ≡ rank * 2 ^ 32 + number }
{
    u64::from(rank) * 4294967296 + u64::from(number)
}

/// The number of the entry at a place.
fn number_at(place: u64) -> u32
    ensures { result ≡ place % 2 ^ 32 }
{
    (place % 4294967296) as u32
}

/// The places of all entries, the one that counts first at the front.
pub fn order_of(
    alloc: Global,
    specs: &[KeySpec],
    entries: &[Entry],
) -> Result<Vec<u64>, OutOfMemory>
    requires { length entries.now < 2 ^ 32 }
    ensures { IfOk result (λ order. IsOrder (record { specs = specs.now; entries = entries.now }) order.items) }
{
    let mut order = Vec::with_capacity(alloc, entries.len())?;
    for i in 0..entries.len() {
        order.push(place(rank_of(specs, &entries[i]), i as u32))?;
    }
    order.sort_unstable();
    Ok(order)
}

/// The number of the first entry in the order that matches.
pub fn first(order: &[u64], specs: &[KeySpec], entries: &[Entry], key: &[u128]) -> Option<u32>
    requires few { length entries.now < 2 ^ 32 }
    requires order { IsOrder (record { specs = specs.now; entries = entries.now }) order.now }
    ensures { IsBest (record { specs = specs.now; entries = entries.now }) key.now result }
{
    for place in order {
        let number = number_at(*place);
        if matches(specs, entries[number as usize].keys.as_slice(), key) {
            return Some(number);
        }
    }
    None
}
