// Stores of counters, registers and meters, in what no run of a program shows.
ghost use Rattle.std.specs.Prelude.{◌≡◌};

use state_store::{Kind, OutOfMemory, Shape, Store};
use std::alloc::Global;

/// A counter of both kinds, whose counts are doubled, and then one packet of one octet is counted: so many turns make 2^turns - 1 of
/// both counts. Then it counts a packet of two octets.
fn counts_after(alloc: Global, turns: u32) -> Result<[(u64, u64); 2], OutOfMemory> {
    let shapes = [Shape::Counter {
        kind: Kind::Both,
        cells: 1,
    }];
    let mut store = Store::new(alloc, &shapes)?;
    for _ in 0..turns {
        let mut same = Store::new(alloc, &shapes)?;
        same.add(&store);
        store.add(&same);
        store.count(0, 0, 1);
    }
    let before = store.pair(0, 0);
    store.count(0, 0, 2);
    Ok([before, store.pair(0, 0)])
}

/// Whether a counter goes from its greatest value to 0.
pub fn goes_to_0(alloc: Global) -> bool {
    counts_after(alloc, 64) == Ok([(u64::MAX, u64::MAX), (0, 1)])
}

/// Counts in the first and the last cell of two stores, and in a cell behind the last, and adds the second to the first and both to a
/// third. The number of cells is a parameter, so that the proof doesn't write them all out.
fn sums(alloc: Global, cells: u32) -> Result<[(u64, u64); 7], OutOfMemory> {
    let shapes = [Shape::Direct {
        kind: Kind::Both,
        cells,
    }];
    let mut store = Store::new(alloc, &shapes)?;
    let mut other = store.empty(alloc)?;
    let mut sum = store.empty(alloc)?;
    let last = cells.saturating_sub(1);
    store.count(0, 0, 14);
    store.count(0, last, 20);
    store.count(0, cells, 9);
    other.count(0, last, 34);
    sum.add(&other);
    sum.add(&store);
    store.add(&other);
    Ok([
        store.pair(0, 0),
        store.pair(0, last),
        store.pair(0, cells),
        other.pair(0, 0),
        other.pair(0, last),
        sum.pair(0, 0),
        sum.pair(0, last),
    ])
}

/// Whether stores of so many cells, two or more, are summed cell by cell, and the sum is the same in both orders.
pub fn are_summed(alloc: Global, cells: u32) -> bool {
    sums(alloc, cells) == Ok([(1, 14), (2, 54), (0, 0), (0, 0), (1, 34), (1, 14), (2, 54)])
}

/// Counts, writes and hands in colours, and gives what an empty store of the same objects shows, what the store itself does, what it
/// does once it was cleared, and what it counts then.
fn emptied(alloc: Global) -> Result<[(u64, u128, u8); 4], OutOfMemory> {
    let shapes = [
        Shape::Counter {
            kind: Kind::Bytes,
            cells: 2,
        },
        Shape::Register { width: 9, cells: 2 },
        Shape::Meter { cells: 1 },
    ];
    let mut store = Store::new(alloc, &shapes)?;
    store.count(0, 1, 14);
    store.write(1, 1, 3);
    store.give(2, 1)?;
    store.give(2, 2)?;
    let mut empty = store.empty(alloc)?;
    let other = (empty.pair(0, 1).1, empty.read(1, 1), empty.colour(2, 0));
    let own = (store.pair(0, 1).1, store.read(1, 1), store.colour(2, 0));
    store.clear();
    let cleared = (store.pair(0, 1).1, store.read(1, 1), store.colour(2, 0));
    store.count(0, 1, 15);
    let again = (store.pair(0, 1).1, 0, 0);
    Ok([other, own, cleared, again])
}

/// Whether an empty store has the same objects, and a cleared store is as a new one and still has its cells.
pub fn are_emptied(alloc: Global) -> bool {
    emptied(alloc) == Ok([(0, 0, 0), (14, 3, 1), (0, 0, 0), (15, 0, 0)])
}
