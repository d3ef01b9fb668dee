// Look-ups in tables of 65,536 entries, and against the plain scan in random tables; keys of many values, and copies of entries.
ghost use Rattle.std.specs.Prelude.{◌≤◌, length, All, IfOk};
ghost use Rattle.match_core.specs.Fits.{FitsKeys};
ghost use Rattle.match_core.specs.declared.signatures.KeySpec.{KeySpec};

use crate::made::{Asked, are_narrow, entry_of};
use match_core::{
    DefaultCall, Entries, Entry, Key, KeyKind, KeyMatch, KeySpec, Session, Table, TableFill,
    are_specs,
};
use p4x_bits::{Numbers, OutOfMemory, Rows};
use std::alloc::Global;

/// Puts values into a key.
fn put_values(key: &mut Key, values: &[u128]) -> Result<(), OutOfMemory> {
    for value in values {
        key.push(*value)?;
    }
    Ok(())
}

/// Whether a key of more values than stand in itself has these.
pub fn is_key_of_nine(alloc: Global) -> bool {
    let mut key = Key::new(alloc);
    put_values(&mut key, &[0, 1, 2, 3, 4, 5, 6, 7, 8]).is_ok()
        && key.as_slice() == [0, 1, 2, 3, 4, 5, 6, 7, 8].as_slice()
}

/// What the entry of this number asks of so many keys.
fn numbered(number: u32, keys: usize) -> [Asked; 2] {
    if keys < 2 {
        let one = u128::from(number.wrapping_mul(65536));
        [(one, 16), (0, 0)]
    } else {
        let second = u128::from((number / 256).wrapping_mul(65536));
        [(u128::from(number % 256), 0), (second, 16)]
    }
}

/// So many entries of a table. The numbers of those that ask for the same are so far apart.
fn many_entries(
    alloc: Global,
    specs: &[KeySpec],
    count: u32,
    apart: u32,
) -> Result<Vec<Entry>, OutOfMemory>
    requires { All (λ (spec : KeySpec). spec.width ≤ 128) specs.now }
    ensures { IfOk result (λ entries. All (FitsKeys specs.now) entries.items) }
{
    let mut entries = Vec::new(alloc);
    for number in 0..count {
        let asked = numbered(number % apart.max(1), specs.len());
        entries.push(entry_of(alloc, specs, &asked, 0)?)?;
    }
    Ok(entries)
}

/// Values of the keys of a table, and the entry that is found for them.
type Found = (&'static [u128], Option<u32>);

/// Whether a table finds an entry for values, and so does the scan.
fn finds(alloc: Global, table: &Table, found: &Found) -> bool {
    let mut key = Key::new(alloc);
    put_values(&mut key, found.0).is_ok()
        && table.lookup(&key) == found.1
        && table.scan(&key) == found.1
}

fn finds_all(alloc: Global, table: &Table, found: &[Found]) -> bool {
    for one in found {
        if !finds(alloc, table, one) {
            return false;
        }
    }
    true
}

/// Whether a table of these entries finds what is told.
fn are_found(alloc: Global, specs: &[KeySpec], entries: &[Entry], found: &[Found]) -> bool
    requires { All (FitsKeys specs.now) entries.now }
{
    if !are_specs(specs) || entries.len() > 65_536 {
        return false;
    }
    match &Table::build(alloc, entries, specs) {
        Ok(table) => finds_all(alloc, table, found),
        Err(_) => false,
    }
}

const E32: KeySpec = KeySpec {
    kind: KeyKind::Exact,
    width: 32,
};

const L32: KeySpec = KeySpec {
    kind: KeyKind::Lpm,
    width: 32,
};

/// A table of these keys, of so many entries, of which those so far apart ask for the same.
struct Filled {
    specs: &'static [KeySpec],
    count: u32,
    apart: u32,
    found: &'static [Found],
}

/// Tables and what they find. Entry n of one key asks for n * 65536, or for its first 16 bits. Of two keys the first asks for the low
/// octet of n, and the second for n / 256 * 65536, or for its first 16 bits. Of entries that ask for the same the earlier one counts,
/// and a table without keys never hits.
static FILLED: [Filled; 7] = [
    Filled {
        specs: &[E32],
        count: 65_536,
        apart: 65_536,
        found: &[
            (&[0], Some(0)),
            (&[0x9c40_0000], Some(40_000)),
            (&[0xffff_0000], Some(65_535)),
            (&[0xffff_0001], None),
        ],
    },
    Filled {
        specs: &[L32],
        count: 65_536,
        apart: 65_536,
        found: &[
            (&[0x1234], Some(0)),
            (&[0x9c40_abcd], Some(40_000)),
            (&[0xffff_ffff], Some(65_535)),
        ],
    },
    Filled {
        specs: &[E32, E32],
        count: 65_536,
        apart: 65_536,
        found: &[
            (&[0, 0], Some(0)),
            (&[7, 0x3_0000], Some(775)),
            (&[0xff, 0xff_0000], Some(65_535)),
            (&[0xff, 0xff_0001], None),
            (&[0x100, 0], None),
        ],
    },
    Filled {
        specs: &[E32, L32],
        count: 65_536,
        apart: 65_536,
        found: &[
            (&[0, 9], Some(0)),
            (&[7, 0x3_abcd], Some(775)),
            (&[0xff, 0xff_ffff], Some(65_535)),
            (&[0xff, 0x100_0000], None),
            (&[0x100, 0], None),
        ],
    },
    Filled {
        specs: &[E32],
        count: 3,
        apart: 2,
        found: &[(&[0], Some(0)), (&[0x1_0000], Some(1)), (&[0x2_0000], None)],
    },
    Filled {
        specs: &[L32],
        count: 3,
        apart: 2,
        found: &[
            (&[0x1234], Some(0)),
            (&[0x1_5678], Some(1)),
            (&[0x2_1234], None),
        ],
    },
    Filled {
        specs: &[],
        count: 0,
        apart: 1,
        found: &[(&[], None), (&[0], None)],
    },
];

fn all_filled() -> &'static [Filled] {
    &FILLED
}

/// Whether such a table finds what is told.
fn is_found(alloc: Global, filled: &Filled) -> bool {
    if !are_narrow(filled.specs) {
        return false;
    }
    match &many_entries(alloc, filled.specs, filled.count, filled.apart) {
        Ok(entries) => are_found(alloc, filled.specs, entries, filled.found),
        Err(_) => false,
    }
}

/// The place of the first of these tables that finds something else.
pub fn failing_table(alloc: Global) -> Option<usize> {
    for (place, filled) in all_filled().iter().enumerate() {
        if !is_found(alloc, filled) {
            return Some(place);
        }
    }
    None
}

fn fill_of(
    alloc: Global,
    one: KeyMatch,
    arguments: &[u128],
    default: Option<DefaultCall>,
) -> Result<TableFill, OutOfMemory> {
    let mut entries = Rows::new(alloc);
    for argument in arguments {
        entries.push(Entry {
            keys: Rows::from_slice(alloc, &[one])?,
            priority: 9,
            action: 2,
            arguments: Numbers::from_slice(alloc, &[*argument])?,
        })?;
    }
    Ok(TableFill { entries, default })
}

/// Two tables, one with two entries and one with an entry and a call on a miss; a session; and the colours of two objects.
fn some_entries(alloc: Global) -> Result<Entries, OutOfMemory> {
    let call = DefaultCall {
        action: 1,
        arguments: Numbers::from_slice(alloc, &[5])?,
    };
    let mut tables = Rows::new(alloc);
    tables.push(fill_of(alloc, KeyMatch::Exact(7), &[1, 511], None)?)?;
    tables.push(fill_of(alloc, PREFIX, &[3], Some(call))?)?;
    let mut colours = Rows::new(alloc);
    colours.push(Numbers::new(alloc))?;
    colours.push(Numbers::from_slice(alloc, &[2, 1])?)?;
    Ok(Entries {
        tables,
        sessions: Rows::from_slice(alloc, &[Session { number: 9, port: 3 }])?,
        colours,
    })
}

/// What an entry asks of an lpm key.
const PREFIX: KeyMatch = KeyMatch::Lpm {
    value: 0x1200,
    length: 8,
};

fn is_entry(entry: &Entry, one: KeyMatch, argument: u128) -> bool {
    entry.keys.as_slice() == [one].as_slice()
        && entry.priority == 9
        && entry.action == 2
        && entry.arguments.as_slice() == [argument].as_slice()
}

/// Whether these are the two tables.
fn are_fills(fills: &[TableFill]) -> bool {
    let [exact, prefix] = fills else {
        return false;
    };
    match (
        exact.entries.as_slice(),
        &exact.default,
        prefix.entries.as_slice(),
        &prefix.default,
    ) {
        ([first, second], None, [third], Some(call)) => {
            is_entry(first, KeyMatch::Exact(7), 1)
                && is_entry(second, KeyMatch::Exact(7), 511)
                && is_entry(third, PREFIX, 3)
                && call.action == 1
                && call.arguments.as_slice() == [5].as_slice()
        }
        _ => false,
    }
}

/// Whether these are those entries.
fn are_some_entries(entries: &Entries) -> bool {
    are_fills(entries.tables.as_slice())
        && entries.sessions.as_slice() == [Session { number: 9, port: 3 }].as_slice()
        && matches!(entries.colours.as_slice(), [first, second]
            if first.is_empty() && second.as_slice() == [2, 1].as_slice())
}

/// Whether a copy of entries shows what they show.
pub fn are_copied(alloc: Global) -> bool {
    match &some_entries(alloc) {
        Ok(entries) => {
            are_some_entries(entries)
                && matches!(&entries.copy(alloc), Ok(copied) if are_some_entries(copied))
        }
        Err(_) => false,
    }
}
