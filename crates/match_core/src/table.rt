// A table, filled with its entries.
ghost use Rattle.std.specs.Prelude.{◌≡◌, ℕ, ◌^◌, ◌<◌, length, All, IfOk};
ghost use Rattle.match_core.specs.Best.{Filled, IsBest, best};
ghost use Rattle.match_core.specs.Fits.{FitsKeys, Fits};
ghost use Rattle.match_core.specs.Signatures.{AreSpecs, IsSignature};
ghost use Rattle.match_core.specs.Tables.{tables_of};

use crate::entries::{Entries, Entry};
use crate::index::{Index, find, index_of};
use crate::key::Key;
use crate::scan::scan;
use crate::signatures::{KeySpec, Signature};
use p4x_bits::{OutOfMemory, Rows};
use std::alloc::Global;
use std::marker::Model;

/// A table with its entries, which are borrowed, ready for look-ups.
pub struct Table<'e> {
    specs: Vec<KeySpec>,
    entries: &'e [Entry],
    index: Index,
}

impl Drop for Table<'_> {
    fn drop(self) {
        let Table {
            specs: _specs,
            entries: _entries,
            index: _index,
        } = self;
    }
}

impl<'e> Model for Table<'e> {
    ghost use Rattle.std.specs.Prelude.{◌^◌, ◌<◌, length, All};
    ghost use Rattle.match_core.specs.Fits.{FitsKeys};
    ghost use Rattle.match_core.specs.Best.{Filled};
    ghost use Rattle.match_core.specs.internal.Index.{IsIndex};

    ghost Value = { Filled };

    ghost view = { λ t. record { specs = t.specs.items; entries = t.entries.now } };

    ghost invariant = { λ t. (length t.entries.now < 2 ^ 32) × All (FitsKeys t.specs.items) t.entries.now × IsIndex (record { specs = t.specs.items; entries = t.entries.now }) t.index };
}

impl<'e> Table<'e> {
    /// A table with these keys and entries. The one error is want of memory.
    pub fn build(
        alloc: Global,
        entries: &'e [Entry],
        keys: &[KeySpec],
    ) -> Result<Table<'e>, OutOfMemory>
        requires specs { AreSpecs keys.now }
        requires few { length entries.now < 2 ^ 32 }
        requires fits { All (FitsKeys keys.now) entries.now }
        ensures { IfOk result (λ table. table ≡ record { specs = keys.now; entries = entries.now }) }
    {
        let index = index_of(alloc, keys, entries)?;
        Ok(Table {
            specs: Vec::from_slice(alloc, keys)?,
            entries,
            index,
        })
    }

    /// The number of the best entry that a key matches, from 0 in the order of the entries, and None
    /// where it matches none. It takes no memory.
    pub fn lookup(&self, key: &Key) -> Option<u32>
        ensures best { IsBest self.now key.now result }
        ensures scan { result ≡ best self.now key.now }
    {
        find(&self.index, &self.specs, self.entries, key)
    }

    /// The same as `lookup`, by asking each entry.
    pub fn scan(&self, key: &Key) -> Option<u32>
        ensures { result ≡ best self.now key.now }
    {
        scan(&self.specs, self.entries, key.as_slice())
    }
}

/// The tables of a signature, each filled with its entries, in the order of the signature. The one error is want of
/// memory.
pub fn build_tables<'e>(
    alloc: Global,
    signature: &Signature,
    entries: &'e Entries,
) -> Result<Rows<Table<'e>>, OutOfMemory>
    requires signature { IsSignature signature.now }
    requires fits { Fits entries.now signature.now }
    ensures { IfOk result (λ tables. tables ≡ tables_of signature.now entries.now) }
{
    let sigs = signature.tables.as_slice();
    let fills = entries.tables.as_slice();
    let mut tables = Rows::new(alloc);
    for i in 0..sigs.len().min(fills.len()) {
        let table = Table::build(alloc, fills[i].entries.as_slice(), sigs[i].keys.as_slice())?;
        tables.push(table)?;
    }
    Ok(tables)
}
