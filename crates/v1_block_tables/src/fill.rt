// The tables of a program, filled with entries.
ghost use Rattle.std.specs.Prelude.{◌≡◌, slice_index_or, option_copied, IfOk};
ghost use Rattle.match_core.specs.Best.{best};
ghost use Rattle.match_core.specs.Fits.{Fits};
ghost use Rattle.match_core.specs.Signatures.{IsSignature};
ghost use Rattle.match_core.specs.Tables.{tables_of};
ghost use Rattle.v1_ready_blocks.specs.Tables.{no_fill, no_table};

use match_core::{DefaultCall, Entries, Entry, Key, Signature, Table, TableFill, build_tables};
use p4x_bits::{OutOfMemory, Rows};
use std::alloc::Global;
use std::marker::Model;

/// The tables of a program's signature with the entries that fill them, ready for look-ups. They are built once and lent to
/// whatever runs blocks. Contracts see the tables, and what was set for each.
#[derive(Drop)]
pub struct FilledTables<'e> {
    tables: Rows<Table<'e>>,
    fills: &'e [TableFill],
}

impl<'e> Model for FilledTables<'e> {
    ghost use Rattle.v1_ready_blocks.specs.Tables.{Fill};
    ghost use Rattle.v1_block_tables.specs.Alike.{AreAlike};

    ghost Value = { Fill };

    ghost view = { λ f. record { tables = f.tables; fills = f.fills.now } };

    ghost invariant = { λ f. AreAlike f.tables f.fills.now };
}

/// The tables of a signature, filled with entries that fit it. In time O(n log n) in the entries; the one error is want of memory.
#[tactic(auto, using(crate::proofs::Filling::are_alike))]
pub fn filled_tables<'e>(
    alloc: Global,
    signature: &Signature,
    entries: &'e Entries,
) -> Result<FilledTables<'e>, OutOfMemory>
    requires signature { IsSignature signature.now }
    requires fits { Fits entries.now signature.now }
    ensures { IfOk result (λ made. made ≡ record { tables = tables_of signature.now entries.now; fills = entries.now.tables }) }
{
    let tables = build_tables(alloc, signature, entries)?;
    let fills = entries.tables.as_slice();
    Ok(FilledTables { tables, fills })
}

impl<'e> FilledTables<'e> {
    /// The number of the entry that a key finds in a table; none where there is no such table.
    #[tactic(auto, using(crate::proofs::Filling::table_at, crate::proofs::Filling::no_table_at))]
    pub(crate) fn found(&self, table: u32, key: &Key) -> Option<u32>
        ensures { result ≡ best (slice_index_or self.now.tables table no_table) key.now }
    {
        match self.tables.get(table as usize) {
            Some(filled) => filled.lookup(key),
            None => None,
        }
    }

    /// The entries that fill a table; none where there is no such table.
    #[tactic(auto, using(crate::proofs::Filling::entries_at, crate::proofs::Filling::no_entries_at))]
    pub(crate) fn entries(&self, table: u32) -> &[Entry]
        ensures { result.now ≡ (slice_index_or self.now.tables table no_table).entries }
    {
        match self.fills.get(table as usize) {
            Some(fill) => fill.entries.as_slice(),
            None => &[],
        }
    }

    /// The call that was set for a miss of a table, if one was.
    #[tactic(auto, using(crate::proofs::Filling::default_at, crate::proofs::Filling::no_default_at))]
    pub(crate) fn default(&self, table: u32) -> Option<&DefaultCall>
        ensures { option_copied result ≡ (slice_index_or self.now.fills table no_fill).default }
    {
        match self.fills.get(table as usize) {
            Some(fill) => match &fill.default {
                Some(call) => Some(call),
                None => None,
            },
            None => None,
        }
    }
}
