// What was read so far.
ghost use Rattle.std.specs.Prelude.{◌≡◌, ◌+◌, ◌-◌, ◌/◌, ◌^◌, ◌<◌, [], ◌∷◌, length, replicate, map, IfOk, OnOk, Some, None};
ghost use Rattle.match_core.specs.Identity.{identity};
ghost use Rattle.entries_file.specs.Rules as rules;
ghost use Rattle.entries_file.specs.Filling as filling;
ghost use Rattle.entries_file.specs.internal.Staged.{Stage};
ghost use Rattle.entries_file.specs.internal.Drafts.{drafted, IsDraft, IsDraftOf};

use crate::fault::Stop;
use crate::key_set::KeySet;
use match_core::{DefaultCall, Entries, Entry, Key, KeySpec, Signature, TableFill, push_identity};
use p4x_bits::{Numbers, OutOfMemory, Rows};
use state_store::Session;
use std::alloc::Global;
use std::collections::BTreeSet;

/// What was read so far, with the keys of the entries and the numbers of the sessions in order.
pub struct Draft {
    pub tables: Vec<TableFill>,
    pub sessions: Rows<Session>,
    pub colours: Vec<Numbers>,
    pub keys: KeySet,
    pub numbers: BTreeSet<u32>,
}

impl Drop for Draft {
    fn drop(self) {
        let Draft {
            tables: _tables,
            sessions: _sessions,
            colours: _colours,
            keys: _keys,
            numbers: _numbers,
        } = self;
    }
}

fn empty_fills(alloc: Global, count: usize) -> Result<Vec<TableFill>, OutOfMemory>
    ensures { IfOk result (λ fills. fills.items ≡ replicate count filling.empty_fill) }
{
    let mut fills = Vec::with_capacity(alloc, count)?;
    for _ in 0..count {
        let entries = Rows::new(alloc);
        let default = None;
        fills.push(TableFill { entries, default })?;
    }
    Ok(fills)
}

fn no_colours(alloc: Global, count: usize) -> Result<Vec<Numbers>, OutOfMemory>
    ensures { IfOk result (λ lists. lists.items ≡ replicate count []) }
{
    let mut lists = Vec::with_capacity(alloc, count)?;
    for _ in 0..count {
        lists.push(Numbers::new(alloc))?;
    }
    Ok(lists)
}

/// What tells an entry of a table from every other entry of the program.
fn identity(
    alloc: Global,
    table: usize,
    specs: &[KeySpec],
    entry: &Entry,
) -> Result<Key, OutOfMemory>
    ensures { IfOk result (λ key. key ≡ table ∷ identity specs.now entry.now) }
{
    let mut key = Key::new(alloc);
    key.push(table as u128)?;
    push_identity(&mut key, specs, entry)?;
    Ok(key)
}

/// Puts an entry behind those of a table.
fn push_entry(fills: &mut Vec<TableFill>, table: usize, entry: Entry) -> Result<(), OutOfMemory>
    requires { table < length fills.old.items }
    ensures { OnOk result (fills.new.items ≡ filling.entry_put fills.old.items table entry) }
{
    fills[table].entries.push(entry)
}

impl Draft {
    /// Before the first line.
    pub fn new(alloc: Global, signature: &Signature) -> Result<Draft, OutOfMemory>
        ensures { IfOk result (IsDraftOf signature.now (filling.nothing signature.now)) }
    {
        Ok(Draft {
            tables: empty_fills(alloc, signature.tables.len())?,
            sessions: Rows::new(alloc),
            colours: no_colours(alloc, signature.objects.len())?,
            keys: KeySet::new(alloc, signature.tables.len())?,
            numbers: BTreeSet::new(alloc),
        })
    }

    /// The entries that were read.
    pub fn into_entries(self) -> Entries
        ensures { result ≡ drafted self }
    {
        let Draft {
            tables,
            sessions,
            colours,
            keys: _keys,
            numbers: _numbers,
        } = self;
        Entries {
            tables: Rows::from_vec(tables),
            sessions,
            colours: Rows::from_vec(colours),
        }
    }

    /// Adds an entry to a table, or tells the rule that it breaks: E8 or E12.
    pub fn add_entry(
        &mut self,
        alloc: Global,
        signature: &Signature,
        table: usize,
        entry: Entry,
    ) -> Result<(), Stop>
        requires table { table < length signature.now.tables }
        requires draft { IsDraft signature.now self.old }
        ensures { let sig = filling.table_at signature.now table in
            let fill = filling.fill_at (drafted self.old) table in
            Stage ((8, rules.has_same sig.keys fill (identity sig.keys entry)) ∷ (12, rules.is_full sig fill) ∷ [])
            (λ _. IsDraftOf signature.now (filling.with_entry (drafted self.old) table entry) self.new) result }
    {
        let sig = &signature.tables.as_slice()[table];
        let key = identity(alloc, table, sig.keys.as_slice(), &entry)?;
        let Ok(is_new) = self.keys.insert(key) else {
            return Err(Stop::Memory);
        };
        if !is_new {
            return Err(Stop::Broken(8));
        }
        if self.tables[table].entries.len() >= sig.size as usize {
            return Err(Stop::Broken(12));
        }
        push_entry(&mut self.tables, table, entry)?;
        Ok(())
    }

    /// Sets the default of a table.
    pub fn set_default(&mut self, table: usize, call: DefaultCall)
        requires { table < length self.old.tables.items }
        ensures tables { self.new.tables.items ≡ filling.default_put self.old.tables.items table call }
        ensures sessions { self.new.sessions ≡ self.old.sessions }
        ensures colours { self.new.colours.items ≡ self.old.colours.items }
        ensures keys { self.new.keys ≡ self.old.keys }
        ensures numbers { self.new.numbers ≡ self.old.numbers }
    {
        self.tables[table].default = Some(call);
    }

    /// Adds a session, or tells the rule that it breaks: E10.
    pub fn add_session(&mut self, signature: &Signature, session: Session) -> Result<(), Stop>
        requires { IsDraft signature.now self.old }
        ensures { Stage ((10, rules.has_session self.old.sessions session.number) ∷ [])
            (λ _. IsDraftOf signature.now (filling.with_session (drafted self.old) session) self.new) result }
    {
        let Ok(is_new) = self.numbers.insert(session.number) else {
            return Err(Stop::Memory);
        };
        if !is_new {
            return Err(Stop::Broken(10));
        }
        self.sessions.push(session)?;
        Ok(())
    }

    /// Adds colours to those of a meter.
    pub fn add_colours(
        &mut self,
        signature: &Signature,
        meter: usize,
        colours: &[u128],
    ) -> Result<(), OutOfMemory>
        requires meter { meter < length signature.now.objects }
        requires draft { IsDraft signature.now self.old }
        ensures { OnOk result (IsDraftOf signature.now (filling.with_colours (drafted self.old) meter colours.now) self.new) }
    {
        self.colours[meter].extend_from_slice(colours)
    }
}
