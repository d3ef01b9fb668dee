// What the control plane fills a program's tables with.
ghost use Rattle.std.specs.Prelude.{◌≡◌, IfOk};

use p4x_bits::{Numbers, OutOfMemory, Rows};
use state_store::Session;
use std::alloc::Global;

/// What an entry asks of one key (P4_14 1.0.5, "Table Declarations"; P4_16 1.2, "Match kinds").
#[derive(Clone, Copy, PartialEq, Eq)]
pub enum KeyMatch {
    /// The key is this number.
    Exact(u128),
    /// The key agrees with the value on the bits that are 1 in the mask.
    Ternary { value: u128, mask: u128 },
    /// The key agrees with the value on its first `length` bits.
    Lpm { value: u128, length: u8 },
    /// The key is from `low` to `high`, both included.
    Range { low: u128, high: u128 },
}

/// An entry of a table: what it asks of each key, its priority (a smaller number counts first, where
/// the table has ternary or range keys), and the call that it makes: the number of an action among
/// those of the table, and its arguments.
pub struct Entry {
    pub keys: Rows<KeyMatch>,
    pub priority: u32,
    pub action: u32,
    pub arguments: Numbers,
}

impl Drop for Entry {
    fn drop(self) {
        let Entry {
            keys: _keys,
            priority: _priority,
            action: _action,
            arguments: _arguments,
        } = self;
    }
}

impl Entry {
    /// An equal entry, or want of memory.
    pub fn copy(&self, alloc: Global) -> Result<Entry, OutOfMemory>
        ensures { IfOk result (λ copied. copied ≡ self.now) }
    {
        Ok(Entry {
            keys: Rows::from_slice(alloc, self.keys.as_slice())?,
            priority: self.priority,
            action: self.action,
            arguments: Numbers::from_slice(alloc, self.arguments.as_slice())?,
        })
    }
}

/// The call that a table makes on a miss: the number of an action among those of the table, and its
/// arguments.
#[derive(Drop)]
pub struct DefaultCall {
    pub action: u32,
    pub arguments: Numbers,
}

impl DefaultCall {
    /// An equal call, or want of memory.
    pub fn copy(&self, alloc: Global) -> Result<DefaultCall, OutOfMemory>
        ensures { IfOk result (λ copied. copied ≡ self.now) }
    {
        Ok(DefaultCall {
            action: self.action,
            arguments: Numbers::from_slice(alloc, self.arguments.as_slice())?,
        })
    }
}

/// What fills one table: its entries, the first first, and the call on a miss where one was set.
pub struct TableFill {
    pub entries: Rows<Entry>,
    pub default: Option<DefaultCall>,
}

impl Drop for TableFill {
    fn drop(self) {
        let TableFill {
            entries: _entries,
            default: _default,
        } = self;
    }
}

/// An equal call where there is one, or want of memory.
fn copy_default(
    alloc: Global,
    default: &Option<DefaultCall>,
) -> Result<Option<DefaultCall>, OutOfMemory>
    ensures { IfOk result (λ copied. copied ≡ default.now) }
{
    match default {
        Some(call) => Ok(Some(call.copy(alloc)?)),
        None => Ok(None),
    }
}

impl TableFill {
    /// An equal fill, or want of memory.
    pub fn copy(&self, alloc: Global) -> Result<TableFill, OutOfMemory>
        ensures { IfOk result (λ copied. copied ≡ self.now) }
    {
        let mut entries = Rows::new(alloc);
        for entry in self.entries.as_slice() {
            entries.push(entry.copy(alloc)?)?;
        }
        Ok(TableFill {
            entries,
            default: copy_default(alloc, &self.default)?,
        })
    }
}

/// What fills a program's tables, in the order of its signature, with the clone sessions and, for each
/// object of the signature, the colours that are handed in for it.
pub struct Entries {
    pub tables: Rows<TableFill>,
    pub sessions: Rows<Session>,
    pub colours: Rows<Numbers>,
}

impl Drop for Entries {
    fn drop(self) {
        let Entries {
            tables: _tables,
            sessions: _sessions,
            colours: _colours,
        } = self;
    }
}

/// Equal fills, or want of memory.
fn copy_tables(alloc: Global, tables: &[TableFill]) -> Result<Rows<TableFill>, OutOfMemory>
    ensures { IfOk result (λ copied. copied ≡ tables.now) }
{
    let mut copied = Rows::new(alloc);
    for fill in tables {
        copied.push(fill.copy(alloc)?)?;
    }
    Ok(copied)
}

/// Equal colours, or want of memory.
fn copy_colours(alloc: Global, colours: &[Numbers]) -> Result<Rows<Numbers>, OutOfMemory>
    ensures { IfOk result (λ copied. copied ≡ colours.now) }
{
    let mut copied = Rows::new(alloc);
    for one in colours {
        copied.push(Numbers::from_slice(alloc, one.as_slice())?)?;
    }
    Ok(copied)
}

impl Entries {
    /// Equal entries, or want of memory.
    pub fn copy(&self, alloc: Global) -> Result<Entries, OutOfMemory>
        ensures { IfOk result (λ copied. copied ≡ self.now) }
    {
        Ok(Entries {
            tables: copy_tables(alloc, self.tables.as_slice())?,
            sessions: Rows::from_slice(alloc, self.sessions.as_slice())?,
            colours: copy_colours(alloc, self.colours.as_slice())?,
        })
    }
}
