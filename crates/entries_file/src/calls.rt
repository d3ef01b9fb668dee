// The tables, actions and meters that lines name.
ghost use Rattle.std.specs.Prelude.{◌≡◌, ◌<◌, length, map, IfOk, IfSome};
ghost use Rattle.entries_file.specs.Rules as rules;
ghost use Rattle.entries_file.specs.Filling.{table_at};
ghost use Rattle.entries_file.specs.internal.Drafts.{IsNameIndex, AreActionIndexes, IsNames};

use crate::name_index::{NameIndex, index_of};
use match_core::{Signature, TableSig};
use p4x_bits::OutOfMemory;
use std::alloc::Global;

/// A call that a line names: the number of its table, and that of its action in the table.
#[derive(Clone, Copy, PartialEq, Eq)]
pub struct Call {
    pub table: usize,
    pub action: usize,
}

/// The names of a signature: its tables, the actions of each table, and its meters.
pub struct Names<'g> {
    pub tables: NameIndex<'g>,
    pub actions: Vec<NameIndex<'g>>,
    pub meters: NameIndex<'g>,
}

impl Drop for Names<'_> {
    fn drop(self) {
        let Names {
            tables: _tables,
            actions: _actions,
            meters: _meters,
        } = self;
    }
}

fn action_indexes<'g>(
    alloc: Global,
    tables: &'g [TableSig],
) -> Result<Vec<NameIndex<'g>>, OutOfMemory>
    ensures { IfOk result (λ indexes. AreActionIndexes tables.now indexes.items) }
{
    let mut indexes = Vec::new(alloc);
    for table in tables {
        indexes.push(index_of(alloc, table.actions.as_slice())?)?;
    }
    Ok(indexes)
}

/// The names of a signature.
pub fn names_of<'g>(alloc: Global, signature: &'g Signature) -> Result<Names<'g>, OutOfMemory>
    ensures { IfOk result (IsNames signature.now) }
{
    Ok(Names {
        tables: index_of(alloc, signature.tables.as_slice())?,
        actions: action_indexes(alloc, signature.tables.as_slice())?,
        meters: index_of(alloc, signature.objects.as_slice())?,
    })
}

impl Names<'_> {
    /// The call that a line names, or the number of the rule that it breaks: E2 or E3.
    pub fn call(&self, signature: &Signature, table: &[u8], action: &[u8]) -> Result<Call, u8>
        requires { IsNames signature.now self.now }
        ensures is { result ≡ rules.call_of signature.now table.now action.now }
        ensures table { IfOk result (λ call. call.table < length signature.now.tables) }
        ensures action { IfOk result (λ call. call.action < length (table_at signature.now call.table).actions) }
    {
        let Some(table) = self.tables.find(table) else {
            return Err(2);
        };
        match self.actions[table].find(action) {
            Some(action) => Ok(Call { table, action }),
            None => Err(3),
        }
    }

    /// The number of the meter of a name.
    pub fn meter(&self, signature: &Signature, name: &[u8]) -> Option<usize>
        requires { IsNames signature.now self.now }
        ensures is { result ≡ rules.meter_of signature.now name.now }
        ensures within { IfSome result (λ meter. meter < length signature.now.objects) }
    {
        self.meters.find(name)
    }
}
