// The body of an action of a program.
ghost use Rattle.std.specs.Prelude.{◌≡◌, IfOk};
ghost use Rattle.lower_primitives.specs.Has.{CounterHas, RowsHave};
ghost use Rattle.lower_bodies.specs.Bodies.{IsBodyOf, rows_body};
ghost use Rattle.lower_bodies.specs.Reading.{AreRead, rows_need};

use crate::bodies::{copies_needed, rows_body};
use lower_expressions::WordsTable;
use lower_primitives::{counter_has, rows_have};
use p4x_bits::OutOfMemory;
use p414_ready_actions::{ActionNames, ReadyPrimitive, ready_action};
use p414_slots::FieldSlot;
use p414_syntax::Rule14;
use p416_syntax::{Block16, Nodes};
use std::alloc::Global;

/// The block of an action's body, by its rows.
fn block_of(
    alloc: Global,
    table: &WordsTable<'_>,
    read: &[Vec<FieldSlot>],
    rule: Rule14,
    counter: Option<u32>,
    rows: &[ReadyPrimitive],
) -> Result<Block16, OutOfMemory>
    requires have { RowsHave table.now rows.now }
    requires counter { CounterHas table.now counter }
    ensures { IfOk result (λ list. list ≡ rows_body table.now (rows_need read.now rule rows.now) counter rows.now) }
{
    let mut nodes = Nodes::new(alloc);
    let copies = copies_needed(alloc, rule, read, rows)?;
    let place = rows_body(alloc, &mut nodes, table, copies, counter, rows)?;
    Ok(Block16::new(nodes, place))
}

/// The body of the action with this number, from 0 in the order of declaration, under a rule, in the copy of the action that counts
/// the hits of a table or in another one: the statements of the laws' mirror, for whatever the program comes to, where the table has
/// the calculations of the program. What calculations read is `fields_read`'s. In time linear in the primitives that the action comes
/// to, in the elements that they push and in the items of their hashes, but for a few look-ups in sets. The one error is want of
/// memory, which what isn't in the table and widths over 128 bits count as: no program has them that breaks no rule.
pub fn action_body(
    alloc: Global,
    names: &ActionNames<'_, '_>,
    table: &WordsTable<'_>,
    read: &[Vec<FieldSlot>],
    rule: Rule14,
    counter: Option<u32>,
    action: u32,
) -> Result<Block16, OutOfMemory>
    requires read { AreRead table.now read.now }
    ensures { IfOk result (IsBodyOf names.now table.now rule counter action) }
{
    let rows = ready_action(alloc, names, action)?;
    let found = rows.as_slice();
    if !rows_have(table, found) {
        return Err(OutOfMemory);
    }
    if !counter_has(table, counter) {
        return Err(OutOfMemory);
    }
    let list = block_of(alloc, table, read, rule, counter, found)?;
    Ok(list)
}
