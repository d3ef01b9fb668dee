// The copies of actions.
ghost use Rattle.std.specs.Prelude.{◌≡◌, ◌++◌, ◌+◌, ◌<◌, ℕ, Bool, false, [], not, if◌then◌else◌, length, map, slice_index_or, IfOk, OnOk};
ghost use Rattle.p414_syntax.specs.Names.{has_name};
ghost use Rattle.p414_syntax.specs.Tables.{listed_in, tables};
ghost use Rattle.lower_laws_names.specs.Copies.{copies, one_if, plain_copy, counted_copy};
ghost use Rattle.lower_names.specs.Picked.{with_name, with_some};
ghost use Rattle.lower_copies.specs.Copying.{action_copy, listing_of, lines_of, direct_in, directs_from, line_copies, table_copies, names_behind, lines_at, copies_from, StandsBy};

use lower_names::{is_at, is_new, made, new_name};
use name_numbers::narrow;
use p4x_bits::{OutOfMemory, Rows, Text};
use p414_names::{NameSet, Names14};
use p414_syntax::{Decl, Sort, Table};
use std::alloc::Global;

/// A copy of an action, for a pipeline or for a table with a direct counter.
#[derive(Drop)]
pub struct ActionCopy {
    /// The number of the action, from 0 in the order of declaration.
    pub action: u32,
    /// Whether it stands in egress.
    pub egress: bool,
    /// The table with a direct counter that it is for.
    pub table: Option<u32>,
    /// Its name.
    pub name: Text,
}

/// What the lines of a table have in common.
#[derive(Clone, Copy, Drop)]
struct Lister {
    /// The number of the table.
    table: u32,
    /// Whether it has a direct counter.
    is_counted: bool,
    /// Whether it stands in egress.
    in_egress: bool,
}

/// Adds the table whose entries a declaration counts, if it does.
fn add_direct<'a>(found: &mut NameSet<'a>, decl: &'a Decl) -> Result<(), OutOfMemory>
    ensures { OnOk result (found.new ≡ with_some found.old (direct_in decl.now)) }
{
    if let Decl::Counter(counter) = decl {
        if let Some(table) = counter.direct_table() {
            is_new(found, table.as_slice())?;
        }
    }
    Ok(())
}

/// The tables whose entries are counted.
fn direct_tables<'a>(alloc: Global, decls: &'a [Decl]) -> Result<NameSet<'a>, OutOfMemory>
    ensures { IfOk result (λ found. found ≡ directs_from [] decls.now) }
{
    let mut found = NameSet::new(alloc);
    for decl in decls {
        add_direct(&mut found, decl)?;
    }
    Ok(found)
}

/// Puts the copy of a pipeline last, if it is a new one.
fn add_plain(
    alloc: Global,
    names: &Names14<'_>,
    at: Lister,
    number: u32,
    action: &[u8],
    is_new: bool,
    found: &mut Rows<ActionCopy>,
) -> Result<(), OutOfMemory>
    ensures { OnOk result (found.new ≡ found.old ++ map (action_copy names.now) (one_if is_new (plain_copy (listing_of at number action.now)))) }
{
    if is_new {
        let name = new_name(alloc, names, Sort::Action, action)?;
        found.push(ActionCopy {
            action: names.find(Sort::Action, action).unwrap_or(0),
            egress: at.in_egress,
            table: None,
            name,
        })?;
    }
    Ok(())
}

/// Puts the copy of a table last, if it is a new one.
fn add_counted(
    alloc: Global,
    names: &Names14<'_>,
    at: Lister,
    number: u32,
    action: &[u8],
    is_new: bool,
    found: &mut Rows<ActionCopy>,
) -> Result<(), OutOfMemory>
    ensures { OnOk result (found.new ≡ found.old ++ map (action_copy names.now) (one_if is_new (counted_copy (listing_of at number action.now)))) }
{
    if is_new {
        let name = made(alloc, b'c', number, action)?;
        found.push(ActionCopy {
            action: names.find(Sort::Action, action).unwrap_or(0),
            egress: at.in_egress,
            table: Some(at.table),
            name,
        })?;
    }
    Ok(())
}

/// Puts the copies of a line last, by the names that the pipeline and the table had before.
fn add_line<'a>(
    alloc: Global,
    names: &Names14<'_>,
    at: Lister,
    number: u32,
    action: &'a [u8],
    pipeline: &mut NameSet<'a>,
    own: &mut NameSet<'a>,
    found: &mut Rows<ActionCopy>,
) -> Result<(), OutOfMemory>
    ensures copies { OnOk result (found.new ≡ found.old ++ map (action_copy names.now) (line_copies pipeline.old own.old (listing_of at number action.now))) }
    ensures pipeline { OnOk result (pipeline.new ≡ with_name pipeline.old action.now) }
    ensures own { OnOk result (own.new ≡ with_name own.old action.now) }
{
    let is_first = is_new(pipeline, action)?;
    let is_own = is_new(own, action)?;
    add_plain(alloc, names, at, number, action, is_first, found)?;
    let is_counted = at.is_counted && is_own;
    add_counted(alloc, names, at, number, action, is_counted, found)?;
    Ok(())
}

/// Puts the copies of the lines of a table last, by the names that its pipeline had before.
fn add_lines<'a>(
    alloc: Global,
    names: &Names14<'_>,
    at: Lister,
    first: u32,
    actions: &'a [Text],
    pipeline: &mut NameSet<'a>,
    found: &mut Rows<ActionCopy>,
) -> Result<(), OutOfMemory>
    ensures copies { OnOk result (found.new ≡ found.old ++ map (action_copy names.now) (table_copies pipeline.old [] (lines_of at first actions.now))) }
    ensures pipeline { OnOk result (pipeline.new ≡ names_behind pipeline.old (lines_of at first actions.now)) }
{
    let mut own = NameSet::new(alloc);
    for i in 0..actions.len() {
        let number = narrow(first as usize + i)?;
        let action = actions[i].as_slice();
        add_line(alloc, names, at, number, action, pipeline, &mut own, found)?;
    }
    Ok(())
}

/// Puts the copies of the lines of a table last, by the names that each pipeline had before.
fn add_side<'a>(
    alloc: Global,
    names: &Names14<'_>,
    at: Lister,
    first: u32,
    actions: &'a [Text],
    ingress: &mut NameSet<'a>,
    egress: &mut NameSet<'a>,
    found: &mut Rows<ActionCopy>,
) -> Result<(), OutOfMemory>
    ensures copies { OnOk result (found.new ≡ found.old ++ map (action_copy names.now) (table_copies (if at.in_egress then egress.old else ingress.old) [] (lines_of at first actions.now))) }
    ensures ingress { OnOk result (ingress.new ≡ if at.in_egress then ingress.old else names_behind ingress.old (lines_of at first actions.now)) }
    ensures egress { OnOk result (egress.new ≡ if at.in_egress then names_behind egress.old (lines_of at first actions.now) else egress.old) }
{
    if at.in_egress {
        add_lines(alloc, names, at, first, actions, egress, found)
    } else {
        add_lines(alloc, names, at, first, actions, ingress, found)
    }
}

/// Puts the copies of the lines of a table last, by its number and that of its first line.
fn add_table<'a>(
    alloc: Global,
    names: &Names14<'_>,
    in_egress: &[bool],
    counted: &NameSet<'_>,
    number: usize,
    line: u32,
    table: &'a Table,
    ingress: &mut NameSet<'a>,
    egress: &mut NameSet<'a>,
    found: &mut Rows<ActionCopy>,
) -> Result<(), OutOfMemory>
    ensures copies { OnOk result (found.new ≡ found.old ++ map (action_copy names.now) (table_copies (if slice_index_or in_egress.now number false then egress.old else ingress.old) [] (lines_at counted.now in_egress.now number line table.now))) }
    ensures ingress { OnOk result (ingress.new ≡ if slice_index_or in_egress.now number false then ingress.old else names_behind ingress.old (lines_at counted.now in_egress.now number line table.now)) }
    ensures egress { OnOk result (egress.new ≡ if slice_index_or in_egress.now number false then names_behind egress.old (lines_at counted.now in_egress.now number line table.now) else egress.old) }
{
    let at = Lister {
        table: narrow(number)?,
        is_counted: counted.has(table.name.as_slice()),
        in_egress: is_at(in_egress, number),
    };
    add_side(
        alloc,
        names,
        at,
        line,
        table.actions(),
        ingress,
        egress,
        found,
    )
}

/// The number of the first line behind those of a table.
fn next_line(line: u32, table: &Table) -> Result<u32, OutOfMemory>
    ensures { IfOk result (λ next. next ≡ line + length (listed_in table.now)) }
{
    narrow(line as usize + table.actions().len())
}

/// The copies of all lines, by flags that tell which tables stand in egress and by the tables with direct counters.
fn copies_by(
    alloc: Global,
    names: &Names14<'_>,
    in_egress: &[bool],
    counted: &NameSet<'_>,
) -> Result<Rows<ActionCopy>, OutOfMemory>
    ensures { IfOk result (λ found. found ≡ map (action_copy names.now) (copies_from counted.now in_egress.now [] [] 0 0 (tables names.now))) }
{
    let mut found = Rows::new(alloc);
    let mut ingress = NameSet::new(alloc);
    let mut egress = NameSet::new(alloc);
    let mut number = 0;
    let mut line = 0;
    for decl in names.decls() {
        if let Decl::Table(table) = decl {
            add_table(
                alloc,
                names,
                in_egress,
                counted,
                number,
                line,
                table,
                &mut ingress,
                &mut egress,
                &mut found,
            )?;
            line = next_line(line, table)?;
            number += 1;
        }
    }
    Ok(found)
}

/// The copies of actions: one for each pipeline whose tables list the action, and one for each table with a direct counter
/// that lists it. Flags tell which tables stand in egress. More lines than numbers of 32 bits are want of memory.
#[tactic(auto, using(crate::proofs::Copied::copies_same))]
pub fn action_copies(
    alloc: Global,
    names: &Names14<'_>,
    in_egress: &[bool],
) -> Result<Rows<ActionCopy>, OutOfMemory>
    ensures { IfOk result (λ found. (egress : ℕ → Bool) → StandsBy names.now egress in_egress.now → found ≡ map (action_copy names.now) (copies names.now egress)) }
{
    let counted = direct_tables(alloc, names.decls())?;
    let found = copies_by(alloc, names, in_egress, &counted)?;
    Ok(found)
}
