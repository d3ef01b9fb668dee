// C23: cells of counters, meters and registers.
ghost use Rattle.std.specs.Prelude.{◌≡◌, ◌++◌, map, sum_by, flat_map, nat_lt, option_to_list, option_copied, IfOk, OnOk};
ghost use Rattle.std.specs.List.{list_any};
ghost use Rattle.p414_syntax.specs.References.{referred};
ghost use Rattle.p414_syntax.specs.Names.{repeats};
ghost use Rattle.p414_syntax.specs.Cells.{cells_of_counter, cells_in, cells, is_bad_cell_count, cell_count, direct_in, has_bad_cells};

use p4x_bits::{OutOfMemory, Text};
use p414_names::{NameSet, Names14};
use p414_syntax::{Decl, Literal, References, Stateful};
use std::alloc::Global;

/// How many cells one counter, meter or register has at most.
const MOST_CELLS: u128 = 1_048_576;

/// How many cells all of them have together at most.
const MOST_CELLS_TOGETHER: u128 = 4_194_304;

/// Whether a number of cells isn't there, or is outside 1 to 1,048,576.
fn is_bad_cell_count(count: Option<Literal>) -> bool
    ensures { result ≡ is_bad_cell_count count }
{
    match count {
        Some(count) => count.value < 1 || count.value > MOST_CELLS,
        None => true,
    }
}

/// How many cells a number declares; none where it isn't there.
fn cell_count(count: Option<Literal>) -> u128
    ensures { result ≡ cell_count count }
{
    match count {
        Some(count) => count.value,
        None => 0,
    }
}

/// Whether a counter that isn't direct has a bad number of cells.
fn is_bad_counter(counter: &Stateful) -> bool
    ensures { result ≡ list_any is_bad_cell_count (cells_of_counter counter.now.attributes) }
{
    match counter.direct_table() {
        Some(_) => false,
        None => is_bad_cell_count(counter.instance_count()),
    }
}

/// Whether a declaration has a bad number of cells.
fn declares_bad_count(decl: &Decl) -> bool
    ensures { result ≡ list_any is_bad_cell_count (cells_in decl.now) }
{
    match decl {
        Decl::Counter(declared) => is_bad_counter(declared),
        Decl::Meter(declared) => is_bad_cell_count(declared.instance_count()),
        Decl::Register(declared) => is_bad_cell_count(declared.instance_count()),
        _ => false,
    }
}

/// Whether one of these declarations has.
fn some_bad_count(decls: &[Decl]) -> bool
    ensures { result ≡ list_any is_bad_cell_count (cells decls.now) }
{
    for decl in decls {
        if declares_bad_count(decl) {
            return true;
        }
    }
    false
}

/// How many cells a counter has; a direct counter counts as none.
fn counter_cells(counter: &Stateful) -> u128
    ensures { result ≡ sum_by cell_count (cells_of_counter counter.now.attributes) }
{
    match counter.direct_table() {
        Some(_) => 0,
        None => cell_count(counter.instance_count()),
    }
}

/// How many cells a declaration has.
fn cells_declared(decl: &Decl) -> u128
    ensures { result ≡ sum_by cell_count (cells_in decl.now) }
{
    match decl {
        Decl::Counter(declared) => counter_cells(declared),
        Decl::Meter(declared) => cell_count(declared.instance_count()),
        Decl::Register(declared) => cell_count(declared.instance_count()),
        _ => 0,
    }
}

/// Whether all of these have over 4,194,304 cells together.
fn has_too_many_cells(decls: &[Decl]) -> bool
    ensures { result ≡ nat_lt 4194304 (sum_by cell_count (cells decls.now)) }
{
    let mut total = 0;
    for decl in decls {
        let more = cells_declared(decl);
        if more > MOST_CELLS_TOGETHER - total {
            return true;
        }
        total += more;
    }
    false
}

/// The table of a direct counter.
fn direct_table(decl: &Decl) -> Option<&Text>
    ensures { option_to_list (option_copied result) ≡ direct_in decl.now }
{
    match decl {
        Decl::Counter(declared) => declared.direct_table(),
        _ => None,
    }
}

/// Puts the table of a direct counter last.
fn add_direct<'a>(found: &mut References<'a, Text>, decl: &'a Decl) -> Result<(), OutOfMemory>
    ensures { OnOk result (found.new ≡ found.old ++ direct_in decl.now) }
{
    match direct_table(decl) {
        Some(table) => found.push(table),
        None => Ok(()),
    }
}

/// The tables that direct counters belong to, one for each.
fn direct_tables(alloc: Global, decls: &[Decl]) -> Result<References<'_, Text>, OutOfMemory>
    ensures { IfOk result (λ found. found ≡ flat_map direct_in decls.now) }
{
    let mut found = References::new(alloc);
    for decl in decls {
        add_direct(&mut found, decl)?;
    }
    Ok(found)
}

/// Whether one of these names stands twice.
fn is_twice(alloc: Global, names: &[&Text]) -> Result<bool, OutOfMemory>
    ensures { IfOk result (λ twice. twice ≡ repeats (map referred names.now)) }
{
    let mut set = NameSet::new(alloc);
    for name in names {
        if !set.add(name.as_slice())? {
            return Ok(true);
        }
    }
    Ok(false)
}

/// Whether a table has two direct counters.
fn has_two_direct(alloc: Global, decls: &[Decl]) -> Result<bool, OutOfMemory>
    ensures { IfOk result (λ twice. twice ≡ repeats (flat_map direct_in decls.now)) }
{
    let tables = direct_tables(alloc, decls)?;
    is_twice(alloc, tables.as_slice())
}

/// Whether C23 is broken. Its time is proportional to the program.
pub fn has_bad_cells(alloc: Global, names: &Names14<'_>) -> Result<bool, OutOfMemory>
    ensures { IfOk result (λ broken. broken ≡ has_bad_cells names.now) }
{
    let twice = has_two_direct(alloc, names.decls())?;
    Ok(some_bad_count(names.decls()) || (has_too_many_cells(names.decls()) || twice))
}
