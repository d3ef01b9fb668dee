// The stateful objects by number, and which counter counts the entries of a table.
ghost use Rattle.std.specs.Prelude.{◌≡◌, ◌++◌, map, option_map, option_to_list, slice_get, IfOk, OnOk};
ghost use Rattle.p414_syntax.specs.References.{referred};
ghost use Rattle.p414_syntax.specs.declared.syntax.Sort.TheVariants as sort;
ghost use Rattle.p414_syntax.specs.Names.{names_in};
ghost use Rattle.p414_sem.specs.Operations.{in_order};
ghost use Rattle.p414_signature.specs.internal.Gathered.{counted_table, counting_tables, counting_name, counting_names, AreObjects, direct_in, number_in};

use name_numbers::{Numbering, narrow, number_names};
use p4x_bits::OutOfMemory;
use p414_syntax::Decl;
use std::alloc::Global;

/// The stateful objects by number; and of the counters that count the entries of tables their tables, by number, and
/// their names.
pub struct Objects<'a> {
    numbers: Numbering<'a>,
    tables: Numbering<'a>,
    counters: Vec<&'a [u8]>,
}

impl Drop for Objects<'_> {
    fn drop(self) {
        let Objects {
            numbers: _numbers,
            tables: _tables,
            counters: _counters,
        } = self;
    }
}

/// Puts the table last whose entries a declaration counts, if it does.
fn add_table<'a>(found: &mut Vec<&'a [u8]>, decl: &'a Decl) -> Result<(), OutOfMemory>
    ensures { OnOk result (map referred found.new.items ≡ map referred found.old.items ++ option_to_list (counted_table decl.now)) }
{
    if let Decl::Counter(counter) = decl {
        if let Some(table) = counter.direct_table() {
            found.push(table.as_slice())?;
        }
    }
    Ok(())
}

/// The tables whose entries are counted, in the order of the counters.
#[tactic(auto, using(crate::proofs::Counting::kept_now))]
fn counting_tables<'a>(alloc: Global, decls: &'a [Decl]) -> Result<Vec<&'a [u8]>, OutOfMemory>
    ensures { IfOk result (λ found. map referred found.items ≡ counting_tables decls.now) }
{
    let mut found = Vec::new(alloc);
    for decl in decls {
        add_table(&mut found, decl)?;
    }
    Ok(found)
}

/// Puts the name of a counter last, if it counts the entries of a table.
fn add_counter<'a>(found: &mut Vec<&'a [u8]>, decl: &'a Decl) -> Result<(), OutOfMemory>
    ensures { OnOk result (map referred found.new.items ≡ map referred found.old.items ++ option_to_list (counting_name decl.now)) }
{
    if let Decl::Counter(counter) = decl {
        if counter.direct_table().is_some() {
            found.push(counter.name.as_slice())?;
        }
    }
    Ok(())
}

/// The counters that count the entries of a table, in order.
#[tactic(auto, using(crate::proofs::Counting::kept_now))]
fn counting_names<'a>(alloc: Global, decls: &'a [Decl]) -> Result<Vec<&'a [u8]>, OutOfMemory>
    ensures { IfOk result (λ found. map referred found.items ≡ counting_names decls.now) }
{
    let mut found = Vec::new(alloc);
    for decl in decls {
        add_counter(&mut found, decl)?;
    }
    Ok(found)
}

/// The number of a name among these, or how many there are.
fn number_in(numbers: &Numbering<'_>, name: &[u8]) -> Result<u32, OutOfMemory>
    ensures { IfOk result (λ number. number ≡ number_in numbers.now name.now) }
{
    match numbers.find(name) {
        Some(number) => Ok(number),
        None => narrow(numbers.len()),
    }
}

impl<'a> Objects<'a> {
    /// The objects of a program, of which these are the names in order. The one error is want of memory.
    pub fn of(alloc: Global, decls: &'a [Decl], ordered: Vec<&'a [u8]>) -> Result<Self, OutOfMemory>
        requires { map referred ordered.items ≡ in_order (names_in sort.Object decls.now) }
        ensures { IfOk result (AreObjects decls.now) }
    {
        let tables = counting_tables(alloc, decls)?;
        let counters = counting_names(alloc, decls)?;
        Ok(Objects {
            numbers: number_names(alloc, ordered)?,
            tables: number_names(alloc, tables)?,
            counters,
        })
    }

    /// The number of an object by its name, or how many there are.
    fn number(&self, name: &[u8]) -> Result<u32, OutOfMemory>
        ensures { IfOk result (λ number. number ≡ number_in self.now.numbers name.now) }
    {
        number_in(&self.numbers, name)
    }

    /// The counter at a place among those that count the entries of a table.
    fn counter(&self, place: u32) -> Option<&'a [u8]>
        ensures { option_map referred result ≡ slice_get (map referred self.now.counters.items) place }
    {
        self.counters.get(place as usize).copied()
    }

    /// The number of the counter that counts the entries of a table, if there is one. The one error is want of memory.
    pub fn direct(&self, table: &[u8]) -> Result<Option<u32>, OutOfMemory>
        ensures { IfOk result (λ number. number ≡ direct_in self.now table.now) }
    {
        match self.tables.find(table) {
            Some(place) => match self.counter(place) {
                Some(name) => Ok(Some(self.number(name)?)),
                None => Ok(None),
            },
            None => Ok(None),
        }
    }
}
