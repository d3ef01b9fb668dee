// The marks of the lists that are preserved.
ghost use Rattle.std.specs.Prelude.{◌≡◌, ◌<◌, ◌≤◌, ◌+◌, ◌++◌, map, IfOk, OnOk};
ghost use Rattle.lower_laws_names.specs.Marks.{marks};
ghost use Rattle.lower_marks.specs.Marking.{mark_if, marked_if, marked_in, marks_by, next_mark};
ghost use Rattle.lower_rows.specs.Named.{marked_lists};

use crate::preserved::preserved_flags;
use name_numbers::narrow;
use p4x_bits::{OutOfMemory, Rows};
use p414_names::Names14;
use std::alloc::Global;

/// The mark of a preserved list.
#[derive(Clone, Copy, Drop)]
pub struct Marked {
    /// The number of the list, from 0 in the order of declaration.
    pub list: u32,
    /// The mark, from 1 on.
    pub number: u8,
}

/// A mark, of which an accepted program has 255 at most. More count as want of memory.
fn narrow_mark(number: usize) -> Result<u8, OutOfMemory>
    ensures { IfOk result (λ narrow. narrow ≡ number) }
{
    match u8::try_from(number) {
        Ok(number) => Ok(number),
        Err(_) => Err(OutOfMemory),
    }
}

/// A mark where the flag stands.
fn mark_if(flag: bool, number: usize) -> Result<Option<u8>, OutOfMemory>
    ensures { IfOk result (λ mark. mark ≡ mark_if flag number) }
{
    if flag {
        Ok(Some(narrow_mark(number)?))
    } else {
        Ok(None)
    }
}

/// The mark that is next.
fn next_mark(flag: bool, number: usize) -> usize
    requires { number < 18446744073709551615 }
    ensures is { result ≡ next_mark flag number }
    ensures fits { result ≤ number + 1 }
{
    if flag { number + 1 } else { number }
}

/// The mark of each list that has one, by flags that tell which lists are preserved.
fn marks_by(alloc: Global, preserved: &[bool]) -> Result<Rows<Option<u8>>, OutOfMemory>
    ensures { IfOk result (λ found. marked_lists 0 found ≡ marks_by preserved.now 0 1) }
{
    let mut found = Rows::new(alloc);
    let mut number = 1;
    for i in 0..preserved.len() {
        let flag = preserved[i];
        found.push(mark_if(flag, number)?)?;
        number = next_mark(flag, number);
    }
    Ok(found)
}

/// The mark of each list that has one, in the order of declaration.
#[tactic(auto, using(crate::proofs::Marking::all_marks))]
pub fn mark_rows(alloc: Global, names: &Names14<'_>) -> Result<Rows<Option<u8>>, OutOfMemory>
    ensures { IfOk result (λ found. marked_lists 0 found ≡ marks names.now) }
{
    let flags = preserved_flags(alloc, names)?;
    let found = marks_by(alloc, flags.as_slice())?;
    Ok(found)
}

/// Puts the mark of a list last, if it has one.
fn add_marked(found: &mut Rows<Marked>, list: usize, mark: Option<u8>) -> Result<(), OutOfMemory>
    ensures { OnOk result (map marked_in found.new ≡ map marked_in found.old ++ marked_if list mark) }
{
    if let Some(number) = mark {
        let list = narrow(list)?;
        found.push(Marked { list, number })?;
    }
    Ok(())
}

/// The lists that have a mark, with their marks.
#[tactic(auto, using(crate::proofs::Marking::marked_turn))]
pub fn marked_rows(alloc: Global, marks: &[Option<u8>]) -> Result<Rows<Marked>, OutOfMemory>
    ensures { IfOk result (λ found. map marked_in found ≡ marked_lists 0 marks.now) }
{
    let mut found = Rows::new(alloc);
    for i in 0..marks.len() {
        add_marked(&mut found, i, marks[i])?;
    }
    Ok(found)
}
