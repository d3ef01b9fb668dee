// The lines of counters and registers.
ghost use Rattle.std.specs.Prelude.{◌≡◌, ◌++◌, ◌∷◌, ◌<◌, ◌^◌, length, OnOk};
ghost use Rattle.state_store.specs.State.{IsCounterAt, IsRegisterAt, pair, read};
ghost use Rattle.cell_lines.specs.Lines.{cell_lines, counts_line, first_lines, number_line, object_lines};

use match_core::Signature;
use p4x_bits::{Octets, OutOfMemory};
use state_store::{Shape, Store};
use std::alloc::Global;

/// Puts a word, a blank, a name and what follows last.
fn put_line(into: &mut Octets, word: &[u8], name: &[u8], numbers: &[u8]) -> Result<(), OutOfMemory>
    ensures { OnOk result (into.new ≡ into.old ++ word.now ++ 32 ∷ name.now ++ numbers.now) }
{
    into.extend_from_slice(word)?;
    into.push(b' ')?;
    into.extend_from_slice(name)?;
    into.extend_from_slice(numbers)?;
    Ok(())
}

/// Puts the line of a cell of a counter last, if it counted anything.
fn put_counts(
    alloc: Global,
    into: &mut Octets,
    word: &[u8],
    name: &[u8],
    index: u32,
    counts: (u64, u64),
) -> Result<(), OutOfMemory>
    ensures { OnOk result (into.new ≡ into.old ++ counts_line word.now name.now index counts) }
{
    let (packets, octets) = counts;
    if packets == 0 && octets == 0 {
        return Ok(());
    }
    let numbers = format!(in alloc; " {index} {packets} {octets}\n")?;
    put_line(into, word, name, numbers.as_bytes())
}

/// Puts the line of a cell of a register last, if its number isn't 0.
fn put_number(
    alloc: Global,
    into: &mut Octets,
    name: &[u8],
    index: u32,
    number: u128,
) -> Result<(), OutOfMemory>
    ensures { OnOk result (into.new ≡ into.old ++ number_line name.now index number) }
{
    if number == 0 {
        return Ok(());
    }
    let numbers = format!(in alloc; " {index} {number}\n")?;
    put_line(into, b"register", name, numbers.as_bytes())
}

/// Puts the lines of the first `count` cells of a counter last.
#[tactic(auto, using(crate::proofs::Cells::next_line))]
fn put_counter(
    alloc: Global,
    into: &mut Octets,
    word: &[u8],
    name: &[u8],
    store: &Store,
    object: u32,
    count: u32,
) -> Result<(), OutOfMemory>
    requires { IsCounterAt store.now.shapes object }
    ensures { OnOk result (into.new ≡ into.old ++ first_lines (λ index. counts_line word.now name.now index (pair store.now object index)) count) }
{
    for index in 0..count {
        let counts = store.pair(object, index);
        put_counts(alloc, into, word, name, index, counts)?;
    }
    Ok(())
}

/// Puts the lines of the first `count` cells of a register last.
#[tactic(auto, using(crate::proofs::Cells::next_line))]
fn put_register(
    alloc: Global,
    into: &mut Octets,
    name: &[u8],
    store: &Store,
    object: u32,
    count: u32,
) -> Result<(), OutOfMemory>
    requires { IsRegisterAt store.now.shapes object }
    ensures { OnOk result (into.new ≡ into.old ++ first_lines (λ index. number_line name.now index (read store.now object index)) count) }
{
    for index in 0..count {
        let number = store.read(object, index);
        put_number(alloc, into, name, index, number)?;
    }
    Ok(())
}

/// Puts the lines of an object's cells last; none where there is no such object.
#[tactic(auto, using(crate::proofs::Cells::counter_there, crate::proofs::Cells::direct_there, crate::proofs::Cells::register_there, crate::proofs::Cells::by_shape, crate::proofs::Cells::meter_lines, crate::proofs::Cells::no_lines))]
fn put_object(
    alloc: Global,
    into: &mut Octets,
    name: &[u8],
    store: &Store,
    object: u32,
) -> Result<(), OutOfMemory>
    ensures { OnOk result (into.new ≡ into.old ++ object_lines store.now name.now object) }
{
    let shapes = store.shapes();
    let place = object as usize;
    if place >= shapes.len() {
        return Ok(());
    }
    match shapes[place] {
        Shape::Counter { cells, .. } => {
            put_counter(alloc, into, b"counter", name, store, object, cells)
        }
        Shape::Direct { cells, .. } => {
            put_counter(alloc, into, b"direct", name, store, object, cells)
        }
        Shape::Register { cells, .. } => put_register(alloc, into, name, store, object, cells),
        Shape::Meter { .. } => Ok(()),
    }
}

/// Puts the lines of all counters and registers of a program last: in the order of its signature, for each cell that isn't all 0, in
/// index order, `counter NAME INDEX PACKETS BYTES`, `direct NAME ENTRY PACKETS BYTES` or `register NAME INDEX VALUE`, each ended by
/// LF, with numbers in decimal (the format is this project's own). The one error is want of memory.
#[tactic(auto, using(crate::proofs::Cells::next_object))]
pub fn put_cell_lines(
    alloc: Global,
    into: &mut Octets,
    signature: &Signature,
    store: &Store,
) -> Result<(), OutOfMemory>
    requires few { length signature.now.objects < 2 ^ 32 }
    ensures { OnOk result (into.new ≡ into.old ++ cell_lines signature.now store.now) }
{
    let objects = signature.objects.as_slice();
    for object in 0..objects.len() {
        put_object(
            alloc,
            into,
            objects[object].name.as_slice(),
            store,
            object as u32,
        )?;
    }
    Ok(())
}
