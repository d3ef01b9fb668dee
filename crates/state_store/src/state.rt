// A store of stateful objects.
ghost use Rattle.std.specs.Prelude.{◌≡◌, ℕ, ◌^◌, ◌<◌, ◌≤◌, All, IfOk, OnErr};
ghost use Rattle.state_store.specs.Cells.{width_of, kind_of, size_of, IsCounter, IsCount};
ghost use Rattle.state_store.specs.State.{Contents, shape_at, IsCounterAt, IsRegisterAt, IsMeterAt, new_store, count, pair, read, write, colour, colour_taken, give, sum_of_stores, IsStore};
ghost use Rattle.state_store.specs.Sums.{SumLaws};

use crate::cells::Cells;
use crate::shapes::Shape;
use std::alloc::{AllocError, AllocFailed, Global};
use std::marker::Model;
use thiserror::Error;

/// There was no memory for a store or a colour.
#[derive(Clone, Copy, Debug, PartialEq, Eq, Error)]
#[error("out of memory")]
pub struct OutOfMemory;

impl From<AllocError> for OutOfMemory {
    fn from(_error: AllocError) -> OutOfMemory {
        OutOfMemory
    }
}

impl<T: Drop> From<AllocFailed<T>> for OutOfMemory {
    fn from(_error: AllocFailed<T>) -> OutOfMemory {
        OutOfMemory
    }
}

/// The stateful objects of a program, with their cells and the colours that its meters have left.
///
/// An object is named by its number, from 0 in the order of the shapes that the store was made of,
/// and a cell by its index. An index at or past the end of an object's cells reads 0, and writes,
/// counts and takes nothing. No call but `new`, `empty` and `give` takes memory, and each changes one
/// cell at most, but `clear` and `add`. (P4_14 1.0.5, "Counters", "Meters" and "Registers";
/// v1model.p4. What an index out of range does, and that a meter's colours are handed in, is this
/// project's own.)
pub struct Store {
    shapes: Vec<Shape>,
    cells: Vec<Cells>,
}

impl Drop for Store {
    fn drop(self) {
        let Store {
            shapes: _shapes,
            cells: _cells,
        } = self;
    }
}

impl Model for Store {
    ghost use Rattle.state_store.specs.State.{Contents, IsStore};

    ghost Value = { Contents };

    ghost view = { λ s. record { shapes = s.shapes.items; cells = s.cells.items } };

    ghost invariant = { λ s. IsStore (record { shapes = s.shapes.items; cells = s.cells.items }) };
}

impl Store {
    /// A store of these objects, with all cells 0 and no colours. An object's cells are one
    /// allocation. The one error is want of memory.
    pub fn new(alloc: Global, shapes: &[Shape]) -> Result<Store, OutOfMemory>
        ensures new { IfOk result (λ store. store ≡ new_store shapes.now) }
        ensures store { IfOk result IsStore }
    {
        let mut cells = Vec::with_capacity(alloc, shapes.len())?;
        for shape in shapes {
            cells.push(Cells::new(alloc, *shape)?)?;
        }
        Ok(Store {
            shapes: Vec::from_slice(alloc, shapes)?,
            cells,
        })
    }

    /// What the objects are, in the order of their numbers.
    pub fn shapes(&self) -> &[Shape]
        ensures { result.now ≡ self.now.shapes }
    {
        self.shapes.as_slice()
    }

    /// Another store of the same objects, with all cells 0 and no colours. The one error is want of
    /// memory.
    pub fn empty(&self, alloc: Global) -> Result<Store, OutOfMemory>
        ensures empty { IfOk result (λ store. store ≡ new_store self.now.shapes) }
        ensures store { IfOk result IsStore }
    {
        Store::new(alloc, self.shapes.as_slice())
    }

    /// Makes all cells 0 and drops the colours that are left: the store is as `new` made it. It takes
    /// no memory.
    pub fn clear(&mut self)
        ensures clear { self.new ≡ new_store self.old.shapes }
        ensures store { IsStore self.new }
    {
        for object in 0..self.cells.len() {
            self.cells[object].clear();
        }
    }

    /// Hands a colour, from 0 to 2, to a meter, behind the colours that it has left. For want of
    /// memory the store stays as it was.
    pub fn give(&mut self, object: u32, colour: u8) -> Result<(), OutOfMemory>
        requires meter { IsMeterAt self.old.shapes object }
        requires colour { colour ≤ 2 }
        ensures ok { IfOk result (λ _. self.new ≡ give self.old object colour) }
        ensures err { OnErr result (self.new ≡ self.old) }
        ensures store { IsStore self.new }
    {
        self.cells[object as usize].give(colour)?;
        Ok(())
    }

    /// Counts one packet of so many octets in a counter's cell. Each count is kept modulo 2^64, and
    /// one that the counter's kind doesn't keep stays 0.
    pub fn count(&mut self, object: u32, index: u32, octets: u32)
        requires { IsCounterAt self.old.shapes object }
        ensures counted { self.new ≡ count self.old object index octets }
        ensures store { IsStore self.new }
    {
        let object = object as usize;
        let kind = self.shapes[object].kind();
        self.cells[object].count(kind, index, octets);
    }

    /// The packets and the octets that a counter's cell counted.
    pub fn pair(&self, object: u32, index: u32) -> (u64, u64)
        requires { IsCounterAt self.now.shapes object }
        ensures counts { result ≡ pair self.now object index }
        ensures store { IsStore self.now }
    {
        self.cells[object as usize].pair(index)
    }

    /// The number in a register's cell.
    pub fn read(&self, object: u32, index: u32) -> u128
        requires { IsRegisterAt self.now.shapes object }
        ensures number { result ≡ read self.now object index }
        ensures fits { result < 2 ^ width_of (shape_at self.now.shapes object) }
        ensures store { IsStore self.now }
    {
        self.cells[object as usize].read(index)
    }

    /// Writes a number to a register's cell, which keeps its low `width` bits.
    pub fn write(&mut self, object: u32, index: u32, value: u128)
        requires { IsRegisterAt self.old.shapes object }
        ensures written { self.new ≡ write self.old object index value }
        ensures store { IsStore self.new }
    {
        let object = object as usize;
        let width = self.shapes[object].width();
        self.cells[object].write(width, index, value);
    }

    /// Executes a meter: takes the first colour that it has left, and is 0 where none is left.
    pub fn colour(&mut self, object: u32, index: u32) -> u8
        requires { IsMeterAt self.old.shapes object }
        ensures colour { result ≡ colour self.old object index }
        ensures range { result ≤ 2 }
        ensures taken { self.new ≡ colour_taken self.old object index }
        ensures store { IsStore self.new }
    {
        let object = object as usize;
        if index < self.shapes[object].size() {
            self.cells[object].take()
        } else {
            0
        }
    }

    /// Adds the counts of another store of the same counters, cell by cell and modulo 2^64. The sum of
    /// several stores depends neither on their order nor on how they are grouped, an empty store adds
    /// nothing, and what is counted in one of them is counted in the sum. (This project's own.)
    pub fn add(&mut self, other: &Store)
        requires counters { All IsCounter self.old.shapes }
        requires same { other.now.shapes ≡ self.old.shapes }
        ensures sums { self.new ≡ sum_of_stores self.old other.now }
        ensures laws { SumLaws self.old other.now }
        ensures store { IsStore self.new }
    {
        for object in 0..self.cells.len().min(other.cells.len()) {
            self.cells[object].add(&other.cells[object]);
        }
    }
}
