// The cells of one object.
ghost use Rattle.std.specs.Prelude.{◌≡◌, ℕ, ◌%◌, ◌^◌, ◌≤◌, List, [], ◌∷◌, ◌++◌, length, drop, replicate, slice_index, slice_index_or, slice_set, IfOk, OnErr};
ghost use Rattle.state_store.specs.Cells.{size_of, kind_of, width_of, blank, counted, count_at, count_in, pair_in, read_in, write_at, write_in, first_colour, colour_in, taken_in, given_in, joined, sum_of_counts, sum_of_cells};
ghost use Rattle.state_store.specs.internal.Clearing.{cleared};

use crate::shapes::{Kind, Shape};
use std::alloc::{AllocError, Global};
use std::marker::Model;

/// The counts of packets and of octets after one more packet of so many octets.
fn counted(kind: Kind, cell: (u64, u64), octets: u32) -> (u64, u64)
    ensures { result ≡ counted kind cell octets }
{
    let packets = cell.0.wrapping_add(1);
    let bytes = cell.1.wrapping_add(octets as u64);
    match kind {
        Kind::Packets => (packets, cell.1),
        Kind::Bytes => (cell.0, bytes),
        Kind::Both => (packets, bytes),
    }
}

/// The sum of two counts, each at 64 bits.
fn sum_of_counts(a: (u64, u64), b: (u64, u64)) -> (u64, u64)
    ensures { result ≡ sum_of_counts a b }
{
    (a.0.wrapping_add(b.0), a.1.wrapping_add(b.1))
}

/// For each cell of a counter, how many packets and octets it counted.
#[derive(Drop)]
pub struct Counts {
    cells: Vec<(u64, u64)>,
}

impl Model for Counts {
    ghost use Rattle.std.specs.Prelude.{List, ℕ};

    ghost Value = { List (ℕ × ℕ) };

    ghost view = { λ counts. counts.cells.items };
}

impl Counts {
    pub fn new(alloc: Global, cells: u32) -> Result<Counts, AllocError>
        ensures { IfOk result (λ counts. counts ≡ replicate cells (0, 0)) }
    {
        Ok(Counts {
            cells: vec![in alloc; (0u64, 0u64); cells as usize]?,
        })
    }

    pub fn get(&self, index: u32) -> (u64, u64)
        ensures { result ≡ slice_index_or self.now index (0, 0) }
    {
        self.cells.get(index as usize).copied().unwrap_or((0, 0))
    }

    pub fn count(&mut self, kind: Kind, index: u32, octets: u32)
        ensures { self.new ≡ count_at kind self.old index octets }
    {
        let index = index as usize;
        if index < self.cells.len() {
            self.cells[index] = counted(kind, self.cells[index], octets);
        }
    }

    pub fn add(&mut self, more: &Counts)
        ensures { self.new ≡ joined sum_of_counts self.old more.now }
    {
        for i in 0..self.cells.len().min(more.cells.len()) {
            self.cells[i] = sum_of_counts(self.cells[i], more.cells[i]);
        }
    }

    pub fn clear(&mut self)
        ensures { self.new ≡ replicate (length self.old) (0, 0) }
    {
        self.cells.fill((0, 0));
    }
}

/// The numbers that a register's cells hold.
#[derive(Drop)]
pub struct Numbers {
    cells: Vec<u128>,
}

impl Model for Numbers {
    ghost use Rattle.std.specs.Prelude.{List, ℕ};

    ghost Value = { List ℕ };

    ghost view = { λ numbers. numbers.cells.items };
}

impl Numbers {
    pub fn new(alloc: Global, cells: u32) -> Result<Numbers, AllocError>
        ensures { IfOk result (λ numbers. numbers ≡ replicate cells 0) }
    {
        Ok(Numbers {
            cells: vec![in alloc; 0u128; cells as usize]?,
        })
    }

    pub fn get(&self, index: u32) -> u128
        ensures { result ≡ slice_index self.now index }
    {
        self.cells.get(index as usize).copied().unwrap_or(0)
    }

    pub fn set(&mut self, width: u8, index: u32, value: u128)
        ensures { self.new ≡ write_at width self.old index value }
    {
        let index = index as usize;
        if index < self.cells.len() {
            self.cells[index] = low_bits(value, width);
        }
    }

    pub fn clear(&mut self)
        ensures { self.new ≡ replicate (length self.old) 0 }
    {
        self.cells.fill(0);
    }
}

/// The low `width` bits of a number.
fn low_bits(value: u128, width: u8) -> u128
    ensures { result ≡ value % 2 ^ width }
{
    if width < 128 {
        value % (1u128 << width)
    } else {
        value
    }
}

/// The colours that a meter has left, in the order in which it gives them.
#[derive(Drop)]
pub struct Colours {
    given: Vec<u8>,
    taken: usize,
}

impl Model for Colours {
    ghost use Rattle.std.specs.Prelude.{List, ℕ, ◌≤◌, drop, length};

    ghost Value = { List ℕ };

    ghost view = { λ colours. drop colours.taken colours.given.items };

    ghost invariant = { λ colours. colours.taken ≤ length colours.given.items };
}

impl Colours {
    pub fn new(alloc: Global) -> Colours
        ensures { result ≡ [] }
    {
        Colours {
            given: Vec::new(alloc),
            taken: 0,
        }
    }

    pub fn give(&mut self, colour: u8) -> Result<(), AllocError>
        ensures ok { IfOk result (λ _. self.new ≡ self.old ++ colour ∷ []) }
        ensures err { OnErr result (self.new ≡ self.old) }
    {
        self.given.push(colour)?;
        Ok(())
    }

    pub fn take(&mut self) -> u8
        ensures colour { result ≡ first_colour self.old }
        ensures left { self.new ≡ drop 1 self.old }
    {
        if self.taken < self.given.len() {
            let colour = self.given[self.taken];
            self.taken += 1;
            colour
        } else {
            0
        }
    }

    pub fn clear(&mut self)
        ensures { self.new ≡ [] }
    {
        self.given.clear();
        self.taken = 0;
    }
}

/// The cells of an object, or the colours that it has left.
pub enum Cells {
    Counts(Counts),
    Numbers(Numbers),
    Colours(Colours),
}

impl Drop for Cells {
    fn drop(self) {
        match self {
            Cells::Counts(_a) => {}
            Cells::Numbers(_a) => {}
            Cells::Colours(_a) => {}
        }
    }
}

impl Cells {
    pub fn new(alloc: Global, shape: Shape) -> Result<Cells, AllocError>
        ensures { IfOk result (λ cells. cells ≡ blank shape) }
    {
        match shape {
            Shape::Counter { cells, .. } | Shape::Direct { cells, .. } => {
                Ok(Cells::Counts(Counts::new(alloc, cells)?))
            }
            Shape::Register { cells, .. } => Ok(Cells::Numbers(Numbers::new(alloc, cells)?)),
            Shape::Meter { .. } => Ok(Cells::Colours(Colours::new(alloc))),
        }
    }

    pub fn count(&mut self, kind: Kind, index: u32, octets: u32)
        ensures { self.new ≡ count_in kind self.old index octets }
    {
        if let Cells::Counts(counts) = self {
            counts.count(kind, index, octets);
        }
    }

    pub fn pair(&self, index: u32) -> (u64, u64)
        ensures { result ≡ pair_in self.now index }
    {
        match self {
            Cells::Counts(counts) => counts.get(index),
            _ => (0, 0),
        }
    }

    pub fn read(&self, index: u32) -> u128
        ensures { result ≡ read_in self.now index }
    {
        match self {
            Cells::Numbers(numbers) => numbers.get(index),
            _ => 0,
        }
    }

    pub fn write(&mut self, width: u8, index: u32, value: u128)
        ensures { self.new ≡ write_in width self.old index value }
    {
        if let Cells::Numbers(numbers) = self {
            numbers.set(width, index, value);
        }
    }

    pub fn take(&mut self) -> u8
        ensures colour { result ≡ colour_in self.old }
        ensures taken { self.new ≡ taken_in self.old }
    {
        match self {
            Cells::Colours(colours) => colours.take(),
            _ => 0,
        }
    }

    pub fn give(&mut self, colour: u8) -> Result<(), AllocError>
        ensures ok { IfOk result (λ _. self.new ≡ given_in self.old colour) }
        ensures err { OnErr result (self.new ≡ self.old) }
    {
        match self {
            Cells::Colours(colours) => colours.give(colour),
            _ => Ok(()),
        }
    }

    pub fn add(&mut self, more: &Cells)
        ensures { self.new ≡ sum_of_cells self.old more.now }
    {
        if let (Cells::Counts(counts), Cells::Counts(others)) = (self, more) {
            counts.add(others);
        }
    }

    pub fn clear(&mut self)
        ensures { self.new ≡ cleared self.old }
    {
        match self {
            Cells::Counts(counts) => counts.clear(),
            Cells::Numbers(numbers) => numbers.clear(),
            Cells::Colours(colours) => colours.clear(),
        }
    }
}
