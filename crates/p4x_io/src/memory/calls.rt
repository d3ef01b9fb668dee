ghost use Rattle.std.specs.Prelude.{◌≤◌, ◌≡◌, ◌≢◌, ◌<◌, ℕ, List, [], ◌∷◌, cond, length, min, MatchOption, take, Some, None, IfOk, OnOk, OnErr, option_map, unwrap_or, option_copied};
ghost use Rattle.std.specs.Result.{is_err};
ghost use Rattle.p4x_io.specs.internal.Slots.{IsFirst};
ghost use Rattle.p4x_io.specs.internal.Asking.{asked};
ghost use Rattle.p4x_io.specs.Memory.{known_at, file_in, fresh, left, known, memory_file, memory_view, read_fails, make_fails, append_fails, after_read, after_make, after_append, with_file, with_room, with_failing_read, with_failing_append};
ghost use Rattle.p4x_io.specs.Desk.{DeskView, Rose, Moves, Reads, Takes, counted, put, grown};

use crate::desk::Desk;
use crate::faults::{Failed, OutOfMemory};
use crate::memory::MemoryDesk;
use crate::slot::{Ask, Slot};
use std::alloc::{AllocError, Global};

fn find(slots: &[Slot], name: &str) -> Option<usize>
    ensures { MatchOption result (known_at slots.now name.now ≡ None) (IsFirst name.now slots.now) }
{
    for (i, slot) in slots.iter().enumerate() {
        if slot.is_named(name) {
            return Some(i);
        }
    }
    None
}

fn read_in(slots: &mut [Slot], name: &str, place: u64, into: &mut [u8]) -> Result<usize, Failed>
    requires { 0 < length into.old }
    ensures others { (n : List ℕ) → n ≢ name.now → known_at slots.new n ≡ known_at slots.old n }
    ensures known { known_at slots.new name.now ≡ option_map after_read (known_at slots.old name.now) }
    ensures files { (n : List ℕ) → file_in (known_at slots.new n) ≡ file_in (known_at slots.old n) }
    ensures octets { IfOk result (λ n. Reads (Some (file_in (known_at slots.old name.now))) place n into.new) }
    ensures exact { is_err result ≡ read_fails (known_at slots.old name.now) }
{
    match find(slots, name) {
        Some(i) => slots[i].read(place, into),
        None => Err(Failed),
    }
}

fn make_in(slots: &mut [Slot], name: &str) -> Result<(), Failed>
    ensures others { (n : List ℕ) → n ≢ name.now → known_at slots.new n ≡ known_at slots.old n }
    ensures known { known_at slots.new name.now ≡ option_map after_make (known_at slots.old name.now) }
    ensures exact { is_err result ≡ make_fails (known_at slots.old name.now) }
{
    match find(slots, name) {
        Some(i) => slots[i].make(),
        None => Err(Failed),
    }
}

fn append_in(slots: &mut [Slot], name: &str, piece: &[u8]) -> Result<usize, Failed>
    requires piece { 0 < length piece.now }
    requires there { file_in (known_at slots.old name.now) ≡ None → ⊥ }
    ensures others { (n : List ℕ) → n ≢ name.now → known_at slots.new n ≡ known_at slots.old n }
    ensures known { known_at slots.new name.now ≡ option_map (after_append piece.now) (known_at slots.old name.now) }
    ensures takes { IfOk result (Takes piece.now) }
    ensures count { IfOk result (λ n. n ≡ min (left (unwrap_or (known_at slots.old name.now) fresh)) (length piece.now)) }
    ensures exact { is_err result ≡ append_fails (known_at slots.old name.now) }
{
    match find(slots, name) {
        Some(i) => slots[i].append(piece),
        None => Err(Failed),
    }
}

fn ask_at(slots: &mut [Slot], name: &str, i: usize, ask: Ask<'_>) -> Result<(), AllocError>
    requires { IsFirst name.now slots.old i }
    ensures others { (n : List ℕ) → n ≢ name.now → known_at slots.new n ≡ known_at slots.old n }
    ensures known { OnOk result (known_at slots.new name.now ≡ Some (asked ask.entry (unwrap_or (known_at slots.old name.now) fresh))) }
    ensures kept { OnErr result (known_at slots.new name.now ≡ known_at slots.old name.now) }
{
    slots[i].ask(ask)
}

fn ask_fresh(
    alloc: Global,
    slots: &mut Vec<Slot>,
    name: &str,
    ask: Ask<'_>,
) -> Result<(), AllocError>
    requires { known_at slots.old.items name.now ≡ None }
    ensures others { (n : List ℕ) → n ≢ name.now → known_at slots.new.items n ≡ known_at slots.old.items n }
    ensures known { OnOk result (known_at slots.new.items name.now ≡ Some (asked ask.entry (unwrap_or (known_at slots.old.items name.now) fresh))) }
    ensures kept { OnErr result (known_at slots.new.items name.now ≡ known_at slots.old.items name.now) }
{
    let mut slot = Slot::new(alloc, name)?;
    slot.ask(ask)?;
    slots.push(slot)?;
    Ok(())
}

fn ask_in(alloc: Global, slots: &mut Vec<Slot>, name: &str, ask: Ask<'_>) -> Result<(), AllocError>
    ensures others { (n : List ℕ) → n ≢ name.now → known_at slots.new.items n ≡ known_at slots.old.items n }
    ensures known { OnOk result (known_at slots.new.items name.now ≡ Some (asked ask.entry (unwrap_or (known_at slots.old.items name.now) fresh))) }
    ensures kept { OnErr result (known_at slots.new.items name.now ≡ known_at slots.old.items name.now) }
{
    match find(slots, name) {
        Some(i) => ask_at(slots, name, i, ask),
        None => ask_fresh(alloc, slots, name, ask),
    }
}

impl MemoryDesk {
    /// A desk with no files, of which nothing was asked. It takes no memory yet; its later calls
    /// use this allocator.
    pub fn new(alloc: Global) -> MemoryDesk
        ensures { result ≡ record { names = []; faults = 0 } }
    {
        MemoryDesk {
            alloc,
            slots: Vec::new(alloc),
            faults: 0,
        }
    }

    /// The octets of a file, and None exactly where no such file is there.
    pub fn file(&self, name: &str) -> Option<&[u8]>
        ensures { option_map (λ x. x.now) result ≡ memory_file self.now name.now }
    {
        match find(&self.slots, name) {
            Some(i) => self.slots[i].file(),
            None => None,
        }
    }

    /// Makes a file with these octets, in place of one that may be there, and gives it room for
    /// them where it has less.
    ///
    /// # Errors
    /// `OutOfMemory` where memory is wanted. The desk is then as it was.
    pub fn put(&mut self, name: &str, octets: &[u8]) -> Result<(), OutOfMemory>
        ensures others { (n : List ℕ) → n ≢ name.now → known self.new n ≡ known self.old n }
        ensures put { OnOk result (known self.new name.now ≡ Some (with_file octets.now (unwrap_or (known self.old name.now) fresh))) }
        ensures kept { OnErr result (known self.new name.now ≡ known self.old name.now) }
        ensures faults { self.new.faults ≡ self.old.faults }
    {
        Ok(ask_in(self.alloc, &mut self.slots, name, Ask::Put(octets))?)
    }

    /// Reserves room for a file of so many octets, and makes no file. Where there is room for more
    /// already, that stays.
    ///
    /// # Errors
    /// `OutOfMemory` where memory is wanted. The desk is then as it was.
    pub fn room(&mut self, name: &str, octets: usize) -> Result<(), OutOfMemory>
        ensures others { (n : List ℕ) → n ≢ name.now → known self.new n ≡ known self.old n }
        ensures room { OnOk result (known self.new name.now ≡ Some (with_room octets (unwrap_or (known self.old name.now) fresh))) }
        ensures kept { OnErr result (known self.new name.now ≡ known self.old name.now) }
        ensures faults { self.new.faults ≡ self.old.faults }
    {
        Ok(ask_in(self.alloc, &mut self.slots, name, Ask::Room(octets))?)
    }

    /// Asks that the k-th read of a name fails, counted from 1 since the name was first mentioned in
    /// a call of `put`, `room`, `fail_read` or `fail_append`.
    ///
    /// # Errors
    /// `OutOfMemory` where memory is wanted. The desk is then as it was.
    pub fn fail_read(&mut self, name: &str, k: u64) -> Result<(), OutOfMemory>
        ensures others { (n : List ℕ) → n ≢ name.now → known self.new n ≡ known self.old n }
        ensures asked { OnOk result (known self.new name.now ≡ Some (with_failing_read k (unwrap_or (known self.old name.now) fresh))) }
        ensures kept { OnErr result (known self.new name.now ≡ known self.old name.now) }
        ensures faults { self.new.faults ≡ self.old.faults }
    {
        Ok(ask_in(self.alloc, &mut self.slots, name, Ask::FailRead(k))?)
    }

    /// Asks that the k-th append to a name fails, counted from 1.
    ///
    /// # Errors
    /// `OutOfMemory` where memory is wanted. The desk is then as it was.
    pub fn fail_append(&mut self, name: &str, k: u64) -> Result<(), OutOfMemory>
        ensures others { (n : List ℕ) → n ≢ name.now → known self.new n ≡ known self.old n }
        ensures asked { OnOk result (known self.new name.now ≡ Some (with_failing_append k (unwrap_or (known self.old name.now) fresh))) }
        ensures kept { OnErr result (known self.new name.now ≡ known self.old name.now) }
        ensures faults { self.new.faults ≡ self.old.faults }
    {
        Ok(ask_in(self.alloc, &mut self.slots, name, Ask::FailAppend(k))?)
    }
}

impl Desk for MemoryDesk {
    ghost view = { memory_view };

    fn read(&mut self, name: &str, place: u64, into: &mut [u8]) -> Result<usize, Failed>
        requires room { 0 < length into.old }
        ensures moves { Moves [] (memory_view self.old) (memory_view self.new) }
        ensures octets { IfOk result (λ n. Reads ((memory_view self.old).told name.now) place n into.new) }
        ensures cause { OnErr result (Rose self.old.faults self.new.faults) }
        ensures exact { is_err result ≡ read_fails (known self.old name.now) }
        ensures known { known self.new name.now ≡ option_map after_read (known self.old name.now) }
        ensures others { (n : List ℕ) → n ≢ name.now → known self.new n ≡ known self.old n }
        ensures faults { self.new.faults ≡ counted result self.old.faults }
    {
        match read_in(&mut self.slots, name, place, into) {
            Ok(count) => Ok(count),
            Err(Failed) => {
                self.faults = self.faults.saturating_add(1);
                Err(Failed)
            }
        }
    }

    fn make(&mut self, name: &str) -> Result<(), Failed>
        ensures moves { Moves (name.now ∷ []) (memory_view self.old) (memory_view self.new) }
        ensures made { OnOk result ((memory_view self.new).told name.now ≡ put ((memory_view self.old).told name.now) []) }
        ensures kept { OnErr result ((memory_view self.new).told name.now ≡ (memory_view self.old).told name.now) }
        ensures cause { OnErr result (Rose self.old.faults self.new.faults) }
        ensures exact { is_err result ≡ make_fails (known self.old name.now) }
        ensures known { known self.new name.now ≡ option_map after_make (known self.old name.now) }
        ensures others { (n : List ℕ) → n ≢ name.now → known self.new n ≡ known self.old n }
        ensures faults { self.new.faults ≡ counted result self.old.faults }
    {
        match make_in(&mut self.slots, name) {
            Ok(()) => Ok(()),
            Err(Failed) => {
                self.faults = self.faults.saturating_add(1);
                Err(Failed)
            }
        }
    }

    fn append(&mut self, name: &str, piece: &[u8]) -> Result<usize, Failed>
        requires piece { 0 < length piece.now }
        requires there { (memory_view self.old).told name.now ≡ Some None → ⊥ }
        ensures moves { Moves (name.now ∷ []) (memory_view self.old) (memory_view self.new) }
        ensures takes { IfOk result (Takes piece.now) }
        ensures grown { IfOk result (λ n. (memory_view self.new).told name.now ≡ grown ((memory_view self.old).told name.now) (take n piece.now)) }
        ensures kept { OnErr result ((memory_view self.new).told name.now ≡ (memory_view self.old).told name.now) }
        ensures cause { OnErr result (Rose self.old.faults self.new.faults) }
        ensures exact { is_err result ≡ append_fails (known self.old name.now) }
        ensures count { IfOk result (λ n. n ≡ min (left (unwrap_or (known self.old name.now) fresh)) (length piece.now)) }
        ensures known { known self.new name.now ≡ option_map (after_append piece.now) (known self.old name.now) }
        ensures others { (n : List ℕ) → n ≢ name.now → known self.new n ≡ known self.old n }
        ensures faults { self.new.faults ≡ counted result self.old.faults }
    {
        match append_in(&mut self.slots, name, piece) {
            Ok(count) => Ok(count),
            Err(Failed) => {
                self.faults = self.faults.saturating_add(1);
                Err(Failed)
            }
        }
    }
}
