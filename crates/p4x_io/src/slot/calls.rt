ghost use Rattle.std.specs.Prelude.{◌≡◌, ◌≤◌, ◌<◌, ◌+◌, ◌-◌, true, false, not, [], ◌++◌, length, take, min, max, Some, None, IfOk, OnOk, OnErr, string_bytes, vec_capacity, unwrap_or, option_map};
ghost use Rattle.std.specs.Result.{is_err};
ghost use Rattle.p4x_io.specs.Desk.{Reads, Takes};
ghost use Rattle.std.specs.Str.{bytes_eq};
ghost use Rattle.p4x_io.specs.Memory.{fresh, left, read_fails, make_fails, append_fails, after_read, after_make, after_append};
ghost use Rattle.p4x_io.specs.internal.Asking.{asked};

use crate::faults::Failed;
use crate::slot::{Ask, Slot};
use std::alloc::{AllocError, Global};

// Copies octets from a place on, as many as there are and fit.
fn copy_at(octets: &[u8], place: u64, into: &mut [u8]) -> usize
    requires { 0 < length into.old }
    ensures { Reads (Some (Some octets.now)) place result into.new }
{
    if place >= octets.len() as u64 {
        return 0;
    }
    let from = place as usize;
    let count = into.len().min(octets.len() - from);
    into[..count].copy_from_slice(&octets[from..from + count]);
    count
}

impl Slot {
    // A name of which nothing was asked.
    pub(crate) fn new(alloc: Global, name: &str) -> Result<Slot, AllocError>
        ensures { IfOk result (λ s. s ≡ record { name = name.now; known = fresh }) }
    {
        Ok(Slot {
            name: String::from_str(alloc, name)?,
            there: false,
            octets: Vec::new(alloc),
            room: None,
            reads: 0,
            appends: 0,
            failing_reads: Vec::new(alloc),
            failing_appends: Vec::new(alloc),
        })
    }

    pub(crate) fn is_named(&self, name: &str) -> bool
        ensures { result ≡ bytes_eq self.now.name name.now }
    {
        self.name.as_str() == name
    }

    // The octets of the file, where it is there.
    pub(crate) fn file(&self) -> Option<&[u8]>
        ensures { option_map (λ x. x.now) result ≡ self.now.known.file }
    {
        if !self.there {
            return None;
        }
        Some(&self.octets)
    }

    pub(crate) fn read(&mut self, place: u64, into: &mut [u8]) -> Result<usize, Failed>
        requires { 0 < length into.old }
        ensures name { self.new.name ≡ self.old.name }
        ensures known { self.new.known ≡ after_read self.old.known }
        ensures reads { IfOk result (λ n. Reads (Some self.old.known.file) place n into.new) }
        ensures exact { is_err result ≡ read_fails (Some self.old.known) }
    {
        self.reads = self.reads.saturating_add(1);
        if !self.there || self.failing_reads.contains(&self.reads) {
            return Err(Failed);
        }
        Ok(copy_at(&self.octets, place, into))
    }

    pub(crate) fn make(&mut self) -> Result<(), Failed>
        ensures name { self.new.name ≡ self.old.name }
        ensures known { self.new.known ≡ after_make self.old.known }
        ensures exact { is_err result ≡ make_fails (Some self.old.known) }
    {
        if self.room.is_none() {
            return Err(Failed);
        }
        self.octets.clear();
        self.there = true;
        Ok(())
    }

    pub(crate) fn append(&mut self, piece: &[u8]) -> Result<usize, Failed>
        requires piece { 0 < length piece.now }
        requires there { self.old.known.file ≡ None → ⊥ }
        ensures name { self.new.name ≡ self.old.name }
        ensures known { self.new.known ≡ after_append piece.now self.old.known }
        ensures takes { IfOk result (Takes piece.now) }
        ensures count { IfOk result (λ n. n ≡ min (left self.old.known) (length piece.now)) }
        ensures exact { is_err result ≡ append_fails (Some self.old.known) }
    {
        self.appends = self.appends.saturating_add(1);
        let left = self.room.unwrap_or(0).saturating_sub(self.octets.len());
        if left == 0 || self.failing_appends.contains(&self.appends) {
            return Err(Failed);
        }
        let count = left.min(piece.len());
        let taken = self.octets.extend_from_slice(&piece[..count]);
        prove!(taken.is_ok());
        Ok(count)
    }

    // Makes room for so many octets, which stand beside those that are there.
    fn reserve(&mut self, octets: usize) -> Result<(), AllocError>
        ensures name { self.new.name ≡ self.old.name }
        ensures known { OnOk result (self.new.known ≡ asked (Ask.Room octets) self.old.known) }
        ensures kept { OnErr result (self.new.known ≡ self.old.known) }
    {
        let more = octets.saturating_sub(self.octets.len());
        self.octets.reserve_exact(more)?;
        self.room = Some(self.room.unwrap_or(0).max(octets));
        Ok(())
    }

    fn put(&mut self, octets: &[u8]) -> Result<(), AllocError>
        ensures name { self.new.name ≡ self.old.name }
        ensures known { OnOk result (self.new.known ≡ asked (Ask.Put octets.entry) self.old.known) }
        ensures kept { OnErr result (self.new.known ≡ self.old.known) }
    {
        self.reserve(octets.len())?;
        self.octets.clear();
        let put = self.octets.extend_from_slice(octets);
        prove!(put.is_ok());
        self.there = true;
        Ok(())
    }

    pub(crate) fn ask(&mut self, ask: Ask<'_>) -> Result<(), AllocError>
        ensures name { self.new.name ≡ self.old.name }
        ensures known { OnOk result (self.new.known ≡ asked ask.entry self.old.known) }
        ensures kept { OnErr result (self.new.known ≡ self.old.known) }
    {
        match ask {
            Ask::Put(octets) => self.put(octets),
            Ask::Room(octets) => self.reserve(octets),
            Ask::FailRead(k) => Ok(self.failing_reads.push(k)?),
            Ask::FailAppend(k) => Ok(self.failing_appends.push(k)?),
        }
    }
}
