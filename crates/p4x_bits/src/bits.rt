// Bit lists.
ghost use Rattle.std.specs.Prelude.{◌≡◌, ℕ, ◌+◌, ◌*◌, ◌/◌, ◌^◌, ◌<◌, ◌≤◌, ◌↔◌, Bool, List, [], ◌++◌, length, take, drop, IfOk, IsTrue, OnErr, OnOk, ◌⊎◌};
ghost use Rattle.p4x_bits.specs.BitLists.{num, bits, octet_bits};

use crate::OutOfMemory;
use crate::fields::{copy_bits, read_octet_field, write_octet_field};
use std::alloc::Global;
use std::marker::Model;

/// A list of bits of any length, in the order in which they stand in a packet. Contracts see the list of them.
#[derive(Drop)]
pub struct Bits {
    octets: Vec<u8>,
    len: usize,
}

impl Model for Bits {
    ghost Value = { List Bool };

    ghost view = { λ b. take b.len (octet_bits b.octets.items) };

    ghost invariant = { λ b. b.len ≤ 8 * length b.octets.items };
}

/// Makes octets long enough for so many bits. For want of memory they stay.
fn grow(octets: &mut Vec<u8>, bits: usize) -> Result<(), OutOfMemory>
    ensures room { OnOk result (bits ≤ 8 * length octets.new.items) }
    ensures keeps { OnOk result (take (8 * length octets.old.items) (octet_bits octets.new.items) ≡ octet_bits octets.old.items) }
    ensures err { OnErr result (octets.new.items ≡ octets.old.items) }
{
    let needed = bits.div_ceil(8);
    if octets.len() < needed {
        octets.resize(needed, 0)?;
    }
    Ok(())
}

impl Bits {
    /// An empty list. It takes no memory.
    pub fn new(alloc: Global) -> Self
        ensures { result ≡ [] }
    {
        Bits {
            octets: Vec::new(alloc),
            len: 0,
        }
    }

    /// An empty list with room for so many bits, or want of memory.
    pub fn with_capacity(alloc: Global, bits: usize) -> Result<Self, OutOfMemory>
        ensures { IfOk result (λ list. list ≡ []) }
    {
        Ok(Bits {
            octets: Vec::with_capacity(alloc, bits.div_ceil(8))?,
            len: 0,
        })
    }

    /// How many bits there are.
    pub fn len(&self) -> usize
        ensures { result ≡ length self.now }
    {
        self.len
    }

    /// Whether there is no bit.
    pub fn is_empty(&self) -> bool
        ensures { IsTrue result ↔ (self.now ≡ []) }
    {
        self.len == 0
    }

    /// The octets of the list, without the bits behind its last whole octet.
    pub fn as_octets(&self) -> &[u8]
        ensures count { length result.now ≡ length self.now / 8 }
        ensures bits { octet_bits result.now ≡ take (8 * (length self.now / 8)) self.now }
    {
        &self.octets[..self.len / 8]
    }

    /// The number of `width` bits, at most 128, from the bit `at` on; the first of them is its most significant one.
    pub fn read_field(&self, at: usize, width: u8) -> u128
        requires width { width ≤ 128 }
        requires within { at + width ≤ length self.now }
        ensures { result ≡ num (take width (drop at self.now)) }
    {
        read_octet_field(&self.octets, at, width)
    }

    /// Writes a number into `width` bits, at most 128, from the bit `at` on. No other bit changes.
    pub fn write_field(&mut self, at: usize, width: u8, value: u128)
        requires width { width ≤ 128 }
        requires within { at + width ≤ length self.old }
        requires value { value < 2 ^ width }
        ensures bits { self.new ≡ take at self.old ++ bits width value ++ drop (at + width) self.old }
        ensures len { length self.new ≡ length self.old }
        ensures reads { num (take width (drop at self.new)) ≡ value }
        ensures apart { (from count : ℕ) → (from + count ≤ at) ⊎ (at + width ≤ from) →
            take count (drop from self.new) ≡ take count (drop from self.old) }
    {
        write_octet_field(&mut self.octets, at, width, value);
    }

    /// Lets go of every bit. The room for them stays.
    pub fn clear(&mut self)
        ensures { self.new ≡ [] }
    {
        self.len = 0;
    }

    /// Lets go of every bit but the first `len`. A list that is no longer stays as it was.
    pub fn truncate(&mut self, len: usize)
        ensures { self.new ≡ take len self.old }
    {
        self.len = self.len.min(len);
    }

    /// Puts the `width` bits of a number, at most 128, at the end. For want of memory the list stays as it was.
    pub fn push_number(&mut self, width: u8, value: u128) -> Result<(), OutOfMemory>
        requires width { width ≤ 128 }
        requires value { value < 2 ^ width }
        ensures ok { OnOk result (self.new ≡ self.old ++ bits width value) }
        ensures err { OnErr result (self.new ≡ self.old) }
    {
        let end = self.len.checked_add(usize::from(width)).ok_or(OutOfMemory)?;
        grow(&mut self.octets, end)?;
        write_octet_field(&mut self.octets, self.len, width, value);
        self.len = end;
        Ok(())
    }

    /// Puts the bits of octets at the end. For want of memory the list stays as it was.
    pub fn push_octets(&mut self, octets: &[u8]) -> Result<(), OutOfMemory>
        ensures ok { OnOk result (self.new ≡ self.old ++ octet_bits octets.now) }
        ensures err { OnErr result (self.new ≡ self.old) }
    {
        let count = octets.len().checked_mul(8).ok_or(OutOfMemory)?;
        let end = self.len.checked_add(count).ok_or(OutOfMemory)?;
        grow(&mut self.octets, end)?;
        copy_bits(&mut self.octets, self.len, octets, count);
        self.len = end;
        Ok(())
    }

    /// Puts the bits of another list at the end. For want of memory the list stays as it was.
    pub fn append(&mut self, more: &Bits) -> Result<(), OutOfMemory>
        ensures ok { OnOk result (self.new ≡ self.old ++ more.now) }
        ensures err { OnErr result (self.new ≡ self.old) }
    {
        let end = self.len.checked_add(more.len).ok_or(OutOfMemory)?;
        grow(&mut self.octets, end)?;
        copy_bits(&mut self.octets, self.len, &more.octets, more.len);
        self.len = end;
        Ok(())
    }
}
