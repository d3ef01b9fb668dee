// Names that are copied, in the order of their declarations.
ghost use Rattle.std.specs.Prelude.{◌≡◌, false, [], ◌∷◌, ◌++◌, OnOk};
ghost use Rattle.p414_syntax.specs.Names.{find_name, has_name};

use indexmap::IndexSet;
use p4x_bits::OutOfMemory;
use std::alloc::Global;
use std::marker::Model;

/// How many names there are at most: their numbers have 32 bits.
const MOST_NAMES: usize = 0xffff_ffff;

/// Different names in order, copied. Contracts see the list of them.
#[derive(Drop)]
pub struct OwnedNames {
    set: IndexSet<Vec<u8>>,
}

impl Model for OwnedNames {
    ghost use Rattle.std.specs.Prelude.{ℕ, List, map, length, ◌≤◌};
    ghost use Rattle.p414_numbers.specs.internal.Owned.{octets_of};

    ghost Value = { List (List ℕ) };

    ghost view = { λ s. map octets_of s.set.keys };

    ghost invariant = { λ s. length s.set.keys ≤ 4294967295 };
}

impl OwnedNames {
    /// No names. It takes no memory until a name is added.
    pub fn new(alloc: Global) -> Self
        ensures { result ≡ [] }
    {
        OwnedNames {
            set: IndexSet::new(alloc),
        }
    }

    /// The number of the name, from 0 in the order in which they were added.
    pub fn find(&self, name: &[u8]) -> Option<u32>
        ensures { result ≡ find_name self.now name.now }
    {
        match self.set.get_index_of(name) {
            Some(number) => Some(number as u32),
            None => None,
        }
    }

    /// Puts a name last that isn't there. More names than numbers of 32 bits can tell apart are want of memory.
    pub fn add(&mut self, alloc: Global, name: &[u8]) -> Result<(), OutOfMemory>
        requires { has_name self.now name.now ≡ false }
        ensures { OnOk result (self.new ≡ self.old ++ name.now ∷ []) }
    {
        if self.set.len() >= MOST_NAMES {
            return Err(OutOfMemory);
        }
        let copied = Vec::from_slice(alloc, name)?;
        self.set.insert_full(copied)?;
        Ok(())
    }
}
