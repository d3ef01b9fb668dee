// Names that are borrowed from a syntax, in the order of their declarations.
ghost use Rattle.std.specs.Prelude.{◌≡◌, true, false, [], ◌∷◌, ◌++◌, length, IfOk, IfSome, ◌<◌};
ghost use Rattle.std.specs.Bool.{MatchBool};
ghost use Rattle.p414_syntax.specs.Names.{find_name, has_name};

use indexmap::IndexSet;
use p4x_bits::OutOfMemory;
use std::alloc::Global;
use std::marker::Model;

/// Different names in order. Contracts see the list of them.
#[derive(Drop)]
pub struct NameSet<'a> {
    set: IndexSet<&'a [u8]>,
}

impl<'a> Model for NameSet<'a> {
    ghost use Rattle.std.specs.Prelude.{ℕ, List, map};
    ghost use Rattle.p414_syntax.specs.References.{referred};

    ghost Value = { List (List ℕ) };

    ghost view = { λ s. map referred s.set.keys };
}

impl<'a> NameSet<'a> {
    /// No names. It takes no memory until a name is added.
    pub fn new(alloc: Global) -> Self
        ensures { result ≡ [] }
    {
        NameSet {
            set: IndexSet::new(alloc),
        }
    }

    /// The number of the name, from 0 in the order in which they were added.
    pub fn find(&self, name: &[u8]) -> Option<usize>
        ensures { result ≡ find_name self.now name.now }
    {
        self.set.get_index_of(name)
    }

    /// Whether the name is there.
    pub fn has(&self, name: &[u8]) -> bool
        ensures { result ≡ has_name self.now name.now }
    {
        self.set.contains(name)
    }

    /// Puts the name last and answers true, unless it is there.
    pub fn add(&mut self, name: &'a [u8]) -> Result<bool, OutOfMemory>
        ensures { IfOk result (λ added. MatchBool added ((has_name self.old name.now ≡ false) × (self.new ≡ self.old ++ name.now ∷ [])) ((has_name self.old name.now ≡ true) × (self.new ≡ self.old))) }
    {
        let (_, added) = self.set.insert_full(name)?;
        Ok(added)
    }
}
