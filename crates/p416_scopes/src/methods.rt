// Names are put into a scope, looked up and taken off again.
ghost use Rattle.std.specs.Prelude.{◌≡◌, ◌-◌, [], ◌∷◌, ◌++◌, length, take, OnOk};
ghost use Rattle.p416_syntax.specs.Scopes.{known, sort_of, kind_of_type, inside};
ghost use Rattle.p416_syntax.specs.Declarations.{top_names};
ghost use Rattle.p416_names.specs.SeenKinds.{seen_kind};
ghost use Rattle.p416_names.specs.Seen.{seen_sort};
ghost use Rattle.p416_scopes.specs.Seen.{seen_part, seen_scope, outer_scope, sort_at};

use crate::scope::{Part, Scope};
use name_stack::NameStack;
use p4x_bits::OutOfMemory;
use p416_names::{Kind, Sort, Top};
use p416_syntax::Type16;
use std::alloc::Global;

impl<'t, 'a> Scope<'t, 'a> {
    /// The scope at the top, in a block that stands at these places of `main`. It takes no memory.
    pub fn new(alloc: Global, top: &'t Top<'a>, positions: &'t [usize], part: Part<'a>) -> Self
        ensures scope { seen_scope result ≡ outer_scope top.now positions.now (seen_part part.entry) }
        ensures top { result.top ≡ top.entry }
        ensures names { result.names ≡ [] }
    {
        Scope {
            top,
            names: NameStack::new(alloc),
            sorts: Vec::new(alloc),
            positions,
            part,
        }
    }

    /// What a name means.
    #[tactic(auto, using(crate::proofs::Scopes::sort_found))]
    pub fn sort_of(&self, name: &[u8]) -> Sort<'a>
        ensures { seen_sort (top_names self.now.top.now) result ≡ sort_of (seen_scope self.now) name.now }
    {
        match self.names.find(name) {
            Some(place) => self.sort_at(place),
            None => self.top.sort_of(name),
        }
    }

    /// What the name at a place is declared as.
    fn sort_at(&self, place: usize) -> Sort<'a>
        ensures { seen_sort (top_names self.now.top.now) result ≡ sort_at (top_names self.now.top.now) self.now.sorts.items place }
    {
        match self.sorts.get(place) {
            Some(sort) => *sort,
            None => Sort::Undeclared,
        }
    }

    /// What the values of a type are.
    pub fn kind_of_type(&self, of: &Type16) -> Kind<'a>
        ensures { seen_kind result ≡ kind_of_type (seen_scope self.now).names of.now }
    {
        match of {
            Type16::Bit(width) => Kind::Bits(width.value),
            Type16::Bool => Kind::Boolean,
            Type16::Named(name, size) => self.sort_of(name.as_slice()).named_kind(*size),
        }
    }

    /// Declares a name inside what is in scope. For want of memory the scope stays as it was.
    #[tactic(auto, using(crate::proofs::Scopes::own_push))]
    pub fn declare(&mut self, name: &'a [u8], sort: Sort<'a>) -> Result<(), OutOfMemory>
        ensures scope { OnOk result (seen_scope self.new ≡ inside (seen_scope self.old) (known (seen_sort (top_names self.old.top.now) sort.entry) name.now ∷ [])) }
        ensures top { self.new.top ≡ self.old.top }
        ensures names { OnOk result (self.new.names ≡ self.old.names ++ name.now ∷ []) }
        ensures sorts { OnOk result (self.new.sorts.items ≡ self.old.sorts.items ++ sort.entry ∷ []) }
    {
        self.sorts.push(sort)?;
        match self.names.push(name) {
            Ok(()) => Ok(()),
            Err(error) => {
                self.sorts.pop();
                Err(error)
            }
        }
    }

    /// Takes the name off that was declared last, where one was. For want of memory the scope stays as it was.
    fn leave_one(&mut self) -> Result<(), OutOfMemory>
        ensures names { OnOk result (self.new.names ≡ take (length self.old.names - 1) self.old.names) }
        ensures sorts { OnOk result (self.new.sorts.items ≡ take (length self.old.sorts.items - 1) self.old.sorts.items) }
        ensures top { self.new.top ≡ self.old.top }
        ensures positions { self.new.positions ≡ self.old.positions }
        ensures part { self.new.part ≡ self.old.part }
    {
        self.names.pop()?;
        self.sorts.pop();
        Ok(())
    }

    #[tactic(auto, using(crate::proofs::Scopes::kept_less, crate::proofs::Scopes::one_less, crate::proofs::Scopes::kept_all))]
    /// Takes off all names but so many that were declared first. For want of memory some of them stay.
    pub fn shorten(&mut self, len: usize) -> Result<(), OutOfMemory>
        ensures names { OnOk result (self.new.names ≡ take len self.old.names) }
        ensures sorts { OnOk result (self.new.sorts.items ≡ take len self.old.sorts.items) }
        ensures top { self.new.top ≡ self.old.top }
        ensures positions { self.new.positions ≡ self.old.positions }
        ensures part { self.new.part ≡ self.old.part }
    {
        while self.names.len() > len {
            self.leave_one()?;
        }
        Ok(())
    }

    /// How many names are declared within.
    pub fn len(&self) -> usize
        ensures { result ≡ length self.now.names }
    {
        self.names.len()
    }
}
