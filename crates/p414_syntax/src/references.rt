// References to parts of a syntax, as contracts see them.
ghost use Rattle.std.specs.Prelude.{◌≡◌, [], ◌∷◌, ◌++◌, length, map, slice_get, option_copied, OnErr, OnOk};
ghost use Rattle.p414_syntax.specs.References.{referred};

use p4x_bits::OutOfMemory;
use std::alloc::Global;
use std::marker::Model;

/// References in order. Contracts see the list of what they refer to.
#[derive(Drop)]
pub struct References<'a, T> {
    items: Vec<&'a T>,
}

impl<'a, T> Model for References<'a, T> {
    ghost use Rattle.std.specs.Prelude.{List, map};
    ghost use Rattle.p414_syntax.specs.References.{referred};

    ghost Value = { List T };

    ghost view = { λ r. map referred r.items.items };
}

impl<'a, T> References<'a, T> {
    /// No references. It takes no memory until the first push.
    pub fn new(alloc: Global) -> Self
        ensures { result ≡ [] }
    {
        References {
            items: Vec::new(alloc),
        }
    }

    /// Puts one reference at the end. For want of memory the list stays as it was.
    pub fn push(&mut self, item: &'a T) -> Result<(), OutOfMemory>
        ensures ok { OnOk result (self.new ≡ self.old ++ item.now ∷ []) }
        ensures err { OnErr result (self.new ≡ self.old) }
    {
        self.items.push(item)?;
        Ok(())
    }

    /// How many references there are.
    pub fn len(&self) -> usize
        ensures { result ≡ length self.now }
    {
        self.items.len()
    }

    /// The item at a place, or none where the list is no longer than that.
    pub fn get(&self, index: usize) -> Option<&'a T>
        ensures { option_copied result ≡ slice_get self.now index }
    {
        self.items.get(index).copied()
    }

    /// The references in order.
    pub fn as_slice(&self) -> &[&'a T]
        ensures { map referred result.now ≡ self.now }
    {
        &self.items
    }
}
