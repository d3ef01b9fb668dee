// The last place of each name is found in a map, and each name on the stack knows the place that it hides.
ghost use Rattle.std.specs.Prelude.{◌≡◌, ◌-◌, [], ◌∷◌, ◌++◌, length, take, Some, OnOk, OnErr};
ghost use Rattle.name_stack.specs.Newest.{newest};
ghost use Rattle.name_stack.specs.internal.Links.{IsSet};

use p4x_bits::OutOfMemory;
use std::alloc::Global;
use std::collections::BTreeMap;
use std::marker::Model;

/// A name on the stack, and the place of the last equal name below it.
#[derive(Clone, Copy, Drop)]
struct Entry<'a> {
    name: &'a [u8],
    hidden: Option<usize>,
}

/// Names in the order in which they were put on the stack. Contracts see the list of them.
pub struct NameStack<'a> {
    entries: Vec<Entry<'a>>,
    places: BTreeMap<&'a [u8], Option<usize>>,
}

impl Drop for NameStack<'_> {
    fn drop(self) {
        let NameStack {
            entries: _entries,
            places: _places,
        } = self;
    }
}

impl<'a> Model for NameStack<'a> {
    ghost use Rattle.std.specs.Prelude.{ℕ, List, map};
    ghost use Rattle.name_stack.specs.internal.Links.{entry_name, IsStack};

    ghost Value = { List (List ℕ) };

    ghost view = { λ s. map entry_name s.entries.items };

    ghost invariant = { λ s. IsStack (λ name. name.now) s.entries.items s.places };
}

/// Puts a value at a key. For want of memory the map has what it had.
fn put<K: Ord + Drop, V: Drop>(
    map: &mut BTreeMap<K, V>,
    key: K,
    value: V,
) -> Result<(), OutOfMemory>
    ensures ok { OnOk result (IsSet K.cmp map.old map.new key value) }
    ensures err { OnErr result (map.new.entries ≡ map.old.entries) }
{
    map.insert(key, value)?;
    Ok(())
}

impl<'a> NameStack<'a> {
    /// No names. It takes no memory until a name is put.
    pub fn new(alloc: Global) -> Self
        ensures { result ≡ [] }
    {
        NameStack {
            entries: Vec::new(alloc),
            places: BTreeMap::new(alloc),
        }
    }

    /// How many names there are.
    pub fn len(&self) -> usize
        ensures { result ≡ length self.now }
    {
        self.entries.len()
    }

    /// The place of the last of the names that is equal to this one, from 0 in the order in which they were put.
    pub fn find(&self, name: &[u8]) -> Option<usize>
        ensures { result ≡ newest self.now name.now }
    {
        match self.places.get(name) {
            Some(place) => *place,
            None => None,
        }
    }

    /// Puts a name last. For want of memory the names stay as they were.
    pub fn push(&mut self, name: &'a [u8]) -> Result<(), OutOfMemory>
        ensures ok { OnOk result (self.new ≡ self.old ++ name.now ∷ []) }
        ensures err { OnErr result (self.new ≡ self.old) }
    {
        let place = self.entries.len();
        let hidden = self.find(name);
        self.entries.push(Entry { name, hidden })?;
        match put(&mut self.places, name, Some(place)) {
            Ok(()) => Ok(()),
            Err(error) => {
                self.entries.pop();
                Err(error)
            }
        }
    }

    /// Takes the last name off, where there is one. For want of memory the names stay as they were.
    pub fn pop(&mut self) -> Result<(), OutOfMemory>
        ensures ok { OnOk result (self.new ≡ take (length self.old - 1) self.old) }
        ensures err { OnErr result (self.new ≡ self.old) }
    {
        if let Some(entry) = self.entries.last().copied() {
            put(&mut self.places, entry.name, entry.hidden)?;
            self.entries.pop();
        }
        Ok(())
    }
}
