// Names are found in a map.
ghost use Rattle.std.specs.Prelude.{◌≡◌, ℕ, List, Option, map, IfOk, OnOk};
ghost use Rattle.std.specs.Option.{option_map};
ghost use Rattle.entries_file.specs.internal.Drafts.{IsPut};
ghost use Rattle.entries_file.specs.Rules.{place_of};
ghost use Rattle.entries_file.specs.internal.Drafts.{IsNameIndex};

use match_core::{ActionSig, ObjectSig, TableSig};
use p4x_bits::OutOfMemory;
use state_store::Shape;
use std::alloc::Global;
use std::collections::BTreeMap;

/// What a line may name.
pub trait Listed {
    ghost use Rattle.std.specs.Prelude.{◌≡◌, ℕ, List, Option};
    ghost use Rattle.std.specs.Option.{option_map};

    ghost listed: { Self → Option (List ℕ) };

    /// Its name.
    fn listed_name(&self) -> Option<&[u8]>
        ensures { option_map (λ name. name.now) result ≡ listed self.now };
}

impl Listed for TableSig {
    ghost use Rattle.entries_file.specs.Rules.{table_name};

    ghost listed = { table_name };

    fn listed_name(&self) -> Option<&[u8]> {
        Some(self.name.as_slice())
    }
}

impl Listed for ActionSig {
    ghost use Rattle.entries_file.specs.Rules.{action_name};

    ghost listed = { action_name };

    fn listed_name(&self) -> Option<&[u8]> {
        Some(self.name.as_slice())
    }
}

/// Of the objects, the meters alone are named.
impl Listed for ObjectSig {
    ghost use Rattle.entries_file.specs.Rules.{meter_name};

    ghost listed = { meter_name };

    fn listed_name(&self) -> Option<&[u8]> {
        match self.shape {
            Shape::Meter { .. } => Some(self.name.as_slice()),
            _ => None,
        }
    }
}

/// A map from names to the numbers of the first that have them.
pub struct NameIndex<'g> {
    pub map: BTreeMap<&'g [u8], usize>,
}

impl Drop for NameIndex<'_> {
    fn drop(self) {
        let NameIndex { map: _map } = self;
    }
}

/// Puts a number at a key where none stands.
fn put_first<K: Ord + Drop>(
    map: &mut BTreeMap<K, usize>,
    key: K,
    number: usize,
) -> Result<(), OutOfMemory>
    ensures { OnOk result (IsPut K.cmp map.old map.new key number) }
{
    map.entry(key)?.or_insert(number);
    Ok(())
}

impl NameIndex<'_> {
    /// The number of the first that has a name.
    pub fn find(&self, name: &[u8]) -> Option<usize>
        ensures { (names : List (Option (List ℕ))) → IsNameIndex (λ key. key.now) self.now.map names → result ≡ place_of names name.now }
    {
        self.map.get(name).copied()
    }
}

/// The index of the names of these.
pub fn index_of<'g, T: Listed>(alloc: Global, items: &'g [T]) -> Result<NameIndex<'g>, OutOfMemory>
    ensures { IfOk result (λ index. IsNameIndex (λ key. key.now) index.map (map T.listed items.now)) }
{
    let mut map = BTreeMap::new(alloc);
    for i in 0..items.len() {
        if let Some(name) = items[i].listed_name() {
            put_first(&mut map, name, i)?;
        }
    }
    Ok(NameIndex { map })
}
