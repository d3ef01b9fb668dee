// Names are found in a map.
ghost use Rattle.std.specs.Prelude.{◌≡◌, ℕ, ◌++◌, ◌∷◌, length, map, true, IfOk, OnOk};
ghost use Rattle.name_numbers.specs.Names.{find_name};
ghost use Rattle.name_numbers.specs.internal.Maps.{IsPut, IsIndex};

use p4x_bits::OutOfMemory;
use std::alloc::Global;
use std::collections::BTreeMap;
use std::marker::Model;

/// Names in order, each with the number of the first that has it.
pub struct Numbering<'s> {
    names: Vec<&'s [u8]>,
    numbers: BTreeMap<&'s [u8], u32>,
}

impl Drop for Numbering<'_> {
    fn drop(self) {
        let Numbering {
            names: _names,
            numbers: _numbers,
        } = self;
    }
}

impl<'s> Model for Numbering<'s> {
    ghost use Rattle.std.specs.Prelude.{ℕ, List, map};
    ghost use Rattle.name_numbers.specs.internal.Maps.{IsIndex};

    ghost Value = { List (List ℕ) };

    ghost view = { λ n. map (λ name. name.now) n.names.items };

    ghost invariant = { λ n. IsIndex (λ name. name.now) n.numbers (map (λ name. name.now) n.names.items) };
}

/// A number as one of 32 bits. One that is larger counts as want of memory.
pub fn narrow(number: usize) -> Result<u32, OutOfMemory>
    ensures { IfOk result (λ narrow. narrow ≡ number) }
{
    match u32::try_from(number) {
        Ok(number) => Ok(number),
        Err(_) => Err(OutOfMemory),
    }
}

/// Puts a number at a key where none stands.
fn put_first<K: Ord + Drop>(
    map: &mut BTreeMap<K, u32>,
    key: K,
    number: u32,
) -> Result<(), OutOfMemory>
    ensures { OnOk result (IsPut K.cmp map.old map.new key number) }
{
    map.entry(key)?.or_insert(number);
    Ok(())
}

/// The numbers of these names, each the first that has it.
fn index_names<'s>(
    alloc: Global,
    names: &[&'s [u8]],
) -> Result<BTreeMap<&'s [u8], u32>, OutOfMemory>
    ensures { IfOk result (λ numbers. IsIndex (λ name. name.now) numbers (map (λ name. name.now) names.now)) }
{
    let mut numbers = BTreeMap::new(alloc);
    for i in 0..names.len() {
        let number = narrow(i)?;
        let name = names[i];
        put_first(&mut numbers, name, number)?;
    }
    Ok(numbers)
}

/// The numbering of these names. The one error is want of memory, which more than 2^32 names count as.
pub fn number_names(alloc: Global, names: Vec<&[u8]>) -> Result<Numbering<'_>, OutOfMemory>
    ensures { IfOk result (λ numbering. numbering ≡ map (λ name. name.now) names.entry.items) }
{
    let numbers = index_names(alloc, &names)?;
    Ok(Numbering { names, numbers })
}

impl Numbering<'_> {
    /// How many names there are.
    pub fn len(&self) -> usize
        ensures { result ≡ length self.now }
    {
        self.names.len()
    }

    /// The number of the first name that is equal to this one.
    pub fn find(&self, name: &[u8]) -> Option<u32>
        ensures { result ≡ find_name self.now name.now }
    {
        self.numbers.get(name).copied()
    }
}
