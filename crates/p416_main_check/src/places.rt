// At which places the names in `main` stand.
ghost use Rattle.std.specs.Prelude.{◌≡◌, [], ◌∷◌, ◌++◌, length, map, replicate, slice_index_or, IfOk, OnOk};
ghost use Rattle.name_numbers.specs.Names.{find_name};
ghost use Rattle.p416_syntax.specs.Main.{positions_from};
ghost use Rattle.p416_main_check.specs.internal.Places.{ArePlaces, added};

use name_numbers::{Numbering, number_names};
use p4x_bits::{OutOfMemory, Rows, Text};
use std::alloc::Global;
use std::marker::Model;

/// The names in `main`, each found with the places where it stands. Contracts see the names.
pub struct MainPlaces<'a> {
    names: Numbering<'a>,
    places: Vec<Rows<usize>>,
}

impl Drop for MainPlaces<'_> {
    fn drop(self) {
        let MainPlaces {
            names: _names,
            places: _places,
        } = self;
    }
}

impl<'a> Model for MainPlaces<'a> {
    ghost use Rattle.std.specs.Prelude.{ℕ, List};
    ghost use Rattle.p416_main_check.specs.internal.Places.{ArePlaces};

    ghost Value = { List (List ℕ) };

    ghost view = { λ p. p.names };

    ghost invariant = { λ p. ArePlaces p.names p.places.items };
}

/// These names, in order.
fn names_of(alloc: Global, main: &[Text]) -> Result<Vec<&[u8]>, OutOfMemory>
    ensures { IfOk result (λ names. map (λ name. name.now) names.items ≡ main.now) }
{
    let mut names = Vec::new(alloc);
    for name in main {
        names.push(name.as_slice())?;
    }
    Ok(names)
}

/// So many names without places.
fn no_places(alloc: Global, count: usize) -> Result<Vec<Rows<usize>>, OutOfMemory>
    ensures { IfOk result (λ places. places.items ≡ replicate count []) }
{
    let mut places = Vec::with_capacity(alloc, count)?;
    for _ in 0..count {
        places.push(Rows::new(alloc))?;
    }
    Ok(places)
}

/// Puts a place last of those that the first name equal to this one has, where there is one.
fn add_place(
    places: &mut Vec<Rows<usize>>,
    names: &Numbering<'_>,
    name: &Text,
    place: usize,
) -> Result<(), OutOfMemory>
    ensures { OnOk result (places.new.items ≡ added (find_name names.now name.now) place places.old.items) }
{
    let Some(first) = names.find(name.as_slice()) else {
        return Ok(());
    };
    let first = first as usize;
    if first < places.len() {
        places[first].push(place)?;
    }
    Ok(())
}

/// The places of each name, where the first of its kind stands.
fn places_of(
    alloc: Global,
    names: &Numbering<'_>,
    main: &[Text],
) -> Result<Vec<Rows<usize>>, OutOfMemory>
    requires { names.now ≡ main.now }
    ensures { IfOk result (λ places. ArePlaces main.now places.items) }
{
    let mut places = no_places(alloc, main.len())?;
    let mut place = 0;
    for name in main {
        add_place(&mut places, names, name, place)?;
        place += 1;
    }
    Ok(places)
}

/// The places of the name with this number.
fn places_at(places: &[Rows<usize>], first: usize) -> &[usize]
    ensures { result.now ≡ slice_index_or places.now first [] }
{
    match places.get(first) {
        Some(places) => places.as_slice(),
        None => &[],
    }
}

impl<'a> MainPlaces<'a> {
    /// The places of the names in `main`. In time linear in the names, but for the look-ups; the one error is want of memory.
    pub fn of(alloc: Global, main: &'a [Text]) -> Result<Self, OutOfMemory>
        ensures { IfOk result (λ places. places ≡ main.now) }
    {
        let names = number_names(alloc, names_of(alloc, main)?)?;
        let places = places_of(alloc, &names, main)?;
        Ok(MainPlaces { names, places })
    }

    /// The places where a name stands, from 0, in order; none where it doesn't stand in `main`. In the time of one look-up.
    #[tactic(auto, using(crate::proofs::Standing::nowhere))]
    pub fn of_name(&self, name: &[u8]) -> &[usize]
        ensures { result.now ≡ positions_from 0 self.now name.now }
    {
        match self.names.find(name) {
            Some(first) => places_at(&self.places, first as usize),
            None => &[],
        }
    }
}
