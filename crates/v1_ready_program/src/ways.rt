// Ways to parts of headers, stacks and structs: each is a step, and a way that was put before.
ghost use Rattle.std.specs.Prelude.{◌≡◌, ℕ, ◌<◌, List, length, IfOk, OnOk, option_map};
ghost use Rattle.node_lists.specs.Trees.{Adds};
ghost use Rattle.p416_syntax.specs.Scopes.{Layout};
ghost use Rattle.v1_ready_forms.specs.Ways.{Way};
ghost use Rattle.v1_ready_forms.specs.Spots.{ready_behind, way_ready};
ghost use Rattle.v1_ready_program.specs.Seen.{seen_spot};
ghost use Rattle.v1_ready_program.specs.internal.Ways.{IsStep, way_of, way_at};
ghost use Rattle.v1_ready_program.specs.internal.Passes.{is_alone};
ghost use Rattle.v1_ready_program.specs.internal.Coded.{seen_leaf, taken_ready, IsBefore, AreWays, seen_ways};

use crate::leaves::{Leaf, validity_of, value_of};
use crate::spots::{Spot, element, member, told_element};
use p4x_bits::OutOfMemory;
use std::alloc::Global;
use v1_core::Which;
use v1_seats::TypeTable;

/// The first step of a way, and the place of the way behind it.
#[derive(Clone, Copy, Drop)]
pub enum Step<'a> {
    /// The value is asked.
    Value,
    /// Whether the header is valid is asked.
    Validity,
    /// The field or the member of this name.
    Member(&'a [u8], usize),
    /// The element with this number.
    Element(u128, usize),
    /// The element that the place of the stack tells.
    Told(Which, usize),
}

/// Ways by their places.
#[derive(Drop)]
pub struct Ways<'a> {
    /// Their first steps.
    steps: Vec<Step<'a>>,
}

impl<'a> Ways<'a> {
    /// The two ways without steps: to the value, and to the validity.
    pub fn new(alloc: Global) -> Result<Self, OutOfMemory>
        ensures { IfOk result AreWays }
    {
        let mut steps = Vec::new(alloc);
        steps.push(Step::Value)?;
        steps.push(Step::Validity)?;
        Ok(Ways { steps })
    }

    /// Puts one more way, over those that were put before, and gives its place.
    pub fn put(&mut self, step: Step<'a>) -> Result<usize, OutOfMemory>
        requires ways { AreWays self.old }
        requires step { IsStep (length (seen_ways self.old)) step }
        ensures ok { IfOk result (λ place. Adds (seen_ways self.old) (seen_ways self.new) place (way_of (seen_ways self.old) step.entry)) }
        ensures ways { OnOk result (AreWays self.new) }
    {
        let place = self.steps.len();
        self.steps.push(step)?;
        Ok(place)
    }

    /// The first step of the way at a place.
    pub fn step(&self, place: usize) -> Step<'a>
        requires ways { AreWays self.now }
        requires place { place < length (seen_ways self.now) }
        ensures way { way_at (seen_ways self.now) place ≡ way_of (seen_ways self.now) result }
        ensures order { IsStep place result }
    {
        self.steps[place]
    }

    /// Whether nothing but the value is asked.
    pub fn is_alone(&self, place: usize) -> bool
        requires ways { AreWays self.now }
        requires place { place < length (seen_ways self.now) }
        ensures { result ≡ is_alone (way_at (seen_ways self.now) place) }
    {
        matches!(self.step(place), Step::Value)
    }

    /// Where a way from there leads to, as an expression without operands; none where it leads to nothing.
    pub fn follow(
        &self,
        types: &TypeTable<'_, 'a>,
        place: usize,
        spot: Spot<'a>,
    ) -> Result<Option<Leaf>, OutOfMemory>
        requires ways { AreWays self.now }
        requires place { place < length (seen_ways self.now) }
        ensures { IfOk result (λ leaf. option_map seen_leaf leaf ≡ way_ready types.now (way_at (seen_ways self.now) place) (seen_spot spot.entry)) }
    {
        let mut here = spot;
        let mut at = place;
        loop {
            match take_step(types, self.step(at), here)? {
                Taken::On(next, behind) => {
                    here = next;
                    at = behind;
                }
                Taken::End(leaf) => return Ok(leaf),
            }
        }
    }
}

/// What a step leads to.
#[derive(Clone, Copy, Drop)]
pub enum Taken<'a> {
    /// A spot, and the place of the way on from there.
    On(Spot<'a>, usize),
    /// What is asked, or nothing.
    End(Option<Leaf>),
}

/// The way to the value.
pub const VALUE: usize = 0;

/// The way to the validity.
pub const VALIDITY: usize = 1;

/// A step to another spot, with the place of the way on from there.
fn on<'a>(next: Option<Spot<'a>>, behind: usize) -> Taken<'a>
    ensures ready { (types : List Layout) (ways : List Way) → taken_ready types ways result ≡ ready_behind (way_ready types (way_at ways behind)) (option_map seen_spot next.entry) }
    ensures before { (n : ℕ) → behind < n → IsBefore n result }
{
    match next {
        Some(spot) => Taken::On(spot, behind),
        None => Taken::End(None),
    }
}

/// Takes a step.
fn take_step<'a>(
    types: &TypeTable<'_, 'a>,
    step: Step<'a>,
    spot: Spot<'a>,
) -> Result<Taken<'a>, OutOfMemory>
    ensures ready { (ways : List Way) → IfOk result (λ x. taken_ready types.now ways x ≡ way_ready types.now (way_of ways step.entry) (seen_spot spot.entry)) }
    ensures before { (n : ℕ) → IsStep n step.entry → IfOk result (IsBefore n) }
{
    match step {
        Step::Value => Ok(Taken::End(value_of(spot))),
        Step::Validity => Ok(Taken::End(validity_of(spot))),
        Step::Member(word, behind) => Ok(on(member(types, spot, word)?, behind)),
        Step::Element(number, behind) => Ok(on(element(types, spot, number)?, behind)),
        Step::Told(which, behind) => Ok(on(told_element(types, spot, which)?, behind)),
    }
}
