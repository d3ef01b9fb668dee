// Selects (P4_16 1.2, "Select expressions").
ghost use Rattle.std.specs.Prelude.{◌≡◌, [], length, map, IfOk};
ghost use Rattle.v1_core.specs.Numbers.{is_equal, is_same_truth};
ghost use Rattle.v1_core.specs.Parsing.{is_between};
ghost use Rattle.v1_core.specs.Values.{a_truth};
ghost use Rattle.v1_core.specs.Scalars.{seen_scalar};
ghost use Rattle.v1_core.specs.Nodes.{ready_at};
ghost use Rattle.v1_core.specs.Kept.{trees};
ghost use Rattle.v1_ready_selects.specs.Selects.{ArePlaces, FitsTransition, bits_with, keys_of, lead, led_by, row_for, takes, takes_each, takes_keys, transition_of};
ghost use Rattle.v1_ready_selects.specs.Seen.{seen_keys, seen_scalars};
ghost use Rattle.v1_ready_selects.specs.internal.Places.{takes_at, takes_from};

use crate::rows::{CaseRow, CaseTest, KeyTest, Led, ReadyTransition};
use p4x_bits::OutOfMemory;
use std::alloc::Global;
use std::marker::Model;
use v1_core::{Expressions, Frame, ParserError, Scalar};

/// Whether a key is bits with this number.
fn is_number(key: Scalar, number: u128) -> bool
    ensures { result ≡ is_equal (seen_scalar key) (bits_with number) }
{
    match key {
        Scalar::Number(_, found) => found == number,
        _ => false,
    }
}

/// Whether two truth values are one.
fn are_same(a: bool, b: bool) -> bool
    ensures { result ≡ is_same_truth a b }
{
    a == b
}

/// Whether a key is this truth value.
fn is_truth(key: Scalar, holds: bool) -> bool
    ensures { result ≡ is_equal (seen_scalar key) (a_truth holds) }
{
    match key {
        Scalar::Truth(found) => are_same(found, holds),
        _ => false,
    }
}

/// Whether a number is between two.
fn is_between(number: u128, low: u128, high: u128) -> bool
    ensures { result ≡ is_between number low high }
{
    number >= low && number <= high
}

/// Whether a part of a case takes a key.
fn takes(test: KeyTest, key: Scalar) -> bool
    ensures { result ≡ takes test (seen_scalar key) }
{
    match test {
        KeyTest::Any => true,
        KeyTest::Never => false,
        KeyTest::Number(number) => is_number(key, number),
        KeyTest::Truth(holds) => is_truth(key, holds),
        KeyTest::Masked { mask, value } => key.number() & mask == value,
        KeyTest::Between { low, high } => is_between(key.number(), low, high),
    }
}

/// Whether a part takes the key at a place, if there is one.
#[tactic(auto, using(crate::proofs::Places::key_there, crate::proofs::Places::key_past))]
fn takes_at(keys: &[Scalar], place: usize, test: KeyTest) -> bool
    ensures { result ≡ takes_at (seen_scalars keys.now) place test }
{
    match keys.get(place) {
        Some(key) => takes(test, *key),
        None => true,
    }
}

/// Whether each part takes the key at its place, from the first on.
fn takes_all(tests: &[KeyTest], keys: &[Scalar]) -> bool
    ensures { result ≡ takes_from (seen_scalars keys.now) 0 tests.now }
{
    let mut place = 0;
    for test in tests {
        if takes_at(keys, place, *test) {
            place += 1;
        } else {
            return false;
        }
    }
    true
}

/// Whether each part takes the key at its place.
#[tactic(auto, using(crate::proofs::Places::from_first_key))]
fn takes_each(tests: &[KeyTest], keys: &[Scalar]) -> bool
    ensures { result ≡ takes_each tests.now (seen_scalars keys.now) }
{
    takes_all(tests, keys)
}

/// Whether a case takes keys.
fn takes_keys(test: &CaseTest, keys: &[Scalar]) -> bool
    ensures { result ≡ takes_keys test.now (seen_scalars keys.now) }
{
    match test {
        CaseTest::Any => true,
        CaseTest::Each(tests) => tests.len() == keys.len() && takes_each(tests.as_slice(), keys),
    }
}

/// Where the first case leads that takes the keys.
fn row_for(rows: &[CaseRow], keys: &[Scalar]) -> Led
    ensures { result ≡ row_for rows.now (seen_scalars keys.now) }
{
    for row in rows {
        if takes_keys(&row.test, keys) {
            return Led::To(row.next);
        }
    }
    Led::Failed(ParserError::NoMatch)
}

/// The keys of a select, evaluated. They are kept from select to select, so that memory is taken only for more of them than
/// ever before.
#[derive(Drop)]
pub struct SelectKeys {
    values: Vec<Scalar>,
}

impl Model for SelectKeys {
    ghost use Rattle.std.specs.Prelude.{List};
    ghost use Rattle.v1_core.specs.declared.scalar.Scalar.{Scalar as Key};

    ghost Value = { List Key };

    ghost view = { λ k. k.values.items };
}

impl SelectKeys {
    /// No keys, with room for so many, or want of memory.
    pub fn with_capacity(alloc: Global, capacity: usize) -> Result<Self, OutOfMemory>
        ensures { IfOk result (λ keys. keys ≡ []) }
    {
        Ok(SelectKeys {
            values: Vec::with_capacity(alloc, capacity)?,
        })
    }

    /// Evaluates keys from left to right, up to the first error.
    #[tactic(auto, using(crate::proofs::Keys::behind_none, crate::proofs::Keys::one_more, crate::proofs::Keys::failed_here, crate::proofs::Keys::all_there))]
    fn evaluate(
        &mut self,
        expressions: &Expressions<'_>,
        places: &[usize],
        frame: &Frame<'_>,
        unparsed: &[u8],
    ) -> Result<Option<ParserError>, OutOfMemory>
        requires places { ArePlaces (length expressions.now.nodes) places.now }
        requires layout { frame.now.layout ≡ expressions.now.layout }
        ensures { IfOk result (λ error. seen_keys error (seen_scalars self.new) ≡ keys_of frame.now unparsed.now (map (ready_at (trees expressions.now)) places.now)) }
    {
        self.values.clear();
        for place in places {
            match expressions.value(*place, frame, unparsed) {
                Ok(value) => self.values.push(value)?,
                Err(error) => return Ok(Some(error)),
            }
        }
        Ok(None)
    }

    /// Where the first of these cases leads that takes the keys, or the error.
    fn led_by(
        &mut self,
        expressions: &Expressions<'_>,
        places: &[usize],
        rows: &[CaseRow],
        frame: &Frame<'_>,
        unparsed: &[u8],
    ) -> Result<Led, OutOfMemory>
        requires places { ArePlaces (length expressions.now.nodes) places.now }
        requires layout { frame.now.layout ≡ expressions.now.layout }
        ensures { IfOk result (λ led. led ≡ led_by rows.now (keys_of frame.now unparsed.now (map (ready_at (trees expressions.now)) places.now))) }
    {
        match self.evaluate(expressions, places, frame, unparsed)? {
            Some(error) => Ok(Led::Failed(error)),
            None => Ok(row_for(rows, self.values.as_slice())),
        }
    }

    /// Where a transition leads over a frame with the parts of its expressions, where these octets aren't parsed; or the error
    /// that ends parsing there: that of the first key whose evaluation ends with one, else `NoMatch` exactly where no case takes
    /// the keys. It takes no memory where there is room for the keys.
    pub fn lead(
        &mut self,
        expressions: &Expressions<'_>,
        transition: &ReadyTransition,
        frame: &Frame<'_>,
        unparsed: &[u8],
    ) -> Result<Led, OutOfMemory>
        requires places { FitsTransition (length expressions.now.nodes) transition.now }
        requires layout { frame.now.layout ≡ expressions.now.layout }
        ensures { IfOk result (λ led. led ≡ lead frame.now unparsed.now (transition_of (trees expressions.now) transition.now)) }
    {
        match transition {
            ReadyTransition::Go(next) => Ok(Led::To(*next)),
            ReadyTransition::Select { keys, rows } => {
                self.led_by(
                    expressions,
                    keys.as_slice(),
                    rows.as_slice(),
                    frame,
                    unparsed,
                )
            }
        }
    }
}
