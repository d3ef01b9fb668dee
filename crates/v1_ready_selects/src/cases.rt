// The cases of a select made ready (P4_16 1.2, "Select expressions").
ghost use Rattle.std.specs.Prelude.{◌≡◌, ◌%◌, ◌^◌, [], ◌∷◌, map, unwrap_or, IfOk};
ghost use Rattle.p416_syntax.specs.declared.parsers.Keyset.TheVariants.{One};
ghost use Rattle.p416_syntax.specs.Calls.{literal_of};
ghost use Rattle.p416_syntax.specs.Literals.{width_of_kind};
ghost use Rattle.p416_names.specs.SeenKinds.{seen_kind};
ghost use Rattle.v1_core.specs.Values.{number_in};
ghost use Rattle.v1_core.specs.Expressions.{literal_number, literal_width};
ghost use Rattle.v1_core.specs.Parsing.{keyset_value};
ghost use Rattle.v1_ready_selects.specs.Rows.{masked, next_for, number_of_state, row_of_case, rows_of_cases, test_of_keyset, test_of_part, test_of_value, tests_of_parts};
ghost use Rattle.v1_ready_selects.specs.internal.Places.{test_at, tests_from};

use crate::rows::{CaseRow, CaseTest, KeyTest, Next};
use name_numbers::{Numbering, narrow};
use p4x_bits::{OutOfMemory, Rows};
use p416_names::Kind;
use p416_syntax::{Exp, ExpHead, Keyset, Literal16, SelectCase, Simple, Target};
use std::alloc::Global;

/// A number modulo 2 to the width.
#[tactic(auto, using(crate::proofs::Cutting::low_all))]
fn low(number: u128, width: u128) -> u128
    ensures { result ≡ number % 2 ^ width }
{
    if width < 128 {
        number % (1u128 << width as u32)
    } else {
        number
    }
}

/// How many bits a key of this kind has; 0 where it is none.
fn key_width(key: Kind<'_>) -> u128
    ensures { result ≡ unwrap_or (width_of_kind (seen_kind key.entry)) 0 }
{
    match key {
        Kind::Bits(width) => width,
        _ => 0,
    }
}

/// The width of a literal that a key of this kind is compared with: the one that is written, else that of the key.
fn literal_width(key: Kind<'_>, written: Option<u8>) -> u128
    ensures { result ≡ literal_width (literal_of (seen_kind key.entry)) written }
{
    match written {
        Some(width) => u128::from(width),
        None => key_width(key),
    }
}

/// The number of a literal that a key of this kind is compared with.
fn literal_number(key: Kind<'_>, literal: Literal16) -> u128
    ensures { result ≡ number_in (literal_number (literal_of (seen_kind key.entry)) literal) }
{
    low(literal.value, literal_width(key, literal.width))
}

/// The number that a key of this kind is compared with; 0 where it is none.
fn number_of(key: Kind<'_>, value: &Exp) -> u128
    ensures { result ≡ number_in (keyset_value (seen_kind key.entry) value.now) }
{
    match value.view().head() {
        ExpHead::Literal(literal) => literal_number(key, literal),
        _ => 0,
    }
}

/// Which keys of this kind are equal to a value.
fn test_of_value(key: Kind<'_>, value: &Exp) -> KeyTest
    ensures { result ≡ test_of_value (keyset_value (seen_kind key.entry) value.now) }
{
    match value.view().head() {
        ExpHead::Literal(literal) => KeyTest::Number(literal_number(key, literal)),
        ExpHead::Truth(holds) => KeyTest::Truth(holds),
        _ => KeyTest::Never,
    }
}

/// Which keys have these bits on a mask.
fn masked(value: u128, mask: u128) -> KeyTest
    ensures { result ≡ masked value mask }
{
    KeyTest::Masked {
        mask,
        value: value & mask,
    }
}

/// Which keys of this kind a part of a case takes.
fn test_of_part(key: Kind<'_>, part: &Simple) -> KeyTest
    ensures { result ≡ test_of_part (seen_kind key.entry) part.now }
{
    match part {
        Simple::Default => KeyTest::Any,
        Simple::Any => KeyTest::Any,
        Simple::Mask(value, mask) => masked(number_of(key, value), number_of(key, mask)),
        Simple::Range(low, high) => KeyTest::Between {
            low: number_of(key, low),
            high: number_of(key, high),
        },
        Simple::Value(value) => test_of_value(key, value),
    }
}

/// Which keys a part takes at a place, where the keys have these kinds.
#[tactic(auto, using(crate::proofs::Places::kind_there, crate::proofs::Places::kind_past))]
fn test_at(keys: &[Kind<'_>], place: usize, part: &Simple) -> KeyTest
    ensures { result ≡ test_at (map seen_kind keys.now) place part.now }
{
    match keys.get(place) {
        Some(key) => test_of_part(*key, part),
        None => KeyTest::Never,
    }
}

/// Which keys of these kinds the parts of a case take.
#[tactic(auto, using(crate::proofs::Places::from_first))]
fn tests_of_parts(
    alloc: Global,
    keys: &[Kind<'_>],
    parts: &[Simple],
) -> Result<Rows<KeyTest>, OutOfMemory>
    ensures { IfOk result (λ tests. tests ≡ tests_of_parts (map seen_kind keys.now) parts.now) }
{
    let mut tests = Rows::with_capacity(alloc, parts.len())?;
    let mut place = 0;
    for part in parts {
        tests.push(test_at(keys, place, part))?;
        place += 1;
    }
    Ok(tests)
}

/// Which keys of these kinds one part takes.
#[tactic(auto, using(crate::proofs::Places::from_first))]
fn tests_of_one(
    alloc: Global,
    keys: &[Kind<'_>],
    part: &Simple,
) -> Result<Rows<KeyTest>, OutOfMemory>
    ensures { IfOk result (λ tests. tests ≡ tests_of_parts (map seen_kind keys.now) (part.now ∷ [])) }
{
    let mut tests = Rows::with_capacity(alloc, 1)?;
    tests.push(test_at(keys, 0, part))?;
    Ok(tests)
}

/// Which keys of these kinds a part without parentheses takes; `default` and `_` take all.
fn test_alone(alloc: Global, keys: &[Kind<'_>], part: &Simple) -> Result<CaseTest, OutOfMemory>
    ensures { IfOk result (λ test. test ≡ test_of_keyset (map seen_kind keys.now) (One part.now)) }
{
    match part {
        Simple::Default => Ok(CaseTest::Any),
        Simple::Any => Ok(CaseTest::Any),
        part => Ok(CaseTest::Each(tests_of_one(alloc, keys, part)?)),
    }
}

/// Which keys of these kinds a case takes.
fn test_of_keyset(
    alloc: Global,
    keys: &[Kind<'_>],
    keyset: &Keyset,
) -> Result<CaseTest, OutOfMemory>
    ensures { IfOk result (λ test. test ≡ test_of_keyset (map seen_kind keys.now) keyset.now) }
{
    match keyset {
        Keyset::Tuple(parts) => Ok(CaseTest::Each(tests_of_parts(alloc, keys, parts.as_slice())?)),
        Keyset::One(part) => test_alone(alloc, keys, part),
    }
}

/// The number of the state with a name, or the one behind all numbers of states.
fn number_of_state(states: &Numbering<'_>, name: &[u8]) -> Result<u32, OutOfMemory>
    ensures { IfOk result (λ number. number ≡ number_of_state states.now name.now) }
{
    match states.find(name) {
        Some(number) => Ok(number),
        None => narrow(states.len()),
    }
}

/// Where a target leads, where the states of the parser have these names. The one error is want of memory.
pub fn next_for(states: &Numbering<'_>, target: &Target) -> Result<Next, OutOfMemory>
    ensures { IfOk result (λ next. next ≡ next_for states.now target.now) }
{
    match target {
        Target::State(name) => Ok(Next::State(number_of_state(states, name.as_slice())?)),
        Target::Accept => Ok(Next::End),
        Target::Reject => Ok(Next::End),
    }
}

/// The row of a case, where the keys have these kinds.
fn row_of_case(
    alloc: Global,
    states: &Numbering<'_>,
    keys: &[Kind<'_>],
    case: &SelectCase,
) -> Result<CaseRow, OutOfMemory>
    ensures { IfOk result (λ row. row ≡ row_of_case states.now (map seen_kind keys.now) case.now) }
{
    let next = next_for(states, &case.target)?;
    let test = test_of_keyset(alloc, keys, &case.keyset)?;
    Ok(CaseRow { test, next })
}

/// The rows of the cases of a select, where its keys have these kinds and the states of the parser these names: a literal has the
/// width that it is written with, else that of its key, and is cut to it. The one error is want of memory.
pub fn rows_of_cases(
    alloc: Global,
    states: &Numbering<'_>,
    keys: &[Kind<'_>],
    cases: &[SelectCase],
) -> Result<Rows<CaseRow>, OutOfMemory>
    ensures { IfOk result (λ rows. rows ≡ rows_of_cases states.now (map seen_kind keys.now) cases.now) }
{
    let mut rows = Rows::with_capacity(alloc, cases.len())?;
    for case in cases {
        rows.push(row_of_case(alloc, states, keys, case)?)?;
    }
    Ok(rows)
}
