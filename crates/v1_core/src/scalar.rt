// Single values: numbers, truth values and errors (P4_16 1.2, "Base types", "Casts").
ghost use Rattle.std.specs.Prelude.{◌≡◌, ◌<◌, ◌≤◌};
ghost use Rattle.p4x_bits.specs.BitLists.{bit};
ghost use Rattle.v1_core.specs.Values.{a_number, is_true, number_in, sliced};
ghost use Rattle.v1_core.specs.Scalars.{seen_scalar, FitsScalar, IsWord, bits_value, truth_value};

use crate::numbers::{cut, low};

/// A value that has no parts.
#[derive(Clone, Copy, PartialEq, Eq, Drop)]
pub enum Scalar {
    /// Bits of a width, from 0 to 128, by their number, which is below 2 to the width.
    Number(u8, u128),
    /// A truth value.
    Truth(bool),
    /// An error, by its number in the order of `error`.
    Error(u128),
    /// What is none of these: no program that keeps the rules asks for it.
    Nothing,
}

impl Scalar {
    /// Whether this is the truth value true.
    pub fn is_true(self) -> bool
        ensures { result ≡ is_true (seen_scalar self) }
    {
        match self {
            Scalar::Truth(holds) => holds,
            _ => false,
        }
    }

    /// The number of bits; 0 where these are none.
    pub fn number(self) -> u128
        ensures { result ≡ number_in (seen_scalar self) }
    {
        match self {
            Scalar::Number(_, number) => number,
            _ => 0,
        }
    }
}

/// 1 for true and 0 for false.
fn bit(holds: bool) -> u128
    ensures { result ≡ bit holds }
{
    if holds { 1 } else { 0 }
}

/// A value cast to so many bits: fewer bits are the low ones, more are zeros in front, and a truth value is 1 or 0.
#[tactic(auto, using(crate::proofs::Cutting::bit_fits))]
pub fn to_bits(width: u8, value: Scalar) -> Scalar
    requires some { 0 < width }
    requires most { width ≤ 128 }
    ensures is { seen_scalar result ≡ bits_value width (seen_scalar value) }
    ensures fits { FitsScalar result }
{
    match value {
        Scalar::Number(_, number) => Scalar::Number(width, low(number, width)),
        Scalar::Truth(holds) => Scalar::Number(width, bit(holds)),
        _ => Scalar::Nothing,
    }
}

/// A number cast to a truth value: whether it isn't 0.
pub fn to_truth(value: Scalar) -> Scalar
    ensures is { seen_scalar result ≡ truth_value (seen_scalar value) }
    ensures fits { FitsScalar result }
{
    match value {
        Scalar::Number(_, number) => Scalar::Truth(number != 0),
        _ => Scalar::Nothing,
    }
}

/// So many bits of a number, from a place on, counted from the least significant one, 0.
pub fn to_slice(place: u8, width: u8, value: Scalar) -> Scalar
    requires place { place < 128 }
    requires width { width ≤ 128 }
    ensures is { seen_scalar result ≡ a_number width (sliced (record { low = place; width = width }) (number_in (seen_scalar value))) }
    ensures fits { FitsScalar result }
{
    Scalar::Number(width, cut(value.number(), place, width))
}
