// The results of calculations.
ghost use Rattle.std.specs.Prelude.{◌≡◌, IfOk};
ghost use Rattle.p414_act_run.specs.Sums.{inputs_bits, result_by, summed_by, sums_in};

use calc_core::{crc16, crc32, csum16, identity};
use p4x_bits::{Bits, OutOfMemory, Rows};
use p414_field_lists::FieldLists;
use p414_state::State14;
use p414_wholes::low;
use std::alloc::Global;

/// How a calculation makes a number of bits (P4_14 1.0.5, "Checksums and Hash-value Generators").
#[derive(Clone, Copy, PartialEq, Eq, Drop)]
pub enum Algorithm {
    /// `csum16`.
    Csum16,
    /// `crc16`.
    Crc16,
    /// `crc32`.
    Crc32,
    /// `identity`.
    Identity,
}

/// A calculation: the field lists that it takes, by number, its algorithm, and how many bits its result has.
#[derive(Drop)]
pub struct ReadyCalculation {
    /// The field lists in order.
    pub inputs: Rows<u32>,
    /// The algorithm.
    pub algorithm: Algorithm,
    /// The bits of the result.
    pub width: u8,
}

/// The calculations of a program, in the order of declaration, with the field lists that they take.
pub struct Calculations {
    /// The field lists.
    pub lists: FieldLists,
    /// The calculations.
    pub rows: Rows<ReadyCalculation>,
}

impl Drop for Calculations {
    fn drop(self) {
        let Calculations {
            lists: _lists,
            rows: _rows,
        } = self;
    }
}

/// What an algorithm makes of bits.
fn summed_by(algorithm: Algorithm, bits: &Bits) -> u128
    ensures { result ≡ summed_by algorithm bits.now }
{
    match algorithm {
        Algorithm::Csum16 => u128::from(csum16(bits)),
        Algorithm::Crc16 => u128::from(crc16(bits)),
        Algorithm::Crc32 => u128::from(crc32(bits)),
        Algorithm::Identity => identity(bits),
    }
}

/// Bits that the field lists of most calculations don't exceed: room for so many is taken at once.
const MOST_OFTEN: usize = 512;

/// The bits of these field lists, one behind the other.
fn inputs_bits(
    alloc: Global,
    lists: &FieldLists,
    inputs: &[u32],
    state: &State14,
) -> Result<Bits, OutOfMemory>
    ensures { IfOk result (λ bits. bits ≡ inputs_bits lists.now state.now.state inputs.now) }
{
    let mut bits = Bits::with_capacity(alloc, MOST_OFTEN)?;
    for list in inputs {
        lists.append(*list, state, &mut bits)?;
    }
    Ok(bits)
}

/// The result of a calculation, modulo its width.
fn result_by(
    alloc: Global,
    lists: &FieldLists,
    calculation: &ReadyCalculation,
    state: &State14,
) -> Result<u128, OutOfMemory>
    ensures { IfOk result (λ number. number ≡ result_by lists.now state.now.state calculation.now) }
{
    let bits = inputs_bits(alloc, lists, calculation.inputs.as_slice(), state)?;
    Ok(low(calculation.width, summed_by(calculation.algorithm, &bits)))
}

impl Calculations {
    /// The result of the calculation with this number; 0 where there is none. The one error is want of memory.
    pub fn result(&self, alloc: Global, number: u32, state: &State14) -> Result<u128, OutOfMemory>
        ensures { IfOk result (λ hashed. hashed ≡ sums_in self.now number state.now.state) }
    {
        match self.rows.get(number as usize) {
            Some(calculation) => result_by(alloc, &self.lists, calculation, state),
            None => Ok(0),
        }
    }
}
