// Hashes and checksums (`v1model.p4`, `hash`, `verify_checksum`, `update_checksum` and those with payload).
ghost use Rattle.std.specs.Prelude.{◌≡◌, ◌%◌, ◌^◌, ◌++◌, if◌then◌else◌, OnOk};
ghost use Rattle.p4x_bits.specs.BitLists.{octet_bits};
ghost use Rattle.v1_core.specs.Values.{width_in};
ghost use Rattle.v1_core.specs.Scalars.{seen_scalar};
ghost use Rattle.v1_ready_blocks.specs.Externs.{hashed, is_wrong, result_by};
ghost use Rattle.v1_core.specs.Externs.Hashes.{in_range};
ghost use Rattle.v1_statement_run.specs.Seen.{given_of};

use crate::numbers::low;
use crate::run::{Run, number};
use calc_core::{crc16, crc32, csum16, identity};
use p4x_bits::{Bits, OutOfMemory};
use p416_syntax::HashAlgorithm;
use v1_core::Scalar;

/// What an algorithm makes of bits.
pub fn result_by(algorithm: HashAlgorithm, list: &Bits) -> u128
    ensures { result ≡ result_by algorithm list.now }
{
    match algorithm {
        HashAlgorithm::Csum16 => u128::from(csum16(list)),
        HashAlgorithm::Crc16 => u128::from(crc16(list)),
        HashAlgorithm::Crc32 => u128::from(crc32(list)),
        HashAlgorithm::Identity => identity(list),
    }
}

/// A base and a result modulo a bound, or the base where the bound is 0, modulo 2 to the 128.
#[tactic(auto, using(crate::proofs::Giving::base_alone, crate::proofs::Giving::base_and_result))]
fn in_range(base: u128, sum: u128, bound: u128) -> u128
    ensures { result ≡ in_range base sum bound % 2 ^ 128 }
{
    if bound == 0 {
        base
    } else {
        base.wrapping_add(sum % bound)
    }
}

/// What a hash gives of the base, the list and the bound that are given.
pub fn hashed(run: &Run<'_>, algorithm: HashAlgorithm) -> u128
    ensures { result ≡ hashed algorithm (given_of run.now) }
{
    in_range(
        number(run, 0),
        result_by(algorithm, &run.list),
        number(run, 1),
    )
}

/// The bits of a value; 0 where it is no number.
fn width_of(value: Scalar) -> u8
    ensures { result ≡ width_in (seen_scalar value) }
{
    match value {
        Scalar::Number(width, _) => width,
        _ => 0,
    }
}

/// Whether the result of an algorithm, cut to a field's width, isn't the field.
pub fn is_wrong(algorithm: HashAlgorithm, list: &Bits, field: Scalar) -> bool
    ensures { result ≡ is_wrong algorithm list.now (seen_scalar field) }
{
    low(result_by(algorithm, list), width_of(field)) != field.number()
}

/// Puts the octets that weren't parsed behind a list, where that is asked for. The one error is want of memory.
pub fn add_payload(list: &mut Bits, payload: bool, unparsed: &[u8]) -> Result<(), OutOfMemory>
    ensures { OnOk result (list.new ≡ if payload then list.old ++ octet_bits unparsed.now else list.old) }
{
    if !payload {
        return Ok(());
    }
    list.push_octets(unparsed)?;
    Ok(())
}
