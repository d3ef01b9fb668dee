// Cyclic redundancy checks, octet by octet.
ghost use Rattle.std.specs.Prelude.{◌≡◌, ℕ, ◌<◌, Bool, List, length, reverse, fold, IsTrue};
ghost use Rattle.p4x_bits.specs.BitLists.{num, IsOctets};
ghost use Rattle.calc_core.specs.Calculations.{crc, crc16, crc32, reflected};
ghost use Rattle.calc_core.specs.internal.Tables.{divided_octet, is_table_from};

use crate::tables::{CRC16_TABLE, CRC32_TABLE};
use p4x_bits::Bits;

/// A remainder with the eight coefficients of an octet divided away.
fn divide_octet(table: &[u32; 256], register: u32, octet: u8) -> u32
    ensures { (divisor : ℕ) → IsTrue (is_table_from divisor 0 table.now) → result ≡ divided_octet divisor register octet }
{
    table[((register ^ u32::from(octet)) & 0xff) as usize] ^ register >> 8
}

/// A remainder with the coefficients of octets divided away.
fn divide_octets(table: &[u32; 256], register: u32, octets: &[u8]) -> u32
    ensures octets { IsOctets octets.now }
    ensures remainder { (divisor : ℕ) → IsTrue (is_table_from divisor 0 table.now)
        → result ≡ fold (divided_octet divisor) register octets.now }
{
    let mut left = register;
    for octet in octets {
        left = divide_octet(table, left, *octet);
    }
    left
}

/// The remainder of a list, of which the last octet is filled with zeros, from an initial value on.
fn remainder(table: &[u32; 256], initial: u32, list: &Bits) -> u32
    ensures { (divisor start : List Bool) → 0 < length divisor → length start ≡ length divisor → num (reverse start) ≡ initial
        → IsTrue (is_table_from (num (reverse divisor)) 0 table.now) → result ≡ crc divisor start (reflected list.now) }
{
    let register = divide_octets(table, initial, list.as_octets());
    let rest = (list.len() % 8) as u8;
    if rest == 0 {
        return register;
    }
    let last = list.read_field(list.len() - usize::from(rest), rest);
    divide_octet(table, register, (last << (8 - rest)) as u8)
}

/// `crc16` of a field list calculation (P4_14 1.0.5, "Checksums and Hash-value Generators") and of v1model's
/// `HashAlgorithm`: the reflected CRC with polynomial 0x8005, initial and final value 0. The list's last octet is filled
/// with zeros. It takes no memory.
pub fn crc16(list: &Bits) -> u16
    ensures { result ≡ crc16 list.now }
{
    remainder(&CRC16_TABLE, 0, list) as u16
}

/// `crc32` of a field list calculation (P4_14 1.0.5, "Checksums and Hash-value Generators") and of v1model's
/// `HashAlgorithm`: the reflected CRC with polynomial 0x04C11DB7, initial and final value all ones. The list's last octet
/// is filled with zeros. It takes no memory.
pub fn crc32(list: &Bits) -> u32
    ensures { result ≡ crc32 list.now }
{
    remainder(&CRC32_TABLE, u32::MAX, list) ^ u32::MAX
}
