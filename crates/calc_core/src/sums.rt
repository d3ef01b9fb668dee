// Sums of words, and the number of a list.
ghost use Rattle.std.specs.Prelude.{◌≡◌};
ghost use Rattle.calc_core.specs.Calculations.{csum16, identity, ones_sum};

use p4x_bits::Bits;

/// The ones' complement sum of two words.
fn add_word(sum: u16, word: u16) -> u16
    ensures { result ≡ ones_sum sum word }
{
    let whole = u32::from(sum) + u32::from(word);
    ((whole & 0xffff) + (whole >> 16)) as u16
}

/// `csum16` of a field list calculation (P4_14 1.0.5, "Checksums and Hash-value Generators") and of v1model's
/// `HashAlgorithm`: the complement of the ones' complement sum of the list's words of 16 bits. Bits that the last word
/// lacks are 0. It takes no memory.
pub fn csum16(list: &Bits) -> u16
    ensures { result ≡ csum16 list.now }
{
    let octets = list.as_octets();
    let mut sum = 0u16;
    for i in 0..octets.len() / 2 {
        let word = u16::from(octets[2 * i]) << 8 | u16::from(octets[2 * i + 1]);
        sum = add_word(sum, word);
    }
    let rest = (list.len() % 16) as u8;
    if rest > 0 {
        let last = list.read_field(list.len() - usize::from(rest), rest);
        sum = add_word(sum, (last << (16 - rest)) as u16);
    }
    u16::MAX - sum
}

/// `identity` of a field list calculation (P4_14 1.0.5, "Checksums and Hash-value Generators") and of v1model's
/// `HashAlgorithm`: the number of the list's last 128 bits, or of all where there are fewer. It takes no memory.
pub fn identity(list: &Bits) -> u128
    ensures { result ≡ identity list.now }
{
    let width = list.len().min(128);
    list.read_field(list.len() - width, width as u8)
}
