// Numbers at any bit of a slice of octets.
ghost use Rattle.std.specs.Prelude.{◌≡◌, ℕ, ◌⊎◌, ◌+◌, ◌-◌, ◌*◌, ◌/◌, ◌%◌, ◌^◌, ◌<◌, ◌≤◌, ◌++◌, length, take, drop, IsTrue, IfSome};
ghost use Rattle.p4x_bits.specs.BitLists.{num, bits, octet_bits};

/// The number of `count` bits of an octet behind its first `skip`.
fn octet_part(octet: u8, skip: u8, count: u8) -> u8
    requires { skip + count ≤ 8 }
    ensures { result ≡ num (take count (drop skip (bits 8 octet))) }
{
    let shifted = u16::from(octet) >> (8 - skip - count);
    (shifted & ((1 << count) - 1)) as u8
}

/// An octet with the low `count` bits of a number behind its first `skip` bits.
fn with_octet_part(octet: u8, skip: u8, count: u8, number: u128) -> u8
    requires { skip + count ≤ 8 }
    ensures { bits 8 result ≡ take skip (bits 8 octet) ++ bits count number ++ drop (skip + count) (bits 8 octet) }
{
    let rest = 8 - skip - count;
    let part = (number & ((1 << count) - 1)) as u16;
    let high = u16::from(octet) >> (8 - skip);
    let low = u16::from(octet) & ((1 << rest) - 1);
    ((high << count | part) << rest | low) as u8
}

/// The eight octets from a place on as one number, the first of them on top.
fn word_at(octets: &[u8], index: usize) -> u64
    requires { index + 8 ≤ length octets.now }
    ensures { bits 64 result ≡ take 64 (drop (8 * index) (octet_bits octets.now)) }
{
    u64::from_be_bytes([
        octets[index],
        octets[index + 1],
        octets[index + 2],
        octets[index + 3],
        octets[index + 4],
        octets[index + 5],
        octets[index + 6],
        octets[index + 7],
    ])
}

/// Writes one number into the eight octets from a place on, its highest octet first. No other octet changes.
fn put_word(octets: &mut [u8], index: usize, word: u64)
    requires { index + 8 ≤ length octets.old }
    ensures { let old = octet_bits octets.old in
        octet_bits octets.new ≡ take (8 * index) old ++ bits 64 word ++ drop (8 * index + 64) old }
{
    octets[index..index + 8].copy_from_slice(&word.to_be_bytes());
}

/// The number of `count` bits of a word behind its first `skip`.
fn word_part(word: u64, skip: u8, count: u8) -> u64
    requires fit { skip + count ≤ 64 }
    requires some { 0 < count }
    ensures { result ≡ num (take count (drop skip (bits 64 word))) }
{
    word << skip >> (64 - count)
}

/// A word with a number of `count` bits behind its first `skip` bits.
fn with_word_part(word: u64, skip: u8, count: u8, number: u64) -> u64
    requires fit { skip + count ≤ 64 }
    requires some { 0 < count }
    requires number { number < 2 ^ count }
    ensures { bits 64 result ≡ take skip (bits 64 word) ++ bits count number ++ drop (skip + count) (bits 64 word) }
{
    let rest = 64 - skip - count;
    let part = word << skip >> (64 - count);
    word - (part << rest) + (number << rest)
}

/// Whether so many bits from the bit `at` on lie in eight octets that are there.
fn lies_in_word(octets: &[u8], at: usize, width: u8) -> bool
    ensures some { IsTrue result → 0 < width }
    ensures one { IsTrue result → at % 8 + width ≤ 64 }
    ensures long { IsTrue result → 8 ≤ length octets.now }
{
    0 < width && at % 8 + usize::from(width) <= 64 && 8 <= octets.len()
}

/// The bit from which on the last 64 of so many bits stand, where there are more and all are whole octets.
fn last_word(at: usize, width: u8) -> Option<usize>
    ensures { IfSome result (λ behind. (64 < width) × (at % 8 ≡ 0) × (width % 8 ≡ 0) × (behind + 64 ≡ at + width)) }
{
    if width <= 64 || at % 8 != 0 || width % 8 != 0 {
        return None;
    }
    at.checked_add(usize::from(width - 64))
}

/// The number of bits that lie in eight octets.
fn read_in_word(octets: &[u8], at: usize, width: u8) -> u64
    requires some { 0 < width }
    requires one { at % 8 + width ≤ 64 }
    requires long { 8 ≤ length octets.now }
    requires within { at + width ≤ 8 * length octets.now }
    ensures { result ≡ num (take width (drop at (octet_bits octets.now))) }
{
    let first = (at / 8).min(octets.len() - 8);
    let skip = (at - 8 * first) as u8;
    word_part(word_at(octets, first), skip, width)
}

/// Writes a number into bits that lie in eight octets. No other bit changes.
fn write_in_word(octets: &mut [u8], at: usize, width: u8, value: u64)
    requires some { 0 < width }
    requires one { at % 8 + width ≤ 64 }
    requires long { 8 ≤ length octets.old }
    requires within { at + width ≤ 8 * length octets.old }
    requires value { value < 2 ^ width }
    ensures { let old = octet_bits octets.old in
        octet_bits octets.new ≡ take at old ++ bits width value ++ drop (at + width) old }
{
    let first = (at / 8).min(octets.len() - 8);
    let skip = (at - 8 * first) as u8;
    let word = word_at(octets, first);
    put_word(octets, first, with_word_part(word, skip, width, value));
}

/// The number of bits, octet by octet.
fn read_by_octets(octets: &[u8], at: usize, width: u8) -> u128
    requires width { width ≤ 128 }
    requires within { at + width ≤ 8 * length octets.now }
    ensures { result ≡ num (take width (drop at (octet_bits octets.now))) }
{
    let mut number = 0u128;
    let mut index = at / 8;
    let mut skip = (at % 8) as u8;
    let mut left = width;
    while left > 0 {
        let count = left.min(8 - skip);
        number = number << count | u128::from(octet_part(octets[index], skip, count));
        index += 1;
        skip = 0;
        left -= count;
    }
    number
}

/// Writes a number into bits, octet by octet. No other bit changes.
fn write_by_octets(octets: &mut [u8], at: usize, width: u8, value: u128)
    requires width { width ≤ 128 }
    requires within { at + width ≤ 8 * length octets.old }
    requires value { value < 2 ^ width }
    ensures { let old = octet_bits octets.old in
        octet_bits octets.new ≡ take at old ++ bits width value ++ drop (at + width) old }
{
    let mut index = at / 8;
    let mut skip = (at % 8) as u8;
    let mut left = width;
    while left > 0 {
        let count = left.min(8 - skip);
        left -= count;
        octets[index] = with_octet_part(octets[index], skip, count, value >> left);
        index += 1;
        skip = 0;
    }
}

/// Copies bits, field by field. No other bit changes.
fn copy_by_fields(octets: &mut [u8], at: usize, source: &[u8], len: usize)
    requires source { len ≤ 8 * length source.now }
    requires fits { at + len < 2 ^ 64 }
    requires within { at + len ≤ 8 * length octets.old }
    ensures { let old = octet_bits octets.old in
        octet_bits octets.new ≡ take at old ++ take len (octet_bits source.now) ++ drop (at + len) old }
{
    let mut done = 0usize;
    while done < len {
        let width = (len - done).min(56) as u8;
        let field = read_octet_field(source, done, width);
        write_octet_field(octets, at + done, width, field);
        done += usize::from(width);
    }
}

/// The number of `width` bits, at most 128, from the bit `at` on. The bits of each octet are counted from the most
/// significant one, which stands first in a packet.
pub fn read_octet_field(octets: &[u8], at: usize, width: u8) -> u128
    requires width { width ≤ 128 }
    requires within { at + width ≤ 8 * length octets.now }
    ensures { result ≡ num (take width (drop at (octet_bits octets.now))) }
{
    if lies_in_word(octets, at, width) {
        return u128::from(read_in_word(octets, at, width));
    }
    if let Some(behind) = last_word(at, width) {
        let high = u128::from(read_in_word(octets, at, width - 64));
        return high << 64 | u128::from(read_in_word(octets, behind, 64));
    }
    read_by_octets(octets, at, width)
}

/// Writes a number into bits, by words of eight octets where they lie in such. No other bit changes.
fn write_window(octets: &mut [u8], at: usize, width: u8, value: u128)
    requires width { width ≤ 128 }
    requires within { at + width ≤ 8 * length octets.old }
    requires value { value < 2 ^ width }
    ensures { let old = octet_bits octets.old in
        octet_bits octets.new ≡ take at old ++ bits width value ++ drop (at + width) old }
{
    if lies_in_word(octets, at, width) {
        write_in_word(octets, at, width, value as u64);
    } else if let Some(behind) = last_word(at, width) {
        let low = (value % 0x1_0000_0000_0000_0000) as u64;
        write_in_word(octets, at, width - 64, (value >> 64) as u64);
        write_in_word(octets, behind, 64, low);
    } else {
        write_by_octets(octets, at, width, value);
    }
}

/// Writes a number into `width` bits, at most 128, from the bit `at` on. No other bit changes.
pub fn write_octet_field(octets: &mut [u8], at: usize, width: u8, value: u128)
    requires width { width ≤ 128 }
    requires within { at + width ≤ 8 * length octets.old }
    requires value { value < 2 ^ width }
    ensures bits { let old = octet_bits octets.old in
        octet_bits octets.new ≡ take at old ++ bits width value ++ drop (at + width) old }
    ensures reads { num (take width (drop at (octet_bits octets.new))) ≡ value }
    ensures apart { (from count : ℕ) → (from + count ≤ at) ⊎ (at + width ≤ from) →
        take count (drop from (octet_bits octets.new)) ≡ take count (drop from (octet_bits octets.old)) }
{
    write_window(octets, at, width, value);
}

/// Copies the first `len` bits of other octets to the bits from `at` on. No other bit changes.
pub fn copy_bits(octets: &mut [u8], at: usize, source: &[u8], len: usize)
    requires source { len ≤ 8 * length source.now }
    requires fits { at + len < 2 ^ 64 }
    requires within { at + len ≤ 8 * length octets.old }
    ensures { let old = octet_bits octets.old in
        octet_bits octets.new ≡ take at old ++ take len (octet_bits source.now) ++ drop (at + len) old }
{
    if at % 8 == 0 && len % 8 == 0 {
        let first = at / 8;
        octets[first..first + len / 8].copy_from_slice(&source[..len / 8]);
    } else {
        copy_by_fields(octets, at, source, len);
    }
}
