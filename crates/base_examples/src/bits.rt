// Fields of octets, bit lists and what is calculated of them, lists, and the printed lines of faults.
ghost use Rattle.std.specs.Prelude.{◌^◌, ◌<◌, ◌≤◌};

use crate::lines::{cut, hexadecimal, number_of, octets_of, place_of};
use calc_core::{crc16, crc32, csum16, identity};
use p4x_bits::{Bits, Numbers, Octets, Rows, read_octet_field, write_octet_field};
use p4x_fault::{Fault, Place, Rule, print};
use std::alloc::Global;

/// The low bits of a number.
pub fn low(width: u8, value: u128) -> u128
    requires { width ≤ 128 }
    ensures { result < 2 ^ width }
{
    if width < 128 {
        value % (1u128 << width)
    } else {
        value
    }
}

/// The width that digits tell, 128 at most.
fn width_of(digits: &[u8]) -> u8
    ensures { result ≤ 128 }
{
    (number_of(digits) % 129) as u8
}

/// Whether a field of octets is this number; or, where octets are told that stand there afterwards, whether they do once the field was
/// set to it.
fn is_field(octets: &mut [u8], at: usize, width: u8, value: u128, after: &[u8]) -> bool
    requires { width ≤ 128 }
{
    if octets.len() > 64 || at > 512 || at + usize::from(width) > 8 * octets.len() {
        return false;
    }
    if after.is_empty() {
        return read_octet_field(octets, at, width) == value;
    }
    write_octet_field(octets, at, width, low(width, value));
    *octets == *after
}

/// The same of a cell of octets and one of the field's place, width and number, with blanks between.
pub fn has_field(alloc: Global, octets: &[u8], field: &[u8], after: &[u8]) -> bool {
    let (at, field) = cut(field, b' ');
    let (width, value) = cut(field, b' ');
    match (octets_of(alloc, octets), &octets_of(alloc, after)) {
        (Ok(mut octets), Ok(after)) => is_field(
            &mut octets,
            place_of(at),
            width_of(width),
            hexadecimal(value),
            after,
        ),
        _ => false,
    }
}

/// Puts the numbers of a cell behind a bit list: each in hexadecimal digits behind its width and a colon, with blanks between.
fn put_numbers(list: &mut Bits, cell: &[u8]) -> bool {
    let mut left = cell;
    for _ in 0..cell.len() {
        let (word, more) = cut(left, b' ');
        let (width, value) = cut(word, b':');
        let width = width_of(width);
        if list
            .push_number(width, low(width, hexadecimal(value)))
            .is_err()
        {
            return false;
        }
        left = more;
    }
    true
}

/// What is calculated of a bit list: a CRC of 16 bits (`s`) or of 32 (`t`), a sum (`c`), or its number.
fn calculated(asked: u8, list: &Bits) -> u128 {
    match asked {
        b's' => u128::from(crc16(list)),
        b't' => u128::from(crc32(list)),
        b'c' => u128::from(csum16(list)),
        _ => identity(list),
    }
}

/// Whether each word of a cell tells what is calculated of the bit list of another: a letter and hexadecimal digits.
pub fn are_calculated(alloc: Global, numbers: &[u8], wanted: &[u8]) -> bool {
    let mut list = Bits::new(alloc);
    if !put_numbers(&mut list, numbers) {
        return false;
    }
    let mut left = wanted;
    for _ in 0..wanted.len() {
        let (word, more) = cut(left, b' ');
        if let [asked, digits @ ..] = word {
            if calculated(*asked, &list) != hexadecimal(digits) {
                return false;
            }
        }
        left = more;
    }
    true
}

/// Whether a field of a bit list is this number.
fn reads(list: &Bits, at: usize, width: u8, value: u128) -> bool {
    width <= 128
        && at < 1000
        && at + usize::from(width) <= list.len()
        && list.read_field(at, width) == value
}

/// Whether it is so once the field was set to it.
fn writes(list: &mut Bits, at: usize, width: u8, value: u128) -> bool {
    if width > 128 || at >= 1000 || at + usize::from(width) > list.len() {
        return false;
    }
    list.write_field(at, width, low(width, value));
    list.read_field(at, width) == value
}

/// Whether a bit list has its first bit first.
pub fn have_the_first_bit_first(alloc: Global) -> bool {
    let mut bits = Bits::new(alloc);
    if !bits.is_empty() || bits.push_octets(&[0xff]).is_err() {
        return false;
    }
    bits.clear();
    if bits.push_number(5, 0b10111).is_err() {
        return false;
    }
    bits.truncate(3);
    bits.push_octets(&[0xab, 0xcd]).is_ok()
        && bits.len() == 19
        && bits.as_octets() == [0xb5, 0x79].as_slice()
        && reads(&bits, 0, 19, 0x5abcd)
        && writes(&mut bits, 7, 5, 0b01010)
        && reads(&bits, 0, 19, 0b1011010_01010_1001101)
}

const NUMBER: u128 = 0x0123_4567_89ab_cdef_0f1e_2d3c_4b5a_6978;

/// Whether a list of 5 and 128 bits stands twice behind two bits, and a number that is written between leaves the others.
fn are_appended(bits: &mut Bits, twice: &mut Bits) -> bool {
    bits.push_number(5, 0b11011).is_ok()
        && bits.push_number(128, NUMBER).is_ok()
        && twice.push_number(2, 0b10).is_ok()
        && twice.append(bits).is_ok()
        && twice.append(bits).is_ok()
        && twice.len() == 268
        && reads(twice, 0, 7, 0b10_11011)
        && reads(twice, 7, 128, NUMBER)
        && reads(twice, 135, 5, 0b11011)
        && reads(twice, 140, 128, NUMBER)
        && writes(twice, 9, 128, 0)
        && reads(twice, 0, 9, 0b10_11011_00)
        && reads(twice, 137, 3, 0b011)
}

/// The same of lists of their own.
pub fn stand_at_odd_bits(alloc: Global) -> bool {
    match Bits::with_capacity(alloc, 133) {
        Ok(mut bits) => are_appended(&mut bits, &mut Bits::new(alloc)),
        Err(_) => false,
    }
}

/// Whether octets keep their order.
pub fn keep_their_order(alloc: Global) -> bool {
    match Octets::from_slice(alloc, b"hea") {
        Ok(mut octets) => {
            octets.push(b'd').is_ok()
                && octets.extend_from_slice(b"er").is_ok()
                && octets.as_slice() == b"header".as_slice()
                && octets.len() == 6
                && !octets.is_empty()
                && Octets::from_vec(octets.into_vec()).as_slice() == b"header".as_slice()
                && Numbers::new(alloc).is_empty()
        }
        Err(_) => false,
    }
}

/// Whether rows are put in and taken back.
fn are_taken_back(rows: &mut Rows<u32>, more: &mut Rows<u32>) -> bool {
    let put = rows.is_empty()
        && rows.push(3).is_ok()
        && rows.push(5).is_ok()
        && rows.reserve(9).is_ok()
        && rows.len() == 2
        && rows.insert(1, 4).is_ok();
    if !put || rows.as_slice() != [3, 4, 5].as_slice() || rows.get(3).is_some() {
        return false;
    }
    let ends = rows.first() == Some(&3) && rows.get(1) == Some(&4) && rows.last() == Some(&5);
    rows.as_mut_slice().reverse();
    let joined = rows.pop() == Some(3)
        && rows.append(more).is_ok()
        && more.is_empty()
        && more.last().is_none()
        && more.pop().is_none()
        && rows.as_slice() == [5, 4, 7, 8].as_slice();
    rows.truncate(3);
    let cut = rows.as_slice() == [5, 4, 7].as_slice();
    rows.clear();
    ends && joined && cut && rows.is_empty()
}

/// The same of rows of their own.
pub fn are_rows(alloc: Global) -> bool {
    match (
        Rows::with_capacity(alloc, 4),
        Rows::from_slice(alloc, &[7, 8]),
    ) {
        (Ok(mut rows), Ok(mut more)) => are_taken_back(&mut rows, &mut more),
        _ => false,
    }
}

fn rule_of(letter: u8, number: u8) -> Rule {
    match letter {
        b'L' => Rule::L(number),
        b'S' => Rule::S(number),
        b'C' => Rule::C(number),
        b'T' => Rule::T(number),
        b'E' => Rule::E(number),
        b'K' => Rule::K(number),
        b'P' => Rule::P(number),
        b'G' => Rule::G(number),
        _ => Rule::X(number),
    }
}

/// Whether a fault is printed as this line, and what stands behind it stays.
fn is_printed(fault: &Fault, line: &[u8]) -> bool {
    let mut into = [7; 64];
    let size = print(fault, &mut into);
    let (printed, behind) = into.split_at(size);
    matches!(printed.split_last(), Some((b'\n', front)) if front == line)
        && behind.iter().all(|octet| *octet == 7)
}

/// The same of a rule, and of a line and a column with a colon between, where there are any.
pub fn are_printed(rule: &[u8], place: &[u8], line: &[u8]) -> bool {
    let [letter, number @ ..] = rule else {
        return false;
    };
    let (row, column) = cut(place, b':');
    let place = Place {
        line: number_of(row),
        column: number_of(column),
    };
    let fault = Fault {
        rule: rule_of(*letter, (number_of(number) % 256) as u8),
        place: if row.is_empty() { None } else { Some(place) },
    };
    is_printed(&fault, line)
}
