// The keys of an entry.
ghost use Rattle.std.specs.Prelude.{◌≡◌, ℕ, length, map, nat_lt, false, Some, IfOk};
ghost use Rattle.entries_file.specs.Numbers as numbers;
ghost use Rattle.entries_file.specs.KeyForms as forms;
ghost use Rattle.entries_file.specs.Rules as rules;
ghost use Rattle.entries_file.specs.internal.Kept as kept;
ghost use Rattle.entries_file.specs.internal.Staged.{Stage};

use crate::cuts::cut;
use crate::fault::Stop;
use crate::numerals::{Number, fitted, is_over, read_decimal, read_number};
use match_core::{KeyKind, KeyMatch, KeySpec};
use p4x_bits::{OutOfMemory, Rows};
use std::alloc::Global;

const TRUE: &[u8] = b"true";

const FALSE: &[u8] = b"false";

/// What a word is as a key.
#[derive(Clone, Copy, PartialEq, Eq)]
pub enum KeyRead {
    /// It isn't of a form of the key's kind, or its low end is over its high end.
    Misformed,
    /// A number doesn't fit the key's width, or a prefix is longer than it.
    TooWide,
    /// It is this key.
    Key(KeyMatch),
}

/// A truth value as a key of one bit.
fn truth(width: u8, word: &[u8]) -> Option<u128>
    ensures { result ≡ forms.truth_of width word.now }
{
    if width == 1 && word == TRUE {
        Some(1)
    } else if width == 1 && word == FALSE {
        Some(0)
    } else {
        None
    }
}

fn read_exact(width: u8, word: &[u8]) -> KeyRead
    ensures { result ≡ kept.read_as width (forms.key_by KeyKind.Exact width word.now) }
{
    match read_number(word) {
        Some(value) => match fitted(u128::from(width), value) {
            Some(value) => KeyRead::Key(KeyMatch::Exact(value)),
            None => KeyRead::TooWide,
        },
        None => match truth(width, word) {
            Some(value) => KeyRead::Key(KeyMatch::Exact(value)),
            None => KeyRead::Misformed,
        },
    }
}

fn read_ternary(width: u8, word: &[u8]) -> KeyRead
    ensures { result ≡ kept.read_as width (forms.key_by KeyKind.Ternary width word.now) }
{
    let Some((value, mask)) = cut(b"&&&", word) else {
        return KeyRead::Misformed;
    };
    let (Some(value), Some(mask)) = (read_number(value), read_number(mask)) else {
        return KeyRead::Misformed;
    };
    match (
        fitted(u128::from(width), value),
        fitted(u128::from(width), mask),
    ) {
        (Some(value), Some(mask)) => KeyRead::Key(KeyMatch::Ternary { value, mask }),
        _ => KeyRead::TooWide,
    }
}

/// The length of a prefix, if it isn't over the width.
fn prefix_length(width: u8, length: Number) -> Option<u8>
    ensures { (written : ℕ) → length ≡ kept.kept written → result ≡ numbers.up_to width (Some written) }
{
    match length {
        Number::Small(length) if length <= u128::from(width) => Some(length as u8),
        _ => None,
    }
}

fn read_lpm(width: u8, word: &[u8]) -> KeyRead
    ensures { result ≡ kept.read_as width (forms.key_by KeyKind.Lpm width word.now) }
{
    let Some((value, length)) = cut(b"/", word) else {
        return KeyRead::Misformed;
    };
    let (Some(value), Some(length)) = (read_number(value), read_decimal(length)) else {
        return KeyRead::Misformed;
    };
    match (
        fitted(u128::from(width), value),
        prefix_length(width, length),
    ) {
        (Some(value), Some(length)) => KeyRead::Key(KeyMatch::Lpm { value, length }),
        _ => KeyRead::TooWide,
    }
}

fn read_range(alloc: Global, width: u8, word: &[u8]) -> Result<KeyRead, OutOfMemory>
    ensures { IfOk result (λ read. read ≡ kept.read_as width (forms.key_by KeyKind.Range width word.now)) }
{
    let Some((low, high)) = cut(b"->", word) else {
        return Ok(KeyRead::Misformed);
    };
    let (Some(first), Some(second)) = (read_number(low), read_number(high)) else {
        return Ok(KeyRead::Misformed);
    };
    if is_over(alloc, low, high, first, second)? {
        return Ok(KeyRead::Misformed);
    }
    Ok(range(width, first, second))
}

/// A range of two numbers, the first of which isn't over the second.
fn range(width: u8, low: Number, high: Number) -> KeyRead
    ensures { (a b : ℕ) → low ≡ kept.kept a → high ≡ kept.kept b → nat_lt b a ≡ false → result ≡ kept.read_as width (forms.range_of a b) }
{
    match (
        fitted(u128::from(width), low),
        fitted(u128::from(width), high),
    ) {
        (Some(low), Some(high)) => KeyRead::Key(KeyMatch::Range { low, high }),
        _ => KeyRead::TooWide,
    }
}

/// What a word is as a key.
fn read_key(alloc: Global, spec: KeySpec, word: &[u8]) -> Result<KeyRead, OutOfMemory>
    ensures { IfOk result (λ read. read ≡ kept.read_as spec.width (forms.key_of spec word.now)) }
{
    match spec.kind {
        KeyKind::Exact => Ok(read_exact(spec.width, word)),
        KeyKind::Ternary => Ok(read_ternary(spec.width, word)),
        KeyKind::Lpm => Ok(read_lpm(spec.width, word)),
        KeyKind::Range => read_range(alloc, spec.width, word),
    }
}

/// The keys that words are, or the rule that they break: E5 or E6.
pub fn read_keys(alloc: Global, specs: &[KeySpec], words: &[&[u8]]) -> Result<Rows<KeyMatch>, Stop>
    requires { length words.now ≡ length specs.now }
    ensures { let texts = map (λ word. word.now) words.now in
        Stage (rules.key_tests specs.now texts) (λ keys. keys ≡ forms.keys_of specs.now texts) result }
{
    let mut keys = Rows::with_capacity(alloc, specs.len())?;
    let mut is_wide = false;
    for i in 0..specs.len() {
        match read_key(alloc, specs[i], words[i])? {
            KeyRead::Misformed => return Err(Stop::Broken(5)),
            KeyRead::TooWide => is_wide = true,
            KeyRead::Key(key) => keys.push(key)?,
        }
    }
    if is_wide {
        return Err(Stop::Broken(6));
    }
    Ok(keys)
}
