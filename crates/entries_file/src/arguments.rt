// The words behind the keys of an entry: arguments and a priority.
ghost use Rattle.std.specs.Prelude.{◌≡◌, ◌∷◌, ◌+◌, [], map, nat_lt, ◌||◌};
ghost use Rattle.std.specs.List.{list_any, filter_map};
ghost use Rattle.entries_file.specs.Numbers as numbers;
ghost use Rattle.entries_file.specs.Rules as rules;
ghost use Rattle.entries_file.specs.internal.Kept as kept;
ghost use Rattle.entries_file.specs.internal.Staged.{Stage};

use crate::fault::Stop;
use crate::numerals::{fitted, number_up_to, read_number};
use match_core::{KeySpec, by_priority};
use p4x_bits::Numbers;
use std::alloc::Global;

/// The greatest priority.
const GREATEST_PRIORITY: u128 = 2147483647;

/// How many words may stand behind the arguments of an entry.
pub fn priority_words(specs: &[KeySpec]) -> usize
    ensures { result ≡ rules.priority_words specs.now }
{
    if by_priority(specs) { 1 } else { 0 }
}

/// What a word is as an argument.
#[derive(Clone, Copy, PartialEq, Eq)]
pub enum ArgumentRead {
    /// It is no number.
    NoNumber,
    /// It is a number that doesn't fit the argument's width.
    TooWide,
    /// It is this number.
    Argument(u128),
}

fn read_argument(width: u128, word: &[u8]) -> ArgumentRead
    ensures { result ≡ kept.argument_as width (numbers.number_of word.now) }
{
    match read_number(word) {
        None => ArgumentRead::NoNumber,
        Some(number) => match fitted(width, number) {
            Some(value) => ArgumentRead::Argument(value),
            None => ArgumentRead::TooWide,
        },
    }
}

/// Whether so many words are too few or too many for so many arguments, behind which so many others may
/// stand, or an argument is no number.
fn are_wrong(arguments: usize, others: usize, words: usize, no_number: bool) -> bool
    ensures { result ≡ (nat_lt words arguments || (nat_lt (arguments + others) words || no_number)) }
{
    words < arguments || (words - arguments > others || no_number)
}

/// The arguments that words are, where so many other words may stand behind them, or the rule that they
/// break: E6 or E7.
pub fn read_arguments(
    alloc: Global,
    widths: &[u128],
    others: usize,
    words: &[&[u8]],
) -> Result<Numbers, Stop>
    ensures { let texts = map (λ word. word.now) words.now in
        Stage (rules.argument_tests widths.now others texts) (λ arguments. arguments ≡ rules.arguments_of widths.now texts) result }
{
    let mut arguments = Numbers::with_capacity(alloc, widths.len().min(words.len()))?;
    let mut no_number = false;
    for i in 0..widths.len().min(words.len()) {
        match read_argument(widths[i], words[i]) {
            ArgumentRead::NoNumber => no_number = true,
            ArgumentRead::TooWide => return Err(Stop::Broken(6)),
            ArgumentRead::Argument(value) => arguments.push(value)?,
        }
    }
    if are_wrong(widths.len(), others, words.len(), no_number) {
        return Err(Stop::Broken(7));
    }
    Ok(arguments)
}

/// The priority of an entry with so many arguments. It is 0 where the table has none.
pub fn priority_of(specs: &[KeySpec], arguments: usize, words: &[&[u8]]) -> Option<u32>
    ensures { result ≡ rules.priority_of specs.now arguments (map (λ word. word.now) words.now) }
{
    if !by_priority(specs) {
        return Some(0);
    }
    let word = words.get(arguments)?;
    let priority = number_up_to(GREATEST_PRIORITY, word)?;
    Some(priority as u32)
}

/// The colours that words are, or the rule that they break: E11.
pub fn read_colours(alloc: Global, words: &[&[u8]]) -> Result<Numbers, Stop>
    ensures { let texts = map (λ word. word.now) words.now in
        Stage ((11, list_any rules.is_no_colour texts) ∷ []) (λ colours. colours ≡ filter_map (numbers.number_up_to 2) texts) result }
{
    let mut colours = Numbers::new(alloc);
    for word in words {
        match number_up_to(2, word) {
            Some(colour) => colours.push(colour)?,
            None => return Err(Stop::Broken(11)),
        }
    }
    Ok(colours)
}
