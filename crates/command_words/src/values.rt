// The values of options that are no files.
ghost use Rattle.std.specs.Prelude.{◌≡◌, option_map, IfSome};
ghost use Rattle.fabric.specs.Numbers.{IsBound};
ghost use Rattle.command_words.specs.Words.{bound_of, passes_in, rule_of, rule_in};

use fabric::MOST_PASSES;
use p414_syntax::Rule14;
use text_lines::decimal_up_to;

/// The bound on passes where none is given.
const DEFAULT_PASSES: u32 = 256;

/// The most digits of a number.
const MOST_DIGITS: usize = 10;

// The bound on passes that a word is; None where it is none.
fn bound_of(word: &str) -> Option<u32>
    ensures is { result ≡ bound_of word.now }
    ensures bound { IfSome result IsBound }
{
    if word.len() > MOST_DIGITS {
        return None;
    }
    match decimal_up_to(word.as_bytes(), u128::from(MOST_PASSES)) {
        Some(passes) if passes != 0 => Some(passes as u32),
        _ => None,
    }
}

/// The bound on passes by the word that was found for it, if there is one; None where that is none.
pub(crate) fn read_passes(found: Option<&str>) -> Option<u32>
    ensures is { result ≡ passes_in (option_map (λ v. v.now) found.entry) }
    ensures bound { IfSome result IsBound }
{
    match found {
        Some(word) => bound_of(word),
        None => Some(DEFAULT_PASSES),
    }
}

// The rule of actions that a word is; None where it is none.
fn rule_of(word: &str) -> Option<Rule14>
    ensures { result ≡ rule_of word.now }
{
    match word {
        "sequential" => Some(Rule14::Sequential),
        "parallel" => Some(Rule14::Parallel),
        _ => None,
    }
}

/// The rule of actions by the word that was found for it, if there is one; None where that is none.
pub(crate) fn read_rule(found: Option<&str>) -> Option<Rule14>
    ensures { result ≡ rule_in (option_map (λ v. v.now) found.entry) }
{
    match found {
        Some(word) => rule_of(word),
        None => Some(Rule14::Sequential),
    }
}
