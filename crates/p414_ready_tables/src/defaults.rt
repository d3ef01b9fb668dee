// The defaults that a program gives its tables.
ghost use Rattle.std.specs.Prelude.{◌≡◌, [], map, pos, neg_ℤ, option_map, IfOk};
ghost use Rattle.p414_syntax.specs.Attributes.{default_action_of, default_arguments_of};
ghost use Rattle.p414_syntax.specs.Names.{find_name};
ghost use Rattle.p414_sem.specs.Controls.{kept_arguments};
ghost use Rattle.p414_sem.specs.Wholes.{whole, wrapped};
ghost use Rattle.p414_wholes.specs.Shown.{kept_whole};
ghost use Rattle.p414_ready_tables.specs.internal.Defaults.{IsCall, IsDefault, action_name, numbers_in, widths_at};

use match_core::{ActionSig, DefaultCall};
use name_numbers::narrow;
use p4x_bits::{Numbers, OutOfMemory};
use p414_syntax::{Number, Sign, Table};
use p414_wholes::{Whole, wrapped};
use std::alloc::Global;

/// A number with a minus sign.
#[tactic(auto, using(crate::proofs::Kept::minus_none, crate::proofs::Kept::minus_some))]
fn minus(value: u128) -> Whole
    ensures { result ≡ kept_whole (neg_ℤ (pos value)) }
{
    if value == 0 {
        Whole::Plus(0)
    } else {
        Whole::Minus(value - 1)
    }
}

/// A number that is written, with its sign.
fn whole_of(number: Number) -> Whole
    ensures { result ≡ kept_whole (whole number) }
{
    match number.sign {
        Some(Sign::Minus) => minus(number.literal.value),
        Some(Sign::Plus) => Whole::Plus(number.literal.value),
        None => Whole::Plus(number.literal.value),
    }
}

/// An argument, modulo the width of its parameter. A width over 128, which no parameter has, counts as want of memory.
#[tactic(auto, using(crate::proofs::Kept::whole_kept))]
fn kept_argument(width: u128, number: Number) -> Result<u128, OutOfMemory>
    ensures { IfOk result (λ value. value ≡ wrapped width (whole number)) }
{
    if width > 128 {
        return Err(OutOfMemory);
    }
    Ok(wrapped(width as u8, whole_of(number)))
}

/// Arguments, modulo the widths of the parameters: as many as there are of both.
#[tactic(auto, using(crate::proofs::Kept::one_kept, crate::proofs::Kept::all_kept))]
fn kept_arguments(
    alloc: Global,
    widths: &[u128],
    numbers: &[Number],
) -> Result<Numbers, OutOfMemory>
    ensures { IfOk result (λ kept. kept ≡ kept_arguments widths.now numbers.now) }
{
    let mut kept = Numbers::new(alloc);
    for i in 0..widths.len().min(numbers.len()) {
        kept.push(kept_argument(widths[i], numbers[i])?)?;
    }
    Ok(kept)
}

/// The place of the action with a name.
#[tactic(auto, using(crate::proofs::Kept::found_first, crate::proofs::Kept::found_past, crate::proofs::Kept::found_here, crate::proofs::Kept::found_nowhere))]
fn place_of(actions: &[ActionSig], name: &[u8]) -> Option<usize>
    ensures { result ≡ find_name (map action_name actions.now) name.now }
{
    for place in 0..actions.len() {
        if name == actions[place].name.as_slice() {
            return Some(place);
        }
    }
    None
}

/// The widths of the parameters of the action at a place; none where there is no such action.
fn widths_at(actions: &[ActionSig], place: usize) -> &[u128]
    ensures { result.now ≡ widths_at actions.now place }
{
    match actions.get(place) {
        Some(action) => action.widths.as_slice(),
        None => &[],
    }
}

/// The call of the action with a name, which is one of these. That it isn't, as in no program that breaks no rule, counts as want of
/// memory.
fn call_of(
    alloc: Global,
    actions: &[ActionSig],
    name: &[u8],
    numbers: &[Number],
) -> Result<DefaultCall, OutOfMemory>
    ensures { IfOk result (IsCall actions.now name.now numbers.now) }
{
    let Some(place) = place_of(actions, name) else {
        return Err(OutOfMemory);
    };
    let action = narrow(place)?;
    let arguments = kept_arguments(alloc, widths_at(actions, place), numbers)?;
    Ok(DefaultCall { action, arguments })
}

/// The arguments that a program gives the default of a table.
fn numbers_in(table: &Table) -> &[Number]
    ensures { result.now ≡ numbers_in table.now }
{
    match table.default_arguments() {
        Some(numbers) => numbers.as_slice(),
        None => &[],
    }
}

/// The default that a program gives a table with these actions, if it gives one.
pub fn default_of(
    alloc: Global,
    actions: &[ActionSig],
    table: &Table,
) -> Result<Option<DefaultCall>, OutOfMemory>
    ensures { IfOk result (IsDefault actions.now (numbers_in table.now) (default_action_of table.now.attributes)) }
{
    match table.default_action() {
        Some(name) => Ok(Some(call_of(alloc, actions, name.as_slice(), numbers_in(table))?)),
        None => Ok(None),
    }
}
