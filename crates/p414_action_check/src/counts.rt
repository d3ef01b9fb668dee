// C15: what the calls of actions count by themselves.
ghost use Rattle.std.specs.Prelude.{◌≡◌, ◌+◌, ◌≤◌, ◌++◌, map, max, min, slice_index, sum_by, IfOk};
ghost use Rattle.std.specs.Option.{option_map_or};
ghost use Rattle.p414_syntax.specs.declared.syntax.Sort.TheVariants as sort;
ghost use Rattle.p414_syntax.specs.declared.place.ArgumentPlace.TheVariants as place;
ghost use Rattle.p414_syntax.specs.Names.{number_of};
ghost use Rattle.p414_syntax.specs.Primitives.{primitive_places};
ghost use Rattle.p414_syntax.specs.Uses.{first_place, further_places};
ghost use Rattle.p414_calls.specs.Shown.{shown_argument};
ghost use Rattle.p414_action_check.specs.internal.Counted.{length_at, first_length, placed_length, own_count, calls_count};

use crate::hashes::{capped, number_at};
use p4x_bits::OutOfMemory;
use p414_calls::{ActionCalls, Argument, Invocation, action_number};
use p414_names::{Names14, primitive_places};
use p414_syntax::{ArgumentPlace, Sort};
use std::alloc::Global;

/// How many items the calculation with a name takes, by how many each takes.
fn calculation_length(names: &Names14<'_>, inputs: &[u64], name: &[u8]) -> u64
    ensures { result ≡ option_map_or (slice_index inputs.now) (number_of sort.Calculation names.now name.now) 0 }
{
    match names.number_of(Sort::Calculation, name) {
        Some(number) => number_at(inputs, number),
        None => 0,
    }
}

/// The same of an argument that stands for a calculation.
fn hashed_length(names: &Names14<'_>, inputs: &[u64], argument: &Argument<'_>) -> u64
    ensures { result ≡ length_at names.now inputs.now place.Calculation (shown_argument argument.now) }
{
    match argument {
        Argument::Named(instance) => calculation_length(names, inputs, instance.name.as_slice()),
        _ => 0,
    }
}

/// How many items a hash is over, by an argument of it at this place.
fn length_at(
    names: &Names14<'_>,
    inputs: &[u64],
    place: ArgumentPlace,
    argument: &Argument<'_>,
) -> u64
    ensures { result ≡ length_at names.now inputs.now place (shown_argument argument.now) }
{
    match place {
        ArgumentPlace::Calculation => hashed_length(names, inputs, argument),
        _ => 0,
    }
}

/// The first of these places.
fn first_place(places: &[ArgumentPlace]) -> Option<ArgumentPlace>
    ensures { result ≡ first_place places.now }
{
    places.first().copied()
}

/// The places behind the first.
fn further_places(places: &[ArgumentPlace]) -> &[ArgumentPlace]
    ensures { result.now ≡ further_places places.now }
{
    match places {
        [_, rest @ ..] => rest,
        [] => places,
    }
}

/// How many items a hash is over, by an argument of it at the first of these places.
fn first_length(
    names: &Names14<'_>,
    inputs: &[u64],
    places: &[ArgumentPlace],
    argument: &Argument<'_>,
) -> u64
    ensures { result ≡ first_length names.now inputs.now (first_place places.now) (shown_argument argument.now) }
{
    match first_place(places) {
        Some(place) => length_at(names, inputs, place, argument),
        None => 0,
    }
}

/// The same by all its arguments, but at most the limit.
#[tactic(auto, using(crate::proofs::Loops::placed_now))]
fn placed_length(
    names: &Names14<'_>,
    inputs: &[u64],
    places: &[ArgumentPlace],
    arguments: &[Argument<'_>],
) -> u64
    ensures { result ≡ min 65537 (placed_length names.now inputs.now places.now (map shown_argument arguments.now)) }
{
    let mut total = 0;
    let mut left = places;
    for argument in arguments {
        total = capped(total, first_length(names, inputs, left, argument));
        left = further_places(left);
    }
    total
}

/// The number, and at least one.
fn at_least_one(number: u64) -> u64
    ensures { result ≡ max 1 number }
{
    if number == 0 { 1 } else { number }
}

/// How many primitives a call of a primitive counts as.
fn primitive_count(names: &Names14<'_>, inputs: &[u64], call: &Invocation<'_>) -> u64
    ensures { result ≡ max 1 (min 65537 (placed_length names.now inputs.now (primitive_places call.now.callee) call.now.arguments)) }
{
    at_least_one(placed_length(
        names,
        inputs,
        primitive_places(call.callee()),
        call.arguments(),
    ))
}

/// How many primitives a call counts as by itself; a call of an action as none.
fn own_count(names: &Names14<'_>, inputs: &[u64], call: &Invocation<'_>) -> u64
    ensures { result ≡ own_count names.now inputs.now call.now }
{
    match action_number(names, call.callee()) {
        Some(_) => 0,
        None => primitive_count(names, inputs, call),
    }
}

/// The same of these calls together, but at most the limit.
#[tactic(auto, using(p414_list_check::proofs::Loops::cut_now))]
fn calls_count(names: &Names14<'_>, inputs: &[u64], calls: &[Invocation<'_>]) -> u64
    ensures { result ≡ calls_count names.now inputs.now calls.now }
{
    let mut total = 0;
    for call in calls {
        total = capped(total, own_count(names, inputs, call));
    }
    total
}

/// How many primitives the calls of each action count as by themselves, but at most the limit. The one error is want of
/// memory.
pub fn own_counts(
    alloc: Global,
    names: &Names14<'_>,
    inputs: &[u64],
    actions: &[ActionCalls<'_>],
) -> Result<Vec<u64>, OutOfMemory>
    ensures { IfOk result (λ found. found.items ≡ map (calls_count names.now inputs.now) actions.now) }
{
    let mut found = Vec::new(alloc);
    for action in actions {
        found.push(calls_count(names, inputs, action.as_slice()))?;
    }
    Ok(found)
}
