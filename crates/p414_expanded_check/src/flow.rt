// C13 after expansion: where the parameters of actions are passed on.
ghost use Rattle.std.specs.Prelude.{◌≡◌, ◌+◌, ◌++◌, map, flat_map, length, slice_index, IfOk, OnOk};
ghost use Rattle.p414_syntax.specs.Uses.{first_place, further_places};
ghost use Rattle.p414_syntax.specs.Arguments.{action_in};
ghost use Rattle.p414_calls.specs.Shown.{shown_argument};
ghost use Rattle.p414_expanded_check.specs.internal.Flow.{place_number, starts, count, pass_of, passes_on, first_pass, passes_at, passes_in, passes_of, all_passes, IsBegun};

use p4x_bits::OutOfMemory;
use p414_calls::{ActionCalls, Argument, Invocation, action_number};
use p414_names::{Names14, primitive_places};
use p414_syntax::{ArgumentPlace, Decl};
use std::alloc::Global;

/// What comes to one number comes also to another: a parameter is given for a parameter, or stands at a place.
#[derive(Clone, Copy, Drop)]
pub struct Pass {
    /// The number of a place of primitives, or of the parameter of the action that is called.
    pub from: usize,
    /// The number of the parameter that is given.
    pub to: usize,
}

/// The numbers of the first parameters of all actions.
#[derive(Drop)]
pub struct Begins {
    /// That of each action, in order.
    pub starts: Vec<usize>,
    /// How many numbers there are.
    pub count: usize,
}

/// How many places there are, which have the first numbers.
const PLACE_COUNT: usize = 11;

/// The sum of two numbers; one that is too large is want of memory.
fn sum(first: usize, second: usize) -> Result<usize, OutOfMemory>
    ensures { IfOk result (λ found. found ≡ first + second) }
{
    match first.checked_add(second) {
        Some(found) => Ok(found),
        None => Err(OutOfMemory),
    }
}

/// The number of a place.
pub fn place_number(place: ArgumentPlace) -> usize
    ensures { result ≡ place_number place }
{
    match place {
        ArgumentPlace::Target => 0,
        ArgumentPlace::Source => 1,
        ArgumentPlace::Unsigned => 2,
        ArgumentPlace::Header => 3,
        ArgumentPlace::Stack => 4,
        ArgumentPlace::Elements => 5,
        ArgumentPlace::Counter => 6,
        ArgumentPlace::Register => 7,
        ArgumentPlace::Meter => 8,
        ArgumentPlace::Calculation => 9,
        ArgumentPlace::List => 10,
    }
}

/// Puts the number of the first parameter last, if a declaration is an action, and gives the one behind its parameters.
fn add_start(found: &mut Vec<usize>, first: usize, decl: &Decl) -> Result<usize, OutOfMemory>
    ensures { IfOk result (λ next. IsBegun found.old.items found.new.items first (action_in decl.now) next) }
{
    match decl {
        Decl::Action(declared) => {
            found.push(first)?;
            sum(first, declared.parameters.as_slice().len())
        }
        _ => Ok(first),
    }
}

/// The numbers of the first parameters of all actions. The one error is want of memory.
pub fn begins_of(alloc: Global, decls: &[Decl]) -> Result<Begins, OutOfMemory>
    ensures { IfOk result (λ found. (found.starts.items ≡ starts decls.now) × (found.count ≡ count decls.now)) }
{
    let mut found = Vec::new(alloc);
    let mut first = PLACE_COUNT;
    for decl in decls {
        first = add_start(&mut found, first, decl)?;
    }
    Ok(Begins {
        starts: found,
        count: first,
    })
}

/// The number of the first parameter of an action, and 0 where there is none.
pub fn start_at(starts: &[usize], action: usize) -> usize
    ensures { result ≡ slice_index starts.now action }
{
    match starts.get(action) {
        Some(start) => *start,
        None => 0,
    }
}

/// Puts the pass from a number to an argument last, if it is a parameter.
fn add_pass(
    found: &mut Vec<Pass>,
    from: usize,
    here: usize,
    argument: &Argument<'_>,
) -> Result<(), OutOfMemory>
    ensures { OnOk result (found.new.items ≡ found.old.items ++ pass_of from here (shown_argument argument.now)) }
{
    if let Argument::Parameter(parameter) = argument {
        let to = sum(here, *parameter)?;
        found.push(Pass { from, to })?;
    }
    Ok(())
}

/// The same of the arguments of a call of an action, whose parameters have the numbers from this one on.
#[tactic(auto, using(crate::proofs::Loops::on_now))]
fn add_on(
    found: &mut Vec<Pass>,
    from: usize,
    here: usize,
    arguments: &[Argument<'_>],
) -> Result<(), OutOfMemory>
    ensures { OnOk result (found.new.items ≡ found.old.items ++ passes_on from here (map shown_argument arguments.now)) }
{
    let mut next = from;
    for argument in arguments {
        add_pass(found, next, here, argument)?;
        next = sum(next, 1)?;
    }
    Ok(())
}

/// The first of these places.
fn first_place(places: &[ArgumentPlace]) -> Option<ArgumentPlace>
    ensures { result ≡ first_place places.now }
{
    places.first().copied()
}

/// The places behind the first.
fn further_places(places: &[ArgumentPlace]) -> &[ArgumentPlace]
    ensures { result.now ≡ further_places places.now }
{
    match places {
        [_, rest @ ..] => rest,
        [] => places,
    }
}

/// Puts the pass from the first of these places to an argument last, if it is a parameter.
fn add_first(
    found: &mut Vec<Pass>,
    here: usize,
    places: &[ArgumentPlace],
    argument: &Argument<'_>,
) -> Result<(), OutOfMemory>
    ensures { OnOk result (found.new.items ≡ found.old.items ++ first_pass here (first_place places.now) (shown_argument argument.now)) }
{
    match first_place(places) {
        Some(place) => add_pass(found, place_number(place), here, argument),
        None => Ok(()),
    }
}

/// The same of the arguments of a call of a primitive.
#[tactic(auto, using(crate::proofs::Loops::at_now))]
fn add_at(
    found: &mut Vec<Pass>,
    here: usize,
    places: &[ArgumentPlace],
    arguments: &[Argument<'_>],
) -> Result<(), OutOfMemory>
    ensures { OnOk result (found.new.items ≡ found.old.items ++ passes_at here places.now (map shown_argument arguments.now)) }
{
    let mut left = places;
    for argument in arguments {
        add_first(found, here, left, argument)?;
        left = further_places(left);
    }
    Ok(())
}

/// Puts the passes of a call last.
fn add_call(
    found: &mut Vec<Pass>,
    names: &Names14<'_>,
    starts: &[usize],
    here: usize,
    call: &Invocation<'_>,
) -> Result<(), OutOfMemory>
    ensures { OnOk result (found.new.items ≡ found.old.items ++ passes_in names.now starts.now here call.now) }
{
    match action_number(names, call.callee()) {
        Some(action) => add_on(found, start_at(starts, action), here, call.arguments()),
        None => add_at(
            found,
            here,
            primitive_places(call.callee()),
            call.arguments(),
        ),
    }
}

/// The same of these calls.
fn add_calls(
    found: &mut Vec<Pass>,
    names: &Names14<'_>,
    starts: &[usize],
    here: usize,
    calls: &[Invocation<'_>],
) -> Result<(), OutOfMemory>
    ensures { OnOk result (found.new.items ≡ found.old.items ++ flat_map (passes_in names.now starts.now here) calls.now) }
{
    for call in calls {
        add_call(found, names, starts, here, call)?;
    }
    Ok(())
}

/// The same of the action with a number.
fn add_action(
    found: &mut Vec<Pass>,
    names: &Names14<'_>,
    starts: &[usize],
    calls: &[ActionCalls<'_>],
    action: usize,
) -> Result<(), OutOfMemory>
    ensures { OnOk result (found.new.items ≡ found.old.items ++ passes_of names.now starts.now calls.now action) }
{
    match calls.get(action) {
        Some(body) => add_calls(
            found,
            names,
            starts,
            start_at(starts, action),
            body.as_slice(),
        ),
        None => Ok(()),
    }
}

/// The passes of the actions, in this order. The one error is want of memory.
pub fn all_passes(
    alloc: Global,
    names: &Names14<'_>,
    starts: &[usize],
    calls: &[ActionCalls<'_>],
    order: &[usize],
) -> Result<Vec<Pass>, OutOfMemory>
    ensures { IfOk result (λ found. found.items ≡ all_passes names.now starts.now calls.now order.now) }
{
    let mut found = Vec::new(alloc);
    for action in order {
        add_action(&mut found, names, starts, calls, *action)?;
    }
    Ok(found)
}
