// The field lists and the calculations that calls name.
ghost use Rattle.std.specs.Prelude.{◌≡◌, ◌++◌, ◌∷◌, [], not, ◌&&◌, map, flat_map, option_copied, option_to_list, IfOk, OnOk};
ghost use Rattle.std.specs.List.{list_any};
ghost use Rattle.p414_syntax.specs.References.{referred};
ghost use Rattle.p414_syntax.specs.Arguments.{all_invocations};
ghost use Rattle.p414_syntax.specs.Distinct.{distinct};
ghost use Rattle.p414_syntax.specs.Preserved.{list_at};
ghost use Rattle.p414_calls.specs.Shown.{shown_argument};
ghost use Rattle.p414_preserved_check.specs.internal.Named.{added, calculation_at, named_at, named_among, named_in, named_by};

use p4x_bits::OutOfMemory;
use p414_calls::{ActionCalls, Argument, Invocation, calls_of};
use p414_names::{NameSet, Names14, primitive_places};
use p414_syntax::ArgumentPlace;
use std::alloc::Global;

/// What calls name.
#[derive(Clone, Copy, Drop)]
pub enum Wanted {
    /// A field list that is preserved.
    List,
    /// A calculation that a hash goes by.
    Calculation,
}

/// The name of the list that an argument names, where one is wanted.
fn list_at<'a>(place: ArgumentPlace, argument: &Argument<'a>) -> Option<&'a [u8]>
    ensures { option_to_list (option_copied result) ≡ list_at place (shown_argument argument.now) }
{
    match (place, argument) {
        (ArgumentPlace::List, Argument::Named(instance)) => Some(instance.name.as_slice()),
        _ => None,
    }
}

/// The name of the calculation that an argument names, where one is wanted.
fn calculation_at<'a>(place: ArgumentPlace, argument: &Argument<'a>) -> Option<&'a [u8]>
    ensures { option_to_list (option_copied result) ≡ calculation_at place (shown_argument argument.now) }
{
    match (place, argument) {
        (ArgumentPlace::Calculation, Argument::Named(instance)) => Some(instance.name.as_slice()),
        _ => None,
    }
}

/// The name of what is wanted, if an argument names it there.
fn named_at<'a>(wanted: Wanted, place: ArgumentPlace, argument: &Argument<'a>) -> Option<&'a [u8]>
    ensures { option_to_list (option_copied result) ≡ named_at wanted place (shown_argument argument.now) }
{
    match wanted {
        Wanted::List => list_at(place, argument),
        Wanted::Calculation => calculation_at(place, argument),
    }
}

/// Puts the name of what is wanted behind these, if an argument names it there.
fn add_argument<'a>(
    found: &mut Vec<&'a [u8]>,
    wanted: Wanted,
    place: ArgumentPlace,
    argument: &Argument<'a>,
) -> Result<(), OutOfMemory>
    ensures { OnOk result (map referred found.new.items ≡ map referred found.old.items ++ named_at wanted place (shown_argument argument.now)) }
{
    if let Some(name) = named_at(wanted, place, argument) {
        found.push(name)?;
    }
    Ok(())
}

/// The same of arguments, each with its place.
#[tactic(auto, using(crate::proofs::Loops::named_turn))]
fn add_arguments<'a>(
    found: &mut Vec<&'a [u8]>,
    wanted: Wanted,
    places: &[ArgumentPlace],
    arguments: &[Argument<'a>],
) -> Result<(), OutOfMemory>
    ensures { OnOk result (map referred found.new.items ≡ map referred found.old.items ++ named_among wanted places.now (map shown_argument arguments.now)) }
{
    for k in 0..places.len().min(arguments.len()) {
        add_argument(found, wanted, places[k], &arguments[k])?;
    }
    Ok(())
}

/// The same of a call.
fn add_call<'a>(
    found: &mut Vec<&'a [u8]>,
    wanted: Wanted,
    call: &Invocation<'a>,
) -> Result<(), OutOfMemory>
    ensures { OnOk result (map referred found.new.items ≡ map referred found.old.items ++ named_in wanted call.now) }
{
    add_arguments(
        found,
        wanted,
        primitive_places(call.callee()),
        call.arguments(),
    )
}

/// The same of calls.
fn add_calls<'a>(
    found: &mut Vec<&'a [u8]>,
    wanted: Wanted,
    calls: &[Invocation<'a>],
) -> Result<(), OutOfMemory>
    ensures { OnOk result (map referred found.new.items ≡ map referred found.old.items ++ named_by wanted calls.now) }
{
    for call in calls {
        add_call(found, wanted, call)?;
    }
    Ok(())
}

/// The names of what is wanted that these actions name.
fn named_by<'a>(
    alloc: Global,
    wanted: Wanted,
    actions: &[ActionCalls<'a>],
) -> Result<Vec<&'a [u8]>, OutOfMemory>
    ensures { IfOk result (λ found. map referred found.items ≡ flat_map (named_by wanted) actions.now) }
{
    let mut found = Vec::new(alloc);
    for action in actions {
        add_calls(&mut found, wanted, action.as_slice())?;
    }
    Ok(found)
}

/// Puts a name behind these, unless it is there.
#[tactic(auto, using(crate::proofs::Once::added_by))]
pub fn add_name<'a>(known: &mut NameSet<'a>, name: &'a [u8]) -> Result<(), OutOfMemory>
    ensures { OnOk result (known.new ≡ added known.old name.now) }
{
    let _added = known.add(name)?;
    Ok(())
}

/// The same, and behind a list of the same names.
#[tactic(auto, using(crate::proofs::Once::added_true, crate::proofs::Once::added_false))]
fn add_once<'a>(
    known: &mut NameSet<'a>,
    found: &mut Vec<&'a [u8]>,
    name: &'a [u8],
) -> Result<(), OutOfMemory>
    requires { map referred found.old.items ≡ known.old }
    ensures known { OnOk result (known.new ≡ added known.old name.now) }
    ensures found { OnOk result (map referred found.new.items ≡ added known.old name.now) }
{
    if known.has(name) {
        return Ok(());
    }
    add_name(known, name)?;
    found.push(name)?;
    Ok(())
}

/// These names, each once, in the order in which they first stand.
#[tactic(auto, using(crate::proofs::Once::put_now))]
fn distinct<'a>(alloc: Global, listed: &[&'a [u8]]) -> Result<Vec<&'a [u8]>, OutOfMemory>
    ensures { IfOk result (λ found. map referred found.items ≡ distinct (map referred listed.now)) }
{
    let mut known = NameSet::new(alloc);
    let mut found = Vec::new(alloc);
    for name in listed {
        add_once(&mut known, &mut found, *name)?;
    }
    Ok(found)
}

/// The names of what is wanted that the calls of all actions name.
fn all_named<'a>(
    alloc: Global,
    names: &Names14<'a>,
    wanted: Wanted,
) -> Result<Vec<&'a [u8]>, OutOfMemory>
    ensures { IfOk result (λ found. map referred found.items ≡ named_by wanted (all_invocations names.now)) }
{
    let calls = calls_of(alloc, names.decls())?;
    let found = named_by(alloc, wanted, &calls)?;
    Ok(found)
}

/// The names of what is wanted that the calls of all actions name, each once. The one error is want of memory.
pub fn named_once<'a>(
    alloc: Global,
    names: &Names14<'a>,
    wanted: Wanted,
) -> Result<Vec<&'a [u8]>, OutOfMemory>
    ensures { IfOk result (λ found. map referred found.items ≡ distinct (named_by wanted (all_invocations names.now))) }
{
    let listed = all_named(alloc, names, wanted)?;
    let once = distinct(alloc, &listed)?;
    Ok(once)
}
