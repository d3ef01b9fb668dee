// The names of the field lists that calls preserve.
ghost use Rattle.std.specs.Prelude.{◌≡◌, [], map, flat_map, option_copied, option_to_list, IfOk, OnOk};
ghost use Rattle.p414_syntax.specs.Arguments.{all_invocations};
ghost use Rattle.p414_syntax.specs.Preserved.{list_at, preserved_lists};
ghost use Rattle.p414_calls.specs.Shown.{shown_argument};
ghost use Rattle.lower_names.specs.Picked.{with_all};
ghost use Rattle.lower_marks.specs.Preserving.{lists_among, lists_in, lists_by};

use lower_names::is_new;
use p4x_bits::OutOfMemory;
use p414_calls::{ActionCalls, Argument, Invocation, calls_of};
use p414_names::{NameSet, Names14, primitive_places};
use p414_syntax::ArgumentPlace;
use std::alloc::Global;

/// The name of the list that an argument names, where one is wanted.
fn list_at<'a>(place: ArgumentPlace, argument: &Argument<'a>) -> Option<&'a [u8]>
    ensures { option_to_list (option_copied result) ≡ list_at place (shown_argument argument.now) }
{
    match (place, argument) {
        (ArgumentPlace::List, Argument::Named(instance)) => Some(instance.name.as_slice()),
        _ => None,
    }
}

/// Adds the name of a list, if an argument names it there.
fn add_argument<'a>(
    known: &mut NameSet<'a>,
    place: ArgumentPlace,
    argument: &Argument<'a>,
) -> Result<(), OutOfMemory>
    ensures { OnOk result (known.new ≡ with_all known.old (list_at place (shown_argument argument.now))) }
{
    if let Some(name) = list_at(place, argument) {
        is_new(known, name)?;
    }
    Ok(())
}

/// The same of arguments, each with its place.
#[tactic(auto, using(crate::proofs::Listing::arguments_turn))]
fn add_arguments<'a>(
    known: &mut NameSet<'a>,
    places: &[ArgumentPlace],
    arguments: &[Argument<'a>],
) -> Result<(), OutOfMemory>
    ensures { OnOk result (known.new ≡ with_all known.old (lists_among places.now (map shown_argument arguments.now))) }
{
    for k in 0..places.len().min(arguments.len()) {
        add_argument(known, places[k], &arguments[k])?;
    }
    Ok(())
}

/// The same of a call.
fn add_call<'a>(known: &mut NameSet<'a>, call: &Invocation<'a>) -> Result<(), OutOfMemory>
    ensures { OnOk result (known.new ≡ with_all known.old (lists_in call.now)) }
{
    add_arguments(known, primitive_places(call.callee()), call.arguments())
}

/// The same of calls.
fn add_calls<'a>(known: &mut NameSet<'a>, calls: &[Invocation<'a>]) -> Result<(), OutOfMemory>
    ensures { OnOk result (known.new ≡ with_all known.old (lists_by calls.now)) }
{
    for call in calls {
        add_call(known, call)?;
    }
    Ok(())
}

/// The names of the lists that the calls of these actions preserve.
fn listed_by<'a>(alloc: Global, actions: &[ActionCalls<'a>]) -> Result<NameSet<'a>, OutOfMemory>
    ensures { IfOk result (λ known. known ≡ with_all [] (flat_map lists_by actions.now)) }
{
    let mut known = NameSet::new(alloc);
    for action in actions {
        add_calls(&mut known, action.as_slice())?;
    }
    Ok(known)
}

/// The names of the lists that the calls of all actions preserve, call by call.
fn all_listed<'a>(alloc: Global, names: &Names14<'a>) -> Result<NameSet<'a>, OutOfMemory>
    ensures { IfOk result (λ known. known ≡ with_all [] (lists_by (all_invocations names.now))) }
{
    let calls = calls_of(alloc, names.decls())?;
    let known = listed_by(alloc, &calls)?;
    Ok(known)
}

/// The names of the lists that calls preserve, each once.
#[tactic(auto, using(crate::proofs::Listing::listed_are))]
pub fn preserved_names<'a>(alloc: Global, names: &Names14<'a>) -> Result<NameSet<'a>, OutOfMemory>
    ensures { IfOk result (λ known. known ≡ preserved_lists names.now) }
{
    let known = all_listed(alloc, names)?;
    Ok(known)
}
