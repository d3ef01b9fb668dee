// The uses in actions.
ghost use Rattle.std.specs.Prelude.{◌≡◌, [], ◌∷◌, ◌++◌, map, option_copied, option_to_list, OnOk, IfOk, None, Some};
ghost use Rattle.std.specs.List.{flat_map};
ghost use Rattle.p414_syntax.specs.Subtrees.{subexpressions, subtrees};
ghost use Rattle.p414_uses.specs.internal.Collected.{Adds};
ghost use Rattle.p414_syntax.specs.Names.{has_name};
ghost use Rattle.p414_syntax.specs.Uses.{uses_of_bare, uses_of_placed, uses_of_named, uses_of_arg, first_place, further_places, uses_of_args, uses_of_sources, uses_of_arguments, uses_of_call, uses_of_declared_action};
ghost use Rattle.p414_uses.specs.internal.Parameters.{AreParameters};

use crate::uses::{Use, add};
use p4x_bits::{OutOfMemory, Text};
use p414_names::{NameSet, is_any_primitive, primitive_places};
use p414_syntax::{Action, Arg, ArgumentPlace, Call, Inst, Sort};
use std::alloc::Global;

/// Different parameters of an action, to look them up.
fn parameters_of(alloc: Global, names: &[Text]) -> Result<NameSet<'_>, OutOfMemory>
    ensures { IfOk result (λ set. AreParameters names.now set) }
{
    let mut set = NameSet::new(alloc);
    for name in names {
        let _added = set.add(name.as_slice())?;
    }
    Ok(set)
}

/// Adds the use of a name by itself, where an argument of this place is wanted.
fn add_bare<'a>(
    found: &mut Vec<Use<'a>>,
    place: ArgumentPlace,
    instance: &'a Inst,
) -> Result<(), OutOfMemory>
    ensures { OnOk result (Adds found.old.items found.new.items (uses_of_bare place instance.now)) }
{
    match place {
        ArgumentPlace::Target
        | ArgumentPlace::Source
        | ArgumentPlace::Unsigned
        | ArgumentPlace::Elements
        | ArgumentPlace::Stack => add(found, Use::OfAnyInstance(&instance.name)),
        ArgumentPlace::Header => add(found, Use::OfInstance(instance)),
        ArgumentPlace::Counter | ArgumentPlace::Register | ArgumentPlace::Meter => {
            add(found, Use::OfSort(Sort::Object, &instance.name))
        }
        ArgumentPlace::Calculation => add(found, Use::OfSort(Sort::Calculation, &instance.name)),
        ArgumentPlace::List => add(found, Use::OfSort(Sort::List, &instance.name)),
    }
}

/// Adds the use of a name or of an element of a stack.
fn add_named<'a>(
    found: &mut Vec<Use<'a>>,
    parameters: &NameSet<'_>,
    place: Option<ArgumentPlace>,
    instance: &'a Inst,
) -> Result<(), OutOfMemory>
    ensures { OnOk result (Adds found.old.items found.new.items (uses_of_named (has_name parameters.now) place instance.now)) }
{
    if instance.index.is_some() {
        return add(found, Use::OfInstance(instance));
    }
    if parameters.has(instance.name.as_slice()) {
        return Ok(());
    }
    match place {
        Some(place) => add_bare(found, place, instance),
        None => Ok(()),
    }
}

/// Adds the use in an argument.
fn add_argument<'a>(
    found: &mut Vec<Use<'a>>,
    parameters: &NameSet<'_>,
    place: Option<ArgumentPlace>,
    argument: &'a Arg,
) -> Result<(), OutOfMemory>
    ensures { OnOk result (Adds found.old.items found.new.items (uses_of_arg (has_name parameters.now) place argument.now)) }
{
    match argument {
        Arg::Number(_) => Ok(()),
        Arg::Field(field) => add(found, Use::OfField(field)),
        Arg::Instance(instance) => add_named(found, parameters, place, instance),
    }
}

/// The first of these places.
fn first_place(places: &[ArgumentPlace]) -> Option<ArgumentPlace>
    ensures { result ≡ first_place places.now }
{
    places.first().copied()
}

/// The places behind the first.
fn further_places(places: &[ArgumentPlace]) -> &[ArgumentPlace]
    ensures { result.now ≡ further_places places.now }
{
    match places {
        [_, rest @ ..] => rest,
        [] => places,
    }
}

/// Adds the uses in the arguments of a primitive.
fn add_placed<'a>(
    found: &mut Vec<Use<'a>>,
    parameters: &NameSet<'_>,
    places: &[ArgumentPlace],
    arguments: &'a [Arg],
) -> Result<(), OutOfMemory>
    ensures { OnOk result (Adds found.old.items found.new.items (uses_of_args (has_name parameters.now) places.now arguments.now)) }
{
    let mut left = places;
    for argument in arguments {
        add_argument(found, parameters, first_place(left), argument)?;
        left = further_places(left);
    }
    Ok(())
}

/// Adds the uses in the arguments of an action that the program declares.
fn add_sources<'a>(
    found: &mut Vec<Use<'a>>,
    parameters: &NameSet<'_>,
    arguments: &'a [Arg],
) -> Result<(), OutOfMemory>
    ensures { OnOk result (Adds found.old.items found.new.items (uses_of_sources (has_name parameters.now) arguments.now)) }
{
    for argument in arguments {
        add_argument(found, parameters, Some(ArgumentPlace::Source), argument)?;
    }
    Ok(())
}

/// Adds the uses in the arguments of a call.
fn add_arguments<'a>(
    found: &mut Vec<Use<'a>>,
    parameters: &NameSet<'_>,
    call: &'a Call,
) -> Result<(), OutOfMemory>
    ensures { OnOk result (Adds found.old.items found.new.items (uses_of_arguments (has_name parameters.now) call.now.name call.now.arguments)) }
{
    let callee = call.name.as_slice();
    if is_any_primitive(callee) {
        return add_placed(
            found,
            parameters,
            primitive_places(callee),
            call.arguments.as_slice(),
        );
    }
    add_sources(found, parameters, call.arguments.as_slice())
}

/// Adds the uses in a call.
#[tactic(auto, using(crate::proofs::Adding::added_two))]
fn add_call<'a>(
    found: &mut Vec<Use<'a>>,
    parameters: &NameSet<'_>,
    call: &'a Call,
) -> Result<(), OutOfMemory>
    ensures { OnOk result (Adds found.old.items found.new.items (uses_of_call (has_name parameters.now) call.now)) }
{
    add(found, Use::OfAction(&call.name))?;
    add_arguments(found, parameters, call)
}

/// Adds the uses in calls.
fn add_calls<'a>(
    found: &mut Vec<Use<'a>>,
    parameters: &NameSet<'_>,
    calls: &'a [Call],
) -> Result<(), OutOfMemory>
    ensures { OnOk result (Adds found.old.items found.new.items (flat_map (uses_of_call (has_name parameters.now)) calls.now)) }
{
    for call in calls {
        add_call(found, parameters, call)?;
    }
    Ok(())
}

/// The parameters of an action.
fn parameters_in(alloc: Global, declared: &Action) -> Result<NameSet<'_>, OutOfMemory>
    ensures { IfOk result (λ set. AreParameters declared.now.parameters set) }
{
    parameters_of(alloc, declared.parameters.as_slice())
}

/// Adds the uses in the calls of an action.
fn add_calls_in<'a>(
    found: &mut Vec<Use<'a>>,
    parameters: &NameSet<'_>,
    declared: &'a Action,
) -> Result<(), OutOfMemory>
    ensures { OnOk result (Adds found.old.items found.new.items (flat_map (uses_of_call (has_name parameters.now)) declared.now.calls)) }
{
    add_calls(found, parameters, declared.calls.as_slice())
}

/// Adds the uses in an action.
pub fn add_action<'a>(
    alloc: Global,
    found: &mut Vec<Use<'a>>,
    declared: &'a Action,
) -> Result<(), OutOfMemory>
    ensures { OnOk result (Adds found.old.items found.new.items (uses_of_declared_action declared.now)) }
{
    let parameters = parameters_in(alloc, declared)?;
    add_calls_in(found, &parameters, declared)
}
