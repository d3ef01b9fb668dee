// Whether an action calls itself (P4_16 1.2, "Actions").
ghost use Rattle.std.specs.Prelude.{◌≡◌, IfOk};
ghost use Rattle.digraph.specs.Expansions.{HasCycle};
ghost use Rattle.p416_syntax.specs.Exact.{IsExact};
ghost use Rattle.p416_syntax.specs.Declarations.{top_scope};
ghost use Rattle.p416_syntax.specs.Applications.{call_graph};
ghost use Rattle.p416_syntax.specs.Main.{positions_from};
ghost use Rattle.p416_syntax.specs.Breaks.{SomeDeclaration};
ghost use Rattle.p416_action_check.specs.Cycles.{CallsItself, SomeCallsItself};

use crate::nodes::action_nodes;
use name_cycles::lead_back;
use p4x_bits::OutOfMemory;
use p416_main_check::MainPlaces;
use p416_names::Top;
use p416_scopes::Scope;
use p416_syntax::{Control16, Decl16};
use std::alloc::Global;

/// Whether an action of a control calls itself.
fn has_call_cycle<'t, 'a>(
    alloc: Global,
    top: &'t Top<'a>,
    places: &'t MainPlaces<'_>,
    control: &'a Control16,
) -> Result<bool, OutOfMemory>
    ensures { IfOk result (λ found. IsExact found (HasCycle (call_graph (top_scope top.now (positions_from 0 places.now control.now.name)) control.now))) }
{
    let positions = places.of_name(control.name.as_slice());
    let mut scope = Scope::of_control(alloc, top, positions, control)?;
    let nodes = action_nodes(alloc, &mut scope, control.locals.as_slice())?;
    lead_back(alloc, &nodes)
}

/// The same of a declaration: none but a control has actions.
fn does_decl_call_itself<'t, 'a>(
    alloc: Global,
    top: &'t Top<'a>,
    places: &'t MainPlaces<'_>,
    decl: &'a Decl16,
) -> Result<bool, OutOfMemory>
    ensures { IfOk result (λ found. IsExact found (CallsItself top.now places.now decl.now)) }
{
    match decl {
        Decl16::Control(control) => has_call_cycle(alloc, top, places, control),
        _ => Ok(false),
    }
}

/// The same of these declarations of a program.
fn some_decl_calls_itself<'t, 'a>(
    alloc: Global,
    top: &'t Top<'a>,
    places: &'t MainPlaces<'_>,
    decls: &'a [Decl16],
) -> Result<bool, OutOfMemory>
    ensures { IfOk result (λ found. IsExact found (SomeDeclaration (CallsItself top.now places.now) decls.now)) }
{
    for decl in decls {
        if does_decl_call_itself(alloc, top, places, decl)? {
            return Ok(true);
        }
    }
    Ok(false)
}

/// Whether an action of a program calls itself, through others or directly, given the names at the top and those in `main`: the
/// cycles that T8 forbids, exactly. An action's time is that of judging its uses; the one error is want of memory.
pub fn some_call_cycle<'t, 'a>(
    alloc: Global,
    top: &'t Top<'a>,
    places: &'t MainPlaces<'_>,
) -> Result<bool, OutOfMemory>
    ensures { IfOk result (λ found. IsExact found (SomeCallsItself top.now places.now)) }
{
    some_decl_calls_itself(alloc, top, places, top.decls())
}
