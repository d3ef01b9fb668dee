// The kinds of variables and of parameters of actions, in the order of the text (P4_16 1.2, "Variable declarations").
ghost use Rattle.std.specs.Prelude.{◌≡◌, ◌++◌, map, flat_map, option_map, OnOk, IfOk};
ghost use Rattle.p416_syntax.specs.Main.{positions_from};
ghost use Rattle.p416_syntax.specs.Declarations.{top_scope, parser_scope, action_scope, control_scope};
ghost use Rattle.p416_names.specs.SeenKinds.{seen_kind};
ghost use Rattle.p416_scopes.specs.Seen.{seen_part, seen_scope};
ghost use Rattle.p416_visits.specs.Left.{height, shortened};
ghost use Rattle.v1_core.specs.Slots.{declared_kind, kinds_in, var_kind, parameter_kind, state_kinds, local_kinds, parser_kinds, control_kinds};

use p4x_bits::{OutOfMemory, Text};
use p416_names::{Kind, Top};
use p416_scopes::{Part, Scope};
use p416_syntax::{Action16, Control16, Local, Param, Parser16, State, StmtHead, StmtView, Var};
use p416_visits::Visits;
use std::alloc::Global;

/// The places at which a block stands in `main`, from 0.
pub(crate) fn places_of(
    alloc: Global,
    main: &[Text],
    name: &[u8],
) -> Result<Vec<usize>, OutOfMemory>
    ensures { IfOk result (λ places. places.items ≡ positions_from 0 main.now name.now) }
{
    let mut places = Vec::new(alloc);
    let mut place = 0usize;
    for block in main {
        if block.as_slice() == name {
            places.push(place)?;
        }
        place += 1;
    }
    Ok(places)
}

/// What the variable is that a statement declares, where it declares one.
fn declared_kind<'a>(scope: &Scope<'_, 'a>, statement: &StmtView<'a>) -> Option<Kind<'a>>
    ensures { option_map seen_kind result ≡ declared_kind (seen_scope scope.now) statement.now }
{
    match statement.head() {
        StmtHead::Var(of, _) => Some(scope.kind_of_type(of)),
        StmtHead::VarIs(of, _, _) => Some(scope.kind_of_type(of)),
        _ => None,
    }
}

/// Those of the statements of a list, in its scope, which is then what it was.
fn add_statements<'a>(
    alloc: Global,
    scope: &mut Scope<'_, 'a>,
    statements: &StmtView<'a>,
    kinds: &mut Vec<Kind<'a>>,
) -> Result<(), OutOfMemory>
    ensures kinds { OnOk result (map seen_kind kinds.new.items ≡ map seen_kind kinds.old.items ++ kinds_in (seen_scope scope.old) statements.now) }
    ensures scope { OnOk result (seen_scope scope.new ≡ seen_scope scope.old) }
    ensures top { scope.new.top ≡ scope.old.top }
{
    let mut visits = Visits::new(alloc, scope, statements)?;
    while let Some(statement) = visits.next(scope)? {
        if let Some(kind) = declared_kind(scope, &statement) {
            kinds.push(kind)?;
        }
    }
    Ok(())
}

/// Those of variables of a block.
fn add_vars<'a>(
    scope: &Scope<'_, 'a>,
    vars: &'a [Var],
    kinds: &mut Vec<Kind<'a>>,
) -> Result<(), OutOfMemory>
    ensures { OnOk result (map seen_kind kinds.new.items ≡ map seen_kind kinds.old.items ++ map (var_kind (seen_scope scope.now)) vars.now) }
{
    for var in vars {
        kinds.push(scope.kind_of_type(&var.of))?;
    }
    Ok(())
}

/// Those of parameters of an action.
fn add_parameters<'a>(
    scope: &Scope<'_, 'a>,
    parameters: &'a [Param],
    kinds: &mut Vec<Kind<'a>>,
) -> Result<(), OutOfMemory>
    ensures { OnOk result (map seen_kind kinds.new.items ≡ map seen_kind kinds.old.items ++ map (parameter_kind (seen_scope scope.now)) parameters.now) }
{
    for parameter in parameters {
        kinds.push(scope.kind_of_type(&parameter.of))?;
    }
    Ok(())
}

/// Those of the states of a parser, in its scope.
#[tactic(auto, using(crate::proofs::Told::next_told))]
fn add_states<'a>(
    alloc: Global,
    scope: &mut Scope<'_, 'a>,
    states: &'a [State],
    kinds: &mut Vec<Kind<'a>>,
) -> Result<(), OutOfMemory>
    ensures { OnOk result (map seen_kind kinds.new.items ≡ map seen_kind kinds.old.items ++ flat_map (state_kinds (seen_scope scope.old)) states.now) }
{
    for state in states {
        add_statements(alloc, scope, &state.body.statements(), kinds)?;
    }
    Ok(())
}

/// Those of a parser that stands at these places of `main`.
#[tactic(auto, using(crate::proofs::Told::parser_told))]
pub(crate) fn add_parser<'a>(
    alloc: Global,
    top: &Top<'a>,
    places: &[usize],
    parser: &'a Parser16,
    kinds: &mut Vec<Kind<'a>>,
) -> Result<(), OutOfMemory>
    ensures { OnOk result (map seen_kind kinds.new.items ≡ map seen_kind kinds.old.items ++ parser_kinds (parser_scope (top_scope top.now places.now) parser.now) parser.now) }
{
    let mut scope = Scope::of_parser(alloc, top, places, parser)?;
    add_vars(&scope, parser.vars.as_slice(), kinds)?;
    add_states(alloc, &mut scope, parser.states.as_slice(), kinds)?;
    Ok(())
}

/// Takes the names off but for so many.
#[tactic(auto, using(p416_visits::proofs::Visiting::scope_shortened))]
fn shorten(scope: &mut Scope<'_, '_>, len: usize) -> Result<(), OutOfMemory>
    ensures scope { OnOk result (seen_scope scope.new ≡ shortened (height scope.old.top.now len) (seen_scope scope.old)) }
    ensures top { scope.new.top ≡ scope.old.top }
{
    scope.shorten(len)
}

/// Leaves an action: the scope has so many names again, and stands in this part.
fn leave_action<'a>(
    scope: &mut Scope<'_, 'a>,
    len: usize,
    part: Part<'a>,
) -> Result<(), OutOfMemory>
    ensures scope { OnOk result (seen_scope scope.new ≡ record (shortened (height scope.old.top.now len) (seen_scope scope.old)) { part = seen_part part.entry }) }
    ensures top { scope.new.top ≡ scope.old.top }
{
    shorten(scope, len)?;
    scope.part = part;
    Ok(())
}

/// Those of the statements of an action, in the scope of its control, which is then what it was.
#[tactic(auto, using(crate::proofs::Actions::action_left, crate::proofs::Told::body_told))]
fn add_action_body<'a>(
    alloc: Global,
    scope: &mut Scope<'_, 'a>,
    action: &'a Action16,
    kinds: &mut Vec<Kind<'a>>,
) -> Result<(), OutOfMemory>
    ensures kinds { OnOk result (map seen_kind kinds.new.items ≡ map seen_kind kinds.old.items ++ kinds_in (action_scope (seen_scope scope.old) action.now) action.now.body) }
    ensures scope { OnOk result (seen_scope scope.new ≡ seen_scope scope.old) }
    ensures top { scope.new.top ≡ scope.old.top }
{
    let len = scope.len();
    let part = scope.part;
    scope.enter_action(alloc, action)?;
    add_statements(alloc, scope, &action.body.statements(), kinds)?;
    leave_action(scope, len, part)?;
    Ok(())
}

/// Those of an action, its parameters first, in the scope of its control, which is then what it was.
#[tactic(auto, using(crate::proofs::Told::two_told))]
fn add_action<'a>(
    alloc: Global,
    scope: &mut Scope<'_, 'a>,
    action: &'a Action16,
    kinds: &mut Vec<Kind<'a>>,
) -> Result<(), OutOfMemory>
    ensures kinds { OnOk result (map seen_kind kinds.new.items ≡ map seen_kind kinds.old.items ++ (map (parameter_kind (seen_scope scope.old)) action.now.parameters ++ kinds_in (action_scope (seen_scope scope.old) action.now) action.now.body)) }
    ensures scope { OnOk result (seen_scope scope.new ≡ seen_scope scope.old) }
    ensures top { scope.new.top ≡ scope.old.top }
{
    add_parameters(scope, action.parameters.as_slice(), kinds)?;
    add_action_body(alloc, scope, action, kinds)?;
    Ok(())
}

/// The kinds of the variables and of the parameters of actions that stand in what a control declares, behind the others. The
/// scope is that of the control, and is then what it was. Want of memory is the one error.
pub fn add_local<'a>(
    alloc: Global,
    scope: &mut Scope<'_, 'a>,
    local: &'a Local,
    kinds: &mut Vec<Kind<'a>>,
) -> Result<(), OutOfMemory>
    ensures kinds { OnOk result (map seen_kind kinds.new.items ≡ map seen_kind kinds.old.items ++ local_kinds (seen_scope scope.old) local.now) }
    ensures scope { OnOk result (seen_scope scope.new ≡ seen_scope scope.old) }
    ensures top { scope.new.top ≡ scope.old.top }
{
    match local {
        Local::Var(var) => {
            kinds.push(scope.kind_of_type(&var.of))?;
            Ok(())
        }
        Local::Action(action) => add_action(alloc, scope, action, kinds),
        _ => Ok(()),
    }
}

/// Those of all that a control declares.
#[tactic(auto, using(crate::proofs::Told::next_told))]
fn add_locals<'a>(
    alloc: Global,
    scope: &mut Scope<'_, 'a>,
    locals: &'a [Local],
    kinds: &mut Vec<Kind<'a>>,
) -> Result<(), OutOfMemory>
    ensures kinds { OnOk result (map seen_kind kinds.new.items ≡ map seen_kind kinds.old.items ++ flat_map (local_kinds (seen_scope scope.old)) locals.now) }
    ensures scope { OnOk result (seen_scope scope.new ≡ seen_scope scope.old) }
{
    for local in locals {
        add_local(alloc, scope, local, kinds)?;
    }
    Ok(())
}

/// Those of a control that stands at these places of `main`.
#[tactic(auto, using(crate::proofs::Told::control_told))]
pub(crate) fn add_control<'a>(
    alloc: Global,
    top: &Top<'a>,
    places: &[usize],
    control: &'a Control16,
    kinds: &mut Vec<Kind<'a>>,
) -> Result<(), OutOfMemory>
    ensures { OnOk result (map seen_kind kinds.new.items ≡ map seen_kind kinds.old.items ++ control_kinds (control_scope (top_scope top.now places.now) control.now) control.now) }
{
    let mut scope = Scope::of_control(alloc, top, places, control)?;
    add_locals(alloc, &mut scope, control.locals.as_slice(), kinds)?;
    add_statements(alloc, &mut scope, &control.body.statements(), kinds)?;
    Ok(())
}
