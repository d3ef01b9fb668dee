// Parsers (P4_16 1.2, "Packet parsing").
ghost use Rattle.std.specs.Prelude.{◌≡◌, ◌++◌, ◌∷◌, List, map, flat_map, IfOk, OnOk};
ghost use Rattle.p416_syntax.specs.Scopes.{called_of};
ghost use Rattle.p416_syntax.specs.Statements.{behind};
ghost use Rattle.p416_syntax.specs.Calls.{select_key};
ghost use Rattle.p416_syntax.specs.Expressions.{kind_of};
ghost use Rattle.p416_syntax.specs.Uses.{names_of_scope, of_block_parameter, uses};
ghost use Rattle.p416_syntax.specs.Declarations as rules;
ghost use Rattle.p416_names.specs.SeenKinds.{seen_kind};
ghost use Rattle.p416_scopes.specs.Seen.{seen_scope};
ghost use Rattle.p416_expression_uses.specs.Found.{after_all};
ghost use Rattle.p416_uses.specs.Parts.{var_name};

use crate::bodies::{see_body, see_vars};
use crate::keysets::{see_fit, see_keyset};
use crate::names::{Wanted, see_name, see_names};
use crate::types::{push_parameters, see_parameters};
use crate::variables::declare_body;
use p4x_bits::OutOfMemory;
use p416_calls::Place;
use p416_expression_uses::{Findings, Places, TypePlace, see_expression};
use p416_names::{Kind, Top};
use p416_scopes::{Part, Scope};
use p416_syntax::{Exp, Parser16, SelectCase, State, Target, Transition, Var};
use p416_visits::shorten;
use std::alloc::Global;

/// Judges the target of a transition.
fn see_target(scope: &Scope<'_, '_>, target: &Target, found: &mut Findings<'_>)
    ensures { found.new ≡ after_all found.old (rules.target_uses (seen_scope scope.now) target.now) }
{
    match target {
        Target::State(name) => see_name(scope, Wanted::State, name.as_slice(), found),
        Target::Accept => {}
        Target::Reject => {}
    }
}

/// Judges the keys of a `select`; what they are.
#[tactic(auto, using(p416_expression_uses::proofs::Finding::after_turn))]
fn see_keys<'a>(
    alloc: Global,
    scope: &Scope<'_, 'a>,
    keys: &'a [Exp],
    found: &mut Findings<'a>,
) -> Result<Vec<Kind<'a>>, OutOfMemory>
    ensures found { OnOk result (found.new ≡ after_all found.old (flat_map (uses (seen_scope scope.now) select_key) keys.now)) }
    ensures kinds { IfOk result (λ kinds. map seen_kind kinds.items ≡ map (kind_of (seen_scope scope.now)) keys.now) }
{
    let mut kinds = Vec::new(alloc);
    for key in keys {
        let place = Places::One(Place::SelectKey);
        let kind = see_expression(alloc, scope, place, &key.view(), found)?;
        kinds.push(kind)?;
    }
    Ok(kinds)
}

/// Judges a case of a `select`, given what the keys are.
#[tactic(auto, using(p416_expression_uses::proofs::Finding::after_then))]
fn see_case<'a>(
    alloc: Global,
    scope: &Scope<'_, 'a>,
    keys: &[Kind<'a>],
    case: &'a SelectCase,
    found: &mut Findings<'a>,
) -> Result<(), OutOfMemory>
    ensures { OnOk result (found.new ≡ after_all found.old (rules.case_uses (seen_scope scope.now) (map seen_kind keys.now) case.now)) }
{
    see_fit(keys, &case.keyset, found);
    see_keyset(alloc, scope, keys, &case.keyset, found)?;
    see_target(scope, &case.target, found);
    Ok(())
}

/// Judges these cases of a `select`, given what the keys are.
#[tactic(auto, using(p416_expression_uses::proofs::Finding::after_turn))]
fn see_cases<'a>(
    alloc: Global,
    scope: &Scope<'_, 'a>,
    keys: &[Kind<'a>],
    cases: &'a [SelectCase],
    found: &mut Findings<'a>,
) -> Result<(), OutOfMemory>
    ensures { OnOk result (found.new ≡ after_all found.old (flat_map (rules.case_uses (seen_scope scope.now) (map seen_kind keys.now)) cases.now)) }
{
    for case in cases {
        see_case(alloc, scope, keys, case, found)?;
    }
    Ok(())
}

/// Judges a `select`.
#[tactic(auto, using(crate::proofs::ParserUses::select_told))]
fn see_select<'a>(
    alloc: Global,
    scope: &Scope<'_, 'a>,
    keys: &'a [Exp],
    cases: &'a [SelectCase],
    found: &mut Findings<'a>,
) -> Result<(), OutOfMemory>
    ensures { OnOk result (found.new ≡ after_all found.old (flat_map (uses (seen_scope scope.now) select_key) keys.now ++ flat_map (rules.case_uses (seen_scope scope.now) (map (kind_of (seen_scope scope.now)) keys.now)) cases.now)) }
{
    let kinds = see_keys(alloc, scope, keys, found)?;
    see_cases(alloc, scope, &kinds, cases, found)?;
    Ok(())
}

/// Judges what a state ends with.
fn see_transition<'a>(
    alloc: Global,
    scope: &Scope<'_, 'a>,
    transition: &'a Transition,
    found: &mut Findings<'a>,
) -> Result<(), OutOfMemory>
    ensures { OnOk result (found.new ≡ after_all found.old (rules.transition_uses (seen_scope scope.now) transition.now)) }
{
    match transition {
        Transition::Go(target) => {
            see_target(scope, target, found);
            Ok(())
        }
        Transition::Select(keys, cases) => {
            see_select(alloc, scope, keys.as_slice(), cases.as_slice(), found)
        }
    }
}

/// Judges what a state ends with in the scope behind its statements, and leaves that again.
#[tactic(auto, using(crate::proofs::BodyUses::left_behind, crate::proofs::BodyUses::end_told))]
fn see_end<'a>(
    alloc: Global,
    scope: &mut Scope<'_, 'a>,
    state: &'a State,
    found: &mut Findings<'a>,
) -> Result<(), OutOfMemory>
    ensures found { OnOk result (found.new ≡ after_all found.old (rules.transition_uses (behind state.now.body (seen_scope scope.old)) state.now.transition)) }
    ensures scope { OnOk result (seen_scope scope.new ≡ seen_scope scope.old) }
    ensures top { scope.new.top ≡ scope.old.top }
{
    let len = scope.len();
    declare_body(alloc, scope, &state.body.statements())?;
    see_transition(alloc, scope, &state.transition, found)?;
    shorten(scope, len)?;
    Ok(())
}

/// Judges a state.
#[tactic(auto, using(crate::proofs::ParserUses::state_told))]
fn see_state<'a>(
    alloc: Global,
    scope: &mut Scope<'_, 'a>,
    state: &'a State,
    found: &mut Findings<'a>,
) -> Result<(), OutOfMemory>
    ensures found { OnOk result (found.new ≡ after_all found.old (rules.state_uses (seen_scope scope.old) state.now)) }
    ensures scope { OnOk result (seen_scope scope.new ≡ seen_scope scope.old) }
    ensures top { scope.new.top ≡ scope.old.top }
{
    see_body(alloc, scope, &state.body.statements(), found)?;
    see_end(alloc, scope, state, found)?;
    Ok(())
}

/// Judges these states.
#[tactic(auto, using(crate::proofs::ParserUses::state_turn))]
fn see_states<'a>(
    alloc: Global,
    scope: &mut Scope<'_, 'a>,
    states: &'a [State],
    found: &mut Findings<'a>,
) -> Result<(), OutOfMemory>
    ensures { OnOk result (found.new ≡ after_all found.old (flat_map (rules.state_uses (seen_scope scope.old)) states.now)) }
{
    for state in states {
        see_state(alloc, scope, state, found)?;
    }
    Ok(())
}

/// Puts the names of these variables behind others.
fn push_vars<'a>(names: &mut Vec<&'a [u8]>, vars: &'a [Var]) -> Result<(), OutOfMemory>
    ensures { OnOk result (map (λ name. name.now) names.new.items ≡ map (λ name. name.now) names.old.items ++ map var_name vars.now) }
{
    for var in vars {
        names.push(var.name.as_slice())?;
    }
    Ok(())
}

/// Puts the names of these states behind others.
fn push_states<'a>(names: &mut Vec<&'a [u8]>, states: &'a [State]) -> Result<(), OutOfMemory>
    ensures { OnOk result (map (λ name. name.now) names.new.items ≡ map (λ name. name.now) names.old.items ++ map rules.state_name states.now) }
{
    for state in states {
        names.push(state.name.as_slice())?;
    }
    Ok(())
}

/// The names that a parser declares, in order.
fn parser_names<'a>(alloc: Global, parser: &'a Parser16) -> Result<Vec<&'a [u8]>, OutOfMemory>
    ensures { IfOk result (λ names. map (λ name. name.now) names.items ≡ map rules.parameter_name parser.now.parameters ++ map var_name parser.now.vars ++ map rules.state_name parser.now.states) }
{
    let mut names = Vec::new(alloc);
    push_parameters(&mut names, parser.parameters.as_slice())?;
    push_vars(&mut names, parser.vars.as_slice())?;
    push_states(&mut names, parser.states.as_slice())?;
    Ok(names)
}

/// Judges the names that a parser declares and the types of its parameters.
#[tactic(auto, using(crate::proofs::ParserUses::parser_named))]
fn see_head<'t, 'a>(
    alloc: Global,
    top: &'t Top<'a>,
    positions: &'t [usize],
    parser: &'a Parser16,
    found: &mut Findings<'a>,
) -> Result<(), OutOfMemory>
    ensures { OnOk result (found.new ≡ after_all found.old (names_of_scope (map called_of (rules.parser_names (rules.top_names top.now) parser.now)) ∷ flat_map (rules.parameter_uses (rules.top_scope top.now positions.now) of_block_parameter) parser.now.parameters)) }
{
    let names = parser_names(alloc, parser)?;
    see_names(alloc, &names, found)?;
    let outside = Scope::new(alloc, top, positions, Part::Elsewhere);
    see_parameters(
        &outside,
        TypePlace::BlockParameter,
        parser.parameters.as_slice(),
        found,
    )?;
    Ok(())
}

/// Judges a parser that stands at these places of `main`.
#[tactic(auto, using(crate::proofs::ParserUses::parser_told))]
pub(crate) fn see_parser<'t, 'a>(
    alloc: Global,
    top: &'t Top<'a>,
    positions: &'t [usize],
    parser: &'a Parser16,
    found: &mut Findings<'a>,
) -> Result<(), OutOfMemory>
    ensures { OnOk result (found.new ≡ after_all found.old (rules.parser_uses (rules.top_scope top.now positions.now) parser.now)) }
{
    see_head(alloc, top, positions, parser, found)?;
    let mut scope = Scope::of_parser(alloc, top, positions, parser)?;
    see_vars(alloc, &scope, parser.vars.as_slice(), found)?;
    see_states(alloc, &mut scope, parser.states.as_slice(), found)?;
    Ok(())
}
