// Transitions are made ready (P4_16 1.2, "Transition statements", "Select expressions").
ghost use Rattle.std.specs.Prelude.{◌≡◌, length, map, option_map, IfOk, IfSome, OnOk};
ghost use Rattle.p416_syntax.specs.Declarations.{layouts_of};
ghost use Rattle.p416_syntax.specs.Expressions.{kind_of};
ghost use Rattle.p416_names.specs.SeenKinds.{seen_kind};
ghost use Rattle.p416_scopes.specs.Seen.{seen_scope};
ghost use Rattle.v1_core.specs.Nodes.{ready_at};
ghost use Rattle.v1_core.specs.Kept.{trees};
ghost use Rattle.v1_ready_program.specs.Seen.{seen_seats, Keeps};
ghost use Rattle.v1_ready_selects.specs.Selects.{ArePlaces, FitsTransition, transition_of};
ghost use Rattle.v1_ready_selects.specs.Rows.{rows_of_cases};
ghost use Rattle.v1_ready_selects.specs.Transitions.{keys_ready, transition_ready, with_rows};

use name_numbers::Numbering;
use p4x_bits::{OutOfMemory, Rows};
use p416_calls::Place;
use p416_names::Kind;
use p416_scopes::Scope;
use p416_syntax::{Exp, SelectCase, Transition};
use std::alloc::Global;
use v1_core::Expressions;
use v1_ready_places::kind_of;
use v1_ready_program::{Around, ready_expression};
use v1_ready_selects::{ReadyTransition, next_for, rows_of_cases};

/// What the keys of a select are.
fn key_kinds<'a>(
    alloc: Global,
    scope: &Scope<'_, 'a>,
    keys: &'a [Exp],
) -> Result<Vec<Kind<'a>>, OutOfMemory>
    ensures { IfOk result (λ kinds. map seen_kind kinds.items ≡ map (kind_of (seen_scope scope.now)) keys.now) }
{
    let mut kinds = Vec::new(alloc);
    for key in keys {
        let kind = kind_of(alloc, scope, &key.view())?;
        kinds.push(kind)?;
    }
    Ok(kinds)
}

/// Makes the keys of a select ready: their places among the expressions; none where one of them is no single value.
#[tactic(auto, using(crate::proofs::Keys::all_ready))]
fn ready_keys<'a>(
    alloc: Global,
    around: Around<'_, 'a>,
    expressions: &mut Expressions<'_>,
    keys: &'a [Exp],
) -> Result<Option<Rows<usize>>, OutOfMemory>
    requires types { around.types.now ≡ layouts_of around.scope.now.top.now }
    ensures ready { IfOk result (λ found. option_map (map (ready_at (trees expressions.new))) found ≡ keys_ready (seen_scope around.entry.scope.now) (seen_seats around.entry.seats.now) keys.now) }
    ensures within { IfOk result (λ found. IfSome found (ArePlaces (length expressions.new.nodes))) }
    ensures keeps { OnOk result (Keeps (trees expressions.old) (trees expressions.new)) }
    ensures layout { expressions.new.layout ≡ expressions.old.layout }
{
    let mut places = Rows::with_capacity(alloc, keys.len())?;
    for key in keys {
        match ready_expression(alloc, around, Place::SelectKey, expressions, &key.view())? {
            Some(place) => places.push(place)?,
            None => return Ok(None),
        }
    }
    Ok(Some(places))
}

/// Makes a select ready.
fn ready_select<'a>(
    alloc: Global,
    around: Around<'_, 'a>,
    states: &Numbering<'_>,
    expressions: &mut Expressions<'_>,
    keys: &'a [Exp],
    cases: &'a [SelectCase],
) -> Result<Option<ReadyTransition>, OutOfMemory>
    requires types { around.types.now ≡ layouts_of around.scope.now.top.now }
    ensures ready { IfOk result (λ found. option_map (transition_of (trees expressions.new)) found ≡ option_map (with_rows (rows_of_cases states.now (map (kind_of (seen_scope around.entry.scope.now)) keys.now) cases.now)) (keys_ready (seen_scope around.entry.scope.now) (seen_seats around.entry.seats.now) keys.now)) }
    ensures within { IfOk result (λ found. IfSome found (FitsTransition (length expressions.new.nodes))) }
    ensures keeps { OnOk result (Keeps (trees expressions.old) (trees expressions.new)) }
    ensures layout { expressions.new.layout ≡ expressions.old.layout }
{
    let kinds = key_kinds(alloc, around.scope, keys)?;
    let rows = rows_of_cases(alloc, states, &kinds, cases)?;
    match ready_keys(alloc, around, expressions, keys)? {
        Some(keys) => Ok(Some(ReadyTransition::Select { keys, rows })),
        None => Ok(None),
    }
}

/// Makes a transition ready, where the states of the parser have these names: none exactly where a key is no single value. Its keys
/// are put behind the other expressions. The one error is want of memory; then some expressions more may stand behind the others.
pub fn ready_transition<'a>(
    alloc: Global,
    around: Around<'_, 'a>,
    states: &Numbering<'_>,
    expressions: &mut Expressions<'_>,
    transition: &'a Transition,
) -> Result<Option<ReadyTransition>, OutOfMemory>
    requires types { around.types.now ≡ layouts_of around.scope.now.top.now }
    ensures ready { IfOk result (λ found. option_map (transition_of (trees expressions.new)) found ≡ transition_ready (seen_scope around.entry.scope.now) (seen_seats around.entry.seats.now) states.now transition.now) }
    ensures within { IfOk result (λ found. IfSome found (FitsTransition (length expressions.new.nodes))) }
    ensures keeps { OnOk result (Keeps (trees expressions.old) (trees expressions.new)) }
    ensures layout { expressions.new.layout ≡ expressions.old.layout }
{
    match transition {
        Transition::Go(target) => Ok(Some(ReadyTransition::Go(next_for(states, target)?))),
        Transition::Select(keys, cases) => {
            ready_select(
                alloc,
                around,
                states,
                expressions,
                keys.as_slice(),
                cases.as_slice(),
            )
        }
    }
}
