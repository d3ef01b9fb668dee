// The states of a parser (P4_16 1.2, "Parser states", "Transition statements").
ghost use Rattle.std.specs.Prelude.{◌≡◌, All, length, option_map, IfOk, IfSome, OnOk};
ghost use Rattle.p416_scopes.specs.Seen.{seen_scope};
ghost use Rattle.v1_ready_program.specs.Seen.{seen_seats};
ghost use Rattle.v1_ready_selects.specs.Selects.{FitsTransition, transition_of};
ghost use Rattle.v1_ready_selects.specs.Transitions.{transition_ready};
ghost use Rattle.v1_ready_nodes.specs.Held.{ready_in, Held, IsHeld, Grows};
ghost use Rattle.v1_ready_statements.specs.Statements.{number_behind};
ghost use Rattle.v1_ready_bodies.specs.Seen.{seen_statement, IsNodeIn, IsStanding, Stays};
ghost use Rattle.v1_ready_parser.specs.Parsers.{state_ready, states_ready, with_transition};
ghost use Rattle.v1_ready_parser.specs.Places.{seen_state, seen_states, IsStateIn};

use name_numbers::Numbering;
use p4x_bits::{OutOfMemory, Rows};
use p416_syntax::{State, Transition};
use std::alloc::Global;
use v1_ready_bodies::{Singles, Standing, ready_behind};
use v1_ready_nodes::ReadyNodes;
use v1_ready_selects::ReadyTransition;
use v1_ready_states::ReadyState;
use v1_ready_transitions::ready_transition;

/// Makes a transition ready; its keys are put behind the other expressions.
#[tactic(auto, using(v1_ready_nodes::proofs::Growing::grows_ready, crate::proofs::Leading::fits_in))]
fn transition<'a>(
    alloc: Global,
    nodes: &mut ReadyNodes<'_>,
    standing: &Standing<'_, 'a>,
    names: &Numbering<'_>,
    of: &'a Transition,
) -> Result<Option<ReadyTransition>, OutOfMemory>
    requires held { IsHeld nodes.old }
    requires standing { IsStanding standing.now }
    ensures ready { IfOk result (λ found. option_map (transition_of (ready_in nodes.new)) found ≡ transition_ready (seen_scope standing.now.scope) (seen_seats standing.now.seats) names.now of.now) }
    ensures within { IfOk result (λ found. IfSome found (FitsTransition (length (ready_in nodes.new)))) }
    ensures grows { OnOk result (Grows nodes.old nodes.new) }
{
    let around = standing.around();
    let found = ready_transition(alloc, around, names, &mut nodes.expressions, of)?;
    Ok(found)
}

/// A state of these parts, if both are some.
fn joined(body: Option<usize>, transition: Option<ReadyTransition>) -> Option<ReadyState>
    ensures state { (h : Held) → option_map (seen_state h) result ≡ with_transition (seen_statement h body) (option_map (transition_of (ready_in h)) transition) }
    ensures within { (h : Held) → IsNodeIn h body → IfSome transition (FitsTransition (length (ready_in h))) → IfSome result (IsStateIn h) }
{
    match (body, transition) {
        (Some(body), Some(transition)) => Some(ReadyState { body, transition }),
        _ => None,
    }
}

/// Makes a state ready, and the names are then what they were; none exactly where its statements or its transition are none.
#[tactic(auto, using(v1_ready_bodies::proofs::Steps::scope_again, v1_ready_bodies::proofs::Steps::seats_off, v1_ready_bodies::proofs::Keeping::stays_on))]
fn ready_state<'a, S: Singles<'a>>(
    alloc: Global,
    singles: &S,
    nodes: &mut ReadyNodes<'_>,
    standing: &mut Standing<'_, 'a>,
    names: &Numbering<'_>,
    state: &'a State,
) -> Result<Option<ReadyState>, OutOfMemory>
    requires held { IsHeld nodes.old }
    requires standing { IsStanding standing.old }
    ensures state { IfOk result (λ found. option_map (seen_state nodes.new) found ≡ state_ready (S.block singles.now) (seen_scope standing.old.scope) (seen_seats standing.old.seats) standing.old.number names.now state.now) }
    ensures within { IfOk result (λ found. IfSome found (IsStateIn nodes.new)) }
    ensures grows { OnOk result (Grows nodes.old nodes.new) }
    ensures scope { OnOk result (seen_scope standing.new.scope ≡ seen_scope standing.old.scope) }
    ensures seats { OnOk result (seen_seats standing.new.seats ≡ seen_seats standing.old.seats) }
    ensures number { OnOk result (standing.new.number ≡ number_behind (seen_scope standing.old.scope) state.now.body standing.old.number) }
    ensures stays { OnOk result (Stays standing.old standing.new) }
{
    let in_front = standing.scope.len();
    let seats = standing.seats.len();
    let body = ready_behind(alloc, singles, nodes, standing, &state.body.statements())?;
    let led = transition(alloc, nodes, standing, names, &state.transition)?;
    standing.shorten(in_front, seats)?;
    Ok(joined(body, led))
}

/// Makes states ready, one behind another, where the next variable is the first of theirs; none exactly where one of them is none.
#[tactic(auto, using(v1_ready_bodies::proofs::Fronts::all_ready, v1_ready_nodes::proofs::Growing::grows_same, v1_ready_bodies::proofs::Keeping::stays_same, v1_ready_bodies::proofs::Keeping::still_stands))]
pub(crate) fn ready_states<'a, S: Singles<'a>>(
    alloc: Global,
    singles: &S,
    nodes: &mut ReadyNodes<'_>,
    standing: &mut Standing<'_, 'a>,
    names: &Numbering<'_>,
    states: &'a [State],
) -> Result<Option<Rows<ReadyState>>, OutOfMemory>
    requires held { IsHeld nodes.old }
    requires standing { IsStanding standing.old }
    ensures states { IfOk result (λ found. option_map (seen_states nodes.new) found ≡ states_ready (S.block singles.now) (seen_scope standing.old.scope) (seen_seats standing.old.seats) standing.old.number names.now states.now) }
    ensures within { IfOk result (λ found. IfSome found (All (IsStateIn nodes.new))) }
    ensures grows { OnOk result (Grows nodes.old nodes.new) }
    ensures scope { OnOk result (seen_scope standing.new.scope ≡ seen_scope standing.old.scope) }
    ensures seats { OnOk result (seen_seats standing.new.seats ≡ seen_seats standing.old.seats) }
    ensures stays { OnOk result (Stays standing.old standing.new) }
{
    let mut rows = Rows::new(alloc);
    for state in states {
        match ready_state(alloc, singles, nodes, standing, names, state)? {
            Some(row) => rows.push(row)?,
            None => return Ok(None),
        }
    }
    Ok(Some(rows))
}
