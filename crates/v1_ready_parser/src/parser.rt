// A parser (P4_16 1.2, "Packet parsing").
ghost use Rattle.std.specs.Prelude.{◌≡◌, All, codes, option_map, IfOk, IfSome, OnOk};
ghost use Rattle.p416_scopes.specs.Seen.{seen_scope};
ghost use Rattle.v1_ready_program.specs.Seen.{seen_seats};
ghost use Rattle.v1_ready_selects.specs.Rows.{number_of_state};
ghost use Rattle.v1_ready_nodes.specs.Held.{Held, IsHeld, Grows};
ghost use Rattle.v1_ready_bodies.specs.Seen.{seen_statement, IsNodeIn, IsStanding};
ghost use Rattle.v1_ready_parser.specs.Parsers.{parser_ready, with_states};
ghost use Rattle.v1_ready_parser.specs.Places.{seen_parser, seen_states, IsParserIn, IsStateIn};

use crate::states::ready_states;
use name_numbers::{Numbering, narrow};
use p4x_bits::{OutOfMemory, Rows};
use p416_syntax::State;
use std::alloc::Global;
use v1_ready_blocks::Range;
use v1_ready_bodies::{OwnVariable, Singles, Standing, ready_nothing, ready_variables};
use v1_ready_nodes::ReadyNodes;
use v1_ready_states::{ReadyParser, ReadyState};

const START: &[u8] = b"start";

/// The number of the state `start` among states of these names; that behind the last where there is none.
fn first_state(names: &Numbering<'_>) -> Result<u32, OutOfMemory>
    ensures { IfOk result (λ n. n ≡ number_of_state names.now (codes "start")) }
{
    match names.find(START) {
        Some(number) => Ok(number),
        None => narrow(names.len()),
    }
}

/// A parser of these parts, if its variables and its states are some.
fn joined(
    headers: Range,
    error: u32,
    first: u32,
    variables: Option<usize>,
    states: Option<Rows<ReadyState>>,
) -> Option<ReadyParser>
    ensures parser { (h : Held) → option_map (seen_parser h) result ≡ with_states headers error first (seen_statement h variables) (option_map (seen_states h) states) }
    ensures within { (h : Held) → IsNodeIn h variables → IfSome states (All (IsStateIn h)) → IfSome result (IsParserIn h) }
    ensures parts { IfSome result (λ r. r.headers ≡ headers) }
    ensures slot { IfSome result (λ r. r.error ≡ error) }
{
    match (variables, states) {
        (Some(variables), Some(states)) => Some(ReadyParser {
            headers,
            error,
            variables,
            states,
            first,
        }),
        _ => None,
    }
}

/// Makes a parser ready whose states have these names, over these headers and this slot of `parser_error`; none exactly where one of its
/// variables or states is none. The next variable is the first of its states. Errors as those of `ready_behind`.
pub fn ready_parser<'a, S: Singles<'a>>(
    alloc: Global,
    singles: &S,
    nodes: &mut ReadyNodes<'_>,
    standing: &mut Standing<'_, 'a>,
    names: &Numbering<'_>,
    headers: Range,
    error: u32,
    variables: &[OwnVariable<'a>],
    states: &'a [State],
) -> Result<Option<ReadyParser>, OutOfMemory>
    requires held { IsHeld nodes.old }
    requires standing { IsStanding standing.old }
    ensures parser { IfOk result (λ found. option_map (seen_parser nodes.new) found ≡ parser_ready (S.block singles.now) (seen_scope standing.old.scope) (seen_seats standing.old.seats) standing.old.number names.now headers error (number_of_state names.now (codes "start")) variables.now states.now) }
    ensures within { IfOk result (λ found. IfSome found (IsParserIn nodes.new)) }
    ensures parts { IfOk result (λ found. IfSome found (λ r. r.headers ≡ headers)) }
    ensures slot { IfOk result (λ found. IfSome found (λ r. r.error ≡ error)) }
    ensures grows { OnOk result (Grows nodes.old nodes.new) }
{
    let first = first_state(names)?;
    let nothing = ready_nothing(nodes)?;
    let started = ready_variables(alloc, singles, nodes, standing, variables, nothing)?;
    let made = ready_states(alloc, singles, nodes, standing, names, states)?;
    Ok(joined(headers, error, first, started, made))
}
