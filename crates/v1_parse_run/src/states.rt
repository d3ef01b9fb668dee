// States (P4_16 1.2, "Packet parsing", "Parser states", "Transition statements").
ghost use Rattle.std.specs.Prelude.{◌≡◌, ◌+◌, ◌*◌, ◌<◌, ◌≤◌, All, drop, length, slice_get, IfOk, OnOk};
ghost use Rattle.v1_ready_selects.specs.Selects.{FitsTransition, lead, transition_of};
ghost use Rattle.v1_ready_blocks.specs.Nodes.{statement_at};
ghost use Rattle.v1_ready_blocks.specs.Blocks.{parser_run};
ghost use Rattle.v1_statement_run.specs.Steps.{expressions_in, trees_of};
ghost use Rattle.v1_ready_states.specs.States.{from_state, in_state, parse_from, ready_parse};
ghost use Rattle.v1_parse_run.specs.Made.{FitsParser, FitsState, made_state, made_states, made_parser, shown_onward};
ghost use Rattle.v1_parse_run.specs.Working.{Works, led_next, led_run, made_of, moment_of};

use crate::machine::ParserMachine;
use crate::steps::{behind, end, tick};
use p4x_bits::OutOfMemory;
use state_store::Store;
use v1_block_run::{Level, ReadyBlock, run_statements};
use v1_core::{Frame, ParserError};
use v1_ready_selects::{Led, Next, ReadyTransition};
use v1_ready_states::{ReadyParser, ReadyState};
use v1_statement_run::{NoTables, Run, empty, is_stopped, stop};

/// Runs the statements at a place. The one error is want of memory.
#[tactic(auto, using(crate::proofs::Holding::place_there, crate::proofs::Holding::ran_works, crate::proofs::Holding::ran_quietly))]
fn run_body(
    code: &ReadyBlock<'_>,
    octets: &[u8],
    statements: usize,
    frame: &mut Frame<'_>,
    store: &mut Store,
    machine: &mut ParserMachine<'_>,
) -> Result<(), OutOfMemory>
    requires works { Works code.now frame.old store.old octets.now machine.old }
    requires there { statements < length (trees_of code.now.code) }
    ensures works { OnOk result (Works code.now frame.new store.new octets.now machine.new) }
    ensures moment { OnOk result (moment_of frame.new store.new octets.now machine.new ≡ parser_run (statement_at (trees_of code.now.code) statements) (moment_of frame.old store.old octets.now machine.old)) }
{
    let none = NoTables {
        statements: &code.code.statements,
    };
    let parsed = run_statements(
        code,
        &none,
        Level::Action(0),
        statements,
        &mut machine.room.tasks,
        frame,
        store,
        octets,
        machine.parsed,
        &mut machine.run,
    )?;
    machine.parsed = parsed;
    Ok(())
}

/// Where a transition leads. The one error is want of memory.
#[tactic(auto, using(crate::proofs::Holding::keys_there, crate::proofs::Holding::led_so))]
fn lead(
    code: &ReadyBlock<'_>,
    octets: &[u8],
    transition: &ReadyTransition,
    frame: &Frame<'_>,
    machine: &mut ParserMachine<'_>,
) -> Result<Led, OutOfMemory>
    requires within { machine.old.parsed ≤ length octets.now }
    requires fits { FitsTransition (length (expressions_in code.now.code)) transition.now }
    requires layout { frame.now.layout ≡ code.now.code.expressions.layout }
    ensures run { machine.new.run ≡ machine.old.run }
    ensures parsed { machine.new.parsed ≡ machine.old.parsed }
    ensures led { IfOk result (λ led. led ≡ lead frame.now (drop machine.old.parsed octets.now) (transition_of (expressions_in code.now.code) transition.now)) }
{
    let unparsed = behind(octets, machine.parsed);
    let led = machine
        .room
        .keys
        .lead(&code.code.expressions, transition, frame, unparsed)?;
    Ok(led)
}

/// The state where parsing goes on; none where it ends. An error stops the parser.
fn follow(run: &mut Run<'_>, led: Led) -> Option<u32>
    ensures next { result ≡ led_next led }
    ensures run { run.new ≡ led_run led run.old }
{
    match led {
        Led::To(Next::State(number)) => Some(number),
        Led::To(Next::End) => None,
        Led::Failed(error) => {
            stop(run, error);
            None
        }
    }
}

/// A state: its statements, and then its transition, unless an error stopped the parser.
#[tactic(auto, using(crate::proofs::Holding::same_layout))]
fn run_state(
    code: &ReadyBlock<'_>,
    octets: &[u8],
    state: &ReadyState,
    frame: &mut Frame<'_>,
    store: &mut Store,
    machine: &mut ParserMachine<'_>,
) -> Result<Option<u32>, OutOfMemory>
    requires works { Works code.now frame.old store.old octets.now machine.old }
    requires fits { FitsState (made_of code.now octets.now) state.now }
    ensures works { OnOk result (Works code.now frame.new store.new octets.now machine.new) }
    ensures onward { IfOk result (λ next. shown_onward next (moment_of frame.new store.new octets.now machine.new) ≡ in_state (made_state (made_of code.now octets.now) state.now) (moment_of frame.old store.old octets.now machine.old)) }
{
    run_body(code, octets, state.body, frame, store, machine)?;
    if is_stopped(&machine.run) {
        return Ok(None);
    }
    let led = lead(code, octets, &state.transition, frame, machine)?;
    tick(&mut machine.run);
    Ok(follow(&mut machine.run, led))
}

/// The state with a number; parsing ends where there is none.
fn run_next(
    code: &ReadyBlock<'_>,
    octets: &[u8],
    states: &[ReadyState],
    number: u32,
    frame: &mut Frame<'_>,
    store: &mut Store,
    machine: &mut ParserMachine<'_>,
) -> Result<Option<u32>, OutOfMemory>
    requires works { Works code.now frame.old store.old octets.now machine.old }
    requires fits { All (FitsState (made_of code.now octets.now)) states.now }
    ensures works { OnOk result (Works code.now frame.new store.new octets.now machine.new) }
    ensures onward { IfOk result (λ next. shown_onward next (moment_of frame.new store.new octets.now machine.new) ≡ from_state (slice_get (made_states (made_of code.now octets.now) states.now) number) (moment_of frame.old store.old octets.now machine.old)) }
{
    match states.get(number as usize) {
        Some(state) => run_state(code, octets, state, frame, store, machine),
        None => Ok(None),
    }
}

/// Parsing from a state on, in so many states at most; where no more may run, the packet counts as too short.
#[tactic(auto, using(crate::proofs::Turns::stopped, crate::proofs::Passing::stopped_works))]
fn run_states(
    code: &ReadyBlock<'_>,
    octets: &[u8],
    states: &[ReadyState],
    first: u32,
    most: u128,
    frame: &mut Frame<'_>,
    store: &mut Store,
    machine: &mut ParserMachine<'_>,
) -> Result<(), OutOfMemory>
    requires works { Works code.now frame.old store.old octets.now machine.old }
    requires fits { All (FitsState (made_of code.now octets.now)) states.now }
    ensures works { OnOk result (Works code.now frame.new store.new octets.now machine.new) }
    ensures moment { OnOk result (moment_of frame.new store.new octets.now machine.new ≡ parse_from (made_states (made_of code.now octets.now) states.now) most first (moment_of frame.old store.old octets.now machine.old)) }
{
    let mut number = first;
    for _ in 0..most {
        if is_stopped(&machine.run) {
            return Ok(());
        }
        match run_next(code, octets, states, number, frame, store, machine)? {
            Some(next) => number = next,
            None => return Ok(()),
        }
    }
    stop(&mut machine.run, ParserError::PacketTooShort);
    Ok(())
}

/// More states than parsing can run: between two extractions each state stands once at most.
fn most_states(unparsed: &[u8], states: &[ReadyState]) -> u128
    ensures { result ≡ (length unparsed.now + 1) * (length states.now + 1) }
{
    (unparsed.len() as u128 + 1) * (states.len() as u128 + 1)
}

/// Parses a packet: its headers become invalid, the variables of the parser start, and the states run from `start` on until one
/// accepts or rejects, or an error stops the parser, which is the answer and then stands in `parser_error`; `NoError` where none
/// did. What it takes of memory is what running statements and evaluating keys takes, and want of it is the one error, after which
/// frame, store and machine are not used again.
#[tactic(auto, using(crate::proofs::Holding::range_there, crate::proofs::Holding::emptied_works, crate::proofs::Holding::slot_there, crate::proofs::Passing::ended_works))]
pub fn parse_ready(
    code: &ReadyBlock<'_>,
    parser: &ReadyParser,
    octets: &[u8],
    frame: &mut Frame<'_>,
    store: &mut Store,
    machine: &mut ParserMachine<'_>,
) -> Result<ParserError, OutOfMemory>
    requires works { Works code.now frame.old store.old octets.now machine.old }
    requires fits { FitsParser (made_of code.now octets.now) parser.now }
    ensures works { OnOk result (Works code.now frame.new store.new octets.now machine.new) }
    ensures error { IfOk result (λ error. error ≡ (ready_parse (made_parser (made_of code.now octets.now) parser.now) (moment_of frame.old store.old octets.now machine.old)).error) }
    ensures moment { OnOk result (moment_of frame.new store.new octets.now machine.new ≡ (ready_parse (made_parser (made_of code.now octets.now) parser.now) (moment_of frame.old store.old octets.now machine.old)).moment) }
{
    let states = parser.states.as_slice();
    empty(frame, parser.headers);
    let most = most_states(behind(octets, machine.parsed), states);
    run_body(code, octets, parser.variables, frame, store, machine)?;
    run_states(
        code,
        octets,
        states,
        parser.first,
        most,
        frame,
        store,
        machine,
    )?;
    Ok(end(frame, &mut machine.run, parser.error))
}
