// Parsing.
ghost use Rattle.std.specs.Prelude.{◌≡◌, ◌≤◌, All, IfOk, OnOk};
ghost use Rattle.p414_sem.specs.State.{State};
ghost use Rattle.p414_state.specs.Packets.{with_headers_begun, with_state};
ghost use Rattle.p414_ready_parser.specs.Rows.{key_bits};
ghost use Rattle.p414_ready_parser.specs.Running.{end_by, goes_on, lead, most_runs, ready_key, ready_parse, run_from, run_next, run_out, run_state, select_by, with_initials};
ghost use Rattle.p414_parse_run.specs.Fits.{FitsEnd, FitsInitial, FitsParser, FitsPart, FitsState};
ghost use Rattle.p414_parse_run.specs.Shown.{IsParsed, IsRun, shown_to, widths_in};

use crate::fields::put;
use crate::going::{Going, GoingTo};
use crate::selects::{key, row_for};
use crate::statements::run_statements;
use p4x_bits::OutOfMemory;
use p414_ready_parser::{CaseRow, InitialRow, Next, ReadyEnd, ReadyParser, ReadyState, SelectPart};
use p414_sem::Parsed;
use p414_state::State14;

/// Where parsing goes on, or that it ends unhandled.
fn lead(next: Next) -> GoingTo
    ensures { (s : State) → shown_to result s ≡ lead next s }
{
    match next {
        Next::Unhandled => GoingTo::Ended(Parsed::UnhandledSelect),
        Next::State(number) => GoingTo::To(Next::State(number)),
        Next::Accept => GoingTo::To(Next::Accept),
    }
}

/// A select, by its key.
fn select(state: &State14, element: u32, parts: &[SelectPart], rows: &[CaseRow]) -> GoingTo
    requires parts { All FitsPart parts.now }
    requires bits { key_bits parts.now ≤ 128 }
    ensures { shown_to result state.now.state ≡ select_by rows.now state.now.state (ready_key element state.now.state parts.now) }
{
    match key(state, element, parts) {
        Some(key) => lead(row_for(rows, key)),
        None => GoingTo::Ended(Parsed::OutOfPacket),
    }
}

/// How a state ends behind its statements.
fn end_by(state: &State14, end: &ReadyEnd, element: u32) -> GoingTo
    requires { FitsEnd end.now }
    ensures { shown_to result state.now.state ≡ end_by end.now (goes_on element state.now.state) }
{
    match end {
        ReadyEnd::Select { parts, rows } => {
            select(state, element, parts.as_slice(), rows.as_slice())
        }
        ReadyEnd::To(next) => lead(*next),
    }
}

/// One state of the parser.
fn run_state(state: &mut State14, ready: &ReadyState) -> Result<GoingTo, OutOfMemory>
    requires { FitsState state.old.layout ready.now }
    ensures { IfOk result (λ going. IsRun state.old state.new (shown_to going state.new.state) (run_state (widths_in state.old.layout) ready.now state.old.state)) }
{
    match run_statements(state, ready.statements.as_slice())? {
        Going::On(element) => Ok(end_by(state, &ready.end, element)),
        Going::Stopped(end) => Ok(GoingTo::Ended(end)),
    }
}

/// Where parsing goes on from there.
fn run_next(state: &mut State14, states: &[ReadyState], next: Next) -> Result<GoingTo, OutOfMemory>
    requires { All (FitsState state.old.layout) states.now }
    ensures { IfOk result (λ going. IsRun state.old state.new (shown_to going state.new.state) (run_next (widths_in state.old.layout) states.now next state.old.state)) }
{
    match next {
        Next::State(number) => match states.get(number as usize) {
            Some(ready) => run_state(state, ready),
            None => Ok(GoingTo::Ended(Parsed::Accepted)),
        },
        Next::Accept => Ok(GoingTo::Ended(Parsed::Accepted)),
        Next::Unhandled => Ok(GoingTo::Ended(Parsed::UnhandledSelect)),
    }
}

/// Writes the initial values of metadata.
fn write_initials(state: &mut State14, rows: &[InitialRow]) -> Result<(), OutOfMemory>
    requires { All (FitsInitial state.old.layout) rows.now }
    ensures { OnOk result (state.new ≡ with_state state.old (with_initials rows.now state.old.state)) }
{
    for row in rows {
        put(state, row.slot, row.value)?;
    }
    Ok(())
}

/// How parsing ends there, where no more states may run.
fn run_out(states: &[ReadyState], next: Next) -> Parsed
    ensures { result ≡ run_out states.now next }
{
    match next {
        Next::State(number) => match states.get(number as usize) {
            Some(_) => Parsed::OutOfPacket,
            None => Parsed::Accepted,
        },
        Next::Accept => Parsed::Accepted,
        Next::Unhandled => Parsed::UnhandledSelect,
    }
}

/// Parsing from there, in so many states at most.
fn run_from(
    state: &mut State14,
    states: &[ReadyState],
    start: Next,
    most: u128,
) -> Result<Parsed, OutOfMemory>
    requires { All (FitsState state.old.layout) states.now }
    ensures { IfOk result (IsParsed state.old state.new (run_from (widths_in state.old.layout) states.now most start state.old.state)) }
{
    let mut next = start;
    for _ in 0..most {
        match run_next(state, states, next)? {
            GoingTo::To(to) => next = to,
            GoingTo::Ended(end) => return Ok(end),
        }
    }
    Ok(run_out(states, next))
}

/// More states than parsing can run: between two extractions each state stands once at most.
fn most_runs(state: &State14, states: &[ReadyState]) -> u128
    ensures { result ≡ most_runs states.now state.now.state }
{
    (state.unparsed().len() as u128 + 1) * (states.len() as u128 + 1)
}

/// Parses a packet by the rows of a parser (P4_14 1.0.5, "Parser Specification", "Standard Parser Exceptions"): all headers
/// become invalid, the initial values of metadata are written, and the states run from the first one on. It ends in one of
/// the four ways of `Parsed`, each exactly where the rows raise it, and leaves the state that they leave. It takes no memory;
/// after want of memory the state isn't used again.
pub fn parse_ready(parser: &ReadyParser, state: &mut State14) -> Result<Parsed, OutOfMemory>
    requires { FitsParser state.old.layout parser.now }
    ensures { IfOk result (IsParsed state.old state.new (ready_parse (widths_in state.old.layout) parser.now (with_headers_begun state.old))) }
{
    let states = parser.states.as_slice();
    let most = most_runs(state, states);
    state.clear_headers();
    write_initials(state, parser.initials.as_slice())?;
    run_from(state, states, parser.start, most)
}
