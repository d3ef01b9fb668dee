// States of parsers.
ghost use Rattle.std.specs.Prelude.{◌≡◌, None, IfOk};
ghost use Rattle.p414_syntax.specs.ParserGraph.{states};
ghost use Rattle.p414_syntax.specs.Uses.{last_of};
ghost use Rattle.p414_ready_parser.specs.Rows.{end_row, state_row};
ghost use Rattle.p416_syntax.specs.Tree.{no_statements};
ghost use Rattle.lower_laws_states.specs.Expansions.{Has};
ghost use Rattle.lower_laws_parser.specs.Words.{state_of, transition_of};
ghost use Rattle.lower_expressions.specs.Table.{words_in};
ghost use Rattle.lower_parser.specs.Has.{PartsHave, StateHas, StatementsHave};
ghost use Rattle.lower_parser.specs.Rows.{element_of, parts_in, rows_behind};
ghost use Rattle.lower_parser.specs.Written.{NamesAre, parser_names};
ghost use Rattle.lower_parser.specs.Elements.{element_in};

use crate::cases::cases;
use crate::keys::{key_bits, keys};
use crate::names::StateNames;
use crate::statements::{last_element, statements};
use lower_expressions::WordsTable;
use p4x_bits::OutOfMemory;
use p414_ready_parser::{ReadyEnd, ReadyState, ReadyStatement, SelectPart};
use p414_syntax::{Parser, Return};
use p416_syntax::{Block16, Nodes, State, Target, Transition};
use std::alloc::Global;

/// The block of the statements of a state.
fn body(
    alloc: Global,
    table: &WordsTable<'_>,
    rows: &[ReadyStatement],
) -> Result<Block16, OutOfMemory>
    requires { StatementsHave (words_in table.now) rows.now }
    ensures { IfOk result (λ body. body ≡ rows_behind (words_in table.now) None no_statements rows.now) }
{
    let mut nodes = Nodes::new(alloc);
    let place = statements(alloc, &mut nodes, table, rows)?;
    Ok(Block16::new(nodes, place))
}

/// The values that a select joins; none where a state ends without one.
pub fn parts_of(end: &ReadyEnd) -> &[SelectPart]
    ensures { result.now ≡ parts_in end.now }
{
    match end {
        ReadyEnd::Select { parts, rows: _ } => parts.as_slice(),
        ReadyEnd::To(_) => &[],
    }
}

/// What a state ends with that joins these values, where `element` was extracted last.
#[tactic(auto, using(crate::proofs::SameStates::go_same, crate::proofs::SameStates::reject_same))]
fn transition(
    alloc: Global,
    table: &WordsTable<'_>,
    names: &StateNames<'_, '_>,
    element: Option<u32>,
    parts: &[SelectPart],
    state: &Parser,
) -> Result<Transition, OutOfMemory>
    requires names { NamesAre names.now (words_in table.now) }
    requires element { element ≡ element_in (last_of None state.now.statements) }
    requires parts { parts.now ≡ parts_in (end_row names.now (last_of None state.now.statements) state.now.end) }
    requires have { PartsHave (words_in table.now) parts.now }
    ensures { IfOk result (λ made. made ≡ transition_of names.now (parser_names names.now) (last_of None state.now.statements) state.now.end) }
{
    match &state.end {
        Return::Select(_, listed) => {
            let keys = keys(alloc, table, element, parts)?;
            let cases = cases(alloc, names, key_bits(parts)?, listed.as_slice())?;
            Ok(Transition::Select(keys, cases))
        }
        Return::State(name) => Ok(Transition::Go(names.target(alloc, name.as_slice())?)),
        Return::ParseError(_) => Ok(Transition::Go(Target::Reject)),
    }
}

/// A state under its new name.
#[tactic(auto, using(crate::proofs::SameStates::element_same, crate::proofs::SameStates::parts_same, crate::proofs::SameStates::parts_have))]
pub fn state(
    alloc: Global,
    table: &WordsTable<'_>,
    names: &StateNames<'_, '_>,
    row: &ReadyState,
    state: &Parser,
) -> Result<State, OutOfMemory>
    requires names { NamesAre names.now (words_in table.now) }
    requires row { row.now ≡ state_row names.now state.now }
    requires have { StateHas (words_in table.now) row.now }
    requires there { Has (states names.now) state.now }
    ensures { IfOk result (λ made. made ≡ state_of names.now (parser_names names.now) state.now) }
{
    let rows = row.statements.as_slice();
    let name = names.state(alloc, state.name.as_slice())?;
    let body = body(alloc, table, rows)?;
    let transition = transition(
        alloc,
        table,
        names,
        last_element(rows),
        parts_of(&row.end),
        state,
    )?;
    Ok(State {
        name,
        body,
        transition,
    })
}
