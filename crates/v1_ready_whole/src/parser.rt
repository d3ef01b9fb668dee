// The parser of a program made ready (P4_16 1.2, "Packet parsing").
ghost use Rattle.std.specs.Prelude.{◌≡◌, ◌+◌, true, map, option_map, codes, Some, IfOk, IfSome, OnOk};
ghost use Rattle.p416_syntax.specs.Declarations.{layouts_of};
ghost use Rattle.v1_place_laws.specs.Places.{range_of};
ghost use Rattle.v1_parser_laws.specs.Ranges.{headers_seat};
ghost use Rattle.v1_ready_selects.specs.Matching.{state_names};
ghost use Rattle.v1_block_run.specs.Blocks.{IsRunnable};
ghost use Rattle.v1_ready_nodes.specs.Held.{IsHeld, Grows};
ghost use Rattle.v1_ready_parser.specs.Places.{seen_parser, IsParserIn};
ghost use Rattle.v1_ready_locals.specs.Owned.{seen_own};
ghost use Rattle.v1_ready_controls.specs.Program.{IsProgram, slot_in_standard};
ghost use Rattle.v1_ready_locals.specs.Seen.{code_of};
ghost use Rattle.v1_ready_whole.specs.Parsers.{ready_parser};
ghost use Rattle.v1_ready_whole.specs.Ready.{IsReadyParser};
ghost use Rattle.v1_ready_whole.specs.internal.Counted.{counted};
ghost use Rattle.v1_ready_whole.specs.internal.Standing.{IsParser, IsParserOver};

use crate::blocks::parser_of;
use crate::callees::callees_of;
use crate::slots::{holds_errors, seat_at, standard_slot};
use name_numbers::{Numbering, number_names};
use p4x_bits::{OutOfMemory, Rows};
use p416_scopes::Scope;
use p416_signature::ByName;
use p416_syntax::{Parser16, State, Var};
use state_store::Shape;
use std::alloc::Global;
use v1_block_run::ReadyBlock;
use v1_block_seats::{parser_from, parser_seats, parser_variables};
use v1_core::FrameLayout;
use v1_ready_blocks::{Range, is_range};
use v1_ready_bodies::{OwnVariable, Standing};
use v1_ready_controls::{InBlock, ProgramParts};
use v1_ready_nodes::ReadyNodes;
use v1_ready_parser::ready_parser;
use v1_ready_places::range_of;
use v1_ready_program::NamedSeats;
use v1_ready_states::ReadyParser;
use v1_statement_run::Code;

const PARSER_ERROR: &[u8] = b"parser_error";

/// A number, and so many more. A sum of more bits than an address has counts as want of memory.
fn further(number: usize, count: usize) -> Result<usize, OutOfMemory>
    ensures { IfOk result (λ n. n ≡ number + count) }
{
    match number.checked_add(count) {
        Some(n) => Ok(n),
        None => Err(OutOfMemory),
    }
}

/// The variables of a parser, of which the first has this number.
fn own_variables<'a>(
    alloc: Global,
    first: usize,
    vars: &'a [Var],
) -> Result<Vec<OwnVariable<'a>>, OutOfMemory>
    ensures { IfOk result (λ found. map seen_own found.items ≡ counted first vars.now) }
{
    let mut found = Vec::new(alloc);
    let mut number = first;
    for var in vars {
        found.push(OwnVariable { number, var })?;
        number = further(number, 1)?;
    }
    Ok(found)
}

/// The names of states.
fn names_of<'a>(alloc: Global, states: &'a [State]) -> Result<Numbering<'a>, OutOfMemory>
    ensures { IfOk result (λ names. names ≡ state_names states.now) }
{
    let mut names = Vec::new(alloc);
    for state in states {
        names.push(state.name.as_slice())?;
    }
    number_names(alloc, names)
}

/// A parser that stands in the program: its scope, its names with their seats, its variables, the number of the first variable of
/// its states, and the names of these.
#[derive(Drop)]
struct Standing16<'t, 'a> {
    scope: Scope<'t, 'a>,
    seats: NamedSeats<'a>,
    variables: Vec<OwnVariable<'a>>,
    number: usize,
    names: Numbering<'a>,
}

/// The parser as it stands in the program.
fn standing_in<'t, 'a>(
    alloc: Global,
    program: ProgramParts<'t, 'a>,
    parser: &'a Parser16,
) -> Result<Standing16<'t, 'a>, OutOfMemory>
    requires { IsProgram program }
    ensures { IfOk result (IsParser program.entry parser.now) }
{
    let positions = program.places.of_name(parser.name.as_slice());
    let scope = Scope::of_parser(alloc, program.top, positions, parser)?;
    let first = parser_from(alloc, program.top, program.syntax, parser)?;
    let vars = parser.vars.as_slice();
    let numbers = parser_variables(alloc, first, vars)?;
    let seats = parser_seats(alloc, program.syntax, program.seats, parser, &numbers)?;
    let variables = own_variables(alloc, first, vars)?;
    let number = further(first, vars.len())?;
    let names = names_of(alloc, parser.states.as_slice())?;
    Ok(Standing16 {
        scope,
        seats,
        variables,
        number,
        names,
    })
}

/// The parts of the headers of a program.
#[tactic(auto, using(crate::proofs::Standing::range_is))]
fn headers_of(program: ProgramParts<'_, '_>) -> Result<Range, OutOfMemory>
    requires { IsProgram program }
    ensures { IfOk result (λ r. r ≡ range_of (layouts_of program.entry.syntax.now.decls) (headers_seat program.entry.syntax.now)) }
{
    let Some(seat) = seat_at(program.seats, 0) else {
        return Err(OutOfMemory);
    };
    let range = range_of(program.types, seat)?;
    Ok(range)
}

/// Makes the parser ready that stands in the program so, over these parts of the headers and this slot of `parser_error`.
#[tactic(auto, using(crate::proofs::Standing::types_over))]
fn parser_over<'t, 'a>(
    alloc: Global,
    program: ProgramParts<'t, 'a>,
    parser: &'a Parser16,
    stands: Standing16<'t, 'a>,
    headers: Range,
    error: u32,
    nodes: &mut ReadyNodes<'_>,
) -> Result<Option<ReadyParser>, OutOfMemory>
    requires program { IsProgram program }
    requires stands { IsParser program parser.now stands }
    requires headers { headers ≡ range_of (layouts_of program.syntax.now.decls) (headers_seat program.syntax.now) }
    requires error { Some error ≡ slot_in_standard program.syntax.now (codes "parser_error") }
    requires held { IsHeld nodes.old }
    ensures parser { IfOk result (λ found. option_map (seen_parser nodes.new) found ≡ ready_parser program.entry.syntax.now parser.now) }
    ensures within { IfOk result (λ found. IfSome found (IsParserIn nodes.new)) }
    ensures grows { OnOk result (Grows nodes.old nodes.new) }
{
    let Standing16 {
        scope,
        seats,
        variables,
        number,
        names,
    } = stands;
    let nothing = number_names(alloc, Vec::new(alloc))?;
    let own = ByName::of_control(alloc, &[])?;
    let callees = callees_of(
        program.syntax,
        program.objects,
        program.seats,
        program.checksum_error,
        program.packet_length,
        &nothing,
        &own,
    );
    let singles = InBlock::new(callees);
    let mut standing = Standing {
        scope,
        seats,
        types: program.types,
        number,
    };
    let states = parser.states.as_slice();
    let found = ready_parser(
        alloc,
        &singles,
        nodes,
        &mut standing,
        &names,
        headers,
        error,
        &variables,
        states,
    )?;
    Ok(found)
}

/// Makes the parser ready that stands in the program so.
#[tactic(auto, using(v1_ready_nodes::proofs::Growing::grows_same))]
fn parser_of_standing<'t, 'a>(
    alloc: Global,
    program: ProgramParts<'t, 'a>,
    parser: &'a Parser16,
    stands: Standing16<'t, 'a>,
    nodes: &mut ReadyNodes<'_>,
) -> Result<Option<ReadyParser>, OutOfMemory>
    requires program { IsProgram program }
    requires stands { IsParser program parser.now stands }
    requires held { IsHeld nodes.old }
    ensures parser { IfOk result (λ found. option_map (seen_parser nodes.new) found ≡ ready_parser program.entry.syntax.now parser.now) }
    ensures within { IfOk result (λ found. IfSome found (IsParserIn nodes.new)) }
    ensures grows { OnOk result (Grows nodes.old nodes.new) }
{
    let headers = headers_of(program)?;
    let slot = standard_slot(program.syntax, program.types, program.seats, PARSER_ERROR)?;
    match slot {
        Some(error) => {
            let found = parser_over(alloc, program, parser, stands, headers, error, nodes)?;
            Ok(found)
        }
        None => Ok(None),
    }
}

/// A ready parser with the block of its statements.
#[derive(Drop)]
pub(crate) struct ParserBlock<'l> {
    /// The parser.
    pub(crate) parser: ReadyParser,
    /// The block.
    pub(crate) states: ReadyBlock<'l>,
}

/// Whether the headers of a parser and its slot of `parser_error` are those of a layout.
fn is_over(layout: &FrameLayout, parser: &ReadyParser) -> bool
    ensures { result ≡ true → IsParserOver layout.now parser.now }
{
    is_range(layout, parser.headers) && holds_errors(layout, parser.error)
}

/// A ready parser over what is held.
#[tactic(auto, using(crate::proofs::Making::can_run))]
fn with_code<'l>(alloc: Global, nodes: ReadyNodes<'l>, parser: ReadyParser) -> ParserBlock<'l>
    ensures parser { result.parser ≡ parser }
    ensures code { code_of result.states ≡ nodes.entry }
    ensures runs { IsHeld nodes.entry → nodes.entry.expressions.layout ≡ nodes.entry.statements.ground.layout → IsRunnable result.states }
{
    let ReadyNodes {
        expressions,
        statements,
    } = nodes;
    let states = ReadyBlock {
        code: Code {
            expressions,
            statements,
        },
        actions: Rows::new(alloc),
        tables: Rows::new(alloc),
        body: 0,
    };
    ParserBlock { parser, states }
}

/// Makes the parser of a program ready, over the frames of this layout and objects of these shapes. A program without one, and one
/// whose parser is none, count as want of memory.
pub(crate) fn parser_in<'a, 'l>(
    alloc: Global,
    program: ProgramParts<'_, 'a>,
    layout: &'l FrameLayout,
    shapes: &[Shape],
) -> Result<ParserBlock<'l>, OutOfMemory>
    requires { IsProgram program }
    ensures { IfOk result (λ made. IsReadyParser program.entry.syntax.now layout.now shapes.now made.states made.parser) }
{
    let Some(parser) = parser_of(program.syntax) else {
        return Err(OutOfMemory);
    };
    let stands = standing_in(alloc, program, parser)?;
    let mut nodes = ReadyNodes::new(alloc, layout, shapes)?;
    let found = parser_of_standing(alloc, program, parser, stands, &mut nodes)?;
    let Some(ready) = found else {
        return Err(OutOfMemory);
    };
    if !is_over(layout, &ready) {
        return Err(OutOfMemory);
    }
    Ok(with_code(alloc, nodes, ready))
}
