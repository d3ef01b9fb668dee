// A parser that is ready to run.
ghost use Rattle.std.specs.Prelude.{◌≡◌, ◌++◌, flat_map, map, option_to_list, IfOk, OnOk};
ghost use Rattle.p414_syntax.specs.ParserGraph.{state_in, states};
ghost use Rattle.p414_ready_parser.specs.Rows.{initial_row, initials_in, ready_rows, state_row};
ghost use Rattle.p414_ready_parser.specs.Meaning.{Means};

use crate::ends::end_row;
use crate::names::ParserNames;
use crate::numbers::wrapped;
use crate::rows::{InitialRow, Next, ReadyState};
use crate::statements::{last_of, statement_rows};
use p4x_bits::{OutOfMemory, Rows};
use p414_names::Names14;
use p414_syntax::{Decl, Initial, Parser};
use std::alloc::Global;

/// The parser of a program, ready to run: the initial values of metadata, the states by number, and where parsing begins.
pub struct ReadyParser {
    /// The initial values, in order.
    pub initials: Rows<InitialRow>,
    /// The states, in the order of the text.
    pub states: Rows<ReadyState>,
    /// Where parsing begins.
    pub start: Next,
}

impl Drop for ReadyParser {
    fn drop(self) {
        let ReadyParser {
            initials: _initials,
            states: _states,
            start: _start,
        } = self;
    }
}

/// A state of the parser.
fn state_row(
    alloc: Global,
    names: &ParserNames<'_, '_>,
    state: &Parser,
) -> Result<ReadyState, OutOfMemory>
    ensures { IfOk result (λ row. row ≡ state_row names.now state.now) }
{
    let statements = statement_rows(alloc, names.slots(), state.statements.as_slice())?;
    let latest = last_of(state.statements.as_slice());
    let end = end_row(alloc, names, latest, &state.end)?;
    Ok(ReadyState { statements, end })
}

/// Puts a state last, if a declaration is one.
fn add_state(
    alloc: Global,
    found: &mut Rows<ReadyState>,
    names: &ParserNames<'_, '_>,
    decl: &Decl,
) -> Result<(), OutOfMemory>
    ensures { OnOk result (found.new ≡ found.old ++ map (state_row names.now) (option_to_list (state_in decl.now))) }
{
    if let Decl::Parser(state) = decl {
        found.push(state_row(alloc, names, state)?)?;
    }
    Ok(())
}

/// The states of the parser, in order.
#[tactic(auto, using(crate::proofs::Loops::kept_now))]
fn state_rows(
    alloc: Global,
    names: &ParserNames<'_, '_>,
    decls: &[Decl],
) -> Result<Rows<ReadyState>, OutOfMemory>
    ensures { IfOk result (λ rows. rows ≡ map (state_row names.now) (states decls.now)) }
{
    let mut found = Rows::new(alloc);
    for decl in decls {
        add_state(alloc, &mut found, names, decl)?;
    }
    Ok(found)
}

/// The initial value of a field of an instance.
fn initial_row(
    names: &ParserNames<'_, '_>,
    instance: &[u8],
    initial: &Initial,
) -> Result<InitialRow, OutOfMemory>
    ensures { IfOk result (λ row. row ≡ initial_row names.now instance.now initial.now) }
{
    let slots = names.slots();
    let slot = slots.slot_of_field(instance, initial.field.as_slice())?;
    let width = slots.bits_of_field(instance, initial.field.as_slice())?;
    let value = wrapped(width, initial.value)?;
    Ok(InitialRow { slot, value })
}

/// Puts the initial values of an instance last.
fn add_initials(
    found: &mut Rows<InitialRow>,
    names: &ParserNames<'_, '_>,
    instance: &[u8],
    initials: &[Initial],
) -> Result<(), OutOfMemory>
    ensures { OnOk result (found.new ≡ found.old ++ map (initial_row names.now instance.now) initials.now) }
{
    for initial in initials {
        found.push(initial_row(names, instance, initial)?)?;
    }
    Ok(())
}

/// Puts the initial values of a declaration last, if it is one of metadata.
fn add_metadata(
    found: &mut Rows<InitialRow>,
    names: &ParserNames<'_, '_>,
    decl: &Decl,
) -> Result<(), OutOfMemory>
    ensures { OnOk result (found.new ≡ found.old ++ initials_in names.now decl.now) }
{
    match decl {
        Decl::Metadata(declared) => add_initials(
            found,
            names,
            declared.name.as_slice(),
            declared.initial_values(),
        ),
        _ => Ok(()),
    }
}

/// The initial values of all metadata, in order.
fn initial_rows(
    alloc: Global,
    names: &ParserNames<'_, '_>,
    decls: &[Decl],
) -> Result<Rows<InitialRow>, OutOfMemory>
    ensures { IfOk result (λ rows. rows ≡ flat_map (initials_in names.now) decls.now) }
{
    let mut found = Rows::new(alloc);
    for decl in decls {
        add_metadata(&mut found, names, decl)?;
    }
    Ok(found)
}

/// The rows of a program's parser.
fn rows_of(
    alloc: Global,
    names: &ParserNames<'_, '_>,
    decls: &[Decl],
) -> Result<ReadyParser, OutOfMemory>
    requires { names.now ≡ decls.now }
    ensures { IfOk result (λ parser. parser ≡ ready_rows decls.now) }
{
    let initials = initial_rows(alloc, names, decls)?;
    let states = state_rows(alloc, names, decls)?;
    let start = names.next(b"start".as_slice());
    Ok(ReadyParser {
        initials,
        states,
        start,
    })
}

/// The parser of the program of these names, ready to run (P4_14 1.0.5, "Parser Specification"): run on a state whose
/// headers are all invalid, its rows end as parsing of the program does and leave the same state. In time O(n log n) in the
/// program; the one error is want of memory, which numbers count as that are too large to keep, such as no program has that
/// breaks no rule.
#[tactic(auto, using(crate::proofs::Parsing::rows_mean))]
pub fn ready_parser(alloc: Global, names: &Names14<'_>) -> Result<ReadyParser, OutOfMemory>
    ensures is { IfOk result (λ parser. parser ≡ ready_rows names.now) }
    ensures means { IfOk result (Means names.now) }
{
    let parser_names = ParserNames::of(alloc, names)?;
    rows_of(alloc, &parser_names, names.decls())
}
