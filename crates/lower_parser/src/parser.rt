// The whole parser.
ghost use Rattle.std.specs.Prelude.{◌≡◌, ◌++◌, [], map, option_to_list, codes, IfOk, OnOk};
ghost use Rattle.p414_syntax.specs.References.{referred};
ghost use Rattle.p414_syntax.specs.ParserGraph.{state_in, states};
ghost use Rattle.p414_ready_parser.specs.Rows.{ready_rows, state_row};
ghost use Rattle.lower_laws_names.specs.Instances.{shown_instances};
ghost use Rattle.lower_laws_parser.specs.Words.{next_of, state_of};
ghost use Rattle.lower_laws_program.specs.Program.{parser_parameters};
ghost use Rattle.lower_rows.specs.Named.{instance_shown};
ghost use Rattle.lower_expressions.specs.Table.{words_in};
ghost use Rattle.lower_parser.specs.Has.{InitialsHave, StatesHave};
ghost use Rattle.lower_parser.specs.Laws.{IsLowered};
ghost use Rattle.lower_parser.specs.Rows.{row_front};
ghost use Rattle.lower_parser.specs.Written.{NamesAre, parser_names};

use crate::fits::{initials_have, states_have};
use crate::initials::start;
use crate::names::StateNames;
use crate::parameters::parser_parameters;
use crate::states::state;
use lower_expressions::{Variables, WordsTable};
use lower_rows::InstanceRow;
use p4x_bits::{OutOfMemory, Rows, Text};
use p414_names::Names14;
use p414_ready_parser::{InitialRow, ReadyParser, ReadyState, ready_parser};
use p414_syntax::{Decl, Parser};
use p416_syntax::{Parser16, State};
use std::alloc::Global;

/// Puts a state last, if a declaration is one.
fn add_state<'a>(found: &mut Vec<&'a Parser>, decl: &'a Decl) -> Result<(), OutOfMemory>
    ensures { OnOk result (map referred found.new.items ≡ map referred found.old.items ++ option_to_list (state_in decl.now)) }
{
    if let Decl::Parser(state) = decl {
        found.push(state)?;
    }
    Ok(())
}

/// The states of a program, in order.
#[tactic(auto, using(crate::proofs::Loops::picked_now))]
fn states_in(alloc: Global, decls: &[Decl]) -> Result<Vec<&Parser>, OutOfMemory>
    ensures { IfOk result (λ found. map referred found.items ≡ states decls.now) }
{
    let mut found = Vec::new(alloc);
    for decl in decls {
        add_state(&mut found, decl)?;
    }
    Ok(found)
}

/// Puts the state that writes the initial values last, where there are some.
fn add_front(
    alloc: Global,
    made: &mut Rows<State>,
    table: &WordsTable<'_>,
    names: &StateNames<'_, '_>,
    rows: &[InitialRow],
) -> Result<(), OutOfMemory>
    requires { InitialsHave (words_in table.now) rows.now }
    ensures { OnOk result (made.new ≡ made.old ++ row_front (words_in table.now) rows.now (next_of names.now (parser_names names.now) (codes "start"))) }
{
    if rows.is_empty() {
        return Ok(());
    }
    made.push(start(alloc, table, names, rows)?)
}

/// Puts these states last, which have these rows.
#[tactic(auto, using(crate::proofs::Starting::row_inside, crate::proofs::Starting::row_is, crate::proofs::Starting::state_has, crate::proofs::Starting::state_there, crate::proofs::Starting::states_end))]
fn add_states(
    alloc: Global,
    made: &mut Rows<State>,
    table: &WordsTable<'_>,
    names: &StateNames<'_, '_>,
    rows: &[ReadyState],
    found: &[&Parser],
) -> Result<(), OutOfMemory>
    requires names { NamesAre names.now (words_in table.now) }
    requires found { map referred found.now ≡ states names.now }
    requires rows { rows.now ≡ map (state_row names.now) (states names.now) }
    requires have { StatesHave (words_in table.now) rows.now }
    ensures { OnOk result (made.new ≡ made.old ++ map (state_of names.now (parser_names names.now)) (states names.now)) }
{
    for i in 0..found.len() {
        made.push(state(alloc, table, names, &rows[i], found[i])?)?;
    }
    Ok(())
}

/// The states of a parser that has these rows.
fn states_of(
    alloc: Global,
    table: &WordsTable<'_>,
    names: &Names14<'_>,
    ready: &ReadyParser,
) -> Result<Rows<State>, OutOfMemory>
    requires names { NamesAre names.now (words_in table.now) }
    requires ready { ready.now ≡ ready_rows names.now }
    requires initials { InitialsHave (words_in table.now) ready.now.initials }
    requires states { StatesHave (words_in table.now) ready.now.states }
    ensures { IfOk result (λ made. made ≡ row_front (words_in table.now) ready.now.initials (next_of names.now (parser_names names.now) (codes "start")) ++ map (state_of names.now (parser_names names.now)) (states names.now)) }
{
    let mut made = Rows::new(alloc);
    let states = StateNames::of(alloc, names)?;
    add_front(alloc, &mut made, table, &states, ready.initials.as_slice())?;
    let found = states_in(alloc, names.decls())?;
    add_states(
        alloc,
        &mut made,
        table,
        &states,
        ready.states.as_slice(),
        found.as_slice(),
    )?;
    Ok(made)
}

/// The table of the names that a parser is written with.
#[tactic(auto, using(crate::proofs::SameParsers::names_are))]
fn table_of<'t>(names: &Names14<'_>, instances: &'t [InstanceRow]) -> WordsTable<'t>
    requires { map instance_shown instances.now ≡ shown_instances names.now }
    ensures { NamesAre names.now (words_in result) }
{
    WordsTable {
        variables: Variables::Nothing,
        instances,
        marks: &[],
        objects: &[],
        parameters: &[],
        calculations: &[],
    }
}

/// The parser with these states.
fn parser_of(alloc: Global, states: Rows<State>) -> Result<Parser16, OutOfMemory>
    ensures { IfOk result (λ made. made ≡ record { name = codes "P"; parameters = parser_parameters; vars = []; states = states }) }
{
    let name = Text::from_slice(alloc, b"P")?;
    let parameters = parser_parameters(alloc)?;
    Ok(Parser16 {
        name,
        parameters,
        vars: Rows::new(alloc),
        states,
    })
}

/// The parser of a program with these instances (P4_16 1.2, "Packet parsing"). Of declarations that were read from a text and
/// break no rule it is the one that the laws of the lowering speak of, and they hold of it. The one error is want of memory, which
/// names count as that nothing has, and numbers that are too large to keep: such as no program has that breaks no rule. It takes
/// time O(n log n) in the program.
pub fn lower_parser(
    alloc: Global,
    names: &Names14<'_>,
    instances: &[InstanceRow],
) -> Result<Parser16, OutOfMemory>
    requires { map instance_shown instances.now ≡ shown_instances names.now }
    ensures { IfOk result (IsLowered names.now) }
{
    let ready = ready_parser(alloc, names)?;
    let table = table_of(names, instances);
    if !initials_have(&table, ready.initials.as_slice()) {
        return Err(OutOfMemory);
    }
    if !states_have(&table, ready.states.as_slice()) {
        return Err(OutOfMemory);
    }
    let states = states_of(alloc, &table, names, &ready)?;
    let parser = parser_of(alloc, states)?;
    Ok(parser)
}
