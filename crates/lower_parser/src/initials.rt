// The initial values of metadata.
ghost use Rattle.std.specs.Prelude.{◌≡◌, map, codes, IfOk};
ghost use Rattle.p414_slots.specs.Shown.{slot_in};
ghost use Rattle.p416_syntax.specs.Tree.{no_statements};
ghost use Rattle.lower_laws_actions.specs.Mirror.{behind_stmts};
ghost use Rattle.lower_laws_parser.specs.Words.{next_of};
ghost use Rattle.lower_expressions.specs.Has.{SlotHas};
ghost use Rattle.lower_expressions.specs.Making.{MakesStmt};
ghost use Rattle.lower_expressions.specs.Table.{words_in};
ghost use Rattle.lower_parser.specs.Has.{InitialsHave};
ghost use Rattle.lower_parser.specs.Rows.{row_initial, row_start};
ghost use Rattle.lower_parser.specs.Written.{parser_names};

use crate::names::StateNames;
use lower_expressions::{ReadAt, WordsTable, literal, slot_expression, slot_width};
use p4x_bits::{OutOfMemory, Text};
use p414_ready_parser::InitialRow;
use p416_syntax::{Block16, Nodes, State, StmtNode, Transition};
use std::alloc::Global;

/// A field of metadata gets its initial value.
fn initial(
    alloc: Global,
    nodes: &mut Nodes,
    table: &WordsTable<'_>,
    row: InitialRow,
) -> Result<usize, OutOfMemory>
    requires { SlotHas (words_in table.now) (slot_in row.slot) }
    ensures { IfOk result (λ place. MakesStmt nodes.old nodes.new place (row_initial (words_in table.now) row)) }
{
    let field = slot_expression(alloc, nodes, table, ReadAt::Now, row.slot)?;
    let value = literal(nodes, slot_width(table, row.slot), row.value)?;
    let place = nodes.statement(StmtNode::Assign(field, value))?;
    Ok(place)
}

/// All fields of metadata get their initial values.
fn initials(
    alloc: Global,
    nodes: &mut Nodes,
    table: &WordsTable<'_>,
    rows: &[InitialRow],
) -> Result<usize, OutOfMemory>
    requires { InitialsHave (words_in table.now) rows.now }
    ensures { IfOk result (λ place. MakesStmt nodes.old nodes.new place (behind_stmts no_statements (map (row_initial (words_in table.now)) rows.now))) }
{
    let mut done = nodes.statement(StmtNode::NoStatements)?;
    for row in rows {
        let next = initial(alloc, nodes, table, *row)?;
        done = nodes.statement(StmtNode::Then(done, next))?;
    }
    Ok(done)
}

/// The state in front of all others.
pub fn start(
    alloc: Global,
    table: &WordsTable<'_>,
    names: &StateNames<'_, '_>,
    rows: &[InitialRow],
) -> Result<State, OutOfMemory>
    requires { InitialsHave (words_in table.now) rows.now }
    ensures { IfOk result (λ state. state ≡ row_start (words_in table.now) rows.now (next_of names.now (parser_names names.now) (codes "start"))) }
{
    let mut nodes = Nodes::new(alloc);
    let place = initials(alloc, &mut nodes, table, rows)?;
    let body = Block16::new(nodes, place);
    let name = Text::from_slice(alloc, b"start")?;
    let transition = Transition::Go(names.target(alloc, b"start")?);
    Ok(State {
        name,
        body,
        transition,
    })
}
