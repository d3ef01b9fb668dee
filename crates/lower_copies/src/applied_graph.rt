// The controls and tables of a program as a graph.
ghost use Rattle.std.specs.Prelude.{◌≡◌, ◌++◌, ◌∷◌, [], map, flat_map, option_map, option_to_list, IfOk, OnOk};
ghost use Rattle.std.specs.List.{cons_option};
ghost use Rattle.p414_control_check.specs.Edges.{with_edges};
ghost use Rattle.p414_syntax.specs.ControlExpansion.{control_in};
ghost use Rattle.p414_syntax.specs.Tables.{table_in};
ghost use Rattle.p414_pipeline_check.specs.internal.Applied.{applied_graph, control_row, control_rows, leads_to, named_table, table_row, table_rows};

use digraph::Digraph;
use p4x_bits::OutOfMemory;
use p414_control_check::{Controls, add_edge_to};
use p414_syntax::{Control, Decl, Sort, StmtHead, StmtView, all_statements};
use std::alloc::Global;

/// The node of the table with a name, if there is one: tables stand behind the controls.
fn named_table(controls: &Controls<'_, '_>, name: &[u8]) -> Result<Option<usize>, OutOfMemory>
    ensures { IfOk result (λ node. node ≡ named_table controls.now name.now) }
{
    match controls.names().number_of(Sort::Table, name) {
        Some(table) => match controls.len().checked_add(table) {
            Some(node) => Ok(Some(node)),
            None => Err(OutOfMemory),
        },
        None => Ok(None),
    }
}

/// Adds the edge to the table with a name, if there is one.
fn add_table_edge(
    graph: &mut Digraph,
    controls: &Controls<'_, '_>,
    name: &[u8],
) -> Result<(), OutOfMemory>
    ensures { OnOk result (graph.new ≡ with_edges graph.old (cons_option (named_table controls.now name.now) [])) }
{
    let node = named_table(controls, name)?;
    add_edge_to(graph, node)
}

/// Adds the edge to the control that a statement calls, or the table that it applies, if it does.
fn add_statement(
    graph: &mut Digraph,
    controls: &Controls<'_, '_>,
    statement: &StmtView<'_>,
) -> Result<(), OutOfMemory>
    ensures { OnOk result (graph.new ≡ with_edges graph.old (leads_to controls.now statement.now)) }
{
    match statement.head() {
        StmtHead::Call(name) => add_edge_to(graph, controls.number(name.as_slice())),
        StmtHead::Apply(table) => add_table_edge(graph, controls, table.as_slice()),
        StmtHead::ApplyBranches(table, _) => add_table_edge(graph, controls, table.as_slice()),
        _ => Ok(()),
    }
}

/// The same of these statements.
#[tactic(auto, using(p414_pipeline_check::proofs::Loops::statements_now))]
fn add_statements(
    graph: &mut Digraph,
    controls: &Controls<'_, '_>,
    statements: &[StmtView<'_>],
) -> Result<(), OutOfMemory>
    ensures { OnOk result (graph.new ≡ with_edges graph.old (flat_map (leads_to controls.now) statements.now)) }
{
    for statement in statements {
        add_statement(graph, controls, statement)?;
    }
    Ok(())
}

/// Adds the node of a control, and its edges.
#[tactic(auto, using(p414_control_check::proofs::Loops::node_with))]
fn add_control(
    graph: &mut Digraph,
    alloc: Global,
    controls: &Controls<'_, '_>,
    control: &Control,
) -> Result<(), OutOfMemory>
    ensures { OnOk result (graph.new ≡ graph.old ++ control_row controls.now control.now ∷ []) }
{
    let statements = all_statements(alloc, control)?;
    graph.add_node()?;
    add_statements(graph, controls, statements.as_slice())
}

/// The same of a declaration, if it is a control.
fn add_control_in(
    graph: &mut Digraph,
    alloc: Global,
    controls: &Controls<'_, '_>,
    decl: &Decl,
) -> Result<(), OutOfMemory>
    ensures { OnOk result (graph.new ≡ graph.old ++ map (control_row controls.now) (option_to_list (control_in decl.now))) }
{
    match decl {
        Decl::Control(control) => add_control(graph, alloc, controls, control),
        _ => Ok(()),
    }
}

/// Adds the node of a declaration, if it is a table.
fn add_table_in(graph: &mut Digraph, decl: &Decl) -> Result<(), OutOfMemory>
    ensures { OnOk result (graph.new ≡ graph.old ++ map table_row (option_to_list (table_in decl.now))) }
{
    match decl {
        Decl::Table(_) => graph.add_node(),
        _ => Ok(()),
    }
}

/// The graph of the controls, with edges to tables that have no nodes yet.
#[tactic(auto, using(p414_pipeline_check::proofs::Loops::control_now))]
fn control_rows(alloc: Global, controls: &Controls<'_, '_>) -> Result<Digraph, OutOfMemory>
    ensures { IfOk result (λ graph. graph ≡ control_rows controls.now) }
{
    let mut graph = Digraph::new(alloc);
    for decl in controls.decls() {
        add_control_in(&mut graph, alloc, controls, decl)?;
    }
    Ok(graph)
}

/// Adds the nodes of the tables.
#[tactic(auto, using(p414_pipeline_check::proofs::Loops::table_now))]
fn add_tables(graph: &mut Digraph, decls: &[Decl]) -> Result<(), OutOfMemory>
    ensures { OnOk result (graph.new ≡ graph.old ++ table_rows decls.now) }
{
    for decl in decls {
        add_table_in(graph, decl)?;
    }
    Ok(())
}

/// The controls and tables of a program as a graph: each control leads to the controls that it calls and to the tables
/// that it applies.
pub fn applied_graph(alloc: Global, controls: &Controls<'_, '_>) -> Result<Digraph, OutOfMemory>
    ensures { IfOk result (λ graph. graph ≡ applied_graph controls.now) }
{
    let mut graph = control_rows(alloc, controls)?;
    add_tables(&mut graph, controls.decls())?;
    Ok(graph)
}
