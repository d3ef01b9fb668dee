// The controls of a program as a graph.
ghost use Rattle.std.specs.Prelude.{◌≡◌, ◌++◌, ◌∷◌, [], map, filter_map, flat_map, option_to_list, IfOk, OnOk};
ghost use Rattle.std.specs.List.{cons_option};
ghost use Rattle.p414_syntax.specs.ControlExpansion.{calls_in, control_in, control_number, own_call};
ghost use Rattle.p414_control_check.specs.Edges.{with_edges};
ghost use Rattle.p414_control_check.specs.internal.Expanded.{control_graph};

use crate::controls::Controls;
use digraph::Digraph;
use p4x_bits::OutOfMemory;
use p414_syntax::{Control, Decl, StmtHead, StmtView, all_statements};
use std::alloc::Global;

/// Adds the edge to a control, if there is one.
pub fn add_edge_to(graph: &mut Digraph, target: Option<usize>) -> Result<(), OutOfMemory>
    ensures { OnOk result (graph.new ≡ with_edges graph.old (cons_option target [])) }
{
    match target {
        Some(target) => graph.add_edge(target),
        None => Ok(()),
    }
}

/// Adds the edge to the control that a statement calls, if it calls one.
fn add_call(
    graph: &mut Digraph,
    controls: &Controls<'_, '_>,
    statement: &StmtView<'_>,
) -> Result<(), OutOfMemory>
    ensures { OnOk result (graph.new ≡ with_edges graph.old (filter_map (control_number controls.now) (own_call statement.now))) }
{
    match statement.head() {
        StmtHead::Call(name) => add_edge_to(graph, controls.number(name.as_slice())),
        _ => Ok(()),
    }
}

/// Adds the edges to the controls that these statements call.
#[tactic(auto, using(crate::proofs::Loops::calls_now))]
fn add_calls(
    graph: &mut Digraph,
    controls: &Controls<'_, '_>,
    statements: &[StmtView<'_>],
) -> Result<(), OutOfMemory>
    ensures { OnOk result (graph.new ≡ with_edges graph.old (filter_map (control_number controls.now) (flat_map own_call statements.now))) }
{
    for statement in statements {
        add_call(graph, controls, statement)?;
    }
    Ok(())
}

/// Adds the node of a control, and its edges.
#[tactic(auto, using(crate::proofs::Loops::node_with))]
fn add_control(
    graph: &mut Digraph,
    alloc: Global,
    controls: &Controls<'_, '_>,
    control: &Control,
) -> Result<(), OutOfMemory>
    ensures { OnOk result (graph.new ≡ graph.old ++ calls_in controls.now control.now ∷ []) }
{
    let statements = all_statements(alloc, control)?;
    graph.add_node()?;
    add_calls(graph, controls, statements.as_slice())
}

/// The same of a declaration, if it is a control.
fn add_decl(
    graph: &mut Digraph,
    alloc: Global,
    controls: &Controls<'_, '_>,
    decl: &Decl,
) -> Result<(), OutOfMemory>
    ensures { OnOk result (graph.new ≡ graph.old ++ map (calls_in controls.now) (option_to_list (control_in decl.now))) }
{
    match decl {
        Decl::Control(control) => add_control(graph, alloc, controls, control),
        _ => Ok(()),
    }
}

/// The controls of a program as a graph: each leads to the controls that it calls.
#[tactic(auto, using(crate::proofs::Loops::control_now))]
pub fn control_graph(alloc: Global, controls: &Controls<'_, '_>) -> Result<Digraph, OutOfMemory>
    ensures { IfOk result (λ graph. graph ≡ control_graph controls.now) }
{
    let mut graph = Digraph::new(alloc);
    for decl in controls.decls() {
        add_decl(&mut graph, alloc, controls, decl)?;
    }
    Ok(graph)
}
