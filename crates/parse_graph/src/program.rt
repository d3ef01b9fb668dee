// The graph of a program's parser states (P4_14 1.0.5, "Parser Specification").
ghost use Rattle.std.specs.Prelude.{◌≡◌, ◌↔◌, ℕ, false, filter_map, map, IfOk};
ghost use Rattle.p414_syntax.specs.ParserGraph.{state_number, extracts_in, next_in, case_target_of, states, HasIdleCycle};
ghost use Rattle.parse_graph.specs.Graphs.{IsWhole, IsIdle};
ghost use Rattle.p414_syntax.specs.Unknown.{lacks_start};
ghost use Rattle.parse_graph.specs.Programs.{IsGraph, BeginsInStart, node_of};

use crate::names::Names;
use crate::nodes::{Graph, StateNode};
use p4x_bits::{Numbers, OutOfMemory, Rows};
use p414_syntax::{Case, CaseTarget, Decl, PStmt, Parser, Return, Syntax14};
use std::alloc::Global;

/// What a state extracts, in order.
fn extracts_of(alloc: Global, names: &Names<'_>, state: &Parser) -> Result<Rows<u32>, OutOfMemory>
    ensures { IfOk result (λ extracts. extracts ≡ extracts_in names.now state.now) }
{
    let mut extracts = Rows::new(alloc);
    for statement in state.statements.as_slice() {
        if let PStmt::Extract(instance) = statement {
            extracts.push(names.instance_number(instance.name.as_slice())?)?;
        }
    }
    Ok(extracts)
}

/// The states that these cases name, in the order of the text.
fn next_of_cases(alloc: Global, names: &Names<'_>, cases: &[Case]) -> Result<Rows<u32>, OutOfMemory>
    ensures { IfOk result (λ next. next ≡ filter_map (state_number names.now) (filter_map case_target_of cases.now)) }
{
    let mut next = Rows::new(alloc);
    for case in cases {
        if let CaseTarget::State(name) = &case.target
            && let Some(state) = names.state_number(name.as_slice())
        {
            next.push(state)?;
        }
    }
    Ok(next)
}

/// The states that a state's return names, in the order of the text.
fn next_of(alloc: Global, names: &Names<'_>, state: &Parser) -> Result<Rows<u32>, OutOfMemory>
    ensures { IfOk result (λ next. next ≡ next_in names.now state.now) }
{
    match &state.end {
        Return::Select(_, cases) => next_of_cases(alloc, names, cases.as_slice()),
        Return::State(name) => {
            let mut next = Rows::new(alloc);
            if let Some(state) = names.state_number(name.as_slice()) {
                next.push(state)?;
            }
            Ok(next)
        }
        Return::ParseError(_) => Ok(Rows::new(alloc)),
    }
}

/// A state as a node of the graph.
fn node_of(alloc: Global, names: &Names<'_>, state: &Parser) -> Result<StateNode, OutOfMemory>
    ensures { IfOk result (λ node. node ≡ node_of names.now state.now) }
{
    Ok(StateNode {
        extracts: extracts_of(alloc, names, state)?,
        next: next_of(alloc, names, state)?,
    })
}

/// The states of these declarations as nodes, in the order of the text.
fn nodes_of(
    alloc: Global,
    names: &Names<'_>,
    decls: &[Decl],
) -> Result<Rows<StateNode>, OutOfMemory>
    ensures { IfOk result (λ nodes. nodes ≡ map (node_of names.now) (states decls.now)) }
{
    let mut nodes = Rows::new(alloc);
    for decl in decls {
        if let Decl::Parser(state) = decl {
            nodes.push(node_of(alloc, names, state)?)?;
        }
    }
    Ok(nodes)
}

/// The parser states of a program as a graph, which begins in the state `start`. A name that no state has leads to none, and
/// where no state is named `start`, which C2 refuses, the graph begins in state 0. In time linear in the syntax but for the search of names; the one error
/// is want of memory.
pub fn graph(alloc: Global, syntax: &Syntax14) -> Result<Graph, OutOfMemory>
    ensures graph { IfOk result (IsGraph syntax.now.decls) }
    ensures whole { IfOk result (λ g. IsWhole g.states) }
    ensures idle { IfOk result (λ g. HasIdleCycle syntax.now.decls ↔ ((s : ℕ) × IsIdle g.states s)) }
    ensures start { IfOk result (λ g. lacks_start syntax.now.decls ≡ false → BeginsInStart syntax.now.decls g) }
{
    let decls = syntax.decls.as_slice();
    let names = Names::of(alloc, decls)?;
    let states = nodes_of(alloc, &names, decls)?;
    let start = names.state_number(b"start".as_slice()).unwrap_or_default();
    Ok(Graph { states, start })
}
