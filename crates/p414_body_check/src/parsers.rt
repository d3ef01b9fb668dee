// C9 and C10: the parser states of a program as a graph.
ghost use Rattle.std.specs.Prelude.{◌≡◌, ◌∷◌, [], false, IfOk};
ghost use Rattle.p414_syntax.specs.Breaks.{BreaksNone, declaration_rules};
ghost use Rattle.p414_syntax.specs.Exact.{IsExact};
ghost use Rattle.p414_syntax.specs.ParserGraph.{HasIdleCycle, HasNoOrder};
ghost use Rattle.p414_syntax.specs.Unknown.{lacks_start};
ghost use Rattle.p414_syntax.specs.declared.rule.ProgramRule.TheVariants.{C9, C10};
ghost use Rattle.p414_body_check.specs.internal.Steps.{Keeps};
ghost use Rattle.p414_body_check.specs.internal.States.{IsGraphOf};

use crate::fault::{Check14, refusal};
use deparse_order::{OrderFault, order};
use p4x_bits::OutOfMemory;
use p414_syntax::{ProgramRule, Syntax14};
use parse_graph::{Graph, first_idle_cycle, graph};
use std::alloc::Global;

/// The graph of the parser states.
fn graph_of(alloc: Global, syntax: &Syntax14) -> Result<Graph, OutOfMemory>
    requires { lacks_start syntax.now.decls ≡ false }
    ensures { IfOk result (IsGraphOf syntax.now.decls) }
{
    graph(alloc, syntax)
}

/// Whether a cycle of states extracts nothing.
fn has_idle_cycle(alloc: Global, syntax: &Syntax14, graph: &Graph) -> Result<bool, OutOfMemory>
    requires { IsGraphOf syntax.now.decls graph.now }
    ensures { IfOk result (λ idle. IsExact idle (HasIdleCycle syntax.now.decls)) }
{
    match first_idle_cycle(alloc, graph)? {
        Some(_) => Ok(true),
        None => Ok(false),
    }
}

/// Whether no order of the headers inverts no pair.
fn has_no_order(alloc: Global, syntax: &Syntax14, graph: &Graph) -> Result<bool, OutOfMemory>
    requires { IsGraphOf syntax.now.decls graph.now }
    ensures { IfOk result (λ none. IsExact none (HasNoOrder syntax.now.decls)) }
{
    match order(alloc, graph) {
        Ok(_) => Ok(false),
        Err(OrderFault::Cycle) => Ok(true),
        Err(OrderFault::Memory) => Err(OutOfMemory),
    }
}

/// Judges the parser states, given their graph.
fn judge_graph(alloc: Global, syntax: &Syntax14, graph: &Graph) -> Result<(), Check14>
    requires { IsGraphOf syntax.now.decls graph.now }
    ensures { Keeps syntax.now.decls (C9 ∷ C10 ∷ []) result }
{
    if has_idle_cycle(alloc, syntax, graph)? {
        return Err(refusal(ProgramRule::C9));
    }
    if has_no_order(alloc, syntax, graph)? {
        return Err(refusal(ProgramRule::C10));
    }
    Ok(())
}

/// Judges the parser states of a program with a state `start`.
pub fn judge_parser(alloc: Global, syntax: &Syntax14) -> Result<(), Check14>
    requires { lacks_start syntax.now.decls ≡ false }
    ensures { Keeps syntax.now.decls (C9 ∷ C10 ∷ []) result }
{
    let graph = graph_of(alloc, syntax)?;
    judge_graph(alloc, syntax, &graph)
}
