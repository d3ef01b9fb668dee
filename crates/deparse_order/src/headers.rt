// The order in which headers leave.
ghost use Rattle.std.specs.Prelude.{◌<◌, List, length, IfOk, MatchOption};
ghost use Rattle.p414_syntax.specs.declared.syntax.Decl.{Decl};
ghost use Rattle.parse_graph.specs.Graphs.{IsWhole};
ghost use Rattle.least_order.specs.Orders.{HasNoOrder, IsLeastOrder};
ghost use Rattle.deparse_order.specs.Orders.{IsAnswer, IsBefore, IsExtracted};
ghost use Rattle.deparse_order.specs.Programs.{AnswersProgram, IsProgramGraph};

use crate::fault::OrderFault;
use crate::lists::{extract_lists, narrowed, next_lists};
use least_order::least_order;
use p4x_bits::{OutOfMemory, Rows};
use parse_graph::Graph;
use std::alloc::Global;

/// The order in which headers leave: all instances that a state extracts which the start reaches, each once, by their
/// numbers; none stands behind one that it is before on a walk from the start; and of these orders it is the least,
/// compared number by number from the front. The fault `Cycle` is given exactly where there is no such order. In time
/// O(n log n) for n states, extracts and written transitions, and linear in the number of instances.
pub fn order(alloc: Global, graph: &Graph) -> Result<Rows<u32>, OrderFault>
    requires whole { IsWhole graph.now.states }
    requires start { graph.now.start < length graph.now.states }
    ensures answer { IsAnswer graph.now result }
    ensures program { (ds : List Decl) → IsProgramGraph ds graph.now → AnswersProgram ds result }
{
    match least(alloc, graph) {
        Ok(Some(order)) => Ok(order),
        Ok(None) => Err(OrderFault::Cycle),
        Err(_) => Err(OrderFault::Memory),
    }
}

/// The least order, if there is one.
fn least(alloc: Global, graph: &Graph) -> Result<Option<Rows<u32>>, OutOfMemory>
    requires whole { IsWhole graph.now.states }
    requires start { graph.now.start < length graph.now.states }
    ensures { IfOk result (λ found. MatchOption found (HasNoOrder (IsExtracted graph.now) (IsBefore graph.now)) (λ order. IsLeastOrder (IsExtracted graph.now) (IsBefore graph.now) order)) }
{
    let states = graph.states.as_slice();
    let edges = next_lists(alloc, states)?;
    let lists = extract_lists(alloc, states)?;
    let start = graph.start as usize;
    match least_order(alloc, &edges, lists.as_slice(), start)? {
        None => Ok(None),
        Some(order) => Ok(Some(narrowed(alloc, order.as_slice())?)),
    }
}
