// The order of a program's headers.
ghost use Rattle.std.specs.Prelude.{IfOk};
ghost use Rattle.p414_body_check.specs.Answers.{IsAccepted};
ghost use Rattle.p414_syntax.specs.ParserGraph.{Order};

use deparse_order::OrderFault;
use p4x_bits::{OutOfMemory, Rows};
use p414_body_check::Program14;
use p414_syntax::Syntax14;
use parse_graph::graph;
use std::alloc::Global;

/// The same of a syntax that breaks no rule.
fn order_of(alloc: Global, syntax: &Syntax14) -> Result<Rows<u32>, OutOfMemory>
    requires { IsAccepted syntax.now }
    ensures { IfOk result (λ order. Order syntax.now.decls order) }
{
    let states = graph(alloc, syntax)?;
    match deparse_order::order(alloc, &states) {
        Ok(order) => Ok(order),
        Err(OrderFault::Memory) => Err(OutOfMemory),
        Err(OrderFault::Cycle) => unreachable!(),
    }
}

/// The order in which the headers of a program leave, by their numbers in the order of declaration (P4_14 1.0.5, "Deparsing"). The
/// one error is want of memory.
#[tactic(auto, using(crate::proofs::Rules::accepted_same, crate::proofs::Rules::order_same))]
pub fn header_order(alloc: Global, program: &Program14) -> Result<Rows<u32>, OutOfMemory>
    ensures { IfOk result (λ order. Order program.now.decls order) }
{
    let order = order_of(alloc, program.syntax())?;
    Ok(order)
}
