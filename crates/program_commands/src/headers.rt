// The names of a program's headers, in the order in which they leave.
ghost use Rattle.std.specs.Prelude.{◌≡◌, map, IfOk};
ghost use Rattle.p414_syntax.specs.declared.syntax.Sort.TheVariants as sort;
ghost use Rattle.p414_syntax.specs.Names.{names_in};
ghost use Rattle.p414_syntax.specs.ParserGraph.{Order};
ghost use Rattle.p414_body_check.specs.Answers.{IsAccepted};
ghost use Rattle.program_commands.specs.Lines.{instance_name, instance_lines};

use deparse_order::OrderFault;
use p4x_bits::{Octets, OutOfMemory, Rows};
use p414_syntax::{Decl, Syntax14};
use parse_graph::graph;
use std::alloc::Global;

/// The order in which the headers of a program leave, by their numbers. The one error is want of memory.
pub(crate) fn header_order(alloc: Global, syntax: &Syntax14) -> Result<Rows<u32>, OutOfMemory>
    requires { IsAccepted syntax.now }
    ensures { IfOk result (λ order. Order syntax.now.decls order) }
{
    let states = graph(alloc, syntax)?;
    match deparse_order::order(alloc, &states) {
        Ok(order) => Ok(order),
        Err(OrderFault::Memory) => Err(OutOfMemory),
        Err(OrderFault::Cycle) => unreachable!(),
    }
}

/// The names of the headers, header stacks and metadata instances, in the order of the text.
fn instance_names(alloc: Global, decls: &[Decl]) -> Result<Vec<&[u8]>, OutOfMemory>
    ensures { IfOk result (λ names. map (λ name. name.now) names.items ≡ names_in sort.Instance decls.now) }
{
    let mut names = Vec::new(alloc);
    for decl in decls {
        match decl {
            Decl::Header(declared) => names.push(declared.name.as_slice())?,
            Decl::Metadata(declared) => names.push(declared.name.as_slice())?,
            _ => {}
        }
    }
    Ok(names)
}

/// The name of the instance with this number.
fn instance_name<'a>(names: &[&'a [u8]], number: u32) -> &'a [u8]
    ensures { result.now ≡ instance_name (map (λ name. name.now) names.now) number }
{
    match names.get(number as usize) {
        Some(name) => name,
        None => b"standard_metadata",
    }
}

/// The names of these instances, one a line.
pub(crate) fn instance_lines(
    alloc: Global,
    decls: &[Decl],
    order: &[u32],
) -> Result<Octets, OutOfMemory>
    ensures { IfOk result (λ lines. lines ≡ instance_lines decls.now order.now) }
{
    let names = instance_names(alloc, decls)?;
    let mut lines = Octets::new(alloc);
    for number in order {
        lines.extend_from_slice(instance_name(&names, *number))?;
        lines.extend_from_slice(b"\n")?;
    }
    Ok(lines)
}
