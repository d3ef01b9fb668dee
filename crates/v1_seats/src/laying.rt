// The members of structs, laid out one after another (P4_16 1.2, "Struct types").
ghost use Rattle.std.specs.Prelude.{◌≡◌, map, replicate, slice_set, Some, None, IfOk};
ghost use Rattle.v1_seats.specs.Extents.{forms_in};
ghost use Rattle.v1_seats.specs.internal.Rows.{form_of_kind, IsLaid, AreStructs, name_at};

use crate::extents::{Extent, both, extent_of, nothing};
use crate::rows::Rows;
use crate::start::Start;
use digraph::{Components, Digraph};
use p4x_bits::OutOfMemory;
use p416_names::Kind;
use std::alloc::Global;

/// Where each member of a struct begins, counted from the beginning of the struct, and how far all together reach.
#[derive(Drop)]
pub(crate) struct Laid {
    pub(crate) starts: Vec<Start>,
    pub(crate) all: Extent,
}

/// Lays out members of these kinds, where this is known of the structs in them.
#[tactic(auto, using(crate::proofs::Reaching::none_laid))]
fn lay_members(
    alloc: Global,
    rows: &Rows<'_, '_>,
    laid: &[Option<Laid>],
    kinds: &[Kind<'_>],
) -> Result<Laid, OutOfMemory>
    requires { AreStructs rows.now.types rows.now.names laid.now }
    ensures { IfOk result (IsLaid rows.now.types (map form_of_kind kinds.now)) }
{
    let mut starts = Vec::new(alloc);
    let mut all = nothing();
    for kind in kinds {
        let next = extent_of(rows, laid, *kind)?;
        starts.push(all.size)?;
        all = both(all, next)?;
    }
    Ok(Laid { starts, all })
}

/// Puts an edge to each struct that stands in the newest node.
fn add_edges(
    graph: &mut Digraph,
    rows: &Rows<'_, '_>,
    kinds: &[Kind<'_>],
) -> Result<(), OutOfMemory> {
    for kind in kinds {
        if let Kind::Struct(of) = *kind {
            graph.add_edge(rows.number(of)?)?;
        }
    }
    Ok(())
}

/// The numbers of the types, each behind those that it holds.
fn order_of(alloc: Global, rows: &Rows<'_, '_>) -> Result<Vec<usize>, OutOfMemory> {
    let mut graph = Digraph::new(alloc);
    for number in 0..rows.len() {
        graph.add_node()?;
        add_edges(&mut graph, rows, &rows.at(number)?.kinds)?;
    }
    if !graph.is_closed() {
        return Err(OutOfMemory);
    }
    let components = Components::of(alloc, &graph)?;
    Ok(Vec::from_slice(alloc, components.order())?)
}

/// No struct is laid out yet.
fn none_laid(alloc: Global, count: usize) -> Result<Vec<Option<Laid>>, OutOfMemory>
    ensures { IfOk result (λ laid. laid.items ≡ replicate count None) }
{
    let mut laid = Vec::new(alloc);
    for made in 0..count {
        laid.push(None)?;
    }
    Ok(laid)
}

/// Lays out the struct with a number.
fn lay_one(
    alloc: Global,
    rows: &Rows<'_, '_>,
    laid: &[Option<Laid>],
    number: usize,
) -> Result<Laid, OutOfMemory>
    requires { AreStructs rows.now.types rows.now.names laid.now }
    ensures { IfOk result (IsLaid rows.now.types (forms_in rows.now.types (name_at rows.now number))) }
{
    let row = rows.at(number)?;
    lay_members(alloc, rows, laid, &row.kinds)
}

/// Puts what is laid out at its number; past the end nothing is put.
fn put(laid: &mut Vec<Option<Laid>>, number: usize, one: Laid)
    ensures { laid.new.items ≡ slice_set laid.old.items number (Some one) }
{
    if number < laid.len() {
        laid[number] = Some(one);
    }
}

/// Lays out all structs, those first that stand in others. A struct that holds itself counts as want of memory.
#[tactic(auto, using(crate::proofs::Naming::none_laid, crate::proofs::Naming::struct_put))]
pub(crate) fn lay_all(alloc: Global, rows: &Rows<'_, '_>) -> Result<Vec<Option<Laid>>, OutOfMemory>
    ensures { IfOk result (λ laid. AreStructs rows.now.types rows.now.names laid.items) }
{
    let mut laid = none_laid(alloc, rows.len())?;
    let order = order_of(alloc, rows)?;
    for number in &order {
        let one = lay_one(alloc, rows, &laid, *number)?;
        put(&mut laid, *number, one);
    }
    Ok(laid)
}
