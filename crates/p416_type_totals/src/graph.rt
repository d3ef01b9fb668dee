// What structs hold, as a graph (P4_16 1.2, "Struct types").
ghost use Rattle.std.specs.Prelude.{◌≡◌, ◌++◌, ◌∷◌, [], map, filter_map, option_to_list, IfOk, OnOk};
ghost use Rattle.std.specs.Option.{option_map};
ghost use Rattle.p416_syntax.specs.Unknown.{declaration_number, type_name, field_type_name, held_names, held_by, struct_graph};

use crate::types::Types;
use digraph::Digraph;
use p4x_bits::OutOfMemory;
use p416_syntax::{Decl16, StructField, Type16};
use std::alloc::Global;

/// The name of a type that has one.
fn type_name(of: &Type16) -> Option<&[u8]>
    ensures { option_map (λ name. name.now) result ≡ type_name of.now }
{
    match of {
        Type16::Named(name, _) => Some(name.as_slice()),
        _ => None,
    }
}

/// The names of the types of these fields, in order.
fn field_type_names(alloc: Global, fields: &[StructField]) -> Result<Vec<&[u8]>, OutOfMemory>
    ensures { IfOk result (λ names. map (λ name. name.now) names.items ≡ filter_map field_type_name fields.now) }
{
    let mut names = Vec::new(alloc);
    for field in fields {
        if let Some(name) = type_name(&field.of) {
            names.push(name)?;
        }
    }
    Ok(names)
}

/// The names of the types that a declaration holds, in order.
fn held_names(alloc: Global, decl: &Decl16) -> Result<Vec<&[u8]>, OutOfMemory>
    ensures { IfOk result (λ names. map (λ name. name.now) names.items ≡ held_names decl.now) }
{
    match decl {
        Decl16::Struct(declared) => field_type_names(alloc, declared.fields.as_slice()),
        _ => Ok(Vec::new(alloc)),
    }
}

/// Puts the number of the declaration with this name last, if there is one.
fn add_number(
    numbers: &mut Vec<usize>,
    types: &Types<'_, '_>,
    name: &[u8],
) -> Result<(), OutOfMemory>
    ensures { OnOk result (numbers.new.items ≡ numbers.old.items ++ option_to_list (declaration_number types.now name.now)) }
{
    if let Some(number) = types.number(name) {
        numbers.push(number)?;
    }
    Ok(())
}

/// The numbers of the declarations with these names, in order.
fn numbers_of(
    alloc: Global,
    types: &Types<'_, '_>,
    names: &[&[u8]],
) -> Result<Vec<usize>, OutOfMemory>
    ensures { IfOk result (λ numbers. numbers.items ≡ filter_map (declaration_number types.now) (map (λ name. name.now) names.now)) }
{
    let mut numbers = Vec::new(alloc);
    for name in names {
        add_number(&mut numbers, types, name)?;
    }
    Ok(numbers)
}

/// The numbers of the declarations that a declaration holds.
fn held_by(alloc: Global, types: &Types<'_, '_>, decl: &Decl16) -> Result<Vec<usize>, OutOfMemory>
    ensures { IfOk result (λ numbers. numbers.items ≡ held_by types.now decl.now) }
{
    let names = held_names(alloc, decl)?;
    numbers_of(alloc, types, &names)
}

/// Adds a node with its edges.
fn add_node(graph: &mut Digraph, targets: &[usize]) -> Result<(), OutOfMemory>
    ensures { OnOk result (graph.new ≡ graph.old ++ targets.now ∷ []) }
{
    graph.add_node()?;
    for target in targets {
        graph.add_edge(*target)?;
    }
    Ok(())
}

/// What the structs of a program hold, by the numbers of the declarations.
pub(crate) fn struct_graph(alloc: Global, types: &Types<'_, '_>) -> Result<Digraph, OutOfMemory>
    ensures { IfOk result (λ graph. graph ≡ struct_graph types.now) }
{
    let mut graph = Digraph::new(alloc);
    for decl in types.decls() {
        let targets = held_by(alloc, types, decl)?;
        add_node(&mut graph, &targets)?;
    }
    Ok(graph)
}
