// C1: names that are declared twice within a declaration.
ghost use Rattle.std.specs.Prelude.{◌≡◌, map, IfOk};
ghost use Rattle.std.specs.List.{list_any};
ghost use Rattle.p414_syntax.specs.Names.{initial_name, repeats};
ghost use Rattle.p414_syntax.specs.Twice.{repeats_within};

use crate::name_set::NameSet;
use p4x_bits::{OutOfMemory, Text};
use p414_syntax::{Decl, Initial};
use std::alloc::Global;

/// Whether one of these names stands twice.
fn is_twice(alloc: Global, names: &[Text]) -> Result<bool, OutOfMemory>
    ensures { IfOk result (λ twice. twice ≡ repeats names.now) }
{
    let mut set = NameSet::new(alloc);
    for name in names {
        if !set.add(name.as_slice())? {
            return Ok(true);
        }
    }
    Ok(false)
}

/// Whether a field has two of these initial values.
fn is_initial_twice(alloc: Global, initials: &[Initial]) -> Result<bool, OutOfMemory>
    ensures { IfOk result (λ twice. twice ≡ repeats (map initial_name initials.now)) }
{
    let mut set = NameSet::new(alloc);
    for initial in initials {
        if !set.add(initial.field.as_slice())? {
            return Ok(true);
        }
    }
    Ok(false)
}

/// Whether two parameters of an action, or two initial values of an instance, have one name.
fn repeats_within(alloc: Global, decl: &Decl) -> Result<bool, OutOfMemory>
    ensures { IfOk result (λ twice. twice ≡ repeats_within decl.now) }
{
    match decl {
        Decl::Action(declared) => is_twice(alloc, declared.parameters.as_slice()),
        Decl::Metadata(declared) => is_initial_twice(alloc, declared.initial_values()),
        _ => Ok(false),
    }
}

/// Whether that is so of one of these declarations.
pub fn some_repeat_within(alloc: Global, decls: &[Decl]) -> Result<bool, OutOfMemory>
    ensures { IfOk result (λ twice. twice ≡ list_any repeats_within decls.now) }
{
    for decl in decls {
        if repeats_within(alloc, decl)? {
            return Ok(true);
        }
    }
    Ok(false)
}
