// The direct counters that tables name and that aren't declared in the control of the table.
ghost use Rattle.std.specs.Prelude.{◌≡◌, ◌++◌, [], map, filter, filter_map, flat_map, IfOk, OnOk};
ghost use Rattle.p416_syntax.specs.Scopes.{called_of, known_parameter};
ghost use Rattle.p416_syntax.specs.Declarations.{instance_name, known_local, control_names, table_in, tables_in, counters_in};
ghost use Rattle.p416_syntax.specs.Tables.{is_not_among, outer_counters};

use name_numbers::{Numbering, number_names};
use p4x_bits::{OutOfMemory, Text};
use p416_syntax::{Control16, Decl16, Instance, Local, Param};
use std::alloc::Global;

/// The name of an object.
fn instance_name(instance: &Instance) -> &Text
    ensures { result.now ≡ instance_name instance.now }
{
    match instance {
        Instance::Counter(_, _, name) => name,
        Instance::DirectCounter(_, name) => name,
        Instance::Register(_, _, name) => name,
        Instance::Meter(_, _, name) => name,
    }
}

/// The name that is declared in a control.
fn local_name(declared: &Local) -> &Text
    ensures { result.now ≡ called_of (known_local [] declared.now) }
{
    match declared {
        Local::Instance(_, instance) => instance_name(instance),
        Local::Var(var) => &var.name,
        Local::Action(action) => &action.name,
        Local::Table(table) => &table.name,
    }
}

/// Puts the names that are declared in a control last.
fn add_local_names<'s>(names: &mut Vec<&'s [u8]>, locals: &'s [Local]) -> Result<(), OutOfMemory>
    ensures { OnOk result (map (λ name. name.now) names.new.items ≡ map (λ name. name.now) names.old.items ++ map called_of (map (known_local []) locals.now)) }
{
    for declared in locals {
        names.push(local_name(declared).as_slice())?;
    }
    Ok(())
}

/// The names of the parameters of a control, in order.
fn parameter_names(alloc: Global, parameters: &[Param]) -> Result<Vec<&[u8]>, OutOfMemory>
    ensures { IfOk result (λ names. map (λ name. name.now) names.items ≡ map called_of (map (known_parameter []) parameters.now)) }
{
    let mut names = Vec::new(alloc);
    for parameter in parameters {
        names.push(parameter.name.as_slice())?;
    }
    Ok(names)
}

/// The names of the parameters of a control, and those that are declared in it.
#[tactic(auto, using(crate::proofs::Joining::control_joined))]
fn control_names(alloc: Global, control: &Control16) -> Result<Vec<&[u8]>, OutOfMemory>
    ensures { IfOk result (λ names. map (λ name. name.now) names.items ≡ map called_of (control_names [] control.now)) }
{
    let mut names = parameter_names(alloc, control.parameters.as_slice())?;
    add_local_names(&mut names, control.locals.as_slice())?;
    Ok(names)
}

/// Whether a name isn't among these.
#[tactic(auto, using(crate::proofs::Joining::found_is))]
fn is_not_among(names: &Numbering<'_>, name: &[u8]) -> bool
    ensures { result ≡ is_not_among names.now name.now }
{
    names.find(name).is_none()
}

/// Puts the direct counters last that tables among these name, and whose names aren't among those of the control.
fn add_counters<'s>(
    found: &mut Vec<&'s [u8]>,
    names: &Numbering<'_>,
    locals: &'s [Local],
) -> Result<(), OutOfMemory>
    ensures { OnOk result (map (λ name. name.now) found.new.items ≡ map (λ name. name.now) found.old.items ++ filter (is_not_among names.now) (filter_map counters_in (filter_map table_in locals.now))) }
{
    for declared in locals {
        if let Local::Table(table) = declared
            && let Some(name) = table.counters()
            && is_not_among(names, name.as_slice())
        {
            found.push(name.as_slice())?;
        }
    }
    Ok(())
}

/// The same of a control.
fn add_control<'s>(
    alloc: Global,
    found: &mut Vec<&'s [u8]>,
    control: &'s Control16,
) -> Result<(), OutOfMemory>
    ensures { OnOk result (map (λ name. name.now) found.new.items ≡ map (λ name. name.now) found.old.items ++ filter (is_not_among (map called_of (control_names [] control.now))) (filter_map counters_in (tables_in control.now))) }
{
    let names = number_names(alloc, control_names(alloc, control)?)?;
    add_counters(found, &names, control.locals.as_slice())
}

/// The same of a declaration.
fn add_decl<'s>(
    alloc: Global,
    found: &mut Vec<&'s [u8]>,
    decl: &'s Decl16,
) -> Result<(), OutOfMemory>
    ensures { OnOk result (map (λ name. name.now) found.new.items ≡ map (λ name. name.now) found.old.items ++ outer_counters decl.now) }
{
    match decl {
        Decl16::Control(control) => add_control(alloc, found, control),
        _ => Ok(()),
    }
}

/// The direct counters that the tables of these declarations name, but for those that the control of the table declares.
pub(crate) fn counter_names(alloc: Global, decls: &[Decl16]) -> Result<Vec<&[u8]>, OutOfMemory>
    ensures { IfOk result (λ found. map (λ name. name.now) found.items ≡ flat_map outer_counters decls.now) }
{
    let mut found = Vec::new(alloc);
    for decl in decls {
        add_decl(alloc, &mut found, decl)?;
    }
    Ok(found)
}
