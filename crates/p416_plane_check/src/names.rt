// The names by which the control plane knows tables and objects (P4_16 1.2, "Control-plane API annotations").
ghost use Rattle.std.specs.Prelude.{◌≡◌, ◌++◌, map, filter_map, flat_map, IfOk, OnOk};
ghost use Rattle.p416_syntax.specs.Scopes.{plane_name};
ghost use Rattle.p416_syntax.specs.Declarations.{instance_name, table_in};
ghost use Rattle.p416_syntax.specs.Tables.{table_plane, tables_of, local_object, objects_of};

use p4x_bits::{OutOfMemory, Text};
use p416_syntax::{Decl16, Instance, Local, Note, Table16, name_note};
use std::alloc::Global;

/// The name by which the control plane knows what has these annotations: that of `@name`, else its own.
fn plane_name<'s>(notes: &'s [Note], called: &'s Text) -> &'s [u8]
    ensures { result.now ≡ plane_name notes.now called.now }
{
    match name_note(notes) {
        Some(text) => text.as_slice(),
        None => called.as_slice(),
    }
}

/// The name of an object.
fn instance_name(instance: &Instance) -> &Text
    ensures { result.now ≡ instance_name instance.now }
{
    match instance {
        Instance::Counter(_, _, name) => name,
        Instance::DirectCounter(_, name) => name,
        Instance::Register(_, _, name) => name,
        Instance::Meter(_, _, name) => name,
    }
}

/// The control-plane name of a table.
fn table_plane(table: &Table16) -> &[u8]
    ensures { result.now ≡ table_plane table.now }
{
    plane_name(table.notes.as_slice(), &table.name)
}

/// Puts the control-plane names of the tables among these last.
fn add_tables<'s>(names: &mut Vec<&'s [u8]>, locals: &'s [Local]) -> Result<(), OutOfMemory>
    ensures { OnOk result (map (λ name. name.now) names.new.items ≡ map (λ name. name.now) names.old.items ++ map table_plane (filter_map table_in locals.now)) }
{
    for declared in locals {
        if let Local::Table(table) = declared {
            names.push(table_plane(table))?;
        }
    }
    Ok(())
}

/// The same of the tables of a declaration.
fn add_tables_of<'s>(names: &mut Vec<&'s [u8]>, decl: &'s Decl16) -> Result<(), OutOfMemory>
    ensures { OnOk result (map (λ name. name.now) names.new.items ≡ map (λ name. name.now) names.old.items ++ map table_plane (tables_of decl.now)) }
{
    match decl {
        Decl16::Control(control) => add_tables(names, control.locals.as_slice()),
        _ => Ok(()),
    }
}

/// The control-plane names of all tables, in order.
#[tactic(auto, using(crate::proofs::Joining::tables_now))]
pub(crate) fn table_names(alloc: Global, decls: &[Decl16]) -> Result<Vec<&[u8]>, OutOfMemory>
    ensures { IfOk result (λ names. map (λ name. name.now) names.items ≡ map table_plane (flat_map tables_of decls.now)) }
{
    let mut names = Vec::new(alloc);
    for decl in decls {
        add_tables_of(&mut names, decl)?;
    }
    Ok(names)
}

/// Puts the control-plane names of the objects among these last.
fn add_objects<'s>(names: &mut Vec<&'s [u8]>, locals: &'s [Local]) -> Result<(), OutOfMemory>
    ensures { OnOk result (map (λ name. name.now) names.new.items ≡ map (λ name. name.now) names.old.items ++ flat_map local_object locals.now) }
{
    for declared in locals {
        if let Local::Instance(notes, instance) = declared {
            names.push(plane_name(notes.as_slice(), instance_name(instance)))?;
        }
    }
    Ok(())
}

/// The same of the objects of a declaration.
fn add_objects_of<'s>(names: &mut Vec<&'s [u8]>, decl: &'s Decl16) -> Result<(), OutOfMemory>
    ensures { OnOk result (map (λ name. name.now) names.new.items ≡ map (λ name. name.now) names.old.items ++ objects_of decl.now) }
{
    match decl {
        Decl16::Instance(notes, instance) => {
            names.push(plane_name(notes.as_slice(), instance_name(instance)))?;
            Ok(())
        }
        Decl16::Control(control) => add_objects(names, control.locals.as_slice()),
        _ => Ok(()),
    }
}

/// The control-plane names of all objects, in order.
pub(crate) fn object_names(alloc: Global, decls: &[Decl16]) -> Result<Vec<&[u8]>, OutOfMemory>
    ensures { IfOk result (λ names. map (λ name. name.now) names.items ≡ flat_map objects_of decls.now) }
{
    let mut names = Vec::new(alloc);
    for decl in decls {
        add_objects_of(&mut names, decl)?;
    }
    Ok(names)
}
