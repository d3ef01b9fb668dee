// The names of a program: the places of its blocks, its objects and its tables (P4_16 1.2, "Control-plane API annotations").
ghost use Rattle.std.specs.Prelude.{◌≡◌, ◌++◌, map, filter_map, flat_map, IfOk, OnOk};
ghost use Rattle.p416_syntax.specs.Declarations.{table_in};
ghost use Rattle.p416_syntax.specs.Tables.{table_plane, tables_of};
ghost use Rattle.v1_core.specs.Signatures.{table_names};
ghost use Rattle.p416_signature.specs.internal.Gathered.{AreObjects};
ghost use Rattle.v1_ready_whole.specs.internal.Named.{AreProgramNames};

use name_numbers::{Numbering, number_names};
use p4x_bits::OutOfMemory;
use p416_main_check::MainPlaces;
use p416_signature::{Objects, all_objects, in_order, object_names, plane_name};
use p416_syntax::{Decl16, Local, Syntax16};
use std::alloc::Global;

/// Puts the names of the tables among what a control declares behind the others.
fn add_tables<'a>(names: &mut Vec<&'a [u8]>, locals: &'a [Local]) -> Result<(), OutOfMemory>
    ensures { OnOk result (map (λ name. name.now) names.new.items ≡ map (λ name. name.now) names.old.items ++ map table_plane (filter_map table_in locals.now)) }
{
    for local in locals {
        if let Local::Table(table) = local {
            names.push(plane_name(table.notes.as_slice(), &table.name))?;
        }
    }
    Ok(())
}

/// Puts the names of the tables of a declaration behind the others.
fn add_declared<'a>(names: &mut Vec<&'a [u8]>, decl: &'a Decl16) -> Result<(), OutOfMemory>
    ensures { OnOk result (map (λ name. name.now) names.new.items ≡ map (λ name. name.now) names.old.items ++ map table_plane (tables_of decl.now)) }
{
    match decl {
        Decl16::Control(control) => add_tables(names, control.locals.as_slice()),
        _ => Ok(()),
    }
}

/// The names of all tables, in the order of the text.
fn planes<'a>(alloc: Global, decls: &'a [Decl16]) -> Result<Vec<&'a [u8]>, OutOfMemory>
    ensures { IfOk result (λ names. map (λ name. name.now) names.items ≡ map table_plane (flat_map tables_of decls.now)) }
{
    let mut names = Vec::new(alloc);
    for decl in decls {
        add_declared(&mut names, decl)?;
    }
    Ok(names)
}

/// The control-plane names of all tables of a program, in the order of their octets. The one error is want of memory.
fn table_names(alloc: Global, syntax: &Syntax16) -> Result<Numbering<'_>, OutOfMemory>
    ensures { IfOk result (λ names. names ≡ table_names syntax.now) }
{
    let names = planes(alloc, syntax.decls.as_slice())?;
    let ordered = in_order(alloc, &names)?;
    number_names(alloc, ordered)
}

/// The objects of a program. The one error is want of memory.
#[tactic(auto, using(crate::proofs::Naming::numbered))]
fn objects_of(alloc: Global, syntax: &Syntax16) -> Result<Objects<'_>, OutOfMemory>
    ensures { IfOk result (AreObjects syntax.now) }
{
    let decls = syntax.decls.as_slice();
    let found = all_objects(alloc, decls)?;
    let names = object_names(alloc, &found)?;
    let objects = Objects::of(alloc, decls, names)?;
    Ok(objects)
}

/// The names of a program.
pub(crate) struct ProgramNames<'a> {
    /// The places of its blocks in `main`.
    pub(crate) places: MainPlaces<'a>,
    /// Its objects.
    pub(crate) objects: Objects<'a>,
    /// The control-plane names of all its tables, in the order of their octets.
    pub(crate) tables: Numbering<'a>,
}

impl Drop for ProgramNames<'_> {
    fn drop(self) {
        let ProgramNames {
            places: _places,
            objects: _objects,
            tables: _tables,
        } = self;
    }
}

/// The names of a program. The one error is want of memory.
pub(crate) fn program_names(
    alloc: Global,
    syntax: &Syntax16,
) -> Result<ProgramNames<'_>, OutOfMemory>
    ensures { IfOk result (AreProgramNames syntax.now) }
{
    let places = MainPlaces::of(alloc, syntax.main.as_slice())?;
    let objects = objects_of(alloc, syntax)?;
    let tables = table_names(alloc, syntax)?;
    Ok(ProgramNames {
        places,
        objects,
        tables,
    })
}
