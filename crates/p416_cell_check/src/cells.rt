// How many cells each object has (`v1model.p4`).
ghost use Rattle.std.specs.Prelude.{◌≡◌, ◌++◌, flat_map, IfOk, OnOk};
ghost use Rattle.p416_syntax.specs.Totals.{size_value, instance_cells, local_cells, cells_in};

use p4x_bits::OutOfMemory;
use p416_syntax::{Decl16, Exp, ExpHead, Instance, Local};
use std::alloc::Global;

/// The value of a size that is a literal, else 0.
fn size_value(size: &Exp) -> u128
    ensures { result ≡ size_value size.now }
{
    match size.view().head() {
        ExpHead::Literal(number) => number.value,
        _ => 0,
    }
}

/// Puts the number of cells of an object last, if it isn't direct.
fn add_instance(counts: &mut Vec<u128>, instance: &Instance) -> Result<(), OutOfMemory>
    ensures { OnOk result (counts.new.items ≡ counts.old.items ++ instance_cells instance.now) }
{
    match instance {
        Instance::Counter(size, _, _) => counts.push(size_value(size))?,
        Instance::DirectCounter(_, _) => {}
        Instance::Register(_, size, _) => counts.push(size_value(size))?,
        Instance::Meter(size, _, _) => counts.push(size_value(size))?,
    }
    Ok(())
}

/// The same of what is declared in a control.
fn add_local(counts: &mut Vec<u128>, declared: &Local) -> Result<(), OutOfMemory>
    ensures { OnOk result (counts.new.items ≡ counts.old.items ++ local_cells declared.now) }
{
    match declared {
        Local::Instance(_, instance) => add_instance(counts, instance),
        _ => Ok(()),
    }
}

/// The same of all that is declared in one.
fn add_locals(counts: &mut Vec<u128>, locals: &[Local]) -> Result<(), OutOfMemory>
    ensures { OnOk result (counts.new.items ≡ counts.old.items ++ flat_map local_cells locals.now) }
{
    for declared in locals {
        add_local(counts, declared)?;
    }
    Ok(())
}

/// The same of a declaration.
fn add_decl(counts: &mut Vec<u128>, decl: &Decl16) -> Result<(), OutOfMemory>
    ensures { OnOk result (counts.new.items ≡ counts.old.items ++ cells_in decl.now) }
{
    match decl {
        Decl16::Instance(_, instance) => add_instance(counts, instance),
        Decl16::Control(control) => add_locals(counts, control.locals.as_slice()),
        _ => Ok(()),
    }
}

/// How many cells each object of these declarations has that isn't direct, in order.
pub(crate) fn cell_counts(alloc: Global, decls: &[Decl16]) -> Result<Vec<u128>, OutOfMemory>
    ensures { IfOk result (λ counts. counts.items ≡ flat_map cells_in decls.now) }
{
    let mut counts = Vec::new(alloc);
    for decl in decls {
        add_decl(&mut counts, decl)?;
    }
    Ok(counts)
}
