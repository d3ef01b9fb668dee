// The tables of the controls, in the order of the text.
ghost use Rattle.std.specs.Prelude.{◌≡◌, ◌++◌, [], map, flat_map, filter_map, IfOk, OnOk};
ghost use Rattle.p416_syntax.specs.Declarations.{control_scope, table_in, tables_in, top_scope};
ghost use Rattle.p416_scopes.specs.Seen.{seen_scope};
ghost use Rattle.v1_core.specs.Signatures.{own_object};
ghost use Rattle.p416_signature.specs.internal.Gathered.{objects_seen, sig_in, sigs_of};

use crate::by_name::ByName;
use crate::objects::Objects;
use crate::tables::table_sig;
use match_core::TableSig;
use p4x_bits::{OutOfMemory, Rows};
use p416_names::Top;
use p416_scopes::Scope;
use p416_syntax::{Control16, Decl16, Local};
use std::alloc::Global;

/// Puts the tables among what a control declares last, where these are its scope and its objects.
fn add_tables<'a>(
    alloc: Global,
    found: &mut Rows<TableSig>,
    scope: &Scope<'_, 'a>,
    own: &ByName<'a>,
    objects: &Objects<'a>,
    locals: &'a [Local],
) -> Result<(), OutOfMemory>
    ensures { OnOk result (found.new ≡ found.old ++ map (sig_in (seen_scope scope.now) (objects_seen own.now) objects.now) (filter_map table_in locals.now)) }
{
    for declared in locals {
        if let Local::Table(table) = declared {
            found.push(table_sig(alloc, scope, own, objects, table)?)?;
        }
    }
    Ok(())
}

/// Puts the tables of a control last.
fn add_control<'a>(
    alloc: Global,
    found: &mut Rows<TableSig>,
    top: &Top<'a>,
    objects: &Objects<'a>,
    control: &'a Control16,
) -> Result<(), OutOfMemory>
    ensures { OnOk result (found.new ≡ found.old ++ map (sig_in (control_scope (top_scope top.now []) control.now) (filter_map own_object control.now.locals) objects.now) (tables_in control.now)) }
{
    let scope = Scope::of_control(alloc, top, &[], control)?;
    let own = ByName::of_control(alloc, control.locals.as_slice())?;
    add_tables(
        alloc,
        found,
        &scope,
        &own,
        objects,
        control.locals.as_slice(),
    )
}

/// Puts the tables of a declaration last.
fn add_decl<'a>(
    alloc: Global,
    found: &mut Rows<TableSig>,
    top: &Top<'a>,
    objects: &Objects<'a>,
    decl: &'a Decl16,
) -> Result<(), OutOfMemory>
    ensures { OnOk result (found.new ≡ found.old ++ sigs_of top.now objects.now decl.now) }
{
    match decl {
        Decl16::Control(control) => add_control(alloc, found, top, objects, control),
        _ => Ok(()),
    }
}

/// The tables of these declarations, in the order of the text. The one error is want of memory.
pub fn all_tables<'a>(
    alloc: Global,
    top: &Top<'a>,
    objects: &Objects<'a>,
    decls: &'a [Decl16],
) -> Result<Rows<TableSig>, OutOfMemory>
    ensures { IfOk result (λ sigs. sigs ≡ flat_map (sigs_of top.now objects.now) decls.now) }
{
    let mut sigs = Rows::new(alloc);
    for decl in decls {
        add_decl(alloc, &mut sigs, top, objects, decl)?;
    }
    Ok(sigs)
}
