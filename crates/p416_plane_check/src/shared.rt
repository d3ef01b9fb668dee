// Whether control-plane names are shared.
ghost use Rattle.std.specs.Prelude.{◌≡◌, map, flat_map, IfOk};
ghost use Rattle.p416_syntax.specs.Names.{repeats};
ghost use Rattle.p416_syntax.specs.Tables.{table_plane, tables_of, objects_of, outer_counters, has_shared_names};

use crate::counters::counter_names;
use crate::names::{object_names, table_names};
use p4x_bits::OutOfMemory;
use p416_name_set::is_repeated;
use p416_syntax::Decl16;
use std::alloc::Global;

/// Whether two tables have one control-plane name.
fn share_tables(alloc: Global, decls: &[Decl16]) -> Result<bool, OutOfMemory>
    ensures { IfOk result (λ shared. shared ≡ repeats (map table_plane (flat_map tables_of decls.now))) }
{
    let names = table_names(alloc, decls)?;
    is_repeated(alloc, &names)
}

/// Whether two objects have one control-plane name.
fn share_objects(alloc: Global, decls: &[Decl16]) -> Result<bool, OutOfMemory>
    ensures { IfOk result (λ shared. shared ≡ repeats (flat_map objects_of decls.now)) }
{
    let names = object_names(alloc, decls)?;
    is_repeated(alloc, &names)
}

/// Whether two tables of controls that don't declare it have one direct counter.
fn share_counters(alloc: Global, decls: &[Decl16]) -> Result<bool, OutOfMemory>
    ensures { IfOk result (λ shared. shared ≡ repeats (flat_map outer_counters decls.now)) }
{
    let names = counter_names(alloc, decls)?;
    is_repeated(alloc, &names)
}

/// Whether two tables or two objects have one control-plane name, or a direct counter at the top belongs to two tables:
/// what T9 asks of all declarations together, exactly. In time linear in the declarations, but for the look-ups; the one
/// error is want of memory.
pub fn has_shared_names(alloc: Global, decls: &[Decl16]) -> Result<bool, OutOfMemory>
    ensures { IfOk result (λ shared. shared ≡ has_shared_names decls.now) }
{
    if share_tables(alloc, decls)? {
        return Ok(true);
    }
    if share_objects(alloc, decls)? {
        return Ok(true);
    }
    share_counters(alloc, decls)
}
