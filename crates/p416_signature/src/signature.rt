// The signature of a program.
ghost use Rattle.std.specs.Prelude.{◌≡◌, map, flat_map, IfOk};
ghost use Rattle.v1_core.specs.Signatures.{placed_sig, signature16, tables_in_order};
ghost use Rattle.p416_signature.specs.internal.Gathered.{AreObjects, sigs_of};

use crate::control::all_tables;
use crate::objects::{Objects, all_objects, object_names, object_sigs};
use crate::tables::by_names;
use match_core::{Signature, TableSig};
use p4x_bits::{OutOfMemory, Rows};
use p416_names::Top;
use p416_syntax::Syntax16;
use std::alloc::Global;

/// The tables in the order of the text, where these are objects of the program.
fn tables_in_text<'a>(
    alloc: Global,
    syntax: &'a Syntax16,
    objects: &Objects<'a>,
) -> Result<Rows<TableSig>, OutOfMemory>
    ensures { IfOk result (λ sigs. sigs ≡ flat_map (sigs_of syntax.now.decls objects.now) syntax.now.decls) }
{
    let decls = syntax.decls.as_slice();
    let top = Top::of(alloc, decls)?;
    all_tables(alloc, &top, objects, decls)
}

/// The tables in the order of their names, where these are the objects of the program.
#[tactic(auto, using(crate::proofs::Whole::tables_from))]
fn tables_of<'a>(
    alloc: Global,
    syntax: &'a Syntax16,
    objects: &Objects<'a>,
) -> Result<Rows<TableSig>, OutOfMemory>
    requires { AreObjects syntax.now objects.now }
    ensures { IfOk result (λ tables. tables ≡ map (placed_sig syntax.now) (tables_in_order syntax.now)) }
{
    let sigs = tables_in_text(alloc, syntax, objects)?;
    let tables = by_names(alloc, sigs.as_slice())?;
    Ok(tables)
}

/// The signature of a program: its tables with their keys and actions, and its counters, registers and meters, both by the
/// octet order of their control-plane names (P4_16 1.2, "Tables", "Control-plane API annotations"; `v1model.p4`; the order
/// and the size of a table that gives none are this project's own). Time and memory are linear in the program, but for the
/// look-up of each name and the order. The one error is want of memory, which numbers count as that are too large to keep,
/// such as no program has that keeps the rules.
#[tactic(auto, unfolding(v1_core::specs::Signatures::signature16), using(crate::proofs::Whole::objects_are, crate::proofs::Whole::numbered))]
pub fn signature16(alloc: Global, syntax: &Syntax16) -> Result<Signature, OutOfMemory>
    ensures { IfOk result (λ signature. signature ≡ signature16 syntax.now) }
{
    let decls = syntax.decls.as_slice();
    let found = all_objects(alloc, decls)?;
    let names = object_names(alloc, &found)?;
    let objects = object_sigs(alloc, &found, &names)?;
    let numbered = Objects::of(alloc, decls, names)?;
    let tables = tables_of(alloc, syntax, &numbered)?;
    Ok(Signature { tables, objects })
}
