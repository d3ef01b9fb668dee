// The signature of a program.
ghost use Rattle.std.specs.Prelude.{◌≡◌, map, IfOk};
ghost use Rattle.p414_syntax.specs.References.{referred};
ghost use Rattle.p414_syntax.specs.declared.syntax.Sort.TheVariants as sort;
ghost use Rattle.p414_parameter_widths.specs.Widths.{AreWidths};
ghost use Rattle.p414_syntax.specs.Actions.{ActionCallsItself};
ghost use Rattle.p414_syntax.specs.Names.{names_in};
ghost use Rattle.p414_sem.specs.Operations.{in_order};
ghost use Rattle.p414_sem.specs.Signatures.{signature14, table_sig, tables_in_order};

use crate::directs::Objects;
use crate::objects::object_sigs;
use crate::order::{object_names, table_names};
use crate::tables::table_sigs;
use match_core::{Signature, TableSig};
use p4x_bits::{Numbers, OutOfMemory, Rows};
use p414_names::Names14;
use p414_parameter_widths::parameter_widths;
use std::alloc::Global;

/// The tables in the order of their names, where these are the names of the objects in order.
fn tables_in_order<'a>(
    alloc: Global,
    names: &Names14<'a>,
    rows: &[Numbers],
    ordered: Vec<&'a [u8]>,
) -> Result<Rows<TableSig>, OutOfMemory>
    requires widths { AreWidths names.now rows.now }
    requires ordered { map referred ordered.items ≡ in_order (names_in sort.Object names.now) }
    ensures { IfOk result (λ tables. tables ≡ map (table_sig names.now) (tables_in_order names.now)) }
{
    let objects = Objects::of(alloc, names.decls(), ordered)?;
    let tables = table_names(alloc, names.decls())?;
    table_sigs(alloc, names, rows, &objects, &tables)
}

/// The signature of the program of these names: its tables with their keys and actions, and its counters, meters and
/// registers, both by the octet order of their names (P4_14 1.0.5, "Table Declarations", "Counters", "Meters",
/// "Registers", "Actions"; the order, the width of a parameter and the size of a table that gives none are this project's
/// own). No action calls itself. In time O(n log n) in the program and the signature; the one error is want of memory,
/// which numbers count as that are too large to keep, such as no program has that keeps the rules.
#[tactic(auto, unfolding(p414_sem::specs::Signatures::signature14))]
pub fn signature_of(alloc: Global, names: &Names14<'_>) -> Result<Signature, OutOfMemory>
    requires { ActionCallsItself names.now → ⊥ }
    ensures { IfOk result (λ signature. signature ≡ signature14 names.now) }
{
    let rows = parameter_widths(alloc, names)?;
    let ordered = object_names(alloc, names.decls())?;
    let objects = object_sigs(alloc, names, &ordered)?;
    let tables = tables_in_order(alloc, names, &rows, ordered)?;
    Ok(Signature { tables, objects })
}
