// Names in the order of their octets.
ghost use Rattle.std.specs.Prelude.{◌≡◌, map, option_to_list, IfOk, OnOk};
ghost use Rattle.p414_syntax.specs.References.{referred};
ghost use Rattle.p414_syntax.specs.declared.syntax.Sort.TheVariants as sort;
ghost use Rattle.p414_syntax.specs.Names.{name_in, names_in};
ghost use Rattle.p414_sem.specs.Operations.{in_order};
ghost use Rattle.p414_signature.specs.internal.Gathered.{put_all, put_in_order};

use p4x_bits::{OutOfMemory, Text};
use p414_syntax::Decl;
use std::alloc::Global;
use std::collections::BTreeSet;

/// Puts a name at its place, unless it is there.
#[tactic(auto, using(crate::proofs::Ordered::put_is))]
fn put_name<'a>(set: &mut BTreeSet<&'a [u8]>, name: &'a [u8]) -> Result<(), OutOfMemory>
    ensures { OnOk result (map referred set.new.keys ≡ put_in_order (map referred set.old.keys) name.now) }
{
    set.insert(name)?;
    Ok(())
}

/// The names of a set, in order.
fn listed<'a>(alloc: Global, set: BTreeSet<&'a [u8]>) -> Result<Vec<&'a [u8]>, OutOfMemory>
    ensures { IfOk result (λ found. map referred found.items ≡ map referred set.entry.keys) }
{
    let mut found = Vec::new(alloc);
    for name in set {
        found.push(name)?;
    }
    Ok(found)
}

/// These names in the order of their octets, each once. The one error is want of memory.
#[tactic(auto, using(crate::proofs::Ordered::put_now))]
pub fn in_order<'a>(alloc: Global, names: &'a [Text]) -> Result<Vec<&'a [u8]>, OutOfMemory>
    ensures { IfOk result (λ found. map referred found.items ≡ in_order names.now) }
{
    let mut set = BTreeSet::new(alloc);
    for name in names {
        put_name(&mut set, name.as_slice())?;
    }
    listed(alloc, set)
}

/// Puts the name of a table at its place, if a declaration is one.
fn put_table<'a>(set: &mut BTreeSet<&'a [u8]>, decl: &'a Decl) -> Result<(), OutOfMemory>
    ensures { OnOk result (map referred set.new.keys ≡ put_all (map referred set.old.keys) (option_to_list (name_in sort.Table decl.now))) }
{
    match decl {
        Decl::Table(table) => put_name(set, table.name.as_slice()),
        _ => Ok(()),
    }
}

/// The names of all tables in the order of their octets. The one error is want of memory.
#[tactic(auto, using(crate::proofs::Ordered::put_of_sort))]
pub fn table_names<'a>(alloc: Global, decls: &'a [Decl]) -> Result<Vec<&'a [u8]>, OutOfMemory>
    ensures { IfOk result (λ found. map referred found.items ≡ in_order (names_in sort.Table decls.now)) }
{
    let mut set = BTreeSet::new(alloc);
    for decl in decls {
        put_table(&mut set, decl)?;
    }
    listed(alloc, set)
}

/// Puts the name of a counter, a meter or a register at its place, if a declaration is one.
fn put_object<'a>(set: &mut BTreeSet<&'a [u8]>, decl: &'a Decl) -> Result<(), OutOfMemory>
    ensures { OnOk result (map referred set.new.keys ≡ put_all (map referred set.old.keys) (option_to_list (name_in sort.Object decl.now))) }
{
    match decl {
        Decl::Counter(object) => put_name(set, object.name.as_slice()),
        Decl::Meter(object) => put_name(set, object.name.as_slice()),
        Decl::Register(object) => put_name(set, object.name.as_slice()),
        _ => Ok(()),
    }
}

/// The names of all counters, meters and registers in the order of their octets. The one error is want of memory.
#[tactic(auto, using(crate::proofs::Ordered::put_of_sort))]
pub fn object_names<'a>(alloc: Global, decls: &'a [Decl]) -> Result<Vec<&'a [u8]>, OutOfMemory>
    ensures { IfOk result (λ found. map referred found.items ≡ in_order (names_in sort.Object decls.now)) }
{
    let mut set = BTreeSet::new(alloc);
    for decl in decls {
        put_object(&mut set, decl)?;
    }
    listed(alloc, set)
}
