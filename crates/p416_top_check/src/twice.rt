// Whether a name is declared twice at the top (P4_16 1.2, "Name resolution").
ghost use Rattle.std.specs.Prelude.{◌≡◌, ◌++◌, map, IfOk, OnOk};
ghost use Rattle.p416_syntax.specs.BuiltIn.{built_in};
ghost use Rattle.p416_syntax.specs.Scopes.{called_of};
ghost use Rattle.p416_syntax.specs.Unknown.{declared_name, declares_twice};

use p4x_bits::OutOfMemory;
use p416_name_set::is_repeated;
use p416_names::decl_name;
use p416_syntax::Decl16;
use std::alloc::Global;

/// The names that `core.p4` and `v1model.p4` declare.
const BUILT_IN: [&[u8]; 16] = [
    b"packet_in",
    b"packet_out",
    b"standard_metadata_t",
    b"HashAlgorithm",
    b"CounterType",
    b"MeterType",
    b"CloneType",
    b"mark_to_drop",
    b"hash",
    b"verify_checksum",
    b"update_checksum",
    b"verify_checksum_with_payload",
    b"update_checksum_with_payload",
    b"clone_preserving_field_list",
    b"resubmit_preserving_field_list",
    b"recirculate_preserving_field_list",
];

/// Puts these names last.
fn add_all<'a>(names: &mut Vec<&'a [u8]>, more: &[&'a [u8]]) -> Result<(), OutOfMemory>
    ensures { OnOk result (map (λ name. name.now) names.new.items ≡ map (λ name. name.now) names.old.items ++ map (λ name. name.now) more.now) }
{
    for name in more {
        names.push(name)?;
    }
    Ok(())
}

/// Puts the names last that are built in.
fn add_built_in(names: &mut Vec<&[u8]>) -> Result<(), OutOfMemory>
    ensures { OnOk result (map (λ name. name.now) names.new.items ≡ map (λ name. name.now) names.old.items ++ map called_of built_in) }
{
    add_all(names, &BUILT_IN)
}

/// The names that these declarations declare, in order.
fn decl_names<'a>(alloc: Global, decls: &'a [Decl16]) -> Result<Vec<&'a [u8]>, OutOfMemory>
    ensures { IfOk result (λ names. map (λ name. name.now) names.items ≡ map declared_name decls.now) }
{
    let mut names = Vec::new(alloc);
    for decl in decls {
        names.push(decl_name(decl).as_slice())?;
    }
    Ok(names)
}

/// The same, and the names behind them that are built in.
fn top_names<'a>(alloc: Global, decls: &'a [Decl16]) -> Result<Vec<&'a [u8]>, OutOfMemory>
    ensures { IfOk result (λ names. map (λ name. name.now) names.items ≡ map declared_name decls.now ++ map called_of built_in) }
{
    let mut names = decl_names(alloc, decls)?;
    add_built_in(&mut names)?;
    Ok(names)
}

/// Whether these declarations declare a name twice, or one that is built in, exactly. In time linear in the declarations, but
/// for the look-ups; the one error is want of memory.
#[tactic(auto, using(crate::proofs::Naming::twice_is))]
pub fn declares_twice(alloc: Global, decls: &[Decl16]) -> Result<bool, OutOfMemory>
    ensures { IfOk result (λ twice. twice ≡ declares_twice decls.now) }
{
    let names = top_names(alloc, decls)?;
    is_repeated(alloc, &names)
}
