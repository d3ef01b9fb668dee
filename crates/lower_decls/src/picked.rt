// Which header types have headers.
ghost use Rattle.std.specs.Prelude.{◌≡◌, [], map, IfOk, OnOk};
ghost use Rattle.p414_syntax.specs.Fields.{types};
ghost use Rattle.lower_laws_names.specs.Types.{is_used};
ghost use Rattle.lower_names.specs.Picked.{with_some, picked_from};
ghost use Rattle.lower_decls.specs.Using.{used_in, has_of};

use lower_names::is_new;
use p4x_bits::{OutOfMemory, Rows};
use p414_names::{NameSet, Names14};
use p414_syntax::Decl;
use std::alloc::Global;

/// Adds the header type of a header.
fn add_used<'a>(found: &mut NameSet<'a>, decl: &'a Decl) -> Result<(), OutOfMemory>
    ensures { OnOk result (found.new ≡ with_some found.old (used_in decl.now)) }
{
    if let Decl::Header(header) = decl {
        is_new(found, header.header_type.as_slice())?;
    }
    Ok(())
}

/// The names of the header types that headers have.
fn used_names<'a>(alloc: Global, decls: &'a [Decl]) -> Result<NameSet<'a>, OutOfMemory>
    ensures { IfOk result (λ found. found ≡ picked_from used_in [] decls.now) }
{
    let mut found = NameSet::new(alloc);
    for decl in decls {
        add_used(&mut found, decl)?;
    }
    Ok(found)
}

/// Which header types stand among these names.
fn flags_by(alloc: Global, decls: &[Decl], used: &NameSet<'_>) -> Result<Rows<bool>, OutOfMemory>
    ensures { IfOk result (λ found. found ≡ map (has_of used.now) (types decls.now)) }
{
    let mut found = Rows::new(alloc);
    for decl in decls {
        if let Decl::HeaderType(declared) = decl {
            found.push(used.has(declared.name().as_slice()))?;
        }
    }
    Ok(found)
}

/// Which header types a header has, in the order of declaration.
#[tactic(auto, using(crate::proofs::Used::all_used))]
pub fn used_types(alloc: Global, names: &Names14<'_>) -> Result<Rows<bool>, OutOfMemory>
    ensures { IfOk result (λ found. found ≡ map (is_used names.now) (types names.now)) }
{
    let used = used_names(alloc, names.decls())?;
    let found = flags_by(alloc, names.decls(), &used)?;
    Ok(found)
}
