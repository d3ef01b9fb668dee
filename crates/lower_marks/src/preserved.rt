// Which field lists are preserved.
ghost use Rattle.std.specs.Prelude.{◌≡◌, map, IfOk};
ghost use Rattle.p414_syntax.specs.Names.{has_name, names_in};
ghost use Rattle.p414_syntax.specs.declared.syntax.Sort.TheVariants as sort;
ghost use Rattle.lower_marks.specs.Marking.{ArePreserved};

use crate::listed::preserved_names;
use p4x_bits::{OutOfMemory, Rows};
use p414_names::{NameSet, Names14};
use p414_syntax::Decl;
use std::alloc::Global;

/// Which field lists stand among these names.
fn flags_by(alloc: Global, decls: &[Decl], known: &NameSet<'_>) -> Result<Rows<bool>, OutOfMemory>
    ensures { IfOk result (λ found. found ≡ map (has_name known.now) (names_in sort.List decls.now)) }
{
    let mut found = Rows::new(alloc);
    for decl in decls {
        if let Decl::FieldList(declared) = decl {
            found.push(known.has(declared.name.as_slice()))?;
        }
    }
    Ok(found)
}

/// Which field lists calls preserve, in the order of declaration.
pub fn preserved_flags(alloc: Global, names: &Names14<'_>) -> Result<Rows<bool>, OutOfMemory>
    ensures { IfOk result (λ found. ArePreserved names.now found) }
{
    let known = preserved_names(alloc, names)?;
    let found = flags_by(alloc, names.decls(), &known)?;
    Ok(found)
}
