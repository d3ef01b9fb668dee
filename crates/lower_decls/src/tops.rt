// All that is declared before the blocks.
ghost use Rattle.std.specs.Prelude.{◌≡◌, IfOk};
ghost use Rattle.p414_sem.specs.Expanded.{Expanded};
ghost use Rattle.lower_laws_names.specs.Objects.{top_decls};
ghost use Rattle.lower_laws_names.specs.Types.{members};
ghost use Rattle.lower_decls.specs.Table.{member_in};
ghost use Rattle.lower_marks.specs.FieldMarks.{AreMarks};

use crate::headers::add_header_decls;
use crate::objects::add_object_decls;
use crate::picked::used_types;
use crate::rows::member_rows;
use crate::structs::add_structs;
use lower_marks::FieldMarks;
use p4x_bits::{OutOfMemory, Rows};
use p414_names::Names14;
use p416_syntax::Decl16;
use std::alloc::Global;

/// What stands before the blocks. A table tells the marks of each field.
#[tactic(auto, using(crate::proofs::Same::top_same))]
pub fn top_decls(
    alloc: Global,
    names: &Names14<'_>,
    marks: &FieldMarks,
) -> Result<Rows<Decl16>, OutOfMemory>
    ensures { IfOk result (λ found. (x : Expanded) → AreMarks names.now x marks.now → found ≡ top_decls names.now x) }
{
    let used = used_types(alloc, names)?;
    let rows = member_rows(alloc, names)?;
    let mut found = Rows::new(alloc);
    add_header_decls(alloc, names, used.as_slice(), &mut found)?;
    add_structs(alloc, marks, rows.as_slice(), &mut found)?;
    add_object_decls(alloc, names, &mut found)?;
    Ok(found)
}
