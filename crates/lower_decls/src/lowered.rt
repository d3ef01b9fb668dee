// The types that a lowering is written with.
ghost use Rattle.std.specs.Prelude.{◌≡◌, false, map, IfOk};
ghost use Rattle.p414_syntax.specs.ControlExpansion.{egress};
ghost use Rattle.p414_syntax.specs.Twice.{declares_twice};
ghost use Rattle.p414_sem.specs.Expanded.{Expanded, IsExpanded};
ghost use Rattle.p414_field_lists.specs.Meaning.{AreReady};
ghost use Rattle.lower_laws_names.specs.Copies.{copies};
ghost use Rattle.lower_laws_names.specs.Marks.{marks};
ghost use Rattle.lower_laws_names.specs.Objects.{top_decls};
ghost use Rattle.lower_laws_translated.specs.Translated.{is_in_egress};
ghost use Rattle.lower_names.specs.FieldNames.{new_field_names};
ghost use Rattle.lower_names.specs.RenamedSorts.{new_names};
ghost use Rattle.lower_marks.specs.Marking.{marked_in};
ghost use Rattle.lower_copies.specs.Copying.{action_copy};
ghost use Rattle.lower_decls.specs.Lowered.{AreLowered};

use crate::tops::top_decls;
use lower_copies::{ActionCopy, action_copies, egress_tables};
use lower_marks::{Marked, field_marks, mark_rows, marked_rows};
use lower_names::{FieldName, Renamed, new_field_names, new_names};
use p4x_bits::{OutOfMemory, Rows};
use p414_field_lists::FieldLists;
use p414_names::Names14;
use p416_syntax::Decl16;
use std::alloc::Global;

/// What is declared at the top of a translated text, and what the rest of it is written with.
pub struct LoweredTypes {
    /// The types and objects that stand before the blocks.
    pub decls: Rows<Decl16>,
    /// The new names, sort by sort.
    pub names: Rows<Renamed>,
    /// The new names of the fields of each instance.
    pub fields: Rows<FieldName>,
    /// The copies of actions: those of ingress and of egress, and those that count.
    pub copies: Rows<ActionCopy>,
    /// The marks of the lists that calls preserve.
    pub marks: Rows<Marked>,
}

impl Drop for LoweredTypes {
    fn drop(self) {
        let LoweredTypes {
            decls: _decls,
            names: _names,
            fields: _fields,
            copies: _copies,
            marks: _marks,
        } = self;
    }
}

impl LoweredTypes {
    /// The types and objects that stand before the blocks; the rest is let go.
    pub fn into_decls(self) -> Rows<Decl16>
        ensures { result ≡ self.decls }
    {
        let LoweredTypes {
            decls,
            names: _names,
            fields: _fields,
            copies: _copies,
            marks: _marks,
        } = self;
        decls
    }
}

/// The lists that calls preserve, with their marks.
fn all_marked(alloc: Global, names: &Names14<'_>) -> Result<Rows<Marked>, OutOfMemory>
    ensures { IfOk result (λ found. map marked_in found ≡ marks names.now) }
{
    let rows = mark_rows(alloc, names)?;
    let found = marked_rows(alloc, rows.as_slice())?;
    Ok(found)
}

/// The types and objects that stand before the blocks, by the marks of the lists.
fn decls_by(
    alloc: Global,
    names: &Names14<'_>,
    lists: &FieldLists,
    marked: &[Marked],
) -> Result<Rows<Decl16>, OutOfMemory>
    requires ready { AreReady names.now lists.now }
    requires marked { map marked_in marked.now ≡ marks names.now }
    ensures { IfOk result (λ found. (x : Expanded) → IsExpanded names.now x → found ≡ top_decls names.now x) }
{
    let fields = field_marks(alloc, names, lists, marked)?;
    let found = top_decls(alloc, names, &fields)?;
    Ok(found)
}

/// The copies of actions of both pipelines.
fn all_copies(alloc: Global, names: &Names14<'_>) -> Result<Rows<ActionCopy>, OutOfMemory>
    requires { declares_twice names.now ≡ false }
    ensures { IfOk result (λ found. (x : Expanded) → IsExpanded names.now x → found ≡ map (action_copy names.now) (copies names.now (is_in_egress names.now x))) }
{
    let in_egress = egress_tables(alloc, names)?;
    let found = action_copies(alloc, names, &in_egress)?;
    Ok(found)
}

/// The whole, with the new names.
fn with_names(
    alloc: Global,
    names: &Names14<'_>,
    decls: Rows<Decl16>,
    copies: Rows<ActionCopy>,
    marks: Rows<Marked>,
) -> Result<LoweredTypes, OutOfMemory>
    ensures { IfOk result (λ found. found ≡ record { decls = decls; names = new_names names.now; fields = new_field_names names.now; copies = copies; marks = marks }) }
{
    let fields = new_field_names(alloc, names)?;
    let names = new_names(alloc, names)?;
    Ok(LoweredTypes {
        decls,
        names,
        fields,
        copies,
        marks,
    })
}

/// The types that a lowering is written with, by the lists of the program when they are expanded.
pub fn lowered(
    alloc: Global,
    names: &Names14<'_>,
    lists: &FieldLists,
) -> Result<LoweredTypes, OutOfMemory>
    requires once { declares_twice names.now ≡ false }
    requires ready { AreReady names.now lists.now }
    ensures { IfOk result (λ found. (x : Expanded) → IsExpanded names.now x → AreLowered names.now x found) }
{
    let marks = all_marked(alloc, names)?;
    let decls = decls_by(alloc, names, lists, marks.as_slice())?;
    let copies = all_copies(alloc, names)?;
    let found = with_names(alloc, names, decls, copies, marks)?;
    Ok(found)
}
