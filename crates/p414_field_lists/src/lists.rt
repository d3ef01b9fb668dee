// The rows of all lists.
ghost use Rattle.std.specs.Prelude.{◌≡◌, [], replicate, IfOk};
ghost use Rattle.digraph.specs.Components.{AreComponents};
ghost use Rattle.p414_syntax.specs.Expansion.{lists};
ghost use Rattle.p414_syntax.specs.Lists.{HoldsItself};
ghost use Rattle.p414_list_check.specs.internal.Expanded.{list_graph};
ghost use Rattle.p414_field_lists.specs.Rows.{rows_at};
ghost use Rattle.p414_field_lists.specs.Meaning.{AreReady};
ghost use Rattle.p414_field_lists.specs.internal.Expanding.{list_rows_at};

use crate::expand::list_rows;
use crate::rows::ItemRow;
use digraph::Components;
use p4x_bits::{OutOfMemory, Rows};
use p414_list_check::list_graph;
use p414_names::Names14;
use p414_slots::Slots;
use p414_syntax::{Decl, FieldList, References};
use std::alloc::Global;
use std::marker::Model;

/// The field lists of a program, expanded, with their fields by number. Contracts see the rows of each, in the order of
/// declaration.
#[derive(Drop)]
pub struct FieldLists {
    ready: Vec<Rows<ItemRow>>,
}

impl Model for FieldLists {
    ghost use Rattle.std.specs.Prelude.{List};
    ghost use Rattle.p414_field_lists.specs.declared.rows.ItemRow.{ItemRow as Row};

    ghost Value = { List (List Row) };

    ghost view = { λ l. l.ready.items };
}

/// The field lists in the order of declaration.
fn declared_lists(alloc: Global, decls: &[Decl]) -> Result<References<'_, FieldList>, OutOfMemory>
    ensures { IfOk result (λ found. found ≡ lists decls.now) }
{
    let mut found = References::new(alloc);
    for decl in decls {
        if let Decl::FieldList(declared) = decl {
            found.push(declared)?;
        }
    }
    Ok(found)
}

/// So many lists without rows.
fn no_rows(alloc: Global, count: usize) -> Result<Vec<Rows<ItemRow>>, OutOfMemory>
    ensures { IfOk result (λ made. made.items ≡ replicate count []) }
{
    let mut made = Vec::with_capacity(alloc, count)?;
    for index in 0..count {
        made.push(Rows::new(alloc))?;
    }
    Ok(made)
}

/// The rows of the list with this number, where those that stand in it are ready.
fn rows_of_list(
    alloc: Global,
    slots: &Slots<'_, '_>,
    declared: &References<'_, FieldList>,
    ready: &[Rows<ItemRow>],
    list: usize,
) -> Result<Rows<ItemRow>, OutOfMemory>
    requires { declared.now ≡ lists slots.now }
    ensures { IfOk result (λ rows. rows ≡ list_rows_at slots.now ready.now list) }
{
    match declared.get(list) {
        Some(found) => list_rows(alloc, slots, ready, found.items.as_slice()),
        None => Ok(Rows::new(alloc)),
    }
}

/// The lists by the lists that stand in them: each behind these.
fn components_of(alloc: Global, names: &Names14<'_>) -> Result<Components, OutOfMemory>
    ensures { IfOk result (AreComponents (list_graph names.now)) }
{
    let graph = list_graph(alloc, names)?;
    Components::of(alloc, &graph)
}

/// The rows of all lists, each behind those that stand in it.
fn rows_of_lists(
    alloc: Global,
    slots: &Slots<'_, '_>,
    declared: &References<'_, FieldList>,
    components: &Components,
) -> Result<Vec<Rows<ItemRow>>, OutOfMemory>
    requires declared { declared.now ≡ lists slots.now }
    requires components { AreComponents (list_graph slots.now) components.now }
    requires acyclic { HoldsItself slots.now → ⊥ }
    ensures { IfOk result (λ made. AreReady slots.now made.items) }
{
    let mut ready = no_rows(alloc, declared.len())?;
    for list in components.order() {
        let rows = rows_of_list(alloc, slots, declared, &ready, *list)?;
        ready[*list] = rows;
    }
    Ok(ready)
}

impl FieldLists {
    /// The field lists of the program of these names, of which none holds itself (C8). In time O(n log n) in the program and
    /// in the rows; the one error is want of memory.
    pub fn of(alloc: Global, names: &Names14<'_>) -> Result<FieldLists, OutOfMemory>
        requires { HoldsItself names.now → ⊥ }
        ensures { IfOk result (AreReady names.now) }
    {
        let slots = Slots::of(alloc, names)?;
        let declared = declared_lists(alloc, names.decls())?;
        let components = components_of(alloc, names)?;
        let ready = rows_of_lists(alloc, &slots, &declared, &components)?;
        Ok(FieldLists { ready })
    }

    /// The rows of the list with this number, from 0 in the order of declaration; none of a list that isn't there.
    pub fn rows(&self, list: u32) -> &[ItemRow]
        ensures { result.now ≡ rows_at self.now list }
    {
        match self.ready.get(list as usize) {
            Some(found) => found.as_slice(),
            None => &[],
        }
    }
}
