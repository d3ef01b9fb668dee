// Whether field lists come to items of a kind, from what they have by themselves.
ghost use Rattle.std.specs.Prelude.{◌≡◌, Bool, not, ◌&&◌, length, map, IfOk};
ghost use Rattle.std.specs.List.{list_any};
ghost use Rattle.digraph.specs.Components.{AreComponents};
ghost use Rattle.p414_syntax.specs.References.{referred};
ghost use Rattle.p414_syntax.specs.declared.calculations.Item.{Item as AnyItem};
ghost use Rattle.p414_syntax.specs.Lists.{HoldsItself};
ghost use Rattle.p414_list_check.specs.internal.Expanded.{list_graph};
ghost use Rattle.p414_preserved_check.specs.internal.Marks.{own_marks, AreMarks, AsksOwn, is_marked, is_marked_name, is_missing, joins_marked};

use digraph::{Components, Digraph};
use p4x_bits::OutOfMemory;
use p414_list_check::{list_graph, list_number};
use p414_names::Names14;
use std::alloc::Global;

/// The marks of the lists of a graph, given those that they have by themselves.
fn graph_marks(
    alloc: Global,
    names: &Names14<'_>,
    graph: &Digraph,
    components: &Components,
    own: &[u64],
) -> Result<Vec<u64>, OutOfMemory>
    requires acyclic { HoldsItself names.now → ⊥ }
    requires graph { graph.now ≡ list_graph names.now }
    requires components { AreComponents graph.now components.now }
    requires own { length own.now ≡ length (list_graph names.now) }
    ensures { IfOk result (λ marks. (p by : AnyItem → Bool) → AsksOwn names.now p by → own.now ≡ own_marks names.now by → AreMarks names.now p marks.items) }
{
    match components.sizes(alloc, graph, own, 1)? {
        Some(marks) => Ok(marks),
        None => Ok(Vec::new(alloc)),
    }
}

/// For each list, by its number, 1 where it comes to an item of a kind when it is expanded, else 0, given the same of the
/// items that lists have by themselves. In time linear in the lists; the one error is want of memory.
pub fn list_marks(alloc: Global, names: &Names14<'_>, own: &[u64]) -> Result<Vec<u64>, OutOfMemory>
    requires acyclic { HoldsItself names.now → ⊥ }
    requires own { length own.now ≡ length (list_graph names.now) }
    ensures { IfOk result (λ marks. (p by : AnyItem → Bool) → AsksOwn names.now p by → own.now ≡ own_marks names.now by → AreMarks names.now p marks.items) }
{
    let graph = list_graph(alloc, names)?;
    let components = Components::of(alloc, &graph)?;
    graph_marks(alloc, names, &graph, &components, own)
}

/// Whether the list with this number is marked.
pub fn is_marked(marks: &[u64], list: usize) -> bool
    ensures { result ≡ is_marked marks.now list }
{
    match marks.get(list) {
        Some(mark) => *mark > 0,
        None => false,
    }
}

/// Whether the list with a name is marked.
pub fn is_marked_name(names: &Names14<'_>, marks: &[u64], name: &[u8]) -> bool
    ensures { result ≡ is_marked_name names.now marks.now name.now }
{
    match list_number(names, name) {
        Some(list) => is_marked(marks, list),
        None => false,
    }
}

/// Whether no list has a name.
pub fn is_missing(names: &Names14<'_>, name: &[u8]) -> bool
    ensures { result ≡ is_missing names.now name.now }
{
    list_number(names, name).is_none()
}

/// Whether no list has one of these names.
fn some_missing(names: &Names14<'_>, listed: &[&[u8]]) -> bool
    ensures { result ≡ list_any (is_missing names.now) (map referred listed.now) }
{
    for name in listed {
        if is_missing(names, name) {
            return true;
        }
    }
    false
}

/// Whether a list with one of these names is marked.
fn some_marked(names: &Names14<'_>, marks: &[u64], listed: &[&[u8]]) -> bool
    ensures { result ≡ list_any (is_marked_name names.now marks.now) (map referred listed.now) }
{
    for name in listed {
        if is_marked_name(names, marks, name) {
            return true;
        }
    }
    false
}

/// Whether lists have all these names and one of them is marked.
pub fn joins_marked(names: &Names14<'_>, marks: &[u64], listed: &[&[u8]]) -> bool
    ensures { result ≡ joins_marked names.now marks.now (map referred listed.now) }
{
    !some_missing(names, listed) && some_marked(names, marks, listed)
}
