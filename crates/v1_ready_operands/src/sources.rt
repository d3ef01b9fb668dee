// Choices are joined from the inside out.
ghost use Rattle.std.specs.Prelude.{◌≡◌, ◌<◌, ℕ, List, [], ◌∷◌, length, option_map, IfOk, IfSome, OnOk};
ghost use Rattle.name_numbers.specs.Names.{find_name};
ghost use Rattle.p416_syntax.specs.Declarations.{layouts_of};
ghost use Rattle.p416_scopes.specs.Seen.{seen_scope};
ghost use Rattle.v1_ready_blocks.specs.Nodes.{Tree, source_at, source_of};
ghost use Rattle.v1_ready_program.specs.Seen.{seen_seats};
ghost use Rattle.v1_ready_blocks.specs.Tests.{parts};
ghost use Rattle.v1_ready_nodes.specs.Held.{trees_in, IsHeld, Grows};
ghost use Rattle.v1_ready_statements.specs.Tested.{with_chosen, ready_source};
ghost use Rattle.v1_ready_tests.specs.internal.Coded.{seen_test};
ghost use Rattle.v1_ready_operands.specs.internal.Coded.{source_over, sources_over, IsSourceAmong, AreSourcesAmong, seen_found, seen_founds, AreFoundIn, seen_source, seen_sources, IsSourceIn, AreSourcesIn};
ghost use Rattle.v1_ready_operands.specs.internal.SourcePasses.{choice_found, first_source, rest_sources, join_one, joined};

use crate::found::{Found, all_found};
use name_numbers::Numbering;
use p4x_bits::OutOfMemory;
use p416_syntax::ExpView;
use p416_typing::{Typed, typed_expression};
use std::alloc::Global;
use v1_ready_blocks::{Node, RangePlace, SourceNode};
use v1_ready_nodes::ReadyNodes;
use v1_ready_program::Around;
use work_stack::Stack;

/// Puts a node of a source.
#[tactic(auto, using(crate::proofs::KeepingSources::source_added, crate::proofs::KeepingSources::source_within))]
fn put_source(nodes: &mut ReadyNodes<'_>, node: SourceNode) -> Result<usize, OutOfMemory>
    requires held { IsHeld nodes.old }
    ensures source { IfOk result (λ place. source_at (trees_in nodes.new) place ≡ source_of (trees_in nodes.old) node) }
    ensures within { IfOk result (λ place. place < length (trees_in nodes.new)) }
    ensures grows { OnOk result (Grows nodes.old nodes.new) }
{
    nodes.put(Node::Source(node))
}

/// Takes the next source; none where none is left.
fn take_source(sources: &mut Stack<Option<usize>>) -> Option<usize>
    ensures source { (ts : List Tree) → source_over ts result ≡ first_source (sources_over ts sources.old) }
    ensures rest { (ts : List Tree) → sources_over ts sources.new ≡ rest_sources (sources_over ts sources.old) }
    ensures within { (m : ℕ) → AreSourcesAmong m sources.old → IsSourceAmong m result × AreSourcesAmong m sources.new }
{
    match sources.pop() {
        Some(source) => source,
        None => None,
    }
}

/// These parts, if there are any.
fn put_parts(
    nodes: &mut ReadyNodes<'_>,
    range: Option<RangePlace>,
) -> Result<Option<usize>, OutOfMemory>
    requires held { IsHeld nodes.old }
    ensures source { IfOk result (λ place. seen_source nodes.new place ≡ option_map parts range) }
    ensures within { IfOk result (IsSourceIn nodes.new) }
    ensures grows { OnOk result (Grows nodes.old nodes.new) }
{
    match range {
        Some(range) => {
            let place = put_source(nodes, SourceNode::Parts(range))?;
            Ok(Some(place))
        }
        None => Ok(None),
    }
}

/// A choice between two, if there are all three.
fn put_chosen(
    nodes: &mut ReadyNodes<'_>,
    condition: Option<usize>,
    positive: Option<usize>,
    negative: Option<usize>,
) -> Result<Option<usize>, OutOfMemory>
    requires held { IsHeld nodes.old }
    ensures source { IfOk result (λ place. seen_source nodes.new place ≡ with_chosen (seen_test nodes.old condition) (seen_source nodes.old positive) (seen_source nodes.old negative)) }
    ensures within { IfOk result (IsSourceIn nodes.new) }
    ensures grows { OnOk result (Grows nodes.old nodes.new) }
{
    match (condition, positive, negative) {
        (Some(condition), Some(positive), Some(negative)) => {
            let place = put_source(nodes, SourceNode::Chosen(condition, positive, negative))?;
            Ok(Some(place))
        }
        _ => Ok(None),
    }
}

/// Puts these parts in front of the others.
fn join_parts(
    nodes: &mut ReadyNodes<'_>,
    sources: &mut Stack<Option<usize>>,
    range: Option<RangePlace>,
) -> Result<(), OutOfMemory>
    requires held { IsHeld nodes.old }
    requires sources { AreSourcesIn nodes.old sources.old }
    ensures sources { OnOk result (seen_sources nodes.new sources.new ≡ option_map parts range ∷ seen_sources nodes.old sources.old) }
    ensures within { OnOk result (AreSourcesIn nodes.new sources.new) }
    ensures grows { OnOk result (Grows nodes.old nodes.new) }
{
    let place = put_parts(nodes, range)?;
    sources.push(place)?;
    Ok(())
}

/// Puts the choice between the next two in place of them.
fn join_two(
    nodes: &mut ReadyNodes<'_>,
    sources: &mut Stack<Option<usize>>,
    condition: Option<usize>,
) -> Result<(), OutOfMemory>
    requires held { IsHeld nodes.old }
    requires sources { AreSourcesIn nodes.old sources.old }
    ensures sources { OnOk result (seen_sources nodes.new sources.new ≡ join_one (choice_found (seen_test nodes.old condition)) (seen_sources nodes.old sources.old)) }
    ensures within { OnOk result (AreSourcesIn nodes.new sources.new) }
    ensures grows { OnOk result (Grows nodes.old nodes.new) }
{
    let positive = take_source(sources);
    let negative = take_source(sources);
    let place = put_chosen(nodes, condition, positive, negative)?;
    sources.push(place)?;
    Ok(())
}

/// Joins what was found to those behind it.
fn join_one(
    nodes: &mut ReadyNodes<'_>,
    sources: &mut Stack<Option<usize>>,
    found: Found,
) -> Result<(), OutOfMemory>
    requires held { IsHeld nodes.old }
    requires sources { AreSourcesIn nodes.old sources.old }
    ensures sources { OnOk result (seen_sources nodes.new sources.new ≡ join_one (seen_found nodes.old found) (seen_sources nodes.old sources.old)) }
    ensures within { OnOk result (AreSourcesIn nodes.new sources.new) }
    ensures grows { OnOk result (Grows nodes.old nodes.new) }
{
    match found {
        Found::Parts(range) => join_parts(nodes, sources, range),
        Found::Chosen(condition) => join_two(nodes, sources, condition),
    }
}

/// Joins all that was found.
fn join_all(
    alloc: Global,
    nodes: &mut ReadyNodes<'_>,
    founds: &[Found],
) -> Result<Stack<Option<usize>>, OutOfMemory>
    requires held { IsHeld nodes.old }
    requires found { AreFoundIn nodes.old founds.now }
    ensures sources { IfOk result (λ sources. seen_sources nodes.new sources ≡ joined (seen_founds nodes.old founds.now)) }
    ensures within { IfOk result (AreSourcesIn nodes.new) }
    ensures grows { OnOk result (Grows nodes.old nodes.new) }
{
    let mut sources = Stack::new(alloc);
    let mut left = founds.len();
    while left > 0 {
        left -= 1;
        join_one(nodes, &mut sources, founds[left])?;
    }
    Ok(sources)
}

/// What an expression and all within it are joined to.
fn sources_of<'a>(
    alloc: Global,
    nodes: &mut ReadyNodes<'_>,
    around: Around<'_, 'a>,
    tables: &Numbering<'_>,
    expression: &ExpView<'a>,
) -> Result<Stack<Option<usize>>, OutOfMemory>
    requires held { IsHeld nodes.old }
    requires types { around.types.now ≡ layouts_of around.scope.now.top.now }
    ensures sources { IfOk result (λ sources. seen_sources nodes.new sources ≡ ready_source (seen_scope around.entry.scope.now) (seen_seats around.entry.seats.now) (find_name tables.now) expression.now ∷ []) }
    ensures within { IfOk result (AreSourcesIn nodes.new) }
    ensures grows { OnOk result (Grows nodes.old nodes.new) }
{
    let Typed { views, rows } = typed_expression(alloc, around.scope, expression)?;
    let founds = all_found(alloc, nodes, around, tables, &views, rows)?;
    let sources = join_all(alloc, nodes, &founds)?;
    Ok(sources)
}

/// Makes a header, a stack or a struct ready that an expression is, where tables of these names in order may be applied: the place of
/// its parts, or of the choice between some, which is put behind the others; none exactly where it is no such thing. The time is
/// proportional to what stands within it, but for look-ups. The one error is want of memory, which numbers, widths and places
/// count as that no accepted program has.
pub fn ready_source<'a>(
    alloc: Global,
    nodes: &mut ReadyNodes<'_>,
    around: Around<'_, 'a>,
    tables: &Numbering<'_>,
    expression: &ExpView<'a>,
) -> Result<Option<usize>, OutOfMemory>
    requires held { IsHeld nodes.old }
    requires types { around.types.now ≡ layouts_of around.scope.now.top.now }
    ensures source { IfOk result (λ found. option_map (source_at (trees_in nodes.new)) found ≡ ready_source (seen_scope around.entry.scope.now) (seen_seats around.entry.seats.now) (find_name tables.now) expression.now) }
    ensures within { IfOk result (λ found. IfSome found (λ place. place < length (trees_in nodes.new))) }
    ensures grows { OnOk result (Grows nodes.old nodes.new) }
{
    let mut sources = sources_of(alloc, nodes, around, tables, expression)?;
    match sources.pop() {
        Some(source) => Ok(source),
        None => Ok(None),
    }
}
