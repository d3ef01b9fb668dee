// Arguments are put in front of those behind them (P4_16 1.2, "Calling convention: call by copy in/copy out").
ghost use Rattle.std.specs.Prelude.{◌≡◌, ◌<◌, [], ◌∷◌, Some, length, option_map, IfOk, OnOk};
ghost use Rattle.name_numbers.specs.Names.{find_name};
ghost use Rattle.p416_syntax.specs.Declarations.{layouts_of};
ghost use Rattle.p416_syntax.specs.Calls.{any_bits};
ghost use Rattle.p416_calls.specs.Seen.{seen_place};
ghost use Rattle.p416_scopes.specs.Seen.{seen_scope};
ghost use Rattle.v1_ready_blocks.specs.Arguments.{a_value, an_item};
ghost use Rattle.v1_ready_blocks.specs.Nodes.{arguments_at, arguments_of};
ghost use Rattle.v1_ready_program.specs.Seen.{seen_seats};
ghost use Rattle.v1_ready_nodes.specs.Held.{trees_in, IsHeld, Grows};
ghost use Rattle.v1_ready_statements.specs.Tested.{ready_test};
ghost use Rattle.v1_ready_statements.specs.Given.{join_option};
ghost use Rattle.v1_ready_tests.specs.internal.Coded.{seen_test};
ghost use Rattle.v1_ready_tests.specs.Items.{items_by, list_by};
ghost use Rattle.v1_ready_tests.specs.Seen.{seen_arguments, AreArgumentsIn};

use crate::tests::ready_test;
use name_numbers::Numbering;
use p4x_bits::OutOfMemory;
use p416_calls::Place;
use p416_syntax::{ExpHead, ExpView};
use std::alloc::Global;
use v1_ready_blocks::{ArgumentNode, Node};
use v1_ready_nodes::ReadyNodes;
use v1_ready_program::Around;

/// Puts a node of arguments.
#[tactic(auto, using(crate::proofs::Arguing::arguments_added, crate::proofs::Arguing::arguments_within))]
fn put_arguments(nodes: &mut ReadyNodes<'_>, node: ArgumentNode) -> Result<usize, OutOfMemory>
    requires held { IsHeld nodes.old }
    ensures arguments { IfOk result (λ place. arguments_at (trees_in nodes.new) place ≡ arguments_of (trees_in nodes.old) node) }
    ensures within { IfOk result (λ place. place < length (trees_in nodes.new)) }
    ensures grows { OnOk result (Grows nodes.old nodes.new) }
{
    nodes.put(Node::Argument(node))
}

/// No arguments.
pub fn no_arguments(nodes: &mut ReadyNodes<'_>) -> Result<Option<usize>, OutOfMemory>
    requires held { IsHeld nodes.old }
    ensures arguments { IfOk result (λ found. seen_arguments nodes.new found ≡ Some []) }
    ensures within { IfOk result (AreArgumentsIn nodes.new) }
    ensures grows { OnOk result (Grows nodes.old nodes.new) }
{
    let place = put_arguments(nodes, ArgumentNode::Nothing)?;
    Ok(Some(place))
}

/// A value in front of the arguments behind it, if all of these are some.
fn put_value(
    nodes: &mut ReadyNodes<'_>,
    test: Option<usize>,
    rest: Option<usize>,
) -> Result<Option<usize>, OutOfMemory>
    requires held { IsHeld nodes.old }
    ensures arguments { IfOk result (λ found. seen_arguments nodes.new found ≡ join_option (option_map (λ t. a_value t ∷ []) (seen_test nodes.old test)) (seen_arguments nodes.old rest)) }
    ensures within { IfOk result (AreArgumentsIn nodes.new) }
    ensures grows { OnOk result (Grows nodes.old nodes.new) }
{
    match (test, rest) {
        (Some(test), Some(rest)) => {
            let place = put_arguments(nodes, ArgumentNode::Value(test, rest))?;
            Ok(Some(place))
        }
        _ => Ok(None),
    }
}

/// An item in front of the arguments behind it, if all of these are some.
fn put_item(
    nodes: &mut ReadyNodes<'_>,
    test: Option<usize>,
    rest: Option<usize>,
) -> Result<Option<usize>, OutOfMemory>
    requires held { IsHeld nodes.old }
    ensures arguments { IfOk result (λ found. seen_arguments nodes.new found ≡ join_option (option_map (λ t. an_item t ∷ []) (seen_test nodes.old test)) (seen_arguments nodes.old rest)) }
    ensures within { IfOk result (AreArgumentsIn nodes.new) }
    ensures grows { OnOk result (Grows nodes.old nodes.new) }
{
    match (test, rest) {
        (Some(test), Some(rest)) => {
            let place = put_arguments(nodes, ArgumentNode::Item(test, rest))?;
            Ok(Some(place))
        }
        _ => Ok(None),
    }
}

/// The value of an expression at its place in front of the arguments behind it: their place; none exactly where one of them is none.
/// Errors as those of `ready_test`.
pub fn value_before<'a>(
    alloc: Global,
    nodes: &mut ReadyNodes<'_>,
    around: Around<'_, 'a>,
    tables: &Numbering<'_>,
    place: Place<'a>,
    expression: &ExpView<'a>,
    rest: Option<usize>,
) -> Result<Option<usize>, OutOfMemory>
    requires held { IsHeld nodes.old }
    requires types { around.types.now ≡ layouts_of around.scope.now.top.now }
    requires rest { AreArgumentsIn nodes.old rest }
    ensures arguments { IfOk result (λ found. seen_arguments nodes.new found ≡ join_option (option_map (λ t. a_value t ∷ []) (ready_test (seen_scope around.entry.scope.now) (seen_seats around.entry.seats.now) (find_name tables.now) (seen_place place.entry) expression.now)) (seen_arguments nodes.old rest)) }
    ensures within { IfOk result (AreArgumentsIn nodes.new) }
    ensures grows { OnOk result (Grows nodes.old nodes.new) }
{
    let test = ready_test(alloc, nodes, around, tables, place, expression)?;
    put_value(nodes, test, rest)
}

/// An item of a list in front of the arguments behind it.
fn item_before<'a>(
    alloc: Global,
    nodes: &mut ReadyNodes<'_>,
    around: Around<'_, 'a>,
    tables: &Numbering<'_>,
    expression: &ExpView<'a>,
    rest: Option<usize>,
) -> Result<Option<usize>, OutOfMemory>
    requires held { IsHeld nodes.old }
    requires types { around.types.now ≡ layouts_of around.scope.now.top.now }
    requires rest { AreArgumentsIn nodes.old rest }
    ensures arguments { IfOk result (λ found. seen_arguments nodes.new found ≡ join_option (option_map (λ t. an_item t ∷ []) (ready_test (seen_scope around.entry.scope.now) (seen_seats around.entry.seats.now) (find_name tables.now) any_bits expression.now)) (seen_arguments nodes.old rest)) }
    ensures within { IfOk result (AreArgumentsIn nodes.new) }
    ensures grows { OnOk result (Grows nodes.old nodes.new) }
{
    let test = ready_test(alloc, nodes, around, tables, Place::AnyBits, expression)?;
    put_item(nodes, test, rest)
}

/// The items of a list in front of the arguments behind it.
fn items_before<'a>(
    alloc: Global,
    nodes: &mut ReadyNodes<'_>,
    around: Around<'_, 'a>,
    tables: &Numbering<'_>,
    items: ExpView<'a>,
    rest: Option<usize>,
) -> Result<Option<usize>, OutOfMemory>
    requires held { IsHeld nodes.old }
    requires types { around.types.now ≡ layouts_of around.scope.now.top.now }
    requires rest { AreArgumentsIn nodes.old rest }
    ensures arguments { IfOk result (λ found. seen_arguments nodes.new found ≡ join_option (items_by (seen_scope around.entry.scope.now) (seen_seats around.entry.seats.now) (find_name tables.now) items.entry) (seen_arguments nodes.old rest)) }
    ensures within { IfOk result (AreArgumentsIn nodes.new) }
    ensures grows { OnOk result (Grows nodes.old nodes.new) }
{
    let mut left = items;
    let mut found = rest;
    while let ExpHead::Argument(before, last) = left.head() {
        found = item_before(alloc, nodes, around, tables, &last, found)?;
        left = before;
    }
    Ok(found)
}

/// The items of a list in braces in front of the arguments behind it: their place; none exactly where one of them is none. Errors as
/// those of `ready_test`.
pub fn list_before<'a>(
    alloc: Global,
    nodes: &mut ReadyNodes<'_>,
    around: Around<'_, 'a>,
    tables: &Numbering<'_>,
    list: &ExpView<'a>,
    rest: Option<usize>,
) -> Result<Option<usize>, OutOfMemory>
    requires held { IsHeld nodes.old }
    requires types { around.types.now ≡ layouts_of around.scope.now.top.now }
    requires rest { AreArgumentsIn nodes.old rest }
    ensures arguments { IfOk result (λ found. seen_arguments nodes.new found ≡ join_option (list_by (seen_scope around.entry.scope.now) (seen_seats around.entry.seats.now) (find_name tables.now) list.now) (seen_arguments nodes.old rest)) }
    ensures within { IfOk result (AreArgumentsIn nodes.new) }
    ensures grows { OnOk result (Grows nodes.old nodes.new) }
{
    match list.head() {
        ExpHead::Listed(items) => items_before(alloc, nodes, around, tables, items, rest),
        _ => Ok(rest),
    }
}
