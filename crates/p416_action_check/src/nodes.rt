// The actions of a control with the actions that they call (P4_16 1.2, "Actions").
ghost use Rattle.std.specs.Prelude.{◌≡◌, filter_map, map, IfOk, OnOk};
ghost use Rattle.p416_syntax.specs.Scopes.{in_apply};
ghost use Rattle.p416_syntax.specs.Declarations.{action_in, action_uses};
ghost use Rattle.p416_expression_uses.specs.Found.{nothing_found, after_all};
ghost use Rattle.p416_scopes.specs.Seen.{seen_part, seen_scope};
ghost use Rattle.p416_action_check.specs.internal.Nodes.{action_node};

use name_cycles::NameNode;
use p4x_bits::OutOfMemory;
use p416_expression_uses::Findings;
use p416_scopes::Scope;
use p416_syntax::{Action16, Local};
use p416_uses::see_action;
use std::alloc::Global;

/// What is found in an action.
fn found_in<'a>(
    alloc: Global,
    scope: &mut Scope<'_, 'a>,
    action: &'a Action16,
) -> Result<Findings<'a>, OutOfMemory>
    requires { seen_part scope.old.part ≡ in_apply }
    ensures found { IfOk result (λ found. found ≡ after_all nothing_found (action_uses (seen_scope scope.old) action.now)) }
    ensures scope { OnOk result (seen_scope scope.new ≡ seen_scope scope.old) }
{
    let mut found = Findings::new(alloc);
    see_action(alloc, scope, action, &mut found)?;
    Ok(found)
}

/// A node of this name that leads to these.
fn node_of<'a>(
    alloc: Global,
    name: &'a [u8],
    called: &[&'a [u8]],
) -> Result<NameNode<'a>, OutOfMemory>
    ensures { IfOk result (λ node. node ≡ record { called = name.now; leads_to = map (λ text. text.now) called.now }) }
{
    let mut node = NameNode::new(alloc, name);
    for text in called {
        node.lead_to(text)?;
    }
    Ok(node)
}

/// An action with those that it calls.
fn action_node<'a>(
    alloc: Global,
    scope: &mut Scope<'_, 'a>,
    action: &'a Action16,
) -> Result<NameNode<'a>, OutOfMemory>
    requires { seen_part scope.old.part ≡ in_apply }
    ensures node { IfOk result (λ node. node ≡ action_node (seen_scope scope.old) action.now) }
    ensures scope { OnOk result (seen_scope scope.new ≡ seen_scope scope.old) }
{
    let found = found_in(alloc, scope, action)?;
    let node = node_of(alloc, action.name.as_slice(), found.called())?;
    Ok(node)
}

/// The same of the actions among what is declared in a control, in order.
#[tactic(auto, using(crate::proofs::Calling::action_more))]
pub(crate) fn action_nodes<'a>(
    alloc: Global,
    scope: &mut Scope<'_, 'a>,
    locals: &'a [Local],
) -> Result<Vec<NameNode<'a>>, OutOfMemory>
    requires { seen_part scope.old.part ≡ in_apply }
    ensures { IfOk result (λ nodes. nodes.items ≡ map (action_node (seen_scope scope.old)) (filter_map action_in locals.now)) }
{
    let mut nodes = Vec::new(alloc);
    for declared in locals {
        if let Local::Action(action) = declared {
            nodes.push(action_node(alloc, scope, action)?)?;
        }
    }
    Ok(nodes)
}
