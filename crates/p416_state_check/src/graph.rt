// The states of a parser with the states that they lead to (P4_16 1.2, "Transition statements").
ghost use Rattle.std.specs.Prelude.{◌≡◌, ◌++◌, map, filter_map, option_to_list, IfOk, OnOk};
ghost use Rattle.p416_syntax.specs.Declarations.{target_name};
ghost use Rattle.p416_syntax.specs.ParserStates.{case_target, targets_of};
ghost use Rattle.p416_state_check.specs.internal.Outside.{state_node, leading_on};

use crate::body::extracts;
use name_cycles::NameNode;
use p4x_bits::OutOfMemory;
use p416_syntax::{SelectCase, State, Target, Transition};
use std::alloc::Global;

/// Leads a node to the state that a target names, where it names one.
fn add_target<'s>(node: &mut NameNode<'s>, target: &'s Target) -> Result<(), OutOfMemory>
    ensures { OnOk result (node.new ≡ leading_on node.old (option_to_list (target_name target.now))) }
{
    match target {
        Target::State(name) => node.lead_to(name.as_slice()),
        _ => Ok(()),
    }
}

/// Leads a node to the states that the cases of a `select` name.
fn add_cases<'s>(node: &mut NameNode<'s>, cases: &'s [SelectCase]) -> Result<(), OutOfMemory>
    ensures { OnOk result (node.new ≡ leading_on node.old (filter_map case_target cases.now)) }
{
    for case in cases {
        add_target(node, &case.target)?;
    }
    Ok(())
}

/// Leads a node to the states that a transition names.
fn add_transition<'s>(
    node: &mut NameNode<'s>,
    transition: &'s Transition,
) -> Result<(), OutOfMemory>
    ensures { OnOk result (node.new ≡ leading_on node.old (targets_of transition.now)) }
{
    match transition {
        Transition::Go(target) => add_target(node, target),
        Transition::Select(_, cases) => add_cases(node, cases.as_slice()),
    }
}

/// A state with the states that it leads to; with none where it extracts.
fn state_node(alloc: Global, state: &State) -> Result<NameNode<'_>, OutOfMemory>
    ensures { IfOk result (λ node. node ≡ state_node state.now) }
{
    let mut node = NameNode::new(alloc, state.name.as_slice());
    if !extracts(alloc, &state.body.statements())? {
        add_transition(&mut node, &state.transition)?;
    }
    Ok(node)
}

/// The same of these states, in order.
pub(crate) fn state_nodes(alloc: Global, states: &[State]) -> Result<Vec<NameNode<'_>>, OutOfMemory>
    ensures { IfOk result (λ nodes. nodes.items ≡ map state_node states.now) }
{
    let mut nodes = Vec::new(alloc);
    for state in states {
        nodes.push(state_node(alloc, state)?)?;
    }
    Ok(nodes)
}
