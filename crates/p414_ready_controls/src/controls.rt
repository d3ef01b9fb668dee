// The controls of a program.
ghost use Rattle.std.specs.Prelude.{◌≡◌, ◌++◌, [], map, option_to_list, slice_index_or, IfOk, OnOk};
ghost use Rattle.p414_syntax.specs.ControlExpansion.{control_in, controls};
ghost use Rattle.p414_sem.specs.Signatures.{signature14};
ghost use Rattle.p414_ready_controls.specs.Nodes.{body_nodes, control_nodes};

use crate::building::nodes_of;
use crate::names::ControlNames;
use crate::nodes::ControlNode;
use match_core::Signature;
use p4x_bits::{OutOfMemory, Rows};
use p414_names::Names14;
use p414_syntax::Decl;
use std::alloc::Global;
use std::marker::Model;

/// The controls of a program, ready to run. Contracts see the nodes of each, in the order of declaration.
#[derive(Drop)]
pub struct ReadyControls {
    bodies: Vec<Rows<ControlNode>>,
}

impl Model for ReadyControls {
    ghost use Rattle.std.specs.Prelude.{List};
    ghost use Rattle.p414_ready_controls.specs.declared.nodes.ControlNode.{ControlNode as Node};

    ghost Value = { List (List Node) };

    ghost view = { λ c. c.bodies.items };
}

impl ReadyControls {
    /// The nodes of the control with this number; none of a control that isn't there. It takes no memory.
    pub fn body(&self, control: u32) -> &[ControlNode]
        ensures { result.now ≡ slice_index_or self.now control [] }
    {
        match self.bodies.get(control as usize) {
            Some(nodes) => nodes.as_slice(),
            None => &[],
        }
    }
}

/// Puts the nodes of a control last, if a declaration is one.
fn add_control(
    alloc: Global,
    bodies: &mut Vec<Rows<ControlNode>>,
    names: &ControlNames<'_, '_>,
    decl: &Decl,
) -> Result<(), OutOfMemory>
    ensures { OnOk result (bodies.new.items ≡ bodies.old.items ++ map (body_nodes names.now) (option_to_list (control_in decl.now))) }
{
    if let Decl::Control(control) = decl {
        bodies.push(nodes_of(alloc, names, &control.body())?)?;
    }
    Ok(())
}

/// The nodes of all controls.
#[tactic(auto, using(crate::proofs::Built::control_put))]
fn bodies_of(
    alloc: Global,
    names: &ControlNames<'_, '_>,
    decls: &[Decl],
) -> Result<Vec<Rows<ControlNode>>, OutOfMemory>
    ensures { IfOk result (λ bodies. bodies.items ≡ map (body_nodes names.now) (controls decls.now)) }
{
    let mut bodies = Vec::new(alloc);
    for decl in decls {
        add_control(alloc, &mut bodies, names, decl)?;
    }
    Ok(bodies)
}

/// The controls of the program of these names, which has this signature, ready to run: each statement by itself, with tables,
/// actions, conditions and controls by number. A call of a control stays a call, so that they take no more than the program. In
/// time O(n log n) in the program; the one error is want of memory, which numbers and widths count as that are too large to keep:
/// no program has one that breaks no rule.
pub fn ready_controls(
    alloc: Global,
    names: &Names14<'_>,
    signature: &Signature,
) -> Result<ReadyControls, OutOfMemory>
    requires { signature.now ≡ signature14 names.now }
    ensures { IfOk result (λ made. made ≡ control_nodes names.now) }
{
    let known = ControlNames::of(alloc, names, signature)?;
    let bodies = bodies_of(alloc, &known, names.decls())?;
    Ok(ReadyControls { bodies })
}
