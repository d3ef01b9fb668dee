// What is still to be run.
ghost use Rattle.std.specs.Prelude.{◌≡◌, [], ◌∷◌, None, drop, MatchOption, OnOk};
ghost use Rattle.p414_control_run.specs.Leads.{left_of};

use crate::taken::Taken;
use p4x_bits::OutOfMemory;
use p414_ready_conditions::NumberStack;
use p414_ready_controls::ControlNode;
use std::alloc::Global;
use std::marker::Model;
use work_stack::Stack;

/// Statements that are still to be run: nodes, of which more may follow that are none of theirs, and what was taken where they are
/// branches.
#[derive(Drop)]
pub struct Work<'r> {
    pub(crate) taken: Option<Taken>,
    pub(crate) nodes: &'r [ControlNode],
}

impl<'r> Model for Work<'r> {
    ghost use Rattle.p414_control_run.specs.Leads.{Left};

    ghost Value = { Left };

    ghost view = { λ w. record { taken = w.taken; nodes = w.nodes.now } };
}

/// What a control works on beside its packet: the statements that are still to be run, and the numbers of conditions. Its room stays
/// from one packet to the next.
pub struct ControlStack<'r> {
    pub(crate) left: Stack<Work<'r>>,
    pub(crate) numbers: NumberStack,
}

impl Drop for ControlStack<'_> {
    fn drop(self) {
        let ControlStack {
            left: _left,
            numbers: _numbers,
        } = self;
    }
}

impl<'r> ControlStack<'r> {
    /// Nothing to be run. It takes no memory.
    pub fn new(alloc: Global) -> ControlStack<'r> {
        ControlStack {
            left: Stack::new(alloc),
            numbers: NumberStack::new(alloc),
        }
    }

    /// Nodes are all that is to be run. Of a run that failed something may be left, which counts as want of memory.
    pub(crate) fn begin(&mut self, nodes: &'r [ControlNode]) -> Result<(), OutOfMemory>
        ensures { OnOk result (self.new.left ≡ left_of None nodes.now ∷ []) }
    {
        match self.left.pop() {
            Some(_) => Err(OutOfMemory),
            None => {
                self.push(None, nodes)?;
                Ok(())
            }
        }
    }

    /// Puts nodes in front.
    pub(crate) fn push(
        &mut self,
        taken: Option<Taken>,
        nodes: &'r [ControlNode],
    ) -> Result<(), OutOfMemory>
        ensures { OnOk result (self.new.left ≡ left_of taken nodes.now ∷ self.old.left) }
    {
        self.left.push(Work { taken, nodes })?;
        Ok(())
    }
}

/// Nodes behind so many; none where there are no more.
#[tactic(auto, using(crate::proofs::Passing::drop_min))]
pub fn behind(nodes: &[ControlNode], count: u32) -> &[ControlNode]
    ensures { result.now ≡ drop count nodes.now }
{
    nodes.split_at(nodes.len().min(count as usize)).1
}

/// The first node, and those behind it.
pub fn first_of(nodes: &[ControlNode]) -> Option<(&ControlNode, &[ControlNode])>
    ensures { MatchOption result (nodes.now ≡ []) (λ parts. nodes.now ≡ parts.0.now ∷ parts.1.now) }
{
    match nodes {
        [first, rest @ ..] => Some((first, rest)),
        [] => None,
    }
}
