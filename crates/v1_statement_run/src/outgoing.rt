// Parameters that go back to their arguments (P4_16 1.2, "Calling convention: call by copy in/copy out").
ghost use Rattle.std.specs.Prelude.{◌≡◌, ◌<◌, length};
ghost use Rattle.v1_ready_blocks.specs.Arguments.{all_back};
ghost use Rattle.v1_ready_blocks.specs.Nodes.{outgoing_at};
ghost use Rattle.v1_statement_run.specs.Steps.{ground_of, trees_of};

use crate::code::Code;
use crate::nodes::outgoing_node;
use crate::places::put_at;
use crate::ranges::copy;
use v1_core::Frame;
use v1_ready_blocks::OutgoingNode;

/// Copies the parameters at a place back to their arguments, in the order of their positions.
#[tactic(auto, using(crate::proofs::Leaving::back_begins, crate::proofs::Leaving::back_value, crate::proofs::Leaving::back_parts, crate::proofs::Leaving::back_ends, crate::proofs::Leaving::slot_there, crate::proofs::Leaving::target_there, crate::proofs::Leaving::range_there))]
pub fn give_back(code: &Code<'_>, place: usize, frame: &mut Frame<'_>)
    requires place { place < length code.now.statements.nodes }
    requires layout { frame.old.layout ≡ (ground_of code.now).layout }
    ensures is { frame.new ≡ all_back (outgoing_at (trees_of code.now) place) frame.old }
    ensures layout { frame.new.layout ≡ frame.old.layout }
{
    let mut at = place;
    loop {
        match outgoing_node(code, at) {
            Some(OutgoingNode::Value(from, to, rest)) => {
                let number = frame.get(from);
                put_at(frame, to, number);
                at = rest;
            }
            Some(OutgoingNode::Parts(from, to, rest)) => {
                copy(frame, from, to);
                at = rest;
            }
            Some(OutgoingNode::Nothing) => return,
            None => return,
        }
    }
}
