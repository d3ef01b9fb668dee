// The parameters of actions that tables call (P4_16 1.2, "Match-action unit execution semantics").
ghost use Rattle.std.specs.Prelude.{◌≡◌, [], map, slice_index_or, All};
ghost use Rattle.v1_ready_blocks.specs.Nodes.{IsSlot};
ghost use Rattle.v1_ready_blocks.specs.Tables.{bound_numbers};
ghost use Rattle.v1_block_run.specs.Blocks.{seen_parameters};
ghost use Rattle.v1_block_tables.specs.Parts.{HasParameters};

use p4x_bits::Rows;
use v1_block_run::ReadyAction;
use v1_core::Frame;
use v1_statement_run::put;

/// Puts the numbers of arguments into the slots of parameters, as many as there are of both.
#[tactic(auto, using(crate::proofs::Giving::bind_begins, crate::proofs::Giving::slot_there, crate::proofs::Giving::one_bound, crate::proofs::Giving::all_bound))]
fn bind_numbers(frame: &mut Frame<'_>, slots: &[u32], numbers: &[u128])
    requires { All (IsSlot frame.old.layout) slots.now }
    ensures bound { frame.new ≡ bound_numbers slots.now numbers.now frame.old }
    ensures layout { frame.new.layout ≡ frame.old.layout }
{
    for i in 0..slots.len().min(numbers.len()) {
        put(frame, slots[i], None, numbers[i]);
    }
}

/// Puts the numbers of arguments into the slots of the parameters of an action; nothing where no action has the number.
#[tactic(auto, using(crate::proofs::Giving::slots_there, crate::proofs::Giving::parameters_at, crate::proofs::Giving::no_parameters))]
pub fn bind(frame: &mut Frame<'_>, actions: &Rows<ReadyAction>, action: u32, numbers: &[u128])
    requires { All (HasParameters frame.old.layout) actions.now }
    ensures bound { frame.new ≡ bound_numbers (slice_index_or (map seen_parameters actions.now) action []) numbers.now frame.old }
    ensures layout { frame.new.layout ≡ frame.old.layout }
{
    match actions.get(action as usize) {
        Some(found) => bind_numbers(frame, found.parameters.as_slice(), numbers),
        None => {}
    }
}
