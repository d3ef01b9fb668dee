// Calls of actions (P4_16 1.2, "Actions", "Calling convention: call by copy in/copy out").
ghost use Rattle.std.specs.Prelude.{◌≡◌, ◌+◌, ◌<◌, OnOk};
ghost use Rattle.v1_ready_blocks.specs.Arguments.{given_back};
ghost use Rattle.v1_ready_blocks.specs.Moments.{going_on};
ghost use Rattle.v1_ready_blocks.specs.Nodes.{incoming_at, outgoing_at};
ghost use Rattle.v1_ready_blocks.specs.Statements.{called};
ghost use Rattle.v1_statement_run.specs.Seen.{moment};
ghost use Rattle.v1_statement_run.specs.Steps.{Comes, IsOver, ground_of, trees_of};
ghost use Rattle.v1_block_run.specs.Blocks.{IsRunnable, count_of, seen_block};
ghost use Rattle.v1_block_run.specs.Tasks.{AreThere, body_steps, calls_at, world_at};
ghost use Rattle.v1_block_run.specs.Steps.{Acts, Enters, Leads};

use crate::block::ReadyBlock;
use crate::levels::{AtLevel, calls_at};
use crate::tasks::{Level, Task};
use p4x_bits::OutOfMemory;
use state_store::Store;
use v1_core::Frame;
use v1_statement_run::{Run, Tables, bring_in, give_back, is_stopped};
use work_stack::Stack;

/// The body of an action that is called there; None where it does nothing, since calls don't nest deeper or no action has the
/// number.
#[tactic(auto, using(crate::proofs::Entering::acts_no_more, crate::proofs::Entering::acts_none, crate::proofs::Entering::acts_body))]
pub fn body_task(block: &ReadyBlock<'_>, level: Level, action: u32) -> Option<Task>
    requires { IsRunnable block.now }
    ensures { Acts block.now level action result }
{
    let calls = calls_at(block, level);
    if calls == 0 {
        return None;
    }
    match block.actions.get(action as usize) {
        Some(found) => Some(Task::Run(Level::Action(calls - 1), found.body, None)),
        None => None,
    }
}

/// The body of an action is to be done, and then its parameters go back. The one error is want of memory.
#[tactic(auto, using(crate::proofs::Entering::enters_body, crate::proofs::Entering::enters_nothing))]
fn enter(
    block: &ReadyBlock<'_>,
    level: Level,
    action: u32,
    outgoing: usize,
    tasks: &mut Stack<Task>,
) -> Result<(), OutOfMemory>
    requires runnable { IsRunnable block.now }
    requires outgoing { outgoing < count_of block.now }
    requires there { AreThere (count_of block.now) tasks.old }
    ensures { OnOk result (Enters block.now level action outgoing tasks.old tasks.new) }
{
    match body_task(block, level, action) {
        Some(task) => {
            tasks.push_two(task, Task::Return(outgoing))?;
            Ok(())
        }
        None => {
            tasks.push(Task::Return(outgoing))?;
            Ok(())
        }
    }
}

/// Calls an action: what its parameters start with is evaluated and copied in, and then its body is to be done, unless an error
/// stopped the run. The one error is want of memory, after which frame, store and run are not used again.
#[tactic(auto, using(crate::proofs::Entering::call_stopped, crate::proofs::Entering::call_enters))]
pub fn call<T: Tables>(
    block: &ReadyBlock<'_>,
    at: &AtLevel<'_, T>,
    action: u32,
    apart: bool,
    incoming: usize,
    outgoing: usize,
    tasks: &mut Stack<Task>,
    frame: &mut Frame<'_>,
    store: &mut Store,
    unparsed: &[u8],
    run: &mut Run<'_>,
) -> Result<(), OutOfMemory>
    requires incoming { incoming < count_of block.now }
    requires outgoing { outgoing < count_of block.now }
    requires runnable { IsRunnable block.now }
    requires tables { T.base at.now.tables.now ≡ ground_of block.now.code }
    requires there { AreThere (count_of block.now) tasks.old }
    requires over { IsOver (ground_of block.now.code) (moment frame.old store.old unparsed.now run.old) }
    ensures { OnOk result (Leads (T.applies at.now.tables.now) block.now tasks.old tasks.new
        (called (world_at (T.applies at.now.tables.now) (seen_block block.now) at.now.level) action apart (incoming_at (trees_of block.now.code) incoming) (outgoing_at (trees_of block.now.code) outgoing) (moment frame.old store.old unparsed.now run.old))
        (moment frame.new store.new unparsed.now run.new)
        (2 + body_steps (seen_block block.now) (calls_at (seen_block block.now) at.now.level) action)) }
{
    bring_in(
        &block.code,
        at,
        apart,
        incoming,
        frame,
        store,
        unparsed,
        run,
    )?;
    if is_stopped(run) {
        return Ok(());
    }
    enter(block, at.level, action, outgoing, tasks)?;
    Ok(())
}

/// Copies parameters back to their arguments, unless an error stopped the run.
#[inline(never)]
#[tactic(auto, using(crate::proofs::Entering::kept_back, crate::proofs::Entering::went_back, crate::proofs::Entering::frame_over))]
pub fn hand_back(
    block: &ReadyBlock<'_>,
    place: usize,
    frame: &mut Frame<'_>,
    store: &Store,
    unparsed: &[u8],
    run: &Run<'_>,
)
    requires place { place < count_of block.now }
    requires over { IsOver (ground_of block.now.code) (moment frame.old store.now unparsed.now run.now) }
    ensures { Comes (ground_of block.now.code) (going_on (given_back (outgoing_at (trees_of block.now.code) place)) (moment frame.old store.now unparsed.now run.now)) (moment frame.new store.now unparsed.now run.now) }
{
    if is_stopped(run) {
        return;
    }
    give_back(&block.code, place, frame);
}
