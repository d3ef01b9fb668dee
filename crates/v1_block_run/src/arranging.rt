// Statements that don't count: blocks, empty ones, cases, and variables without an initial value (P4_16 1.2, "Block statement",
// "Variable declarations", "Switch statement").
ghost use Rattle.std.specs.Prelude.{◌≡◌, ◌<◌, if◌then◌else◌, None, OnOk};
ghost use Rattle.v1_ready_blocks.specs.Moments.{going_on, with_cells};
ghost use Rattle.v1_ready_blocks.specs.Nodes.{IsRange, IsStatement, statement_of};
ghost use Rattle.v1_ready_blocks.specs.Places.{emptied};
ghost use Rattle.v1_ready_blocks.specs.Statements.{is_action, run as left_by, start};
ghost use Rattle.v1_statement_run.specs.Seen.{moment};
ghost use Rattle.v1_statement_run.specs.Steps.{Comes, IsOver, ground_of, trees_of};
ghost use Rattle.v1_block_run.specs.declared.tasks.Task.TheVariants as task;
ghost use Rattle.v1_block_run.specs.Blocks.{count_of, seen_block};
ghost use Rattle.v1_block_run.specs.Tasks.{AreThere, body_steps, calls_at, steps, world_at};
ghost use Rattle.v1_block_run.specs.Steps.{Leads, arranged};

use crate::block::ReadyBlock;
use crate::levels::AtLevel;
use crate::tasks::{Level, Task};
use p4x_bits::OutOfMemory;
use state_store::Store;
use v1_core::Frame;
use v1_ready_blocks::{Range, StatementNode};
use v1_statement_run::{Run, Tables, empty, is_stopped};
use work_stack::Stack;

/// Whether the action that ran is this one.
fn is_action(ran: Option<u32>, action: u32) -> bool
    ensures { result ≡ is_action ran action }
{
    match ran {
        Some(number) => number == action,
        None => false,
    }
}

/// The case of an action, where this one ran, or the cases behind it.
fn case_task(level: Level, ran: Option<u32>, action: u32, body: usize, cases: usize) -> Task
    ensures { result ≡ (if is_action ran action then task.Run level body None else task.Run level cases ran) }
{
    if is_action(ran, action) {
        Task::Run(level, body, None)
    } else {
        Task::Run(level, cases, ran)
    }
}

/// A variable starts at 0, unless an error stopped the run.
#[tactic(auto, using(crate::proofs::Placing::not_started, crate::proofs::Placing::started, crate::proofs::Placing::range_over))]
fn start_at(
    block: &ReadyBlock<'_>,
    range: Range,
    frame: &mut Frame<'_>,
    store: &Store,
    unparsed: &[u8],
    run: &Run<'_>,
)
    requires range { IsRange (ground_of block.now.code).layout range }
    requires over { IsOver (ground_of block.now.code) (moment frame.old store.now unparsed.now run.now) }
    ensures { Comes (ground_of block.now.code) (going_on (λ n. with_cells (emptied range n.cells) n) (moment frame.old store.now unparsed.now run.now)) (moment frame.new store.now unparsed.now run.now) }
{
    if is_stopped(run) {
        return;
    }
    empty(frame, range);
}

/// A statement that doesn't count: what it is made of is to be done in its place, where this action ran, if it is a list of cases.
/// The one error is want of memory.
#[inline(never)]
#[tactic(auto, using(crate::proofs::Placing::both_lead, crate::proofs::Placing::case_leads, crate::proofs::Placing::otherwise_leads, crate::proofs::Leading::comes_leads, crate::proofs::Leading::nothing_leads))]
pub fn arrange<T: Tables>(
    block: &ReadyBlock<'_>,
    at: &AtLevel<'_, T>,
    node: StatementNode,
    ran: Option<u32>,
    tasks: &mut Stack<Task>,
    frame: &mut Frame<'_>,
    store: &Store,
    unparsed: &[u8],
    run: &Run<'_>,
) -> Result<(), OutOfMemory>
    requires node { IsStatement (ground_of block.now.code).layout (ground_of block.now.code).shapes (count_of block.now) node }
    requires there { AreThere (count_of block.now) tasks.old }
    requires over { IsOver (ground_of block.now.code) (moment frame.old store.now unparsed.now run.now) }
    ensures { OnOk result (Leads (T.applies at.now.tables.now) block.now tasks.old tasks.new
        (arranged (world_at (T.applies at.now.tables.now) (seen_block block.now) at.now.level) ran (trees_of block.now.code) node (moment frame.old store.now unparsed.now run.now))
        (moment frame.new store.now unparsed.now run.now)
        (steps (body_steps (seen_block block.now) (calls_at (seen_block block.now) at.now.level)) (statement_of (trees_of block.now.code) node))) }
{
    match node {
        StatementNode::Sequence(first, last) => {
            tasks.push_two(
                Task::Run(at.level, first, ran),
                Task::Run(at.level, last, ran),
            )?;
            Ok(())
        }
        StatementNode::Start(range) => {
            start_at(block, range, frame, store, unparsed, run);
            Ok(())
        }
        StatementNode::Labelled(action, body, cases) => {
            tasks.push(case_task(at.level, ran, action, body, cases))?;
            Ok(())
        }
        StatementNode::Otherwise(body) => {
            tasks.push(Task::Run(at.level, body, None))?;
            Ok(())
        }
        _ => Ok(()),
    }
}
