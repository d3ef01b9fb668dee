// Statements that count, once they are counted (P4_16 1.2, "Statements", "Conditional statement", "Switch statement").
ghost use Rattle.std.specs.Prelude.{◌≡◌, ◌+◌, ◌<◌, ◌≤◌, false, drop, if◌then◌else◌, length, None, IfOk, OnOk};
ghost use Rattle.v1_core.specs.Values.{is_true};
ghost use Rattle.v1_core.specs.Scalars.{seen_scalar};
ghost use Rattle.v1_ready_blocks.specs.Nodes.{IsStatement, statement_at, statement_of, test_at};
ghost use Rattle.v1_statement_run.specs.Seen.{moment};
ghost use Rattle.v1_statement_run.specs.Steps.{IsOver, ground_of, trees_of};
ghost use Rattle.v1_block_run.specs.Blocks.{IsRunnable, count_of, seen_block};
ghost use Rattle.v1_block_run.specs.Tasks.{AreThere, body_steps, calls_at, steps, world_at};
ghost use Rattle.v1_block_run.specs.Steps.{Leads, begun, branched, is_often, switched};

use crate::block::ReadyBlock;
use crate::calls::call;
use crate::levels::AtLevel;
use crate::nodes::is_nothing;
use crate::tasks::Task;
use p4x_bits::OutOfMemory;
use state_store::Store;
use v1_core::{Frame, Scalar};
use v1_ready_blocks::StatementNode;
use v1_statement_run::{
    Run, Tables, apply, assign, assign_parts, call_extern, emit_headers, extract_header, let_go,
    pop_elements, push_elements, set_header, stop, test,
};
use work_stack::Stack;

/// Of two places the first where a value is the truth value true, and else the second.
fn place_by(value: Scalar, positive: usize, negative: usize) -> usize
    ensures { result ≡ (if is_true (seen_scalar value) then positive else negative) }
{
    if value.is_true() { positive } else { negative }
}

/// A condition is evaluated, and then the statements are to be done that it chooses; an error stops the run. The one error is want
/// of memory, after which frame, store and run are not used again.
#[tactic(auto, using(crate::proofs::Beginning::branch_leads, crate::proofs::Beginning::branch_nothing, crate::proofs::Beginning::place_there, crate::proofs::Beginning::branch_failed))]
fn branch<T: Tables>(
    block: &ReadyBlock<'_>,
    at: &AtLevel<'_, T>,
    condition: usize,
    positive: usize,
    negative: usize,
    tasks: &mut Stack<Task>,
    frame: &mut Frame<'_>,
    store: &mut Store,
    unparsed: &[u8],
    run: &mut Run<'_>,
) -> Result<(), OutOfMemory>
    requires condition { condition < count_of block.now }
    requires positive { positive < count_of block.now }
    requires negative { negative < count_of block.now }
    requires runnable { IsRunnable block.now }
    requires tables { T.base at.now.tables.now ≡ ground_of block.now.code }
    requires there { AreThere (count_of block.now) tasks.old }
    requires over { IsOver (ground_of block.now.code) (moment frame.old store.old unparsed.now run.old) }
    ensures { OnOk result (Leads (T.applies at.now.tables.now) block.now tasks.old tasks.new
        (branched (world_at (T.applies at.now.tables.now) (seen_block block.now) at.now.level) (test_at (trees_of block.now.code) condition) (statement_at (trees_of block.now.code) positive) (statement_at (trees_of block.now.code) negative) (moment frame.old store.old unparsed.now run.old))
        (moment frame.new store.new unparsed.now run.new)
        (1 + steps (body_steps (seen_block block.now) (calls_at (seen_block block.now) at.now.level)) (statement_at (trees_of block.now.code) positive)
        + steps (body_steps (seen_block block.now) (calls_at (seen_block block.now) at.now.level)) (statement_at (trees_of block.now.code) negative))) }
{
    match test(&block.code, at, condition, frame, store, unparsed, run)? {
        Ok(value) => {
            let next = place_by(value, positive, negative);
            if is_nothing(&block.code, next) {
                return Ok(());
            }
            tasks.push(Task::Run(at.level, next, None))?;
            Ok(())
        }
        Err(error) => {
            stop(run, error);
            Ok(())
        }
    }
}

/// A table is applied, and then the cases are to be done, where its action ran. The one error is want of memory, after which frame,
/// store and run are not used again.
#[tactic(auto, using(crate::proofs::Beginning::switch_leads))]
fn switch<T: Tables>(
    block: &ReadyBlock<'_>,
    at: &AtLevel<'_, T>,
    table: u32,
    cases: usize,
    tasks: &mut Stack<Task>,
    frame: &mut Frame<'_>,
    store: &mut Store,
    unparsed: &[u8],
    run: &mut Run<'_>,
) -> Result<(), OutOfMemory>
    requires cases { cases < count_of block.now }
    requires runnable { IsRunnable block.now }
    requires tables { T.base at.now.tables.now ≡ ground_of block.now.code }
    requires there { AreThere (count_of block.now) tasks.old }
    requires over { IsOver (ground_of block.now.code) (moment frame.old store.old unparsed.now run.old) }
    ensures { OnOk result (Leads (T.applies at.now.tables.now) block.now tasks.old tasks.new
        (switched (world_at (T.applies at.now.tables.now) (seen_block block.now) at.now.level) table (statement_at (trees_of block.now.code) cases) (moment frame.old store.old unparsed.now run.old))
        (moment frame.new store.new unparsed.now run.new)
        (1 + steps (body_steps (seen_block block.now) (calls_at (seen_block block.now) at.now.level)) (statement_at (trees_of block.now.code) cases))) }
{
    let told = at.apply(table, frame, store, unparsed, run)?;
    tasks.push(Task::Run(at.level, cases, told.action))?;
    Ok(())
}

/// The same as `begin`, for a statement that comes seldom.
#[inline(never)]
#[tactic(auto, using(crate::proofs::Leading::comes_leads, crate::proofs::Leading::nothing_leads))]
fn begin_seldom<T: Tables>(
    block: &ReadyBlock<'_>,
    at: &AtLevel<'_, T>,
    node: &StatementNode,
    tasks: &mut Stack<Task>,
    frame: &mut Frame<'_>,
    store: &mut Store,
    unparsed: &[u8],
    run: &mut Run<'_>,
) -> Result<(), OutOfMemory>
    requires seldom { is_often node.now ≡ false }
    requires node { IsStatement (ground_of block.now.code).layout (ground_of block.now.code).shapes (count_of block.now) node.now }
    requires runnable { IsRunnable block.now }
    requires tables { T.base at.now.tables.now ≡ ground_of block.now.code }
    requires there { AreThere (count_of block.now) tasks.old }
    requires over { IsOver (ground_of block.now.code) (moment frame.old store.old unparsed.now run.old) }
    ensures { OnOk result (Leads (T.applies at.now.tables.now) block.now tasks.old tasks.new
        (begun (world_at (T.applies at.now.tables.now) (seen_block block.now) at.now.level) (trees_of block.now.code) node.now (moment frame.old store.old unparsed.now run.old))
        (moment frame.new store.new unparsed.now run.new)
        (steps (body_steps (seen_block block.now) (calls_at (seen_block block.now) at.now.level)) (statement_of (trees_of block.now.code) node.now))) }
{
    let code = &block.code;
    match node {
        StatementNode::AssignParts(to, a) => {
            assign_parts(code, at, *to, *a, frame, store, unparsed, run)?;
            Ok(())
        }
        StatementNode::SetValid(header, on) => {
            set_header(at, *header, *on, frame, store, unparsed, run);
            Ok(())
        }
        StatementNode::PushFront(stack, count) => {
            push_elements(at, *stack, *count, frame, store, unparsed, run);
            Ok(())
        }
        StatementNode::PopFront(stack, count) => {
            pop_elements(at, *stack, *count, frame, store, unparsed, run);
            Ok(())
        }
        StatementNode::LetGo(a) => {
            let_go(code, at, *a, frame, store, unparsed, run)?;
            Ok(())
        }
        StatementNode::Call(action, apart, a, b) => {
            call(
                block, at, *action, *apart, *a, *b, tasks, frame, store, unparsed, run,
            )?;
            Ok(())
        }
        StatementNode::Switch(table, a) => {
            switch(block, at, *table, *a, tasks, frame, store, unparsed, run)?;
            Ok(())
        }
        _ => Ok(()),
    }
}

/// A statement that counts: it is run, or what it is made of is to be done. It gives how many octets it took from the front of those
/// that aren't parsed. The one error is want of memory, after which frame, store and run are not used again.
#[tactic(auto, using(crate::proofs::Leading::comes_leads, crate::proofs::Leading::nothing_leads))]
pub fn begin<T: Tables>(
    block: &ReadyBlock<'_>,
    at: &AtLevel<'_, T>,
    node: &StatementNode,
    tasks: &mut Stack<Task>,
    frame: &mut Frame<'_>,
    store: &mut Store,
    unparsed: &[u8],
    run: &mut Run<'_>,
) -> Result<usize, OutOfMemory>
    requires node { IsStatement (ground_of block.now.code).layout (ground_of block.now.code).shapes (count_of block.now) node.now }
    requires runnable { IsRunnable block.now }
    requires tables { T.base at.now.tables.now ≡ ground_of block.now.code }
    requires there { AreThere (count_of block.now) tasks.old }
    requires over { IsOver (ground_of block.now.code) (moment frame.old store.old unparsed.now run.old) }
    ensures leads { IfOk result (λ taken. Leads (T.applies at.now.tables.now) block.now tasks.old tasks.new
        (begun (world_at (T.applies at.now.tables.now) (seen_block block.now) at.now.level) (trees_of block.now.code) node.now (moment frame.old store.old unparsed.now run.old))
        (moment frame.new store.new (drop taken unparsed.now) run.new)
        (steps (body_steps (seen_block block.now) (calls_at (seen_block block.now) at.now.level)) (statement_of (trees_of block.now.code) node.now))) }
    ensures within { IfOk result (λ taken. taken ≤ length unparsed.now) }
{
    let code = &block.code;
    match node {
        StatementNode::Assign(to, slice, a) => {
            assign(code, at, *to, *slice, *a, frame, store, unparsed, run)?;
            Ok(0)
        }
        StatementNode::Extract(header) => {
            Ok(extract_header(at, *header, frame, store, unparsed, run))
        }
        StatementNode::Emit(a) => {
            emit_headers(code, at, *a, frame, store, unparsed, run)?;
            Ok(0)
        }
        StatementNode::Execute(what, a) => {
            call_extern(code, at, *what, *a, frame, store, unparsed, run)?;
            Ok(0)
        }
        StatementNode::Apply(table) => {
            apply(at, *table, frame, store, unparsed, run)?;
            Ok(0)
        }
        StatementNode::Branch(c, a, b) => {
            branch(block, at, *c, *a, *b, tasks, frame, store, unparsed, run)?;
            Ok(0)
        }
        _ => {
            begin_seldom(block, at, node, tasks, frame, store, unparsed, run)?;
            Ok(0)
        }
    }
}
