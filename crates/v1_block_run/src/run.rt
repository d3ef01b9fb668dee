// The loop over what is still to be done.
ghost use Rattle.std.specs.Prelude.{◌≡◌, ◌+◌, ◌<◌, ◌≤◌, [], ◌∷◌, drop, length, None, IfOk, OnOk};
ghost use Rattle.v1_ready_blocks.specs.Blocks.{acted};
ghost use Rattle.v1_ready_blocks.specs.Nodes.{statement_at};
ghost use Rattle.v1_ready_blocks.specs.Statements.{run as left_by};
ghost use Rattle.v1_statement_run.specs.Seen.{moment};
ghost use Rattle.v1_statement_run.specs.Steps.{Comes, IsOver, ground_of, trees_of};
ghost use Rattle.v1_block_run.specs.declared.tasks.Task.TheVariants as task;
ghost use Rattle.v1_block_run.specs.Blocks.{IsRunnable, count_of, seen_block};
ghost use Rattle.v1_block_run.specs.Tasks.{AreThere, calls_at, finish, world_at};
ghost use Rattle.v1_block_run.specs.Steps.{Leads, ticked_run};

use crate::arranging::arrange;
use crate::block::ReadyBlock;
use crate::calls::{body_task, hand_back};
use crate::counting::begin;
use crate::levels::AtLevel;
use crate::lists::first_of;
use crate::nodes::{is_counted, is_nothing, statement_node};
use crate::tasks::{Level, Task};
use p4x_bits::OutOfMemory;
use state_store::Store;
use v1_core::Frame;
use v1_statement_run::{NoTables, Run, Tables, is_stopped};
use work_stack::Stack;

/// One more statement begins.
fn tick(run: &mut Run<'_>)
    ensures { run.new ≡ ticked_run run.old }
{
    run.work = run.work.wrapping_add(1);
}

/// The statement at a place: it is run, or what it is made of is to be done, where this action ran, if it is a list of cases. It gives
/// how many octets it took from the front of those that aren't parsed. The one error is want of memory, after which frame, store and
/// run are not used again.
#[tactic(auto, using(crate::proofs::Looping::none_stands, crate::proofs::Looping::was_arranged, crate::proofs::Looping::was_stopped, crate::proofs::Looping::was_begun, crate::proofs::Looping::ticked_over))]
fn run_statement<T: Tables>(
    block: &ReadyBlock<'_>,
    at: &AtLevel<'_, T>,
    place: usize,
    ran: Option<u32>,
    tasks: &mut Stack<Task>,
    frame: &mut Frame<'_>,
    store: &mut Store,
    unparsed: &[u8],
    run: &mut Run<'_>,
) -> Result<usize, OutOfMemory>
    requires place { place < count_of block.now }
    requires runnable { IsRunnable block.now }
    requires tables { T.base at.now.tables.now ≡ ground_of block.now.code }
    requires there { AreThere (count_of block.now) tasks.old }
    requires over { IsOver (ground_of block.now.code) (moment frame.old store.old unparsed.now run.old) }
    ensures leads { IfOk result (λ taken. Leads (T.applies at.now.tables.now) block.now (task.Run at.now.level place ran ∷ tasks.old) tasks.new (moment frame.old store.old unparsed.now run.old) (moment frame.new store.new (drop taken unparsed.now) run.new) 0) }
    ensures within { IfOk result (λ taken. taken ≤ length unparsed.now) }
{
    let Some(node) = statement_node(&block.code, place) else {
        return Ok(0);
    };
    if !is_counted(node) {
        arrange(block, at, *node, ran, tasks, frame, store, unparsed, run)?;
        return Ok(0);
    }
    if is_stopped(run) {
        return Ok(0);
    }
    tick(run);
    let taken = begin(block, at, node, tasks, frame, store, unparsed, run)?;
    Ok(taken)
}

/// What stands behind so many octets.
fn behind(octets: &[u8], parsed: usize) -> &[u8]
    requires { parsed ≤ length octets.now }
    ensures is { result.now ≡ drop parsed octets.now }
    ensures count { parsed + length result.now ≡ length octets.now }
{
    octets.split_at(parsed).1
}

/// A task is done, or others take its place; so many octets are parsed, and it gives how many are then. The one error is want of
/// memory, after which frame, store and run are not used again.
#[tactic(auto, using(crate::proofs::Looping::returns_task))]
fn run_task<T: Tables>(
    block: &ReadyBlock<'_>,
    tables: &T,
    next: Task,
    tasks: &mut Stack<Task>,
    frame: &mut Frame<'_>,
    store: &mut Store,
    octets: &[u8],
    parsed: usize,
    run: &mut Run<'_>,
) -> Result<usize, OutOfMemory>
    requires parsed { parsed ≤ length octets.now }
    requires runnable { IsRunnable block.now }
    requires tables { T.base tables.now ≡ ground_of block.now.code }
    requires there { AreThere (count_of block.now) (next ∷ tasks.old) }
    requires over { IsOver (ground_of block.now.code) (moment frame.old store.old (drop parsed octets.now) run.old) }
    ensures leads { IfOk result (λ end. Leads (T.applies tables.now) block.now (next ∷ tasks.old) tasks.new (moment frame.old store.old (drop parsed octets.now) run.old) (moment frame.new store.new (drop end octets.now) run.new) 0) }
    ensures within { IfOk result (λ end. end ≤ length octets.now) }
{
    let unparsed = behind(octets, parsed);
    match next {
        Task::Run(level, place, ran) => {
            let first = first_of(block, level, place, ran, tasks)?;
            let at = AtLevel { level, tables };
            let taken = run_statement(block, &at, first, ran, tasks, frame, store, unparsed, run)?;
            Ok(parsed + taken)
        }
        Task::Return(place) => {
            hand_back(block, place, frame, store, unparsed, run);
            Ok(parsed)
        }
    }
}

/// Does this, and then all that is still to be done, where so many octets are parsed, and gives how many are then. The one error is
/// want of memory, after which tasks, frame, store and run are not used again.
#[tactic(auto, using(crate::proofs::Looping::begins, crate::proofs::Looping::goes, crate::proofs::Looping::fewer, crate::proofs::Looping::ends))]
fn run_tasks<T: Tables>(
    block: &ReadyBlock<'_>,
    tables: &T,
    first: Task,
    tasks: &mut Stack<Task>,
    frame: &mut Frame<'_>,
    store: &mut Store,
    octets: &[u8],
    begun: usize,
    run: &mut Run<'_>,
) -> Result<usize, OutOfMemory>
    requires begun { begun ≤ length octets.now }
    requires runnable { IsRunnable block.now }
    requires tables { T.base tables.now ≡ ground_of block.now.code }
    requires there { AreThere (count_of block.now) (first ∷ tasks.old) }
    requires over { IsOver (ground_of block.now.code) (moment frame.old store.old (drop begun octets.now) run.old) }
    ensures comes { IfOk result (λ end. Comes (ground_of block.now.code) (finish (T.applies tables.now) block.now (first ∷ tasks.old) (moment frame.old store.old (drop begun octets.now) run.old)) (moment frame.new store.new (drop end octets.now) run.new)) }
    ensures within { IfOk result (λ end. end ≤ length octets.now) }
{
    let mut next = first;
    let mut parsed = begun;
    'tasks: loop {
        parsed = run_task(
            block, tables, next, tasks, frame, store, octets, parsed, run,
        )?;
        match tasks.pop() {
            Some(task) => next = task,
            None => return Ok(parsed),
        }
    }
}

/// Runs the statements at a place of a block, where tables do this when the block applies them: in the block itself, in an action, or
/// in a parser, where no calls nest. So many octets of a packet are parsed, and it gives how many are then. The room of `tasks` stays
/// from one run to the next; where something was left in it, that counts as want of memory. The one error is want of memory, after
/// which tasks, frame, store and run are not used again.
#[tactic(auto, using(crate::proofs::Opening::nothing_came, crate::proofs::Looping::none_there, crate::proofs::Looping::alone_ran))]
pub fn run_statements<T: Tables>(
    block: &ReadyBlock<'_>,
    tables: &T,
    level: Level,
    place: usize,
    tasks: &mut Stack<Task>,
    frame: &mut Frame<'_>,
    store: &mut Store,
    octets: &[u8],
    parsed: usize,
    run: &mut Run<'_>,
) -> Result<usize, OutOfMemory>
    requires place { place < count_of block.now }
    requires parsed { parsed ≤ length octets.now }
    requires runnable { IsRunnable block.now }
    requires tables { T.base tables.now ≡ ground_of block.now.code }
    requires over { IsOver (ground_of block.now.code) (moment frame.old store.old (drop parsed octets.now) run.old) }
    ensures comes { IfOk result (λ end. Comes (ground_of block.now.code) (left_by (world_at (T.applies tables.now) (seen_block block.now) level) None (statement_at (trees_of block.now.code) place) (moment frame.old store.old (drop parsed octets.now) run.old)) (moment frame.new store.new (drop end octets.now) run.new)) }
    ensures within { IfOk result (λ end. end ≤ length octets.now) }
{
    if is_nothing(&block.code, place) {
        return Ok(parsed);
    }
    if let Some(_) = tasks.pop() {
        return Err(OutOfMemory);
    }
    let first = Task::Run(level, place, None);
    let end = run_tasks(
        block, tables, first, tasks, frame, store, octets, parsed, run,
    )?;
    Ok(end)
}

/// Runs the body of an action, whose parameters stand in the frame, as a call does that statements make which stand there; nothing
/// where calls don't nest deeper, or no action has the number. For `tasks` and the octets as in `run_statements`.
#[tactic(auto, using(crate::proofs::Looping::nothing_acted, crate::proofs::Looping::has_acted, crate::proofs::Looping::one_there))]
pub fn run_action(
    block: &ReadyBlock<'_>,
    level: Level,
    action: u32,
    tasks: &mut Stack<Task>,
    frame: &mut Frame<'_>,
    store: &mut Store,
    octets: &[u8],
    parsed: usize,
    run: &mut Run<'_>,
) -> Result<usize, OutOfMemory>
    requires parsed { parsed ≤ length octets.now }
    requires runnable { IsRunnable block.now }
    requires over { IsOver (ground_of block.now.code) (moment frame.old store.old (drop parsed octets.now) run.old) }
    ensures comes { IfOk result (λ end. Comes (ground_of block.now.code) (acted (seen_block block.now) (calls_at (seen_block block.now) level) action (moment frame.old store.old (drop parsed octets.now) run.old)) (moment frame.new store.new (drop end octets.now) run.new)) }
    ensures within { IfOk result (λ end. end ≤ length octets.now) }
{
    if let Some(_) = tasks.pop() {
        return Err(OutOfMemory);
    }
    let Some(body) = body_task(block, level, action) else {
        return Ok(parsed);
    };
    let none = NoTables {
        statements: &block.code.statements,
    };
    let end = run_tasks(block, &none, body, tasks, frame, store, octets, parsed, run)?;
    Ok(end)
}
