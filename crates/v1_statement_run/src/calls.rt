// Calls of externs and applications of tables as statements (P4_16 1.2, "Function calls and method invocations"; `v1model.p4`).
ghost use Rattle.std.specs.Prelude.{◌≡◌, ◌<◌, length, OnOk};
ghost use Rattle.v1_ready_blocks.specs.Statements.{apply, done, execute};
ghost use Rattle.v1_ready_blocks.specs.Nodes.{IsExtern, arguments_at};
ghost use Rattle.v1_statement_run.specs.Seen.{moment};
ghost use Rattle.v1_statement_run.specs.Steps.{Comes, IsCode, IsOver, ground_of, trees_of};

use crate::arguments::gather;
use crate::code::Code;
use crate::externs::execute;
use crate::run::Run;
use crate::tables::Tables;
use crate::tests_of::is_stopped;
use p4x_bits::OutOfMemory;
use state_store::Store;
use v1_core::Frame;
use v1_ready_blocks::Extern;

/// Calls an extern: its arguments are evaluated from left to right, and then it runs, unless one ended with an error, which
/// stops the run. The one error is want of memory, after which frame, store and run are not used again.
#[tactic(auto, using(crate::proofs::Calling::extern_over, crate::proofs::Calling::was_executed, crate::proofs::Calling::execute_stopped))]
pub fn call_extern<T: Tables>(
    code: &Code<'_>,
    tables: &T,
    what: Extern,
    place: usize,
    frame: &mut Frame<'_>,
    store: &mut Store,
    unparsed: &[u8],
    run: &mut Run<'_>,
) -> Result<(), OutOfMemory>
    requires what { IsExtern (ground_of code.now).layout (ground_of code.now).shapes what }
    requires place { place < length code.now.statements.nodes }
    requires code { IsCode code.now }
    requires tables { T.base tables.now ≡ ground_of code.now }
    requires over { IsOver (ground_of code.now) (moment frame.old store.old unparsed.now run.old) }
    ensures { OnOk result (Comes (ground_of code.now) (done (T.applies tables.now) (execute what (arguments_at (trees_of code.now) place)) (moment frame.old store.old unparsed.now run.old)) (moment frame.new store.new unparsed.now run.new)) }
{
    gather(code, tables, place, frame, store, unparsed, run)?;
    if is_stopped(run) {
        return Ok(());
    }
    execute(what, frame, store, unparsed, run)?;
    Ok(())
}

/// Applies a table as a statement. The one error is want of memory, after which frame, store and run are not used again.
#[tactic(auto, using(crate::proofs::Calling::was_applied))]
pub fn apply<T: Tables>(
    tables: &T,
    table: u32,
    frame: &mut Frame<'_>,
    store: &mut Store,
    unparsed: &[u8],
    run: &mut Run<'_>,
) -> Result<(), OutOfMemory>
    requires { IsOver (T.base tables.now) (moment frame.old store.old unparsed.now run.old) }
    ensures { OnOk result (Comes (T.base tables.now) (done (T.applies tables.now) (apply table) (moment frame.old store.old unparsed.now run.old)) (moment frame.new store.new unparsed.now run.new)) }
{
    let _told = tables.apply(table, frame, store, unparsed, run)?;
    Ok(())
}
