// What applying a table does where statements run.
ghost use Rattle.std.specs.Prelude.{◌≡◌, ℕ, IfOk, OnOk};
ghost use Rattle.v1_ready_blocks.specs.Moments.{Moment};
ghost use Rattle.v1_ready_blocks.specs.Tests.{Applied, no_table_applies};
ghost use Rattle.v1_ready_blocks.specs.Nodes.{Ground};
ghost use Rattle.v1_statement_run.specs.Seen.{given_of, moment};
ghost use Rattle.v1_statement_run.specs.Steps.{IsOver, Tells};

use crate::run::Run;
use p4x_bits::OutOfMemory;
use state_store::Store;
use v1_core::Frame;
use v1_ready_blocks::Statements;

/// What an application of a table tells.
#[derive(Clone, Copy, PartialEq, Eq, Drop)]
pub struct Told {
    /// Whether an entry was hit.
    pub hit: bool,
    /// The action that ran, by its number in the control; None exactly where none ran.
    pub action: Option<u32>,
}

/// What applying a table does.
pub trait Tables {
    // What frames and objects are made of.
    ghost base: { Self → Ground };

    // What each table does, by its number in the control.
    ghost applies: { Self → ℕ → Moment → Applied };

    /// Applies a table. The one error is want of memory, after which frame, store and run are not used again. What is given to an
    /// extern stays.
    fn apply(
        &self,
        table: u32,
        frame: &mut Frame<'_>,
        store: &mut Store,
        unparsed: &[u8],
        run: &mut Run<'_>,
    ) -> Result<Told, OutOfMemory>
        requires { IsOver (base self.now) (moment frame.old store.old unparsed.now run.old) }
        ensures is { IfOk result (Tells (base self.now) (applies self.now table (moment frame.old store.old unparsed.now run.old)) (moment frame.new store.new unparsed.now run.new)) }
        ensures kept { OnOk result (given_of run.new ≡ given_of run.old) };
}

/// No tables, as in actions and in parsers: an application does nothing and hits nothing.
#[derive(Clone, Copy, Drop)]
pub struct NoTables<'c, 'l> {
    /// The statements that apply none.
    pub statements: &'c Statements<'l>,
}

impl<'c, 'l> Tables for NoTables<'c, 'l> {
    ghost base = { λ tables. tables.statements.now.ground };

    ghost applies = { λ tables. no_table_applies };

    fn apply(
        &self,
        table: u32,
        frame: &mut Frame<'_>,
        store: &mut Store,
        unparsed: &[u8],
        run: &mut Run<'_>,
    ) -> Result<Told, OutOfMemory> {
        Ok(Told {
            hit: false,
            action: None,
        })
    }
}
