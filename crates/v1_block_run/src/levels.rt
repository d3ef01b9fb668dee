// What tables and calls do where statements stand.
ghost use Rattle.std.specs.Prelude.{◌≡◌};
ghost use Rattle.v1_block_run.specs.Blocks.{seen_block};
ghost use Rattle.v1_block_run.specs.Tasks.{applies_at, calls_at};

use crate::block::ReadyBlock;
use crate::tasks::Level;
use p4x_bits::OutOfMemory;
use state_store::Store;
use v1_core::Frame;
use v1_statement_run::{Run, Tables, Told};

/// The tables of a block, as statements apply them that stand there: in an action an application does nothing and hits nothing.
#[derive(Drop)]
pub struct AtLevel<'t, T> {
    /// Where the statements stand.
    pub level: Level,
    /// The tables.
    pub tables: &'t T,
}

impl<'t, T: Tables> Tables for AtLevel<'t, T> {
    ghost base = { λ at. T.base at.tables.now };

    ghost applies = { λ at. applies_at at.level (T.applies at.tables.now) };

    fn apply(
        &self,
        table: u32,
        frame: &mut Frame<'_>,
        store: &mut Store,
        unparsed: &[u8],
        run: &mut Run<'_>,
    ) -> Result<Told, OutOfMemory> {
        match self.level {
            Level::Block => {
                let told = self.tables.apply(table, frame, store, unparsed, run)?;
                Ok(told)
            }
            Level::Action(_) => Ok(Told {
                hit: false,
                action: None,
            }),
        }
    }
}

/// How deep calls of actions nest at most that statements make which stand there: no action calls itself through others, so no
/// chain of calls is longer than the number of actions.
#[tactic(auto, using(crate::proofs::Entering::as_many_bodies))]
pub fn calls_at(block: &ReadyBlock<'_>, level: Level) -> usize
    ensures { result ≡ calls_at (seen_block block.now) level }
{
    match level {
        Level::Block => block.actions.len(),
        Level::Action(calls) => calls,
    }
}
