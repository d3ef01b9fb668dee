// An application of a table (P4_16 1.2, "Match-action unit invocation", "Match-action unit execution semantics"; that applications
// are noted is this project's own).
ghost use Rattle.std.specs.Prelude.{◌≡◌, length, option_map, Some, IfOk, OnOk};
ghost use Rattle.v1_ready_blocks.specs.Blocks.{act};
ghost use Rattle.v1_ready_blocks.specs.Moments.{with_hit};
ghost use Rattle.v1_ready_blocks.specs.Tables.{applied_by, found, hit_of, noted, number_in, run_chosen};
ghost use Rattle.v1_statement_run.specs.Seen.{given_of, moment, seen_hit};
ghost use Rattle.v1_statement_run.specs.Steps.{Comes, IsOver, Tells, ground_of};
ghost use Rattle.v1_block_run.specs.Blocks.{seen_block, seen_table};
ghost use Rattle.v1_block_tables.specs.Applying.{seen_call};
ghost use Rattle.v1_block_tables.specs.Parts.{CanApply, HasKeys};

use crate::binding::bind;
use crate::calls::Call;
use crate::keys::fill_key;
use crate::parts::FilledBlock;
use crate::spare::{Spare, exchange};
use fabric::Event;
use match_core::Key;
use p4x_bits::OutOfMemory;
use state_store::Store;
use std::alloc::Global;
use v1_block_run::{Level, ReadyTable, run_action};
use v1_core::Frame;
use v1_statement_run::{Hit, Run, Told};

/// The entry that a direct counter counts.
fn hit_of(direct: Option<u32>, entry: Option<u32>) -> Option<Hit>
    ensures { seen_hit result ≡ hit_of direct entry }
{
    match direct {
        Some(counter) => match entry {
            Some(entry) => Some(Hit { counter, entry }),
            None => None,
        },
        None => None,
    }
}

/// The number of the action of a call in the signature, if there is one.
fn number_in(call: &Option<Call<'_>>) -> Option<u32>
    ensures { result ≡ option_map number_in (option_map seen_call call.now) }
{
    match call {
        Some(call) => Some(call.number),
        None => None,
    }
}

/// Notes an application of a table with its entry and its action. The one error is want of memory.
fn note(
    frame: &mut Frame<'_>,
    table: u32,
    entry: Option<u32>,
    call: &Option<Call<'_>>,
    store: &Store,
    unparsed: &[u8],
    run: &Run<'_>,
) -> Result<(), OutOfMemory>
    ensures is { OnOk result (moment frame.new store.now unparsed.now run.now ≡ noted table entry (option_map seen_call call.now) (moment frame.old store.now unparsed.now run.now)) }
    ensures layout { OnOk result (frame.new.layout ≡ frame.old.layout) }
{
    frame.push_event(Event {
        table,
        entry,
        action: number_in(call),
    })?;
    Ok(())
}

impl<'b, 'l> FilledBlock<'b, 'l> {
    /// The entry that a table finds. The one error is want of memory.
    #[tactic(auto, using(crate::proofs::Keying::keys_there, crate::proofs::Keying::keys_layout, crate::proofs::Keying::entry_found))]
    pub(crate) fn found(
        &self,
        alloc: Global,
        table: &ReadyTable,
        frame: &Frame<'_>,
        store: &Store,
        unparsed: &[u8],
        run: &Run<'_>,
    ) -> Result<Option<u32>, OutOfMemory>
        requires block { CanApply self.now.block.now }
        requires keys { HasKeys (length self.now.block.now.code.expressions.nodes) table.now }
        requires over { IsOver (ground_of self.now.block.now.code) (moment frame.now store.now unparsed.now run.now) }
        ensures { IfOk result (λ entry. entry ≡ found self.now.fill.now (moment frame.now store.now unparsed.now run.now) (seen_table self.now.block.now table.now)) }
    {
        let mut key = Key::new(alloc);
        fill_key(
            &mut key,
            &self.block.code,
            table.keys.as_slice(),
            frame,
            unparsed,
        )?;
        Ok(self.fill.found(table.number, &key))
    }

    /// Runs the action with a number for an entry. What is given to an extern stays. The one error is want of memory, which an action
    /// that takes octets counts as.
    #[tactic(auto, using(crate::proofs::Arriving::lent_over, crate::proofs::Arriving::body_came, crate::proofs::Arriving::given_stays))]
    fn run_body(
        &self,
        action: u32,
        hit: Option<Hit>,
        spare: &mut Spare,
        frame: &mut Frame<'_>,
        store: &mut Store,
        unparsed: &[u8],
        run: &mut Run<'_>,
    ) -> Result<(), OutOfMemory>
        requires block { CanApply self.now.block.now }
        requires over { IsOver (ground_of self.now.block.now.code) (moment frame.old store.old unparsed.now run.old) }
        ensures is { OnOk result (Comes (ground_of self.now.block.now.code) (with_hit (seen_hit run.old.hit) (act (seen_block self.now.block.now) action (with_hit (seen_hit hit) (moment frame.old store.old unparsed.now run.old)))) (moment frame.new store.new unparsed.now run.new)) }
        ensures kept { OnOk result (given_of run.new ≡ given_of run.old) }
    {
        let before = exchange(run, spare, hit);
        let end = run_action(
            self.block,
            Level::Block,
            action,
            &mut spare.tasks,
            frame,
            store,
            unparsed,
            0,
            run,
        )?;
        exchange(run, spare, before);
        if end != 0 {
            return Err(OutOfMemory);
        }
        Ok(())
    }

    /// Binds the arguments of a call and runs its action for an entry. What is given to an extern stays. The one error is want of
    /// memory, after which frame, store and run are not used again.
    #[tactic(auto, using(crate::proofs::Arriving::parameters_over, crate::proofs::Arriving::bound_over, crate::proofs::Arriving::call_came))]
    fn run_call(
        &self,
        call: Call<'_>,
        hit: Option<Hit>,
        spare: &mut Spare,
        frame: &mut Frame<'_>,
        store: &mut Store,
        unparsed: &[u8],
        run: &mut Run<'_>,
    ) -> Result<(), OutOfMemory>
        requires block { CanApply self.now.block.now }
        requires over { IsOver (ground_of self.now.block.now.code) (moment frame.old store.old unparsed.now run.old) }
        ensures is { OnOk result (Comes (ground_of self.now.block.now.code) (run_chosen (seen_block self.now.block.now).parameters (act (seen_block self.now.block.now)) (seen_hit hit) (Some (seen_call call.entry)) (moment frame.old store.old unparsed.now run.old)) (moment frame.new store.new unparsed.now run.new)) }
        ensures kept { OnOk result (given_of run.new ≡ given_of run.old) }
    {
        bind(frame, &self.block.actions, call.action, call.arguments);
        self.run_body(call.action, hit, spare, frame, store, unparsed, run)?;
        Ok(())
    }

    /// Applies a table that found this entry. What is given to an extern stays. The one error is want of memory, after which frame,
    /// store and run are not used again.
    #[tactic(auto, using(crate::proofs::Arriving::noted_over, crate::proofs::Arriving::tells_none, crate::proofs::Arriving::tells_some))]
    pub(crate) fn apply_found(
        &self,
        table: &ReadyTable,
        entry: Option<u32>,
        spare: &mut Spare,
        frame: &mut Frame<'_>,
        store: &mut Store,
        unparsed: &[u8],
        run: &mut Run<'_>,
    ) -> Result<Told, OutOfMemory>
        requires block { CanApply self.now.block.now }
        requires over { IsOver (ground_of self.now.block.now.code) (moment frame.old store.old unparsed.now run.old) }
        ensures is { IfOk result (Tells (ground_of self.now.block.now.code) (applied_by self.now.fill.now (seen_block self.now.block.now).parameters (act (seen_block self.now.block.now)) (seen_table self.now.block.now table.now) entry (moment frame.old store.old unparsed.now run.old)) (moment frame.new store.new unparsed.now run.new)) }
        ensures kept { OnOk result (given_of run.new ≡ given_of run.old) }
    {
        let chosen = self.chosen(table, entry);
        note(frame, table.number, entry, &chosen, store, unparsed, run)?;
        let hit = entry.is_some();
        let Some(call) = chosen else {
            return Ok(Told { hit, action: None });
        };
        let counted = hit_of(table.direct, entry);
        self.run_call(call, counted, spare, frame, store, unparsed, run)?;
        Ok(Told {
            hit,
            action: Some(call.action),
        })
    }
}
