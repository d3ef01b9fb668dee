// Which action an application of a table runs (P4_16 1.2, "Match-action unit execution semantics").
ghost use Rattle.std.specs.Prelude.{◌≡◌, slice_index_or, option_map};
ghost use Rattle.match_core.specs.Best.{entry_at};
ghost use Rattle.v1_ready_blocks.specs.Tables.{chosen};
ghost use Rattle.v1_block_run.specs.Blocks.{seen_chosen, seen_table};
ghost use Rattle.v1_block_tables.specs.Applying.{called_default, called_entry, seen_call};

use crate::parts::FilledBlock;
use match_core::{DefaultCall, Entry};
use v1_block_run::{Chosen, ReadyTable};

/// A call of an action that a table lists.
#[derive(Clone, Copy, Drop)]
pub struct Call<'c> {
    /// The number of the action in the control.
    pub action: u32,
    /// Its number among those of the table in the signature.
    pub number: u32,
    /// The numbers of its arguments.
    pub arguments: &'c [u128],
}

/// The number in the control of an action that a table lists; 0 where it lists none with the number.
fn action_at(actions: &[u32], number: u32) -> u32
    ensures { result ≡ slice_index_or actions.now number 0 }
{
    match actions.get(number as usize) {
        Some(action) => *action,
        None => 0,
    }
}

/// The call of an entry; where there is no such entry, that of the first action without arguments.
fn entry_call<'c>(actions: &[u32], entries: &'c [Entry], entry: u32) -> Call<'c>
    ensures { seen_call result ≡ called_entry actions.now (entry_at entries.now entry) }
{
    match entries.get(entry as usize) {
        Some(found) => Call {
            action: action_at(actions, found.action),
            number: found.action,
            arguments: found.arguments.as_slice(),
        },
        None => Call {
            action: action_at(actions, 0),
            number: 0,
            arguments: &[],
        },
    }
}

/// The call of a table's own default, if it has one.
fn own_default(default: &Option<Chosen>) -> Option<Call<'_>>
    ensures { option_map seen_call result ≡ option_map seen_chosen default.now }
{
    match default {
        Some(call) => Some(Call {
            action: call.action,
            number: call.number,
            arguments: call.arguments.as_slice(),
        }),
        None => None,
    }
}

/// The call of a default.
fn default_call<'c>(actions: &[u32], call: &'c DefaultCall) -> Call<'c>
    ensures { seen_call result ≡ called_default actions.now call.now }
{
    Call {
        action: action_at(actions, call.action),
        number: call.action,
        arguments: call.arguments.as_slice(),
    }
}

impl<'b, 'l> FilledBlock<'b, 'l> {
    /// The call that an application of a table makes which found this entry; none where it makes none.
    #[tactic(auto, using(crate::proofs::Choosing::chosen_hit, crate::proofs::Choosing::chosen_set, crate::proofs::Choosing::chosen_own))]
    pub(crate) fn chosen<'c>(
        &'c self,
        table: &'c ReadyTable,
        entry: Option<u32>,
    ) -> Option<Call<'c>>
        ensures { option_map seen_call result ≡ chosen self.now.fill.now (seen_table self.now.block.now table.now) entry }
    {
        match entry {
            Some(entry) => Some(entry_call(
                table.actions.as_slice(),
                self.fill.entries(table.number),
                entry,
            )),
            None => match self.fill.default(table.number) {
                Some(call) => Some(default_call(table.actions.as_slice(), call)),
                None => own_default(&table.default),
            },
        }
    }
}
