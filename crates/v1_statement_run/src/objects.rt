// Stateful objects (`v1model.p4`, `counter`, `direct_counter`, `register` and `meter`).
ghost use Rattle.std.specs.Prelude.{◌≡◌, ◌%◌, ◌^◌};
ghost use Rattle.state_store.specs.State.{IsCounterAt, IsMeterAt, colour, colour_taken, count as count_in_store};
ghost use Rattle.v1_core.specs.Cells.{slot_value};
ghost use Rattle.v1_ready_blocks.specs.Nodes.{IsSlot, IsTarget};
ghost use Rattle.v1_ready_blocks.specs.Places.{put_at};
ghost use Rattle.v1_statement_run.specs.Seen.{entry_counted, seen_hit};

use crate::numbers::low;
use crate::places::put_at;
use crate::run::Hit;
use state_store::Store;
use v1_core::Frame;
use v1_ready_blocks::Target;

/// A counter's cell counts the packet, with its length as it stands.
pub fn count(frame: &Frame<'_>, store: &mut Store, object: u32, length: u32, index: u32)
    requires object { IsCounterAt store.old.shapes object }
    requires length { IsSlot frame.now.layout length }
    ensures { store.new ≡ count_in_store store.old object index (slot_value frame.now length % 2 ^ 32) }
{
    store.count(object, index, low(frame.get(length), 32) as u32);
}

/// A direct counter counts the entry that was hit, where its own table runs the action.
pub fn count_entry(frame: &Frame<'_>, store: &mut Store, object: u32, length: u32, hit: Option<Hit>)
    requires object { IsCounterAt store.old.shapes object }
    requires length { IsSlot frame.now.layout length }
    ensures { store.new ≡ entry_counted object (seen_hit hit) (slot_value frame.now length % 2 ^ 32) store.old }
{
    if let Some(hit) = hit {
        if hit.counter == object {
            count(frame, store, object, length, hit.entry);
        }
    }
}

/// A meter gives its next colour to a target.
pub fn execute_meter(frame: &mut Frame<'_>, store: &mut Store, object: u32, to: Target, index: u32)
    requires object { IsMeterAt store.old.shapes object }
    requires to { IsTarget frame.old.layout to }
    ensures frame { frame.new ≡ put_at to (colour store.old object index) frame.old }
    ensures store { store.new ≡ colour_taken store.old object index }
{
    let colour = store.colour(object, index);
    put_at(frame, to, u128::from(colour));
}
