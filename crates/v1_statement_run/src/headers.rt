// What headers and stacks can do (P4_16 1.2, "Operations on headers", "Operations on header stacks"; `core.p4`,
// `packet_in.extract` and `packet_out.emit`).
ghost use Rattle.std.specs.Prelude.{◌≡◌, ◌<◌, ◌≤◌, drop, length, OnOk};
ghost use Rattle.v1_ready_blocks.specs.Statements.{done, emit_headers, extract_header, pop_front, push_front, set_valid};
ghost use Rattle.v1_ready_blocks.specs.Nodes.{IsHeaderPlace, IsRange, source_at};
ghost use Rattle.v1_statement_run.specs.Seen.{moment};
ghost use Rattle.v1_statement_run.specs.Steps.{Comes, IsCode, IsOver, ground_of, trees_of};

use crate::code::Code;
use crate::packets::{emit, extract, move_on};
use crate::places::header_at;
use crate::run::Run;
use crate::sources::source;
use crate::stacks::{pop_front, push_front};
use crate::tables::Tables;
use crate::tests_of::stop;
use p4x_bits::OutOfMemory;
use state_store::Store;
use v1_core::{Frame, ParserError};
use v1_ready_blocks::{Range, RangePlace};

/// `setValid` or `setInvalid`. An element that isn't there stops the run.
#[tactic(auto, using(crate::proofs::Heading::header_over, crate::proofs::Heading::set_beyond, crate::proofs::Heading::was_set))]
pub fn set_header<T: Tables>(
    tables: &T,
    header: RangePlace,
    on: bool,
    frame: &mut Frame<'_>,
    store: &Store,
    unparsed: &[u8],
    run: &mut Run<'_>,
)
    requires header { IsHeaderPlace (T.base tables.now).layout header }
    requires over { IsOver (T.base tables.now) (moment frame.old store.now unparsed.now run.old) }
    ensures { Comes (T.base tables.now) (done (T.applies tables.now) (set_valid header on) (moment frame.old store.now unparsed.now run.old)) (moment frame.new store.now unparsed.now run.new) }
{
    match header_at(frame, header) {
        Some(range) => frame.set_valid(range.header, on),
        None => stop(run, ParserError::StackOutOfBounds),
    }
}

/// `push_front`.
#[tactic(auto, using(crate::proofs::Heading::range_fixed, crate::proofs::Heading::was_pushed))]
pub fn push_elements<T: Tables>(
    tables: &T,
    stack: Range,
    count: u32,
    frame: &mut Frame<'_>,
    store: &Store,
    unparsed: &[u8],
    run: &Run<'_>,
)
    requires stack { IsRange (T.base tables.now).layout stack }
    requires over { IsOver (T.base tables.now) (moment frame.old store.now unparsed.now run.now) }
    ensures { Comes (T.base tables.now) (done (T.applies tables.now) (push_front stack count) (moment frame.old store.now unparsed.now run.now)) (moment frame.new store.now unparsed.now run.now) }
{
    push_front(frame, stack, count);
}

/// `pop_front`.
#[tactic(auto, using(crate::proofs::Heading::range_fixed, crate::proofs::Heading::was_popped))]
pub fn pop_elements<T: Tables>(
    tables: &T,
    stack: Range,
    count: u32,
    frame: &mut Frame<'_>,
    store: &Store,
    unparsed: &[u8],
    run: &Run<'_>,
)
    requires stack { IsRange (T.base tables.now).layout stack }
    requires over { IsOver (T.base tables.now) (moment frame.old store.now unparsed.now run.now) }
    ensures { Comes (T.base tables.now) (done (T.applies tables.now) (pop_front stack count) (moment frame.old store.now unparsed.now run.now)) (moment frame.new store.now unparsed.now run.now) }
{
    pop_front(frame, stack, count);
}

/// `extract`: it gives how many octets were taken from the front of those that aren't parsed. An element that isn't there, and
/// then too few bits, stop the run, and nothing moves.
#[tactic(auto, using(crate::proofs::Heading::header_over, crate::proofs::Heading::place_over, crate::proofs::Heading::extract_beyond, crate::proofs::Heading::extract_short, crate::proofs::Heading::was_extracted))]
pub fn extract_header<T: Tables>(
    tables: &T,
    header: RangePlace,
    frame: &mut Frame<'_>,
    store: &Store,
    unparsed: &[u8],
    run: &mut Run<'_>,
) -> usize
    requires header { IsHeaderPlace (T.base tables.now).layout header }
    requires over { IsOver (T.base tables.now) (moment frame.old store.now unparsed.now run.old) }
    ensures is { Comes (T.base tables.now) (done (T.applies tables.now) (extract_header header) (moment frame.old store.now unparsed.now run.old)) (moment frame.new store.now (drop result unparsed.now) run.new) }
    ensures within { result ≤ length unparsed.now }
{
    let Some(range) = header_at(frame, header) else {
        stop(run, ParserError::StackOutOfBounds);
        return 0;
    };
    match extract(frame, unparsed, range) {
        Some(count) => {
            move_on(frame, header);
            count
        }
        None => {
            stop(run, ParserError::PacketTooShort);
            0
        }
    }
}

/// `emit`. Where finding the source ends with an error, that stops the run. The one error is want of memory, after which frame,
/// store and run are not used again.
#[tactic(auto, using(crate::proofs::Heading::source_now, crate::proofs::Heading::were_emitted, crate::proofs::Heading::emit_failed))]
pub fn emit_headers<T: Tables>(
    code: &Code<'_>,
    tables: &T,
    place: usize,
    frame: &mut Frame<'_>,
    store: &mut Store,
    unparsed: &[u8],
    run: &mut Run<'_>,
) -> Result<(), OutOfMemory>
    requires place { place < length code.now.statements.nodes }
    requires code { IsCode code.now }
    requires tables { T.base tables.now ≡ ground_of code.now }
    requires over { IsOver (ground_of code.now) (moment frame.old store.old unparsed.now run.old) }
    ensures { OnOk result (Comes (ground_of code.now) (done (T.applies tables.now) (emit_headers (source_at (trees_of code.now) place)) (moment frame.old store.old unparsed.now run.old)) (moment frame.new store.new unparsed.now run.new)) }
{
    match source(code, tables, place, frame, store, unparsed, run)? {
        Ok(range) => {
            emit(frame, &mut run.emitted, range)?;
            Ok(())
        }
        Err(error) => {
            stop(run, error);
            Ok(())
        }
    }
}
