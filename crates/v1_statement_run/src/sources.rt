// Headers, stacks and structs that are read whole (P4_16 1.2, "Expressions", "Assignment statement").
ghost use Rattle.std.specs.Prelude.{◌≡◌, ◌<◌, length, IfOk, OnOk};
ghost use Rattle.v1_ready_blocks.specs.Places.{range_at};
ghost use Rattle.v1_ready_blocks.specs.Tests.{source_range, sought};
ghost use Rattle.v1_ready_blocks.specs.Nodes.{IsRange, IsRangePlace, source_at};
ghost use Rattle.v1_statement_run.specs.Seen.{given_of, moment};
ghost use Rattle.v1_statement_run.specs.Steps.{Finds, IsCode, IsOver, ground_of, seen_sought, trees_of};

use crate::code::Code;
use crate::nodes::source_node;
use crate::places::range_at;
use crate::run::Run;
use crate::tables::Tables;
use crate::tests_of::test;
use p4x_bits::OutOfMemory;
use state_store::Store;
use v1_core::{Frame, ParserError};
use v1_ready_blocks::{Range, RangePlace, SourceNode};

/// No parts.
const NO_RANGE: Range = Range {
    slot: 0,
    slots: 0,
    header: 0,
    headers: 0,
    stack: 0,
    stacks: 0,
};

/// The parts that are meant, or the error that there is in place of an element that isn't there.
pub fn parts_at(frame: &Frame<'_>, of: RangePlace) -> Result<Range, ParserError>
    requires { IsRangePlace frame.now.layout of }
    ensures is { seen_sought result ≡ sought (range_at frame.now of) }
    ensures range { IfOk result (IsRange frame.now.layout) }
{
    match range_at(frame, of) {
        Some(range) => Ok(range),
        None => Err(ParserError::StackOutOfBounds),
    }
}

/// The parts that the source at a place means, or the error that ended the evaluation of a condition. It applies the tables
/// that it asks. The one other error is want of memory, after which frame, store and run are not used again. It calls itself
/// as deep as choices nest.
#[tactic(auto, using(crate::proofs::Sourcing::over_range, crate::proofs::Sourcing::finds_parts))]
pub fn source<T: Tables>(
    code: &Code<'_>,
    tables: &T,
    place: usize,
    frame: &mut Frame<'_>,
    store: &mut Store,
    unparsed: &[u8],
    run: &mut Run<'_>,
) -> Result<Result<Range, ParserError>, OutOfMemory>
    requires place { place < length code.now.statements.nodes }
    requires code { IsCode code.now }
    requires tables { T.base tables.now ≡ ground_of code.now }
    requires over { IsOver (ground_of code.now) (moment frame.old store.old unparsed.now run.old) }
    ensures is { IfOk result (Finds (ground_of code.now) (source_range (T.applies tables.now) (source_at (trees_of code.now) place) (moment frame.old store.old unparsed.now run.old)) (moment frame.new store.new unparsed.now run.new)) }
    ensures kept { OnOk result (given_of run.new ≡ given_of run.old) }
{
    if let Some(SourceNode::Parts(of)) = source_node(code, place) {
        return Ok(parts_at(frame, of));
    }
    source_within(code, tables, place, frame, store, unparsed, run)
}

/// The same, for a source of any node.
#[inline(never)]
#[tactic(auto, using(crate::proofs::Sourcing::over_range, crate::proofs::Sourcing::finds_nothing, crate::proofs::Sourcing::finds_parts, crate::proofs::Sourcing::finds_positive, crate::proofs::Sourcing::finds_negative, crate::proofs::Sourcing::finds_failed))]
fn source_within<T: Tables>(
    code: &Code<'_>,
    tables: &T,
    place: usize,
    frame: &mut Frame<'_>,
    store: &mut Store,
    unparsed: &[u8],
    run: &mut Run<'_>,
) -> Result<Result<Range, ParserError>, OutOfMemory>
    requires place { place < length code.now.statements.nodes }
    requires code { IsCode code.now }
    requires tables { T.base tables.now ≡ ground_of code.now }
    requires over { IsOver (ground_of code.now) (moment frame.old store.old unparsed.now run.old) }
    ensures is { IfOk result (Finds (ground_of code.now) (source_range (T.applies tables.now) (source_at (trees_of code.now) place) (moment frame.old store.old unparsed.now run.old)) (moment frame.new store.new unparsed.now run.new)) }
    ensures kept { OnOk result (given_of run.new ≡ given_of run.old) }
{
    let Some(node) = source_node(code, place) else {
        return Ok(Ok(NO_RANGE));
    };
    match node {
        SourceNode::Parts(of) => Ok(parts_at(frame, of)),
        SourceNode::Chosen(c, a, b) => match test(code, tables, c, frame, store, unparsed, run)? {
            Ok(chosen) => {
                if chosen.is_true() {
                    source_within(code, tables, a, frame, store, unparsed, run)
                } else {
                    source_within(code, tables, b, frame, store, unparsed, run)
                }
            }
            Err(error) => Ok(Err(error)),
        },
    }
}
