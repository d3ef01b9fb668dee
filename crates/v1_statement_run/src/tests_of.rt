// Expressions that may apply tables (P4_16 1.2, "Expressions", "Match-action unit invocation").
ghost use Rattle.std.specs.Prelude.{◌≡◌, ◌<◌, length, is_some, IfOk, OnOk};
ghost use Rattle.v1_core.specs.Scalars.{FitsScalar, seen_scalar};
ghost use Rattle.v1_core.specs.Results.{seen_end};
ghost use Rattle.v1_ready_blocks.specs.Tests.{single_value, test_value};
ghost use Rattle.v1_ready_blocks.specs.Nodes.{IsSingle, test_at};
ghost use Rattle.v1_statement_run.specs.Seen.{given_of, moment};
ghost use Rattle.v1_statement_run.specs.Steps.{Gives, IsCode, IsOver, first_error, ground_of, paired, stopped_by, trees_of, turned_by};

use crate::code::Code;
use crate::nodes::{plain_at, test_node};
use crate::run::Run;
use crate::tables::Tables;
use p4x_bits::OutOfMemory;
use p416_syntax::BinaryOperator;
use state_store::Store;
use v1_core::{Frame, ParserError, Scalar, binary, to_bits, to_slice, to_truth, unary};
use v1_ready_blocks::{Single, TestNode};

/// What an operator makes of a value.
fn single_value(of: Single, value: Scalar) -> Scalar
    requires of { IsSingle of }
    requires value { FitsScalar value }
    ensures is { seen_scalar result ≡ single_value of (seen_scalar value) }
    ensures fits { FitsScalar result }
{
    match of {
        Single::Slice(place, width) => to_slice(place, width, value),
        Single::ToBits(width) => to_bits(width, value),
        Single::ToTruth => to_truth(value),
        Single::Operator(operator) => unary(operator, value),
    }
}

/// What an operator makes of a value, or the error that there is in place of one.
fn turned(of: Single, value: Result<Scalar, ParserError>) -> Result<Scalar, ParserError>
    requires of { IsSingle of }
    requires value { IfOk value FitsScalar }
    ensures is { seen_end result ≡ turned_by of (seen_end value) }
    ensures fits { IfOk result FitsScalar }
{
    match value {
        Ok(value) => Ok(single_value(of, value)),
        Err(error) => Err(error),
    }
}

/// What an operator makes of a value and of another one, or the error that there is in place of that.
fn paired(
    of: BinaryOperator,
    left: Scalar,
    right: Result<Scalar, ParserError>,
) -> Result<Scalar, ParserError>
    requires left { FitsScalar left }
    requires right { IfOk right FitsScalar }
    ensures is { seen_end result ≡ paired of (seen_scalar left) (seen_end right) }
    ensures fits { IfOk result FitsScalar }
{
    match right {
        Ok(right) => Ok(binary(of, left, right)),
        Err(error) => Err(error),
    }
}

/// Whether an error stopped the run.
pub fn is_stopped(run: &Run<'_>) -> bool
    ensures { result ≡ is_some run.now.stopped }
{
    match run.stopped {
        Some(_) => true,
        None => false,
    }
}

/// The error that counts: an earlier one, else this one.
fn first_error(earlier: Option<ParserError>, error: ParserError) -> ParserError
    ensures { result ≡ first_error earlier error }
{
    match earlier {
        Some(earlier) => earlier,
        None => error,
    }
}

/// An error stops the run, if none did yet.
pub fn stop(run: &mut Run<'_>, error: ParserError)
    ensures { run.new ≡ stopped_by error run.old }
{
    let first = first_error(run.stopped, error);
    run.stopped = Some(first);
}

/// The value of the expression at a place, or the error that ended its evaluation. It applies the tables that it asks. The one
/// other error is want of memory, after which frame, store and run are not used again. It calls itself as deep as the
/// expression is.
#[tactic(auto, using(crate::proofs::Testing::expression_layout, crate::proofs::Testing::gives_plain))]
pub fn test<T: Tables>(
    code: &Code<'_>,
    tables: &T,
    place: usize,
    frame: &mut Frame<'_>,
    store: &mut Store,
    unparsed: &[u8],
    run: &mut Run<'_>,
) -> Result<Result<Scalar, ParserError>, OutOfMemory>
    requires place { place < length code.now.statements.nodes }
    requires code { IsCode code.now }
    requires tables { T.base tables.now ≡ ground_of code.now }
    requires over { IsOver (ground_of code.now) (moment frame.old store.old unparsed.now run.old) }
    ensures is { IfOk result (Gives (ground_of code.now) (test_value (T.applies tables.now) (test_at (trees_of code.now) place) (moment frame.old store.old unparsed.now run.old)) (moment frame.new store.new unparsed.now run.new)) }
    ensures kept { OnOk result (given_of run.new ≡ given_of run.old) }
{
    if let Some(e) = plain_at(code, place) {
        return Ok(code.expressions.value(e, frame, unparsed));
    }
    test_within(code, tables, place, frame, store, unparsed, run)
}

/// The same, for an expression of any node.
#[inline(never)]
#[tactic(auto, using(crate::proofs::Testing::expression_there, crate::proofs::Testing::expression_layout, crate::proofs::Testing::gives_nothing, crate::proofs::Testing::gives_plain, crate::proofs::Testing::gives_hit, crate::proofs::Testing::gives_miss, crate::proofs::Testing::gives_alone, crate::proofs::Testing::gives_both_on, crate::proofs::Testing::gives_both_off, crate::proofs::Testing::gives_both_failed, crate::proofs::Testing::gives_either_on, crate::proofs::Testing::gives_either_off, crate::proofs::Testing::gives_either_failed, crate::proofs::Testing::gives_pair, crate::proofs::Testing::gives_pair_failed, crate::proofs::Testing::gives_choice_on, crate::proofs::Testing::gives_choice_off, crate::proofs::Testing::gives_choice_failed))]
fn test_within<T: Tables>(
    code: &Code<'_>,
    tables: &T,
    place: usize,
    frame: &mut Frame<'_>,
    store: &mut Store,
    unparsed: &[u8],
    run: &mut Run<'_>,
) -> Result<Result<Scalar, ParserError>, OutOfMemory>
    requires place { place < length code.now.statements.nodes }
    requires code { IsCode code.now }
    requires tables { T.base tables.now ≡ ground_of code.now }
    requires over { IsOver (ground_of code.now) (moment frame.old store.old unparsed.now run.old) }
    ensures is { IfOk result (Gives (ground_of code.now) (test_value (T.applies tables.now) (test_at (trees_of code.now) place) (moment frame.old store.old unparsed.now run.old)) (moment frame.new store.new unparsed.now run.new)) }
    ensures kept { OnOk result (given_of run.new ≡ given_of run.old) }
{
    let Some(node) = test_node(code, place) else {
        return Ok(Ok(Scalar::Nothing));
    };
    match node {
        TestNode::Plain(e) => Ok(code.expressions.value(e, frame, unparsed)),
        TestNode::Hits(table) => {
            let told = tables.apply(table, frame, store, unparsed, run)?;
            Ok(Ok(Scalar::Truth(told.hit)))
        }
        TestNode::Misses(table) => {
            let told = tables.apply(table, frame, store, unparsed, run)?;
            Ok(Ok(Scalar::Truth(!told.hit)))
        }
        TestNode::Alone(of, a) => {
            let value = test_within(code, tables, a, frame, store, unparsed, run)?;
            Ok(turned(of, value))
        }
        TestNode::Both(a, b) => match test_within(code, tables, a, frame, store, unparsed, run)? {
            Ok(left) => {
                if left.is_true() {
                    test_within(code, tables, b, frame, store, unparsed, run)
                } else {
                    Ok(Ok(left))
                }
            }
            Err(error) => Ok(Err(error)),
        },
        TestNode::Either(a, b) => match test_within(code, tables, a, frame, store, unparsed, run)? {
            Ok(left) => {
                if left.is_true() {
                    Ok(Ok(left))
                } else {
                    test_within(code, tables, b, frame, store, unparsed, run)
                }
            }
            Err(error) => Ok(Err(error)),
        },
        TestNode::Pair(of, a, b) => match test_within(
            code, tables, a, frame, store, unparsed, run,
        )? {
            Ok(left) => {
                let right = test_within(code, tables, b, frame, store, unparsed, run)?;
                Ok(paired(of, left, right))
            }
            Err(error) => Ok(Err(error)),
        },
        TestNode::Choice(c, a, b) => match test_within(
            code, tables, c, frame, store, unparsed, run,
        )? {
            Ok(chosen) => {
                if chosen.is_true() {
                    test_within(code, tables, a, frame, store, unparsed, run)
                } else {
                    test_within(code, tables, b, frame, store, unparsed, run)
                }
            }
            Err(error) => Ok(Err(error)),
        },
    }
}
