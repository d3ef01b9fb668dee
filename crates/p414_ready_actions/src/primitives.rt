// The rows of calls of primitives.
ghost use Rattle.std.specs.Prelude.{◌≡◌, false, map, pos, IfOk};
ghost use Rattle.p414_calls.specs.Shown.{shown_argument};
ghost use Rattle.p414_sem.specs.Operations.{changes, clones, egress_spec, just, modifies, number, repeats_packet, source, target, write};
ghost use Rattle.state_store.specs.Ports.{drop_port};
ghost use Rattle.p414_ready_actions.specs.Rows.{kept_primitive};
ghost use Rattle.p414_ready_actions.specs.Words.{called_with, hash_row, joined_by, joined_row, row_by, word_of};
ghost use Rattle.p414_ready_actions.specs.declared.words.PrimitiveWord.TheVariants as word;

use crate::arguments::{
    calculation, element, element_count, list_at, object, source, stack, target,
};
use crate::names::ActionNames;
use crate::rows::{ReadyPrimitive, ReadySource, ReadyTarget, ReadyTerm};
use crate::words::{Join, PrimitiveWord, word_of};
use fabric::RequestKind;
use p4x_bits::OutOfMemory;
use p414_calls::Argument;
use p414_sem::Standard;
use p414_slots::FieldSlot;
use p414_wholes::Whole;

/// The port that drops a packet.
const DROP: u128 = 511;

/// Two sources, joined.
fn joined_by(join: Join, a: ReadySource, b: ReadySource) -> ReadyTerm
    ensures { result ≡ joined_row join a b }
{
    match join {
        Join::OnMask => ReadyTerm::OnMask(a, b),
        Join::Sum => ReadyTerm::Sum(a, b),
        Join::Difference => ReadyTerm::Difference(a, b),
        Join::And => ReadyTerm::And(a, b),
        Join::Or => ReadyTerm::Or(a, b),
        Join::Xor => ReadyTerm::Xor(a, b),
        Join::LeftShift => ReadyTerm::LeftShift(a, b),
        Join::RightShift => ReadyTerm::RightShift(a, b),
    }
}

/// A field gets two sources, joined.
#[tactic(auto, using(crate::proofs::Places::writes_kept))]
fn writes(
    names: &ActionNames<'_, '_>,
    arguments: &[Argument<'_>],
    sums: bool,
    join: Join,
) -> Result<ReadyPrimitive, OutOfMemory>
    ensures { IfOk result (λ row. row ≡ kept_primitive (write sums (target names.now (called_with (map shown_argument arguments.now)) 0) (joined_by join (source names.now (called_with (map shown_argument arguments.now)) 1) (source names.now (called_with (map shown_argument arguments.now)) 2)))) }
{
    let target = target(names, sums, arguments, 0)?;
    let a = source(names, arguments, 1)?;
    let b = source(names, arguments, 2)?;
    let term = joined_by(join, a, b);
    Ok(ReadyPrimitive::Write { target, term })
}

/// A field gets its own number and a source, joined.
#[tactic(auto, using(crate::proofs::Places::changes_kept))]
fn changes(
    names: &ActionNames<'_, '_>,
    arguments: &[Argument<'_>],
    join: Join,
) -> Result<ReadyPrimitive, OutOfMemory>
    ensures { IfOk result (λ row. row ≡ kept_primitive (changes names.now (called_with (map shown_argument arguments.now)) (joined_by join))) }
{
    let target = target(names, true, arguments, 0)?;
    let a = source(names, arguments, 1)?;
    let term = joined_by(join, ReadySource::Field(target.slot), a);
    Ok(ReadyPrimitive::Write { target, term })
}

/// A field gets a source.
fn assigns(
    names: &ActionNames<'_, '_>,
    arguments: &[Argument<'_>],
) -> Result<ReadyPrimitive, OutOfMemory>
    ensures { IfOk result (λ row. row ≡ kept_primitive (write false (target names.now (called_with (map shown_argument arguments.now)) 0) (just (source names.now (called_with (map shown_argument arguments.now)) 1)))) }
{
    let target = target(names, false, arguments, 0)?;
    let a = source(names, arguments, 1)?;
    Ok(ReadyPrimitive::Write {
        target,
        term: ReadyTerm::Just(a),
    })
}

/// `modify_field`, with a mask or without one.
fn modifies(
    names: &ActionNames<'_, '_>,
    arguments: &[Argument<'_>],
) -> Result<ReadyPrimitive, OutOfMemory>
    ensures { IfOk result (λ row. row ≡ kept_primitive (modifies names.now (called_with (map shown_argument arguments.now)))) }
{
    if arguments.len() == 3 {
        writes(names, arguments, false, Join::OnMask)
    } else {
        assigns(names, arguments)
    }
}

/// `register_read`.
fn reads(
    names: &ActionNames<'_, '_>,
    arguments: &[Argument<'_>],
) -> Result<ReadyPrimitive, OutOfMemory>
    ensures { IfOk result (λ row. row ≡ row_by names.now (called_with (map shown_argument arguments.now)) word.RegisterRead) }
{
    let target = target(names, false, arguments, 0)?;
    let object = object(names, arguments, 1)?;
    let index = source(names, arguments, 2)?;
    Ok(ReadyPrimitive::Write {
        target,
        term: ReadyTerm::Cell { object, index },
    })
}

/// `modify_field_with_hash_based_offset`.
fn hashes(
    names: &ActionNames<'_, '_>,
    arguments: &[Argument<'_>],
) -> Result<ReadyPrimitive, OutOfMemory>
    ensures { IfOk result (λ row. row ≡ hash_row names.now (called_with (map shown_argument arguments.now))) }
{
    let target = target(names, false, arguments, 0)?;
    let base = source(names, arguments, 1)?;
    let calculation = calculation(names, arguments, 2)?;
    let bound = source(names, arguments, 3)?;
    Ok(ReadyPrimitive::Hash {
        target,
        base,
        calculation,
        bound,
    })
}

/// A clone.
fn clones(
    names: &ActionNames<'_, '_>,
    arguments: &[Argument<'_>],
    kind: RequestKind,
) -> Result<ReadyPrimitive, OutOfMemory>
    ensures { IfOk result (λ row. row ≡ kept_primitive (clones names.now (called_with (map shown_argument arguments.now)) kind)) }
{
    let session = source(names, arguments, 0)?;
    let list = list_at(names, arguments, 1)?;
    Ok(ReadyPrimitive::Ask {
        kind,
        session,
        list,
    })
}

/// `resubmit` or `recirculate`.
fn repeats(
    names: &ActionNames<'_, '_>,
    arguments: &[Argument<'_>],
    kind: RequestKind,
) -> Result<ReadyPrimitive, OutOfMemory>
    ensures { IfOk result (λ row. row ≡ kept_primitive (repeats_packet names.now (called_with (map shown_argument arguments.now)) kind)) }
{
    let list = list_at(names, arguments, 0)?;
    Ok(ReadyPrimitive::Ask {
        kind,
        session: ReadySource::Number(Whole::Plus(0)),
        list,
    })
}

/// `drop`: the packet's way out gets the port that drops.
fn drops() -> ReadyPrimitive
    ensures { result ≡ kept_primitive (write false egress_spec (just (number (pos drop_port)))) }
{
    ReadyPrimitive::Write {
        target: ReadyTarget {
            slot: FieldSlot::Standard(Standard::EgressSpec),
            width: 9,
            saturates: false,
        },
        term: ReadyTerm::Just(ReadySource::Number(Whole::Plus(DROP))),
    }
}

/// `add_header`.
fn adds(
    names: &ActionNames<'_, '_>,
    arguments: &[Argument<'_>],
) -> Result<ReadyPrimitive, OutOfMemory>
    ensures { IfOk result (λ row. row ≡ row_by names.now (called_with (map shown_argument arguments.now)) word.AddHeader) }
{
    let at = element(names, arguments, 0)?;
    Ok(ReadyPrimitive::AddHeader(at))
}

/// `remove_header`.
fn removes(
    names: &ActionNames<'_, '_>,
    arguments: &[Argument<'_>],
) -> Result<ReadyPrimitive, OutOfMemory>
    ensures { IfOk result (λ row. row ≡ row_by names.now (called_with (map shown_argument arguments.now)) word.RemoveHeader) }
{
    let at = element(names, arguments, 0)?;
    Ok(ReadyPrimitive::RemoveHeader(at))
}

/// `copy_header`.
fn copies(
    names: &ActionNames<'_, '_>,
    arguments: &[Argument<'_>],
) -> Result<ReadyPrimitive, OutOfMemory>
    ensures { IfOk result (λ row. row ≡ row_by names.now (called_with (map shown_argument arguments.now)) word.CopyHeader) }
{
    let at = element(names, arguments, 0)?;
    let from = element(names, arguments, 1)?;
    Ok(ReadyPrimitive::CopyHeader(at, from))
}

/// `push`.
fn pushes(
    names: &ActionNames<'_, '_>,
    arguments: &[Argument<'_>],
) -> Result<ReadyPrimitive, OutOfMemory>
    ensures { IfOk result (λ row. row ≡ row_by names.now (called_with (map shown_argument arguments.now)) word.Push) }
{
    let stack = stack(names, arguments)?;
    let count = element_count(arguments)?;
    Ok(ReadyPrimitive::Push { stack, count })
}

/// `pop`.
fn pops(
    names: &ActionNames<'_, '_>,
    arguments: &[Argument<'_>],
) -> Result<ReadyPrimitive, OutOfMemory>
    ensures { IfOk result (λ row. row ≡ row_by names.now (called_with (map shown_argument arguments.now)) word.Pop) }
{
    let stack = stack(names, arguments)?;
    let count = element_count(arguments)?;
    Ok(ReadyPrimitive::Pop { stack, count })
}

/// `count`.
fn counts(
    names: &ActionNames<'_, '_>,
    arguments: &[Argument<'_>],
) -> Result<ReadyPrimitive, OutOfMemory>
    ensures { IfOk result (λ row. row ≡ row_by names.now (called_with (map shown_argument arguments.now)) word.Count) }
{
    let object = object(names, arguments, 0)?;
    let index = source(names, arguments, 1)?;
    Ok(ReadyPrimitive::Count { object, index })
}

/// `register_write`.
fn stores(
    names: &ActionNames<'_, '_>,
    arguments: &[Argument<'_>],
) -> Result<ReadyPrimitive, OutOfMemory>
    ensures { IfOk result (λ row. row ≡ row_by names.now (called_with (map shown_argument arguments.now)) word.RegisterWrite) }
{
    let object = object(names, arguments, 0)?;
    let index = source(names, arguments, 1)?;
    let value = source(names, arguments, 2)?;
    Ok(ReadyPrimitive::WriteCell {
        object,
        index,
        value,
    })
}

/// `execute_meter`.
fn meters(
    names: &ActionNames<'_, '_>,
    arguments: &[Argument<'_>],
) -> Result<ReadyPrimitive, OutOfMemory>
    ensures { IfOk result (λ row. row ≡ row_by names.now (called_with (map shown_argument arguments.now)) word.ExecuteMeter) }
{
    let object = object(names, arguments, 0)?;
    let index = source(names, arguments, 1)?;
    let target = target(names, true, arguments, 2)?;
    Ok(ReadyPrimitive::ExecuteMeter {
        object,
        index,
        target,
    })
}

/// The row of a primitive with these arguments.
fn row_by(
    names: &ActionNames<'_, '_>,
    arguments: &[Argument<'_>],
    word: PrimitiveWord,
) -> Result<ReadyPrimitive, OutOfMemory>
    ensures { IfOk result (λ row. row ≡ row_by names.now (called_with (map shown_argument arguments.now)) word) }
{
    match word {
        PrimitiveWord::ModifyField => modifies(names, arguments),
        PrimitiveWord::Add => writes(names, arguments, true, Join::Sum),
        PrimitiveWord::Subtract => writes(names, arguments, true, Join::Difference),
        PrimitiveWord::AddToField => changes(names, arguments, Join::Sum),
        PrimitiveWord::SubtractFromField => changes(names, arguments, Join::Difference),
        PrimitiveWord::BitAnd => writes(names, arguments, false, Join::And),
        PrimitiveWord::BitOr => writes(names, arguments, false, Join::Or),
        PrimitiveWord::BitXor => writes(names, arguments, false, Join::Xor),
        PrimitiveWord::ShiftLeft => writes(names, arguments, false, Join::LeftShift),
        PrimitiveWord::ShiftRight => writes(names, arguments, false, Join::RightShift),
        PrimitiveWord::AddHeader => adds(names, arguments),
        PrimitiveWord::RemoveHeader => removes(names, arguments),
        PrimitiveWord::CopyHeader => copies(names, arguments),
        PrimitiveWord::Push => pushes(names, arguments),
        PrimitiveWord::Pop => pops(names, arguments),
        PrimitiveWord::Count => counts(names, arguments),
        PrimitiveWord::RegisterRead => reads(names, arguments),
        PrimitiveWord::RegisterWrite => stores(names, arguments),
        PrimitiveWord::ExecuteMeter => meters(names, arguments),
        PrimitiveWord::Hash => hashes(names, arguments),
        PrimitiveWord::Drops => Ok(drops()),
        PrimitiveWord::Resubmits => repeats(names, arguments, RequestKind::Resubmit),
        PrimitiveWord::Recirculates => repeats(names, arguments, RequestKind::Recirculate),
        PrimitiveWord::ClonesIngress => clones(names, arguments, RequestKind::CloneI2E),
        PrimitiveWord::ClonesEgress => clones(names, arguments, RequestKind::CloneE2E),
        PrimitiveWord::NoOp => Ok(ReadyPrimitive::Nothing),
    }
}

/// The row of a call of a primitive with these arguments. What no accepted program has counts as want of memory, which is the
/// one error: an argument that isn't of the form that is wanted, and a number that is too large.
pub fn row_of(
    names: &ActionNames<'_, '_>,
    callee: &[u8],
    arguments: &[Argument<'_>],
) -> Result<ReadyPrimitive, OutOfMemory>
    ensures { IfOk result (λ row. row ≡ row_by names.now (called_with (map shown_argument arguments.now)) (word_of callee.now)) }
{
    let word = word_of(callee);
    row_by(names, arguments, word)
}
