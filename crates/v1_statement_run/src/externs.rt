// Externs.
ghost use Rattle.std.specs.Prelude.{◌≡◌, ◌&&◌, if◌then◌else◌, None, OnOk};
ghost use Rattle.v1_ready_blocks.specs.Places.{put, put_at};
ghost use Rattle.v1_ready_blocks.specs.Externs.{executed, holds_at, is_wrong, value_at};
ghost use Rattle.v1_ready_blocks.specs.Nodes.{IsExtern, IsSlot, IsTarget};
ghost use Rattle.v1_statement_run.specs.Seen.{IsMoved, checked, given_of, moment, summed, with_list};

use crate::objects::{count, count_entry, execute_meter};
use crate::places::{put, put_at};
use crate::run::{Run, holds, number, value, word};
use crate::sums::{add_payload, hashed, is_wrong, result_by};
use fabric::RequestKind;
use p4x_bits::OutOfMemory;
use p416_syntax::HashAlgorithm;
use state_store::{DROP_PORT, Store};
use v1_core::Frame;
use v1_ready_blocks::{Extern, Target};

/// Whether the condition that is given holds, and the result of an algorithm isn't the field that is given.
fn is_refused(run: &Run<'_>, algorithm: HashAlgorithm) -> bool
    ensures { result ≡ holds_at (given_of run.now) 0 && is_wrong algorithm run.now.list (value_at (given_of run.now) 1) }
{
    holds(run, 0) && is_wrong(algorithm, &run.list, value(run, 1))
}

/// A slot becomes 1 where a test holds.
fn mark(frame: &mut Frame<'_>, test: bool, slot: u32)
    requires { IsSlot frame.old.layout slot }
    ensures { frame.new ≡ if test then put slot None 1 frame.old else frame.old }
{
    if test {
        put(frame, slot, None, 1);
    }
}

/// A target gets a number where a test holds.
fn put_where(frame: &mut Frame<'_>, test: bool, to: Target, number: u128)
    requires { IsTarget frame.old.layout to }
    ensures { frame.new ≡ if test then put_at to number frame.old else frame.old }
{
    if test {
        put_at(frame, to, number);
    }
}

/// `verify_checksum`: `checksum_error` becomes 1 where the condition holds and the result isn't the field. The one error is
/// want of memory.
#[tactic(auto, using(crate::proofs::Executing::was_checked))]
fn verify(
    frame: &mut Frame<'_>,
    unparsed: &[u8],
    run: &mut Run<'_>,
    algorithm: HashAlgorithm,
    payload: bool,
    slot: u32,
) -> Result<(), OutOfMemory>
    requires { IsSlot frame.old.layout slot }
    ensures frame { OnOk result (frame.new ≡ checked algorithm payload slot (given_of run.old) unparsed.now frame.old) }
    ensures run { OnOk result (run.new ≡ with_list run.new.list run.old) }
{
    add_payload(&mut run.list, payload, unparsed)?;
    let refused = is_refused(run, algorithm);
    mark(frame, refused, slot);
    Ok(())
}

/// `update_checksum`: the target gets the result where the condition holds. The one error is want of memory.
#[tactic(auto, using(crate::proofs::Executing::was_summed))]
fn update(
    frame: &mut Frame<'_>,
    unparsed: &[u8],
    run: &mut Run<'_>,
    algorithm: HashAlgorithm,
    payload: bool,
    to: Target,
) -> Result<(), OutOfMemory>
    requires { IsTarget frame.old.layout to }
    ensures frame { OnOk result (frame.new ≡ summed algorithm payload to (given_of run.old) unparsed.now frame.old) }
    ensures run { OnOk result (run.new ≡ with_list run.new.list run.old) }
{
    add_payload(&mut run.list, payload, unparsed)?;
    let number = result_by(algorithm, &run.list);
    put_where(frame, holds(run, 0), to, number);
    Ok(())
}

/// Runs an extern over the values that are given: on a frame, on the store, and where these octets aren't parsed
/// (`v1model.p4`). Beside them it changes the list of bits that is given, and nothing else of the run. The one error is want of
/// memory, after which none of them is used again.
#[tactic(auto, using(crate::proofs::Executing::was_verified, crate::proofs::Executing::was_updated))]
pub fn execute(
    what: Extern,
    frame: &mut Frame<'_>,
    store: &mut Store,
    unparsed: &[u8],
    run: &mut Run<'_>,
) -> Result<(), OutOfMemory>
    requires { IsExtern frame.old.layout store.old.shapes what }
    ensures moved { OnOk result (IsMoved frame.old store.old (moment frame.new store.new unparsed.now run.new) (executed what (given_of run.old) (moment frame.old store.old unparsed.now run.old))) }
    ensures run { OnOk result (run.new ≡ with_list run.new.list run.old) }
{
    match what {
        Extern::Verify(algorithm, payload, slot) => {
            verify(frame, unparsed, run, algorithm, payload, slot)?;
            Ok(())
        }
        Extern::Update(algorithm, payload, to) => {
            update(frame, unparsed, run, algorithm, payload, to)?;
            Ok(())
        }
        _ => execute_within(what, frame, store, unparsed, run),
    }
}

/// The same, for any extern.
#[inline(never)]
#[tactic(auto, using(crate::proofs::Executing::counted, crate::proofs::Executing::written, crate::proofs::Executing::counted_entry, crate::proofs::Executing::was_read, crate::proofs::Executing::was_hashed, crate::proofs::Executing::was_dropped, crate::proofs::Executing::was_cloned, crate::proofs::Executing::was_requested, crate::proofs::Executing::was_coloured, crate::proofs::Executing::was_verified, crate::proofs::Executing::was_updated))]
fn execute_within(
    what: Extern,
    frame: &mut Frame<'_>,
    store: &mut Store,
    unparsed: &[u8],
    run: &mut Run<'_>,
) -> Result<(), OutOfMemory>
    requires { IsExtern frame.old.layout store.old.shapes what }
    ensures moved { OnOk result (IsMoved frame.old store.old (moment frame.new store.new unparsed.now run.new) (executed what (given_of run.old) (moment frame.old store.old unparsed.now run.old))) }
    ensures run { OnOk result (run.new ≡ with_list run.new.list run.old) }
{
    match what {
        Extern::Count(object, length) => {
            count(frame, store, object, length, word(run, 0));
            Ok(())
        }
        Extern::CountEntry(object, length) => {
            count_entry(frame, store, object, length, run.hit);
            Ok(())
        }
        Extern::Read(object, to) => {
            put_at(frame, to, store.read(object, word(run, 0)));
            Ok(())
        }
        Extern::Write(object) => {
            store.write(object, word(run, 0), number(run, 1));
            Ok(())
        }
        Extern::ExecuteMeter(object, to) => {
            execute_meter(frame, store, object, to, word(run, 0));
            Ok(())
        }
        Extern::Hash(algorithm, to) => {
            put_at(frame, to, hashed(run, algorithm));
            Ok(())
        }
        Extern::MarkToDrop(slot) => {
            put(frame, slot, None, u128::from(DROP_PORT));
            Ok(())
        }
        Extern::Verify(algorithm, payload, slot) => {
            verify(frame, unparsed, run, algorithm, payload, slot)?;
            Ok(())
        }
        Extern::Update(algorithm, payload, to) => {
            update(frame, unparsed, run, algorithm, payload, to)?;
            Ok(())
        }
        Extern::Clone(kind, list) => {
            frame.set_request(kind, Some((word(run, 0), list)))?;
            Ok(())
        }
        Extern::Request(kind, list) => {
            frame.set_request(kind, Some((0, list)))?;
            Ok(())
        }
    }
}
