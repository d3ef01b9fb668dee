// The rows of applied tables, run.
ghost use Rattle.std.specs.Prelude.{◌≡◌};
ghost use Rattle.match_core.specs.Fits.{Fits};
ghost use Rattle.match_core.specs.Signatures.{IsSignature};
ghost use Rattle.match_core.specs.Stores.{shapes_of};
ghost use Rattle.p414_sem.specs.Signatures.{signature14};
ghost use Rattle.p414_layout.specs.Shapes.{layout_of};

use crate::programs::{parsed_of, program_of};
use crate::rows::{BEHIND, HEAD, ROWS};
use entries_file::read_entries;
use fabric::Event;
use match_core::{Entries, Signature, first_store};
use p4x_bits::OutOfMemory;
use p414_body_check::Program14;
use p414_control_run::{ControlStack, ReadyPipelines, ready_pipelines};
use p414_program_signature::signature14;
use p414_state::State14;
use p414_syntax::Rule14;
use state_store::Store;
use std::alloc::Global;
use std::process::Abort;
use std::str;

/// The octets of the packet.
const PACKET: [u8; 3] = [0x12, 0x34, 0x56];

/// A row of the table.
#[derive(Clone, Copy, Drop)]
struct Row<'a> {
    /// How it is run.
    how: &'a [u8],
    /// The applications of tables.
    events: u128,
    /// The entries.
    entries: &'a [u8],
    /// The control.
    control: &'a [u8],
}

/// What stands before the first of these marks in a text, and what behind it.
fn cut(text: &[u8], mark: u8) -> (&[u8], &[u8]) {
    let at = text.iter().position(|octet| *octet == mark);
    let (before, behind) = text.split_at(at.unwrap_or(text.len()).min(text.len()));
    match behind {
        [_, after @ ..] => (before, after),
        [] => (before, b""),
    }
}

/// The number that hexadecimal digits write.
fn number_of(digits: &[u8]) -> u128 {
    let mut number = 0u128;
    for digit in digits {
        let value = if digit.is_ascii_digit() {
            digit.wrapping_sub(b'0')
        } else {
            digit.wrapping_sub(b'a').wrapping_add(10)
        };
        number = number.wrapping_mul(16).wrapping_add(u128::from(value));
    }
    number
}

/// The row of a line.
fn row_of(line: &[u8]) -> Row<'_> {
    let (how, more) = cut(line, b' ');
    let (events, more) = cut(more, b'|');
    let (entries, control) = cut(more, b'|');
    Row {
        how,
        events: number_of(events),
        entries,
        control,
    }
}

/// The text of a row's program.
fn text_of(alloc: Global, row: Row<'_>) -> Result<Vec<u8>, OutOfMemory> {
    let mut text = Vec::from_slice(alloc, HEAD)?;
    text.extend_from_slice(row.control)?;
    text.extend_from_slice(BEHIND)?;
    Ok(text)
}

/// The text of its entries.
fn lines_of(alloc: Global, row: Row<'_>) -> Result<Vec<u8>, OutOfMemory> {
    let mut text = Vec::new(alloc);
    for octet in row.entries {
        text.push(if *octet == b';' { b'\n' } else { *octet })?;
    }
    Ok(text)
}

/// One more than a number, or 0 where there is none.
fn code(number: Option<u32>) -> u128 {
    match number {
        Some(number) => u128::from(number).wrapping_add(1),
        None => 0,
    }
}

/// The applications as three digits each.
fn events(applied: &[Event]) -> u128 {
    let mut number = 0u128;
    for event in applied {
        for digit in [
            u128::from(event.table),
            code(event.entry),
            code(event.action),
        ] {
            number = number.wrapping_mul(16).wrapping_add(digit);
        }
    }
    number
}

/// The rule of a row.
fn rule_of(row: Row<'_>) -> Rule14 {
    if row.how == b"p".as_slice() {
        Rule14::Parallel
    } else {
        Rule14::Sequential
    }
}

/// The controls of a row run.
fn run(
    alloc: Global,
    pipelines: &ReadyPipelines<'_>,
    row: Row<'_>,
    state: &mut State14,
    store: &mut Store,
) -> Result<(), OutOfMemory>
    requires layout { state.old.layout ≡ layout_of pipelines.now.decls }
    requires shapes { store.old.shapes ≡ shapes_of (signature14 pipelines.now.decls) pipelines.now.entries }
{
    let mut stack = ControlStack::new(alloc);
    pipelines.run_ingress(alloc, &mut stack, state, store)?;
    if row.how == b"e".as_slice() {
        pipelines.run_egress(alloc, &mut stack, state, store)?;
    }
    Ok(())
}

/// What the pipelines of a program with entries note of the packet.
fn noted_by(
    alloc: Global,
    program: &Program14,
    pipelines: &ReadyPipelines<'_>,
    row: Row<'_>,
    store: &mut Store,
) -> Result<u128, OutOfMemory>
    requires decls { pipelines.now.decls ≡ program.now.decls }
    requires shapes { store.old.shapes ≡ shapes_of (signature14 pipelines.now.decls) pipelines.now.entries }
{
    let mut state = parsed_of(alloc, program, &PACKET)?;
    run(alloc, pipelines, row, &mut state, store)?;
    Ok(events(state.events()))
}

/// The same of a program with entries.
fn noted(
    alloc: Global,
    program: &Program14,
    signature: &Signature,
    entries: &Entries,
    row: Row<'_>,
) -> Result<u128, OutOfMemory>
    requires signature { signature.now ≡ signature14 program.now.decls }
    requires well_formed { IsSignature signature.now }
    requires fits { Fits entries.now signature.now }
{
    let mut store = first_store(alloc, signature, entries)?;
    let pipelines = ready_pipelines(alloc, program, rule_of(row), signature, entries, &store)?;
    noted_by(alloc, program, &pipelines, row, &mut store)
}

/// Whether the controls of a program note what its row says.
fn notes(alloc: Global, program: &Program14, row: Row<'_>) -> Result<bool, OutOfMemory> {
    let signature = signature14(alloc, program)?;
    let lines = lines_of(alloc, row)?;
    if !signature.is_well_formed(alloc)? {
        return Ok(false);
    }
    match read_entries(alloc, &lines, &signature) {
        Ok(entries) => Ok(noted(alloc, program, &signature, &entries, row)? == row.events),
        Err(_) => Ok(false),
    }
}

/// The same of a line.
fn is_line_right(alloc: Global, line: &[u8]) -> bool {
    let row = row_of(line);
    let Ok(text) = text_of(alloc, row) else {
        return false;
    };
    match program_of(alloc, &text) {
        Some(program) => notes(alloc, &program, row) == Ok(true),
        None => false,
    }
}

/// Each line is right. One that isn't is told.
fn expect_lines(rt: &(impl Abort + AllocGlobal), lines: &'static [u8]) {
    for line in lines.split(|octet| *octet == b'\n') {
        assert!(rt;
            is_line_right(rt.alloc(), line),
            "{}",
            str::from_utf8(line).unwrap_or("?")
        );
    }
}

#[test]
fn applied_tables_are_noted(rt: HostRuntime) {
    expect_lines(&rt, ROWS);
}
