// The statements of a state.
ghost use Rattle.std.specs.Prelude.{◌≡◌, All, IfOk};
ghost use Rattle.std.specs.List.{fold};
ghost use Rattle.p414_ready_parser.specs.declared.rows.ReadyStatement.TheVariants as ready_statement;
ghost use Rattle.p414_ready_parser.specs.Running.{do_next, do_row, goes_on};
ghost use Rattle.p414_parse_run.specs.Fits.{FitsStatement, FitsValue, bits_at};
ghost use Rattle.p414_parse_run.specs.Shown.{IsDone, shown_going, widths_in};

use crate::extract::extract;
use crate::fields::{number, put_low};
use crate::going::Going;
use p4x_bits::OutOfMemory;
use p414_ready_parser::{ReadyStatement, ReadyValue};
use p414_sem::Parsed;
use p414_slots::FieldSlot;
use p414_state::State14;

/// A field gets a value modulo its width, if the value doesn't go past the end of the packet.
fn set(
    state: &mut State14,
    slot: FieldSlot,
    value: ReadyValue,
    element: u32,
) -> Result<Going, OutOfMemory>
    requires { FitsValue value }
    ensures { IfOk result (λ going. IsDone state.old state.new (shown_going going state.new.state) (do_row (widths_in state.old.layout) (ready_statement.Set slot (bits_at state.old.layout slot) value) element state.old.state)) }
{
    match number(state, element, value) {
        Some(number) => {
            put_low(state, slot, number)?;
            Ok(Going::On(element))
        }
        None => Ok(Going::Stopped(Parsed::OutOfPacket)),
    }
}

/// A statement, where this element was extracted last.
fn run_statement(
    state: &mut State14,
    statement: ReadyStatement,
    element: u32,
) -> Result<Going, OutOfMemory>
    requires { FitsStatement state.old.layout statement }
    ensures { IfOk result (λ going. IsDone state.old state.new (shown_going going state.new.state) (do_row (widths_in state.old.layout) statement element state.old.state)) }
{
    match statement {
        ReadyStatement::Extract {
            instance,
            element: fixed,
            bits,
        } => extract(state, instance, fixed, bits),
        ReadyStatement::Set { slot, value, .. } => set(state, slot, value, element),
    }
}

/// The statements of a state, in order, until one ends parsing. The one error is want of memory.
pub fn run_statements(
    state: &mut State14,
    statements: &[ReadyStatement],
) -> Result<Going, OutOfMemory>
    requires { All (FitsStatement state.old.layout) statements.now }
    ensures { IfOk result (λ going. IsDone state.old state.new (shown_going going state.new.state) (fold (do_next (widths_in state.old.layout)) (goes_on 0 state.old.state) statements.now)) }
{
    let mut element = 0;
    for statement in statements {
        match run_statement(state, *statement, element)? {
            Going::On(next) => element = next,
            Going::Stopped(end) => return Ok(Going::Stopped(end)),
        }
    }
    Ok(Going::On(element))
}
