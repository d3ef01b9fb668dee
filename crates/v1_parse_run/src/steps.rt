// Steps of a parser over a frame and a run.
ghost use Rattle.std.specs.Prelude.{◌≡◌, ◌≤◌, drop, length, unwrap_or};
ghost use Rattle.v1_core.specs.Frames.{error_number};
ghost use Rattle.v1_core.specs.declared.parser_error.ParserError.TheVariants.{NoError};
ghost use Rattle.v1_parse_run.specs.Made.{HoldsErrors};
ghost use Rattle.v1_block_run.specs.Steps.{ticked_run};
ghost use Rattle.v1_parse_run.specs.Working.{ended_cells, unstopped};

use v1_core::{Frame, ParserError};
use v1_statement_run::Run;

/// What stands behind so many octets.
pub fn behind(octets: &[u8], parsed: usize) -> &[u8]
    requires { parsed ≤ length octets.now }
    ensures { result.now ≡ drop parsed octets.now }
{
    octets.split_at(parsed).1
}

/// One more transition counts.
pub fn tick(run: &mut Run<'_>)
    ensures { run.new ≡ ticked_run run.old }
{
    run.work = run.work.wrapping_add(1);
}

/// The number of an error.
fn error_number(error: ParserError) -> u128
    ensures { result ≡ error_number error }
{
    match error {
        ParserError::NoError => 0,
        ParserError::PacketTooShort => 1,
        ParserError::StackOutOfBounds => 2,
        ParserError::NoMatch => 3,
    }
}

/// The error that stopped a run, which then stands in a slot and stops nothing more; `NoError` where none did.
#[tactic(auto, using(crate::proofs::Ending::nothing_stopped, crate::proofs::Ending::one_stopped))]
pub fn end(frame: &mut Frame<'_>, run: &mut Run<'_>, slot: u32) -> ParserError
    requires { HoldsErrors frame.old.layout slot }
    ensures error { result ≡ unwrap_or run.old.stopped NoError }
    ensures frame { frame.new ≡ ended_cells slot run.old.stopped frame.old }
    ensures run { run.new ≡ unstopped run.old }
{
    match run.stopped {
        Some(error) => {
            frame.set(slot, error_number(error));
            run.stopped = None;
            error
        }
        None => ParserError::NoError,
    }
}
