// The numbers of sources.
ghost use Rattle.std.specs.Prelude.{◌≡◌, slice_index};
ghost use Rattle.p414_sem.specs.Effects.{index_of, natural_of, source_number};
ghost use Rattle.p414_wholes.specs.Shown.{whole_in};
ghost use Rattle.p414_ready_actions.specs.Running.{shown_source};

use crate::fields::read;
use p414_ready_actions::ReadySource;
use p414_state::State14;
use p414_wholes::{Whole, wrapped};

/// An argument; 0 where none stands.
fn argument(arguments: &[u128], number: u32) -> u128
    ensures { result ≡ slice_index arguments.now number }
{
    match arguments.get(number as usize) {
        Some(argument) => *argument,
        None => 0,
    }
}

/// The whole number of a source, where an action is called with these arguments.
pub fn number_of(state: &State14, arguments: &[u128], source: ReadySource) -> Whole
    ensures { whole_in result ≡ source_number arguments.now state.now.state (shown_source source) }
{
    match source {
        ReadySource::Number(number) => number,
        ReadySource::Field(slot) => Whole::Plus(read(state, slot)),
        ReadySource::Parameter(number) => Whole::Plus(argument(arguments, number)),
    }
}

/// The same of a source that isn't negative; 0 of one that is.
pub fn natural_of(state: &State14, arguments: &[u128], source: ReadySource) -> u128
    ensures { result ≡ natural_of arguments.now state.now.state (shown_source source) }
{
    number_of(state, arguments, source).natural()
}

/// An index or a session: the number of a source modulo 2 ^ 32.
pub fn index_of(state: &State14, arguments: &[u128], source: ReadySource) -> u32
    ensures { result ≡ index_of arguments.now state.now.state (shown_source source) }
{
    wrapped(32, number_of(state, arguments, source)) as u32
}
