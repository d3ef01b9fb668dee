// What a run of statements keeps besides the frame and the store.
ghost use Rattle.std.specs.Prelude.{◌≡◌};
ghost use Rattle.v1_core.specs.Scalars.{seen_scalar};
ghost use Rattle.v1_ready_blocks.specs.Externs.{holds_at, number_at, value_at, word_at};
ghost use Rattle.v1_statement_run.specs.Seen.{given_of};

use crate::numbers::low;
use p4x_bits::{Bits, Rows};
use v1_core::{Frame, ParserError, Scalar};

/// An entry of a table that was hit, with the number of the table's direct counter.
#[derive(Clone, Copy, PartialEq, Eq, Drop)]
pub struct Hit {
    /// The counter.
    pub counter: u32,
    /// The entry.
    pub entry: u32,
}

/// What a run of statements keeps from one to the next, but for the frame, the store and the octets that aren't parsed.
pub struct Run<'l> {
    /// A frame of the same layout, in which the arguments of a call wait until all are evaluated.
    pub waiting: Frame<'l>,
    /// The bits that were emitted.
    pub emitted: Bits,
    /// The statements and transitions that began, modulo 2 to the 64.
    pub work: u64,
    /// The error that stopped the parser.
    pub stopped: Option<ParserError>,
    /// The entry for which an action runs.
    pub hit: Option<Hit>,
    /// The values of the arguments of an extern.
    pub values: Rows<Scalar>,
    /// The bits of the list in braces among them.
    pub list: Bits,
}

impl Drop for Run<'_> {
    fn drop(self) {
        let Run {
            waiting: _waiting,
            emitted: _emitted,
            work: _work,
            stopped: _stopped,
            hit: _hit,
            values: _values,
            list: _list,
        } = self;
    }
}

/// The value with this number among those of the arguments; nothing where there is none.
#[tactic(auto, using(crate::proofs::Giving::value_there, crate::proofs::Giving::value_past))]
pub fn value(run: &Run<'_>, number: usize) -> Scalar
    ensures { seen_scalar result ≡ value_at (given_of run.now) number }
{
    match run.values.get(number) {
        Some(value) => *value,
        None => Scalar::Nothing,
    }
}

/// The number of a value; 0 where it is none.
pub fn number(run: &Run<'_>, number: usize) -> u128
    ensures { result ≡ number_at (given_of run.now) number }
{
    value(run, number).number()
}

/// The low 32 bits of a value; 0 where it is no number.
pub fn word(run: &Run<'_>, place: usize) -> u32
    ensures { result ≡ word_at (given_of run.now) place }
{
    low(number(run, place), 32) as u32
}

/// Whether a value is the truth value true.
pub fn holds(run: &Run<'_>, number: usize) -> bool
    ensures { result ≡ holds_at (given_of run.now) number }
{
    value(run, number).is_true()
}
