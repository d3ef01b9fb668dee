// The keys of tables (P4_16 1.2, "Match-action unit invocation").
ghost use Rattle.std.specs.Prelude.{◌≡◌, ◌<◌, [], length, map, All, OnOk};
ghost use Rattle.v1_block_tables.specs.Parts.{key_at};

use match_core::Key;
use p4x_bits::OutOfMemory;
use v1_core::Frame;
use v1_statement_run::{Code, number_of};

/// The number of a key; 0 where it has none.
fn key_number(code: &Code<'_>, place: usize, frame: &Frame<'_>, unparsed: &[u8]) -> u128
    requires place { place < length code.now.expressions.nodes }
    requires layout { frame.now.layout ≡ code.now.expressions.layout }
    ensures { result ≡ key_at code.now frame.now unparsed.now place }
{
    match code.expressions.value(place, frame, unparsed) {
        Ok(value) => number_of(value),
        Err(_) => 0,
    }
}

/// Puts the numbers of keys in order into a key without values. Up to eight take no memory; want of it is the one error.
pub fn fill_key(
    key: &mut Key,
    code: &Code<'_>,
    places: &[usize],
    frame: &Frame<'_>,
    unparsed: &[u8],
) -> Result<(), OutOfMemory>
    requires empty { key.old ≡ [] }
    requires places { All (λ place. place < length code.now.expressions.nodes) places.now }
    requires layout { frame.now.layout ≡ code.now.expressions.layout }
    ensures { OnOk result (key.new ≡ map (key_at code.now frame.now unparsed.now) places.now) }
{
    for place in places {
        key.push(key_number(code, *place, frame, unparsed))?;
    }
    Ok(())
}
