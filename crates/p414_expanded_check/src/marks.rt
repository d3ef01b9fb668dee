// C13 after expansion: what is come to from a place.
ghost use Rattle.std.specs.Prelude.{◌≡◌, true, slice_set, IfOk};
ghost use Rattle.p414_expanded_check.specs.internal.Flow.{is_set, with_pass, with_passes, flags_at};

use crate::flow::{Pass, place_number};
use p4x_bits::OutOfMemory;
use p414_syntax::ArgumentPlace;
use std::alloc::Global;

/// Whether a number is come to.
pub fn is_set(flags: &[bool], number: usize) -> bool
    ensures { result ≡ is_set flags.now number }
{
    match flags.get(number) {
        Some(flag) => *flag,
        None => false,
    }
}

/// A number is come to.
#[tactic(auto, using(crate::proofs::Loops::set_beyond))]
fn set(flags: &mut [bool], number: usize)
    ensures { flags.new ≡ slice_set flags.old number true }
{
    if number < flags.len() {
        flags[number] = true;
    }
}

/// Where one number is come to, so is another.
fn pass_on(flags: &mut [bool], pass: Pass)
    ensures { flags.new ≡ with_pass flags.old pass }
{
    if is_set(flags, pass.from) {
        set(flags, pass.to);
    }
}

/// The same of these passes, one after another.
#[tactic(auto, using(crate::proofs::Loops::passes_now))]
fn pass_all(flags: &mut [bool], passes: &[Pass])
    ensures { flags.new ≡ with_passes flags.old passes.now }
{
    for pass in passes {
        pass_on(flags, *pass);
    }
}

/// Which numbers are come to from a place by these passes, one after another. The one error is want of memory.
pub fn flags_at(
    alloc: Global,
    count: usize,
    place: ArgumentPlace,
    passes: &[Pass],
) -> Result<Vec<bool>, OutOfMemory>
    ensures { IfOk result (λ flags. flags.items ≡ flags_at count place passes.now) }
{
    let mut flags = vec![in alloc; false; count]?;
    set(&mut flags, place_number(place));
    pass_all(&mut flags, passes);
    Ok(flags)
}
