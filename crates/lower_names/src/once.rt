// Names that are picked out, each once, and flags by number.
ghost use Rattle.std.specs.Prelude.{◌≡◌, false, not, slice_index_or, IfOk, OnOk};
ghost use Rattle.p414_syntax.specs.Names.{has_name};
ghost use Rattle.lower_names.specs.Picked.{with_name};

use p4x_bits::OutOfMemory;
use p414_names::NameSet;

/// Adds a name, and tells whether it is new.
pub fn is_new<'a>(known: &mut NameSet<'a>, name: &'a [u8]) -> Result<bool, OutOfMemory>
    ensures first { IfOk result (λ added. added ≡ not (has_name known.old name.now)) }
    ensures known { OnOk result (known.new ≡ with_name known.old name.now) }
{
    known.add(name)
}

/// Whether a flag stands at a place; past the last there is none.
pub fn is_at(flags: &[bool], place: usize) -> bool
    ensures { result ≡ slice_index_or flags.now place false }
{
    match flags.get(place) {
        Some(flag) => *flag,
        None => false,
    }
}
