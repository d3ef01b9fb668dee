// Whether names are those of blocks (P4_16 1.2, "Name resolution"; `v1model.p4`).
ghost use Rattle.std.specs.Prelude.{◌≡◌, [], not};
ghost use Rattle.std.specs.List.{list_any};
ghost use Rattle.p416_syntax.specs.declared.program.Syntax16.{Syntax16};
ghost use Rattle.p416_syntax.specs.Breaks.{is_no_block};
ghost use Rattle.p416_top_check.specs.internal.Blocks.{is_other};

use p4x_bits::Text;
use p416_names::{Sort, Top};

/// Whether a name is that of no parser and no control.
fn is_other(top: &Top<'_>, name: &[u8]) -> bool
    ensures { result ≡ is_other top.now name.now }
{
    !matches!(top.sort_of(name), Sort::Block)
}

/// Whether one of these names is that of no parser and no control.
fn some_other(top: &Top<'_>, names: &[Text]) -> bool
    ensures { result ≡ list_any (is_other top.now) names.now }
{
    for name in names {
        if is_other(top, name.as_slice()) {
            return true;
        }
    }
    false
}

/// Whether one of the names in `main` is that of no parser and no control of a program whose names at the top are these,
/// exactly. Its time is linear in the names, but for the look-ups.
#[tactic(auto, using(crate::proofs::Naming::none_is))]
pub fn names_no_block(top: &Top<'_>, main: &[Text]) -> bool
    ensures { (s : Syntax16) → s.decls ≡ top.now → result ≡ list_any (is_no_block s) main.now }
{
    some_other(top, main)
}
