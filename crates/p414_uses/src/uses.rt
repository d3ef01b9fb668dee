// The uses of names, collected once for all rules.
ghost use Rattle.std.specs.Prelude.{[], ◌∷◌, OnOk};
ghost use Rattle.p414_uses.specs.Shown.{shown_use};
ghost use Rattle.p414_uses.specs.internal.Collected.{Adds};

use p4x_bits::{OutOfMemory, Text};
use p414_syntax::{Inst, Ref, Sort};

/// A use of a name, by what is wanted.
#[derive(Clone, Copy, Drop)]
pub enum Use<'a> {
    /// A name that is declared in this sort.
    OfSort(Sort, &'a Text),
    /// An action or a primitive.
    OfAction(&'a Text),
    /// A parser state, or the control `ingress`.
    OfNextState(&'a Text),
    /// A control.
    OfControl(&'a Text),
    /// An instance or a stack, without an index.
    OfAnyInstance(&'a Text),
    /// One instance.
    OfInstance(&'a Inst),
    /// What is extracted.
    OfExtracted(&'a Inst),
    /// An instance with all its fields, or without an index a field list.
    OfItem(&'a Inst),
    /// A field of one instance.
    OfField(&'a Ref),
    /// A field of what the state extracted last, if it has extracted anything.
    OfLatest(Option<&'a Inst>, &'a Text),
    /// A field of a header type.
    OfTypeField(&'a Text, &'a Text),
}

/// Puts a use last.
pub fn add<'a>(found: &mut Vec<Use<'a>>, item: Use<'a>) -> Result<(), OutOfMemory>
    ensures { OnOk result (Adds found.old.items found.new.items (shown_use item.entry ∷ [])) }
{
    found.push(item)?;
    Ok(())
}
